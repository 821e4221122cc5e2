// Batches: frames back to back, each a row's size as 4 bytes, big endian, and the row. Each entry takes any bytes of any length and
// ends with a result or a numbered refusal. Rows count from 0. An entry that takes a schema judges it once.
#![tactic(auto)]

ghost use Rattle.std.specs.Prelude.{◌≡◌, ◌+◌};
ghost use Rattle.schema.specs.Reading.{judged};
ghost use Rattle.table.specs.Tables.{Table, schema_of};
ghost use Rattle.answers.specs.Meaning.{refusal_means, read_means, setting_of};
ghost use Rattle.answers.specs.Paths.{path_of};
ghost use Rattle.setting.specs.Writes.{SetAs};
ghost use Rattle.batch.specs.Frames.{framed};
ghost use Rattle.batch.specs.Entries.{count_of, fetch_of, check_of, read_of, set_of};
ghost use Rattle.batch.specs.Meaning.{count_means, fetch_means, fault_means, check_means, Appends, after_schema};
ghost use Rattle.batch.specs.Places.{Passed, FindsAfter, refused_in};
ghost use Rattle.batch.specs.declared.Fault.TheVariants.{Whole};

use answers::{Answer, Path, Refusal, Setting, Span};
use table::rooms;

pub mod frames;

// A row's own bytes in the batch, without its size.
#[derive(Clone, Copy)]
pub struct Fetched {
    pub start: usize,
    pub len: usize,
}

// Why a batch is refused: as a whole, or for one row, by its number. The place of a 7 counts from that row's first byte.
#[derive(Clone, Copy, Debug, PartialEq, Eq)]
pub enum Fault {
    Whole(Refusal),
    Row { row: usize, refusal: Refusal },
}

impl From<Refusal> for Fault {
    ghost from_gives = { λ r f. f ≡ Whole r };

    fn from(r: Refusal) -> Fault {
        Fault::Whole(r)
    }
}

// A refusal that comes after 1.
fn after_schema(schema: &[u8], r: Refusal) -> Refusal
    ensures { result ≡ after_schema (judged schema.now) r }
{
    match row::judge(schema) {
        Ok(()) => r,
        Err(_) => Refusal::Schema,
    }
}

// How many rows the batch has, or refused with 10.
pub fn count(batch: &[u8]) -> Result<usize, Refusal>
    ensures { count_means result ≡ count_of batch.now }
{
    frames::count_on(batch, 0, 0)
}

// Where row k stands, or refused with 1, 10 or 5.
fn find(schema: &[u8], batch: &[u8], k: usize) -> Result<Span, Refusal>
    ensures { FindsAfter schema.now batch.now k result }
{
    match frames::find(batch, k) {
        Ok(s) => Ok(s),
        Err(r) => Err(after_schema(schema, r)),
    }
}

// The range of row k in the batch, or refused with 1, 10, 5, 3 or 7. No other row is checked.
pub fn fetch(schema: &[u8], batch: &[u8], k: usize) -> Result<Fetched, Refusal>
    ensures { fetch_means result ≡ fetch_of schema.now batch.now k }
{
    let Span { start, end } = find(schema, batch, k)?;
    row::check(schema, &batch[start..end])?;
    Ok(Fetched {
        start,
        len: end - start,
    })
}

// The refusal of row n, whose frame ends at a place: 10 of the whole batch comes before it.
fn refuse_row(b: &[u8], end: usize, n: usize, r: Refusal) -> Fault
    requires { Passed b.now end (n + 1) }
    ensures { fault_means result ≡ refused_in (framed b.now) n (refusal_means r) }
{
    match frames::count_on(b, end, n + 1) {
        Ok(_) => Fault::Row { row: n, refusal: r },
        Err(_) => Fault::Whole(Refusal::Batch),
    }
}

// Frames and rows in one walk, by the table of an accepted schema; behind a refused row the frames alone are looked at.
pub fn check_rows(t: &[u64], batch: &[u8]) -> Result<(), Fault>
    requires { Table t.now }
    ensures { check_means result ≡ check_of (schema_of t.now) batch.now }
{
    let mut at = 0;
    let mut n = 0;
    while at < batch.len() {
        let Some(end) = frames::frame_end(batch, at) else {
            return Err(Fault::Whole(Refusal::Batch));
        };
        if let Err(r) = engine::check(t, &batch[at + 4..end]) {
            return Err(refuse_row(batch, end, n, r));
        }
        at = end;
        n += 1;
    }
    Ok(())
}

// Whether every row stands for contents of the schema: done, or refused with 1 or 10, or with 3 or 7 and the number of the first such row.
pub fn check(schema: &[u8], batch: &[u8]) -> Result<(), Fault>
    ensures { check_means result ≡ check_of schema.now batch.now }
{
    rooms::with(schema, |t| check_rows(t, batch)).ok_or(Fault::Whole(Refusal::Schema))?
}

// A row added behind the batch that the first `used` bytes of a room are: the new length, or refused with 1, 10, 3, 7 or 4.
pub fn append(schema: &[u8], room: &mut [u8], used: usize, row: &[u8]) -> Result<usize, Refusal>
    ensures { Appends schema.now room.old used row.now result room.new }
{
    if room.len() < used {
        return Err(after_schema(schema, Refusal::Batch));
    }
    if let Err(r) = count(&room[..used]) {
        return Err(after_schema(schema, r));
    }
    row::check(schema, row)?;
    frames::put_row(room, used, row)
}

// One place of row k, read by its path: the answer, or refused with 1, 10 or 5, then as `row::read` refuses. Ranges and
// places count from that row's first byte.
pub fn read(schema: &[u8], batch: &[u8], k: usize, path: Path) -> Result<Answer, Refusal>
    ensures { read_means result ≡ read_of schema.now batch.now k (path_of path) }
{
    let Span { start, end } = find(schema, batch, k)?;
    row::read(schema, &batch[start..end], path)
}

// One leaf of row k set: done, or refused with 1, 10 or 5, then as `row::set` refuses. No byte of another row, and no size, is written.
pub fn set(
    schema: &[u8],
    batch: &mut [u8],
    k: usize,
    path: Path,
    value: Setting,
    bytes: &[u8],
) -> Result<(), Refusal>
    ensures { SetAs
        (set_of schema.now batch.old k (path_of path) (setting_of value bytes.now))
        batch.old batch.new result }
{
    let Span { start, end } = find(schema, batch, k)?;
    row::set(schema, &mut batch[start..end], path, value, bytes)
}
