// The library's face: each entry takes any bytes of any length and ends with a result or a numbered refusal. An entry works its schema's
// table out once, in a room on the stack by the schema's size, and goes on by that table.
#![tactic(auto)]

ghost use Rattle.std.specs.Prelude.{◌≡◌};
ghost use Rattle.layout.specs.Entries.{judge_of, check_of, read_of, set_of};
ghost use Rattle.answers.specs.Meaning.{outcome_means, read_means, setting_of};
ghost use Rattle.answers.specs.Paths.{path_of};
ghost use Rattle.reading.specs.Texts.{Reads, TextOf};
ghost use Rattle.setting.specs.Writes.{SetAs};
ghost use Rattle.engine.specs.Lists.{ListsTo};
ghost use Rattle.row.specs.Outcomes.{WritesTo};

use answers::{Answer, Path, Refusal, Setting};
use table::rooms;

// Whether the bytes are a schema: done, or refused with 1.
pub fn judge(schema: &[u8]) -> Result<(), Refusal>
    ensures { outcome_means result ≡ judge_of schema.now }
{
    rooms::with(schema, |_| ()).ok_or(Refusal::Schema)
}

// Whether the row stands for contents of the schema: done, or refused with 1, 3 or 7.
pub fn check(schema: &[u8], row: &[u8]) -> Result<(), Refusal>
    ensures { outcome_means result ≡ check_of schema.now row.now }
{
    rooms::with(schema, |t| engine::check(t, row)).ok_or(Refusal::Schema)?
}

// The row that the format lays down for a listing, at the start of out: its length, or refused with 1, 2, 3 or 4.
pub fn write(schema: &[u8], listing: &[u8], out: &mut [u8]) -> Result<usize, Refusal>
    ensures { WritesTo schema.now listing.now out.old result out.new }
{
    rooms::with_out(schema, out, |t, out| writing::write(t, listing, out)).ok_or(Refusal::Schema)?
}

// The listing of the row's contents, at the start of out: its length, or refused with 1, 3, 7 or 4.
pub fn list(schema: &[u8], row: &[u8], out: &mut [u8]) -> Result<usize, Refusal>
    ensures { ListsTo schema.now row.now out.old result out.new }
{
    rooms::with_out(schema, out, |t, out| engine::list(t, row, out)).ok_or(Refusal::Schema)?
}

// The answer of a read, and that its byte range lies in the row.
fn look(schema: &[u8], row: &[u8], path: Path) -> Result<Answer, Refusal>
    ensures { Reads schema.now row.now (path_of path) result }
{
    rooms::with(schema, |t| reading::read(t, row, path)).ok_or(Refusal::Schema)?
}

// One place of a row, read by its path: the answer, or refused with 1, 3, 5, 6 or 7.
pub fn read(schema: &[u8], row: &[u8], path: Path) -> Result<Answer, Refusal>
    ensures { read_means result ≡ read_of schema.now row.now (path_of path) }
{
    look(schema, row, path)
}

// One leaf of a row set: done, or refused with 1, 3, 7, 5, 6, 8 or 9. The bytes of a setting lie beside it.
pub fn set(
    schema: &[u8],
    row: &mut [u8],
    path: Path,
    value: Setting,
    bytes: &[u8],
) -> Result<(), Refusal>
    ensures { SetAs
        (set_of schema.now row.old (path_of path) (setting_of value bytes.now))
        row.old row.new result }
{
    rooms::with_out(
        schema,
        row,
        |t, row| engine::set(t, row, path, value, bytes),
    )
    .ok_or(Refusal::Schema)?
}

// A text with a stand-in: the part of the row itself for a present string or binary, and otherwise, refusals included, the whole
// stand-in, both under one lifetime.
pub fn text_or<'a>(schema: &[u8], row: &'a [u8], path: Path, stand_in: &'a [u8]) -> &'a [u8]
    ensures { TextOf (read_of schema.now row.now (path_of path)) row.entry stand_in.entry result }
{
    match look(schema, row, path) {
        Ok(Answer::Bytes { start, len }) => &row[start..start + len],
        _ => stand_in,
    }
}

// A row held with its schema, both lent. Opening judges nothing: each question gets the plain read's answer, refusals included.
#[derive(Clone, Copy)]
pub struct Opened<'a> {
    pub schema: &'a [u8],
    pub row: &'a [u8],
}

pub fn open<'a>(schema: &'a [u8], row: &'a [u8]) -> Opened<'a>
    ensures { (result.schema ≡ schema.entry) × (result.row ≡ row.entry) }
{
    Opened { schema, row }
}

// A question to an opened row.
pub fn ask<'a>(o: Opened<'a>, p: Path) -> Result<Answer, Refusal>
    ensures { read_means result ≡ read_of o.entry.schema.now o.entry.row.now (path_of p) }
{
    read(o.schema, o.row, p)
}

// An opened row asked once: its parameters are plain, so that any function may call it.
pub fn ask_once<'a>(schema: &'a [u8], row: &'a [u8], p: Path) -> Result<Answer, Refusal>
    ensures { read_means result ≡ read_of schema.now row.now (path_of p) }
{
    ask(open(schema, row), p)
}
