// Every entry that takes a schema, by a table lent beside it: the same answer and the same bytes where the table is the one that the schema
// gives, and otherwise 1. The table is compared with the schema in place, and the entry goes on by it.
#![tactic(auto)]

ghost use Rattle.std.specs.Prelude.{◌≡◌};
ghost use Rattle.layout.specs.Entries.{judge_of, check_of, read_of, set_of};
ghost use Rattle.answers.specs.Meaning.{outcome_means, read_means, setting_of};
ghost use Rattle.answers.specs.Paths.{path_of};
ghost use Rattle.compare.specs.Lent.{schema_by};
ghost use Rattle.reading.specs.Texts.{Reads, TextOf};
ghost use Rattle.setting.specs.Writes.{SetAs};
ghost use Rattle.engine.specs.Lists.{ListsTo};
ghost use Rattle.row.specs.Outcomes.{WritesTo};
ghost use Rattle.table.specs.Tables.{Table, schema_of};
ghost use Rattle.lent.specs.Tabulated.{TablesTo};

use answers::{Answer, Path, Refusal, Setting};
use table::rooms;

pub mod batches;

// A table that was built, at the start of out: how many words it has, or refused with 4.
fn copy_table(t: &[u64], out: &mut [u64]) -> Result<usize, Refusal>
    requires { Table t.now }
    ensures { TablesTo (schema_of t.now) out.old result out.new }
{
    let n = t.len();
    if out.len() < n {
        return Err(Refusal::Room { needed: n });
    }
    out[..n].copy_from_slice(t);
    Ok(n)
}

// The table of a schema, at the start of out: how many words it has, or refused with 1 or 4. It is worked out in a room of its own, since a
// refusal alters no word of out.
pub fn table(schema: &[u8], out: &mut [u64]) -> Result<usize, Refusal>
    ensures { TablesTo schema.now out.old result out.new }
{
    rooms::with_out(schema, out, |t, out| copy_table(t, out)).ok_or(Refusal::Schema)?
}

// Whether the bytes are a schema and the table is its own.
pub fn judge_by(schema: &[u8], table: &[u64]) -> Result<(), Refusal>
    ensures { outcome_means result ≡ judge_of (schema_by schema.now table.now) }
{
    if !compare::gives(schema, table) {
        return Err(Refusal::Schema);
    }
    Ok(())
}

pub fn check_by(schema: &[u8], table: &[u64], row: &[u8]) -> Result<(), Refusal>
    ensures { outcome_means result ≡ check_of (schema_by schema.now table.now) row.now }
{
    judge_by(schema, table)?;
    engine::check(table, row)
}

pub fn write_by(
    schema: &[u8],
    table: &[u64],
    listing: &[u8],
    out: &mut [u8],
) -> Result<usize, Refusal>
    ensures { WritesTo
        (schema_by schema.now table.now) listing.now out.old result out.new }
{
    judge_by(schema, table)?;
    writing::write(table, listing, out)
}

pub fn list_by(schema: &[u8], table: &[u64], row: &[u8], out: &mut [u8]) -> Result<usize, Refusal>
    ensures { ListsTo
        (schema_by schema.now table.now) row.now out.old result out.new }
{
    judge_by(schema, table)?;
    engine::list(table, row, out)
}

// The answer of a read, and that its byte range lies in the row.
fn look_by(schema: &[u8], table: &[u64], row: &[u8], path: Path) -> Result<Answer, Refusal>
    ensures { Reads (schema_by schema.now table.now) row.now (path_of path) result }
{
    judge_by(schema, table)?;
    reading::read(table, row, path)
}

pub fn read_by(schema: &[u8], table: &[u64], row: &[u8], path: Path) -> Result<Answer, Refusal>
    ensures { read_means result ≡ read_of (schema_by schema.now table.now) row.now (path_of path) }
{
    look_by(schema, table, row, path)
}

pub fn set_by(
    schema: &[u8],
    table: &[u64],
    row: &mut [u8],
    path: Path,
    value: Setting,
    bytes: &[u8],
) -> Result<(), Refusal>
    ensures { SetAs
        (set_of (schema_by schema.now table.now) row.old (path_of path) (setting_of value bytes.now))
        row.old row.new result }
{
    judge_by(schema, table)?;
    engine::set(table, row, path, value, bytes)
}

pub fn text_or_by<'a>(
    schema: &[u8],
    table: &[u64],
    row: &'a [u8],
    path: Path,
    stand_in: &'a [u8],
) -> &'a [u8]
    ensures { TextOf
        (read_of (schema_by schema.now table.now) row.now (path_of path)) row.entry stand_in.entry result }
{
    match look_by(schema, table, row, path) {
        Ok(Answer::Bytes { start, len }) => &row[start..start + len],
        _ => stand_in,
    }
}

// A row held with its schema and its table, all lent. Opening judges nothing: each question gets the plain read's answer, refusals included.
#[derive(Clone, Copy)]
pub struct OpenedBy<'a> {
    pub schema: &'a [u8],
    pub table: &'a [u64],
    pub row: &'a [u8],
}

pub fn open_by<'a>(schema: &'a [u8], table: &'a [u64], row: &'a [u8]) -> OpenedBy<'a>
    ensures { (result.schema ≡ schema.entry) × (result.table ≡ table.entry) × (result.row ≡ row.entry) }
{
    OpenedBy { schema, table, row }
}

// A question to an opened row.
pub fn ask_by<'a>(o: OpenedBy<'a>, p: Path) -> Result<Answer, Refusal>
    ensures { read_means result ≡ read_of (schema_by o.entry.schema.now o.entry.table.now) o.entry.row.now (path_of p) }
{
    read_by(o.schema, o.table, o.row, p)
}

// An opened row asked once: its parameters are plain, so that any function may call it.
pub fn ask_once_by<'a>(
    schema: &'a [u8],
    table: &'a [u64],
    row: &'a [u8],
    p: Path,
) -> Result<Answer, Refusal>
    ensures { read_means result ≡ read_of (schema_by schema.now table.now) row.now (path_of p) }
{
    ask_by(open_by(schema, table, row), p)
}
