// The catalogue that two parties share: schemas by number, in lent bytes. Each entry takes any bytes of any length and ends with a result or
// a numbered refusal. The catalogue is judged in one pass, and the schema of the number as its table is worked out: none is judged twice.
#![tactic(auto)]

ghost use Rattle.std.specs.Prelude.{◌≡◌, MatchResult};
ghost use Rattle.answers.specs.Meaning.{outcome_means, read_means, setting_of};
ghost use Rattle.answers.specs.Paths.{path_of};
ghost use Rattle.setting.specs.Writes.{SetAs};
ghost use Rattle.compare.specs.Lent.{schema_by};
ghost use Rattle.catalogue.specs.Entries.{check_at, read_at, set_at};
ghost use Rattle.catalogue.specs.Meaning.{StandsAs, Entering, Adds, GoesOn, EndsBy, ListsAt, WritesAt};

use answers::{Answer, Path, Refusal, Setting};

// Where a schema stands in lent bytes that are a catalogue: at its number, or behind the schemas that are there, which end at a place.
#[derive(Clone, Copy)]
enum Standing {
    At(usize),
    Behind(usize),
}

fn look(catalogue: &[u8], schema: &[u8]) -> Result<Standing, Refusal>
    ensures { StandsAs catalogue.now schema.now result }
{
    let end = shelf::judge(catalogue, shelf::MOST).ok_or(Refusal::Schema)?;
    match shelf::number(catalogue, catalogue[0] as usize, schema) {
        Some(k) => Ok(Standing::At(k)),
        None => Ok(Standing::Behind(end)),
    }
}

// A schema that is none of those there, put behind them: its number, or refused with 12.
fn enter(catalogue: &mut [u8], end: usize, schema: &[u8]) -> Result<usize, Refusal>
    requires { Entering catalogue.old end schema.now }
    ensures { Adds catalogue.old schema.now result catalogue.new }
{
    let count = catalogue[0] as usize;
    if count == shelf::MOST {
        return Err(Refusal::Full);
    }
    let size = schema.len();
    words::nums::put::<2>(catalogue, end, size as u64);
    words::copies::copy(catalogue, end + 2, schema, 0, size);
    catalogue[0] = (count + 1) as u8;
    Ok(count)
}

// The schema's number: its old one where it is there, and otherwise the next; or refused with 1 or 12.
pub fn add(catalogue: &mut [u8], schema: &[u8]) -> Result<usize, Refusal>
    ensures { Adds catalogue.old schema.now result catalogue.new }
{
    match look(catalogue, schema)? {
        Standing::At(k) => Ok(k),
        Standing::Behind(end) => {
            row::judge(schema)?;
            enter(catalogue, end, schema)
        }
    }
}

// The same by the schema's table, lent beside it.
pub fn add_by(catalogue: &mut [u8], schema: &[u8], table: &[u64]) -> Result<usize, Refusal>
    ensures { Adds catalogue.old (schema_by schema.now table.now) result catalogue.new }
{
    if !compare::gives(schema, table) {
        return Err(Refusal::Schema);
    }
    match look(catalogue, schema)? {
        Standing::At(k) => Ok(k),
        Standing::Behind(end) => enter(catalogue, end, schema),
    }
}

// The schema of a number, or refused with 1 or 13. Whether it keeps its rules is left to the entry that goes on with it.
fn schema_at(catalogue: &[u8], number: usize) -> Result<&[u8], Refusal>
    ensures { MatchResult result (λ s. GoesOn catalogue.now number s.now) (λ r. EndsBy catalogue.now number r) }
{
    let at = shelf::find(catalogue, number)?;
    Ok(&catalogue[at.start..at.end])
}

pub fn check(catalogue: &[u8], number: usize, row: &[u8]) -> Result<(), Refusal>
    ensures { outcome_means result ≡ check_at catalogue.now number row.now }
{
    row::check(schema_at(catalogue, number)?, row)
}

pub fn write(
    catalogue: &[u8],
    number: usize,
    listing: &[u8],
    out: &mut [u8],
) -> Result<usize, Refusal>
    ensures { WritesAt catalogue.now number listing.now out.old result out.new }
{
    row::write(schema_at(catalogue, number)?, listing, out)
}

pub fn list(catalogue: &[u8], number: usize, row: &[u8], out: &mut [u8]) -> Result<usize, Refusal>
    ensures { ListsAt catalogue.now number row.now out.old result out.new }
{
    row::list(schema_at(catalogue, number)?, row, out)
}

pub fn read(catalogue: &[u8], number: usize, row: &[u8], path: Path) -> Result<Answer, Refusal>
    ensures { read_means result ≡ read_at catalogue.now number row.now (path_of path) }
{
    row::read(schema_at(catalogue, number)?, row, path)
}

pub fn set(
    catalogue: &[u8],
    number: usize,
    row: &mut [u8],
    path: Path,
    value: Setting,
    bytes: &[u8],
) -> Result<(), Refusal>
    ensures { SetAs
        (set_at catalogue.now number row.old (path_of path) (setting_of value bytes.now))
        row.old row.new result }
{
    row::set(schema_at(catalogue, number)?, row, path, value, bytes)
}
