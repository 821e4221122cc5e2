// Check, list and set by the table of an accepted schema: a layer below the entries, which asks for a table that was built.
#![tactic(auto)]

ghost use Rattle.std.specs.Prelude.{◌≡◌};
ghost use Rattle.layout.specs.Entries.{check_of, set_of};
ghost use Rattle.answers.specs.Meaning.{outcome_means, setting_of};
ghost use Rattle.answers.specs.Paths.{path_of};
ghost use Rattle.setting.specs.Writes.{SetAs};
ghost use Rattle.table.specs.Tables.{Table, schema_of};
ghost use Rattle.engine.specs.Lists.{ListsTo};

use answers::{Path, Refusal, Setting};

// Whether the row stands for contents of the schema: done, or refused with 3 or 7.
pub fn check(t: &[u64], row: &[u8]) -> Result<(), Refusal>
    requires { Table t.now }
    ensures { outcome_means result ≡ check_of (schema_of t.now) row.now }
{
    if 16384 < row.len() {
        return Err(Refusal::TooLong);
    }
    match checking::check_row(t, row) {
        None => Ok(()),
        Some(place) => Err(Refusal::Layout { place }),
    }
}

// The listing of the row's contents, at the start of out: its length, or refused with 3, 7 or 4.
pub fn list(t: &[u64], row: &[u8], out: &mut [u8]) -> Result<usize, Refusal>
    requires { Table t.now }
    ensures { ListsTo (schema_of t.now) row.now out.old result out.new }
{
    check(t, row)?;
    let needed = listing::list_row(t, row, out);
    if out.len() < needed {
        return Err(Refusal::Room { needed });
    }
    Ok(needed)
}

// One leaf of a row set: done, or refused with 3, 7, 5, 6, 8 or 9. The bytes of a setting lie beside it.
pub fn set(
    t: &[u64],
    row: &mut [u8],
    path: Path,
    value: Setting,
    bytes: &[u8],
) -> Result<(), Refusal>
    requires { Table t.now }
    ensures { SetAs
        (set_of (schema_of t.now) row.old (path_of path) (setting_of value bytes.now))
        row.old row.new result }
{
    check(t, row)?;
    setting::set(t, row, path, value, bytes)
}
