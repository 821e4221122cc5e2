// Setting one leaf of a row by its path.
#![tactic(auto)]

ghost use Rattle.table.specs.Tables.{schema_of};
ghost use Rattle.layout.specs.Entries.{set_of};
ghost use Rattle.answers.specs.Meaning.{setting_of, given_means};
ghost use Rattle.answers.specs.Paths.{path_of};
ghost use Rattle.setting.specs.Writes.{SetAs, Checked};

use answers::{Given, Path, Refusal, Setting};
use reading::Found;

mod leaves;
mod nulls;
mod present;
mod puts;
mod texts;

// What a leaf of a fixed width is set to: null, or the number whose bytes are written.
#[derive(Clone, Copy)]
enum Leaf {
    Null,
    Bits(u64),
}

// The refusals of the place, then those of the value.
fn set_in(t: &[u64], row: &mut [u8], path: Path, g: Given, bytes: &[u8]) -> Result<(), Refusal>
    requires { Checked t.now row.old }
    ensures { SetAs
        (set_of (schema_of t.now) row.old (path_of path) (given_means g bytes.now))
        row.old row.new result }
{
    match reading::find(t, row, path)? {
        Found::Null(x, seat) => nulls::set_null(row, x, seat, g, bytes),
        Found::At(p) => present::set_place(row, p, g, bytes),
    }
}

// One leaf of a row that was checked, set by its path: the refusals in their order, and the row as it was after each of them.
pub fn set(
    t: &[u64],
    row: &mut [u8],
    path: Path,
    value: Setting,
    bytes: &[u8],
) -> Result<(), Refusal>
    requires { Checked t.now row.old }
    ensures { SetAs
        (set_of (schema_of t.now) row.old (path_of path) (setting_of value bytes.now))
        row.old row.new result }
{
    set_in(t, row, path, answers::settings::given(value), bytes)
}
