// Setting a place that is null.
ghost use Rattle.std.specs.Prelude.{List, ℕ};
ghost use Rattle.schema.specs.Types.{text_at};
ghost use Rattle.layout.specs.Walk.{null_at};
ghost use Rattle.answers.specs.Meaning.{given_means};
ghost use Rattle.reading.specs.Children.{seat_as};
ghost use Rattle.reading.specs.Opening.{open_ty};
ghost use Rattle.spelling.specs.Spelling.{TextKind};
ghost use Rattle.setting.specs.Writes.{SetAs, leaf_outcome, no_text_outcome, Sits, NullThere};

use crate::{leaves, puts, texts};
use answers::{Given, Refusal};
use reading::{Seat, TypeParts};

// A null string or binary, by its kind k, takes only null, which zeroes its slot; bytes that are no text do not fit a string.
fn set_no_text(row: &mut [u8], k: usize, seat: Seat, g: Given, bytes: &[u8]) -> Result<(), Refusal>
    requires { TextKind k × Sits row.old seat }
    ensures { SetAs
        (no_text_outcome (text_at k) (given_means g bytes.now) (seat_as seat) row.old)
        row.old row.new result }
{
    match g {
        Given::Null => {
            puts::clear(row, seat.slot, seat.wide);
            Ok(())
        }
        Given::Bytes => {
            if !texts::is_fit(k, bytes) {
                return Err(Refusal::Unfit);
            }
            Err(Refusal::Resize)
        }
        _ => Err(Refusal::Unfit),
    }
}

// A null of a type: a container takes nothing.
pub fn set_null(
    row: &mut [u8],
    x: TypeParts,
    seat: Seat,
    g: Given,
    bytes: &[u8],
) -> Result<(), Refusal>
    requires { NullThere row.old x seat }
    ensures { (t : List ℕ) → SetAs
        (leaf_outcome (open_ty t x) (given_means g bytes.now) (null_at (seat_as seat)) row.old)
        row.old row.new result }
{
    if x.kind < table::STRING {
        return leaves::set_fixed(row, seat, x.entry, g);
    }
    if x.kind < table::LIST {
        return set_no_text(row, x.kind, seat, g, bytes);
    }
    Err(Refusal::Unfit)
}
