// Setting a place that is not null.
ghost use Rattle.std.specs.Prelude.{List, ℕ, ◌+◌, ◌≤◌, length};
ghost use Rattle.schema.specs.Types.{text_at};
ghost use Rattle.layout.specs.Walk.{seen};
ghost use Rattle.answers.specs.Meaning.{given_means};
ghost use Rattle.reading.specs.Children.{seat_as};
ghost use Rattle.reading.specs.Places.{place_ty, bytes_of};
ghost use Rattle.spelling.specs.Spelling.{TextKind};
ghost use Rattle.setting.specs.Writes.{SetAs, leaf_outcome, text_outcome, PlaceThere};

use crate::{leaves, texts};
use answers::{Given, Refusal};
use reading::Place;

// A present string or binary, by its kind k, takes bytes of its length; a string only text, whatever the length.
fn set_text(
    row: &mut [u8],
    k: usize,
    start: usize,
    len: usize,
    g: Given,
    bytes: &[u8],
) -> Result<(), Refusal>
    requires { TextKind k × (start + len ≤ length row.old) }
    ensures { SetAs
        (text_outcome (text_at k) (given_means g bytes.now) start len row.old)
        row.old row.new result }
{
    match g {
        Given::Null => Err(Refusal::Resize),
        Given::Bytes => {
            if !texts::is_fit(k, bytes) {
                return Err(Refusal::Unfit);
            }
            if bytes.len() != len {
                return Err(Refusal::Resize);
            }
            words::copies::copy(row, start, bytes, 0, len);
            Ok(())
        }
        _ => Err(Refusal::Unfit),
    }
}

// A place that is not null: a container takes nothing.
pub fn set_place(row: &mut [u8], p: Place, g: Given, bytes: &[u8]) -> Result<(), Refusal>
    requires { PlaceThere row.old p }
    ensures { (t : List ℕ) → SetAs
        (leaf_outcome (place_ty t p) (given_means g bytes.now) (seen (seat_as p.seat) p.start (bytes_of row.old p)) row.old)
        row.old row.new result }
{
    let x = p.opened;
    if x.kind < table::STRING {
        return leaves::set_fixed(row, p.seat, x.entry, g);
    }
    if x.kind < table::LIST {
        return set_text(row, x.kind, p.start, p.len, g, bytes);
    }
    Err(Refusal::Unfit)
}
