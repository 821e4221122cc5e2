// Setting a leaf of a fixed width, by its type's entry w.
ghost use Rattle.std.specs.Prelude.{◌≡◌, List, ℕ, ◌<◌};
ghost use Rattle.words.specs.Bits.{digit};
ghost use Rattle.schema.specs.Marks.{STRING};
ghost use Rattle.schema.specs.Types.{fixed_at};
ghost use Rattle.table.specs.Words.{place_in};
ghost use Rattle.layout.specs.Setting as S;
ghost use Rattle.answers.specs.Meaning.{given_means};
ghost use Rattle.reading.specs.Children.{seat_as};
ghost use Rattle.setting.specs.Writes.{FixedIn, FixedSeat, LeafIs, SetAs, fixed_outcome};

use crate::{Leaf, puts};
use answers::{Given, Refusal};
use reading::Seat;

fn digit_of(v: bool) -> u64
    ensures { result ≡ digit v }
{
    if v { 1 } else { 0 }
}

fn of_bool(k: usize, v: bool) -> Option<Leaf>
    requires { k < STRING }
    ensures { LeafIs (fixed_at k) (S.bool v) result }
{
    if k == table::BOOL {
        return Some(Leaf::Bits(digit_of(v)));
    }
    None
}

// An integer place whose range holds it takes a signed number, in the place's own width: the rest of a slot has no sign.
fn of_number(w: u64, z: i64) -> Option<Leaf>
    requires { FixedIn w }
    ensures { LeafIs (fixed_at (place_in w)) (S.signed z) result }
{
    let k = table::place(w);
    if k == table::BOOL {
        return None;
    }
    if table::INT64 < k {
        return None;
    }
    let wide = table::width(w);
    if words::signed::in_range(z, wide) {
        return Some(Leaf::Bits(words::signed::of_signed(z, wide)));
    }
    None
}

fn of_float32(k: usize, b: u32) -> Option<Leaf>
    requires { k < STRING }
    ensures { LeafIs (fixed_at k) (S.float32 b) result }
{
    if k == table::FLOAT32 {
        return Some(Leaf::Bits(b as u64));
    }
    None
}

fn of_float64(k: usize, b: u64) -> Option<Leaf>
    requires { k < STRING }
    ensures { LeafIs (fixed_at k) (S.float64 b) result }
{
    if k == table::FLOAT64 {
        return Some(Leaf::Bits(b));
    }
    None
}

fn leaf_of(w: u64, g: Given) -> Option<Leaf>
    requires { FixedIn w }
    ensures { (u : List ℕ) → LeafIs (fixed_at (place_in w)) (given_means g u) result }
{
    match g {
        Given::Null => Some(Leaf::Null),
        Given::Bool(v) => of_bool(table::place(w), v),
        Given::Number(z) => of_number(w, z),
        Given::Float32(b) => of_float32(table::place(w), b),
        Given::Float64(b) => of_float64(table::place(w), b),
        Given::Bytes => None,
    }
}

// A leaf of a fixed width, null or not.
pub fn set_fixed(row: &mut [u8], seat: Seat, w: u64, g: Given) -> Result<(), Refusal>
    requires { FixedSeat row.old w seat }
    ensures { (u : List ℕ) → SetAs
        (fixed_outcome (fixed_at (place_in w)) (given_means g u) (seat_as seat) row.old)
        row.old row.new result }
{
    let Some(leaf) = leaf_of(w, g) else {
        return Err(Refusal::Unfit);
    };
    match leaf {
        Leaf::Null => puts::put_null(row, seat),
        Leaf::Bits(v) => puts::put_bits(row, seat, v),
    }
    Ok(())
}
