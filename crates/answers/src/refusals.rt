// A refusal's number, length and place in the document.
ghost use Rattle.std.specs.Prelude.{◌≡◌};
ghost use Rattle.answers.specs.Meaning.{number_of, length_of, place_of};

use crate::Refusal;

pub fn number(r: Refusal) -> u8
    ensures { result ≡ number_of r }
{
    match r {
        Refusal::Schema => 1,
        Refusal::Listing => 2,
        Refusal::TooLong => 3,
        Refusal::Room { .. } => 4,
        Refusal::NoPlace => 5,
        Refusal::NullBefore => 6,
        Refusal::Layout { .. } => 7,
        Refusal::Unfit => 8,
        Refusal::Resize => 9,
        Refusal::Batch => 10,
        Refusal::Log => 11,
        Refusal::Full => 12,
        Refusal::NoNumber => 13,
    }
}

pub fn length(r: Refusal) -> usize
    ensures { result ≡ length_of r }
{
    match r {
        Refusal::Room { needed } => needed,
        _ => 0,
    }
}

pub fn place(r: Refusal) -> usize
    ensures { result ≡ place_of r }
{
    match r {
        Refusal::Layout { place } => place,
        _ => 0,
    }
}
