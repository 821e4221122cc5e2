// Sizes that are a multiple of 8, by shifts, and the zeros that fill them.
ghost use Rattle.std.specs.Prelude.{◌≡◌, ◌+◌, ◌-◌, ◌^◌, ◌≤◌, ◌<◌, eqb, length};
ghost use Rattle.words.specs.Bytes.{num, part, bitmap, pad};

use crate::nums::get;

pub fn bitmap_size(n: usize) -> usize
    requires { n < 2 ^ 32 }
    ensures { result ≡ bitmap n }
{
    ((n + 63) >> 6) << 3
}

pub fn pad_size(n: usize) -> usize
    requires { n < 2 ^ 40 }
    ensures { result ≡ pad n }
{
    ((n + 7) >> 3) << 3
}

// The bytes from end up to next are zero: the word that ends at next, shifted twice since a shift by 64 is none.
pub fn pad_clear(b: &[u8], end: usize, next: usize) -> bool
    requires { (8 ≤ next) × (next ≤ length b.now) × (end < 2 ^ 40) × (next ≡ pad end) }
    ensures { result ≡ eqb (num (part b.now end (next - end))) 0 }
{
    (get::<8>(b, next - 8) >> (((end + 7) & 7) << 3)) >> 8 == 0
}
