// Null bits, by mask in the bitmap's byte: the byte is i >> 3, the place in it i & 7.
ghost use Rattle.std.specs.Prelude.{◌≡◌, true, false, ◌+◌, ◌-◌, ◌/◌, ◌%◌, ◌^◌, ◌≤◌, ◌<◌, ltb, length};
ghost use Rattle.words.specs.Bytes.{num, part, bitmap};
ghost use Rattle.words.specs.Bits.{bit, put_bit};

use crate::nums::get;

// The mask of bit i in its byte.
fn mask(i: usize) -> u8
    ensures { result ≡ 2 ^ (i % 8) }
{
    1 << (i & 7)
}

pub fn is_null(b: &[u8], at: usize, i: usize) -> bool
    requires { at + i / 8 < length b.now }
    ensures { result ≡ bit b.now at i }
{
    b[at + (i >> 3)] & mask(i) != 0
}

pub fn set_null(b: &mut [u8], at: usize, i: usize)
    requires { at + i / 8 < length b.old }
    ensures { b.new ≡ put_bit b.old at i true }
{
    b[at + (i >> 3)] |= mask(i);
}

pub fn clear_null(b: &mut [u8], at: usize, i: usize)
    requires { at + i / 8 < length b.old }
    ensures { b.new ≡ put_bit b.old at i false }
{
    b[at + (i >> 3)] &= !mask(i);
}

// The bits past n of the bitmap that ends at `end` are zero: its last word has them all.
pub fn past_clear(b: &[u8], n: usize, end: usize) -> bool
    requires { (bitmap n ≤ end) × (end ≤ length b.now) × (n < 2 ^ 32) }
    ensures { result ≡ ltb (num (part b.now (end - bitmap n) (bitmap n))) (2 ^ n) }
{
    let r = n & 63;
    r == 0 || get::<8>(b, end - 8) >> r == 0
}
