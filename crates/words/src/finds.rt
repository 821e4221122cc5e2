// Where the first byte stands that should be zero and is not.
ghost use Rattle.std.specs.Prelude.{◌≡◌, ◌+◌, ◌-◌, ◌/◌, ◌^◌, ◌≤◌, ◌<◌, length};
ghost use Rattle.words.specs.Bytes.{part, bitmap, zeros_ahead, past_byte};

use crate::sizes::bitmap_size;

// The first byte from `at` on, before `end`, that is not zero; `end` where there is none.
pub fn first_set(b: &[u8], at: usize, end: usize) -> usize
    requires { (at ≤ end) × (end ≤ length b.now) }
    ensures { result ≡ at + zeros_ahead (part b.now at (end - at)) }
{
    for i in at..end {
        if b[i] != 0 {
            return i;
        }
    }
    end
}

// The first byte that has a bit past n, of the bitmap that ends at `end` and has such a bit.
pub fn past_byte(b: &[u8], n: usize, end: usize) -> usize
    requires { (bitmap n ≤ end) × (end ≤ length b.now) × (n < 2 ^ 32) × (n / 8 < bitmap n) }
    ensures { result ≡ end - bitmap n + past_byte n (part b.now (end - bitmap n) (bitmap n)) }
{
    let at = end - bitmap_size(n) + (n >> 3);
    if b[at] >> (n & 7) != 0 {
        return at;
    }
    first_set(b, at + 1, end)
}
