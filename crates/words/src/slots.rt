// A slot is one word: the offset in its upper 32 bits, the size in its lower 32.
ghost use Rattle.std.specs.Prelude.{◌≡◌, ◌+◌, ◌*◌, ◌/◌, ◌%◌, ◌^◌, ◌≤◌, ◌<◌, length};
ghost use Rattle.words.specs.Slots.{Offset, Size};

use crate::nums::get;

pub fn slot_offset(x: u64) -> u64
    ensures { result ≡ x / 2 ^ 32 }
{
    x >> 32
}

pub fn slot_size(x: u64) -> u64
    ensures { result ≡ x % 2 ^ 32 }
{
    x & 0xFFFF_FFFF
}

pub fn slot(off: u64, size: u64) -> u64
    requires { (off < 2 ^ 32) × (size < 2 ^ 32) }
    ensures { result ≡ off * 2 ^ 32 + size }
{
    (off << 32) | size
}

// The offset and the size that the slot at a position says.
pub fn offset_at(b: &[u8], at: usize) -> usize
    requires { at + 8 ≤ length b.now }
    ensures { Offset b.now at result }
{
    slot_offset(get::<8>(b, at)) as usize
}

pub fn size_at(b: &[u8], at: usize) -> usize
    requires { at + 8 ≤ length b.now }
    ensures { Size b.now at result }
{
    slot_size(get::<8>(b, at)) as usize
}
