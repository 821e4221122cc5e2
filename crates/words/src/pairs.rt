// Two numbers below 2^32 in one word: an answer of two that goes through no memory.
ghost use Rattle.std.specs.Prelude.{◌≡◌, ◌^◌, ◌<◌};
ghost use Rattle.words.specs.Pairs.{low_in, high_in, Paired};

use crate::slots;

pub fn pair(low: usize, high: usize) -> u64
    requires { (low < 2 ^ 32) × (high < 2 ^ 32) }
    ensures { Paired low high result }
{
    slots::slot(high as u64, low as u64)
}

pub fn low(p: u64) -> usize
    ensures { result ≡ low_in p }
{
    slots::slot_size(p) as usize
}

pub fn high(p: u64) -> usize
    ensures { result ≡ high_in p }
{
    slots::slot_offset(p) as usize
}
