// What is written outside the cycle: numbers, texts, and the fixed parts of containers.
ghost use Rattle.std.specs.Prelude.{◌≡◌, ◌+◌, ◌*◌, ◌-◌, ◌^◌, ◌≤◌, ◌<◌, length};
ghost use Rattle.std.proofs.lemmas.List.Edits.{sets};
ghost use Rattle.words.specs.Bytes.{le, part, zeros, pad, padded, bitmap};
ghost use Rattle.words.specs.Pairs.{low_in, high_in};
ghost use Rattle.words.specs.Reads.{Reads};
ghost use Rattle.putting.specs.Put.{TextCan, TextWrote, PaddedCan, SeatCan, ClearCan, FrontCan, front_of};

use words::pairs;

// The number of fewer than 8 bytes: by one read of a word where the listing has one.
fn short_number(l: &[u8], at: usize, k: usize) -> u64
    requires { (at + k ≤ length l.now) × (k < 8) }
    ensures { Reads l.now at k result }
{
    if l.len() - at < 8 {
        return words::nums::get_num(l, at, k);
    }
    words::nums::get::<8>(l, at) & ((1 << (8 * k)) - 1)
}

// The number of v bytes.
pub fn number(l: &[u8], at: usize, v: usize) -> u64
    requires { (at + v ≤ length l.now) × (v ≤ 8) }
    ensures { Reads l.now at v result }
{
    match v {
        8 => words::nums::get::<8>(l, at),
        4 => words::nums::get::<4>(l, at) as u64,
        _ => short_number(l, at, v),
    }
}

// A number in a slot of w bytes.
pub fn put_slot(out: &mut [u8], slot: usize, w: usize, x: u64)
    requires { slot + w ≤ length out.old }
    ensures { out.new ≡ sets out.old slot (le w x) }
{
    match w {
        8 => words::nums::put::<8>(out, slot, x),
        4 => words::nums::put::<4>(out, slot, x),
        _ => words::nums::put_num(out, slot, w, x),
    }
}

// n bytes of the listing, and zeros up to Pad: whole words, since the room is padded too.
fn put_padded(out: &mut [u8], to: usize, l: &[u8], from: usize, n: usize)
    requires { PaddedCan l.now from n to (length out.old) }
    ensures { out.new ≡ sets out.old to (padded (part l.now from n)) }
{
    let whole = n >> 3;
    for k in 0..whole {
        let i = 8 * k;
        words::nums::put::<8>(out, to + i, words::nums::get::<8>(l, from + i));
    }
    let done = 8 * whole;
    if done < n {
        words::nums::put::<8>(out, to + done, short_number(l, from + done, n - done));
    }
}

// A string or binary behind its mark, from pos on.
pub fn put_text(l: &[u8], from: usize, out: &mut [u8], pos: usize) -> u64
    requires { TextCan l.now from pos (length out.old) }
    ensures { TextWrote l.now from pos out.old out.new (low_in result) (high_in result) }
{
    let n = words::nums::get::<4>(l, from) as usize;
    let text = from + 4;
    put_padded(out, pos, l, text, n);
    pairs::pair(text + n, pos + n)
}

// The slot of the contents from cur on, whose answer is p: its offset counts from the container's first byte, its size is without
// the padding.
pub fn held_slot(p: u64, base: usize, cur: usize) -> u64
    requires { SeatCan base cur (high_in p) }
    ensures { result ≡ (cur - base) * 2 ^ 32 + (high_in p - cur) }
{
    words::slots::slot((cur - base) as u64, (pairs::high(p) - cur) as u64)
}

// Where they end with their padding.
pub fn held_end(p: u64, cur: usize) -> usize
    requires { SeatCan 0 cur (high_in p) }
    ensures { result ≡ cur + pad (high_in p - cur) }
{
    cur + words::sizes::pad_size(pairs::high(p) - cur)
}

// The bitmap of a struct, with no bit set.
pub fn clear_bits(out: &mut [u8], at: usize, n: usize)
    requires { ClearCan n at (length out.old) }
    ensures { out.new ≡ sets out.old at (zeros (bitmap n)) }
{
    words::nums::put::<8>(out, at, 0);
    if 64 < n {
        words::nums::put::<8>(out, at + 8, 0);
    }
}

// An array's count, its bitmap with no bit set, and the zeros behind its slots.
pub fn put_front(out: &mut [u8], pos: usize, n: usize, w: usize)
    requires { FrontCan n w pos (length out.old) }
    ensures { out.new ≡ front_of out.old n w pos }
{
    let map = pos + 8;
    let bits = words::sizes::bitmap_size(n);
    let size = n * w;
    words::nums::put::<8>(out, pos, n as u64);
    words::copies::zero(out, map, bits);
    words::copies::zero(out, map + bits + size, words::sizes::pad_size(size) - size);
}
