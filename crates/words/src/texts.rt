// Whether bytes are text, well-formed UTF-8: one pass, eight ASCII bytes at a time.
ghost use Rattle.std.specs.Prelude.{◌≡◌, true, ◌+◌, ◌-◌, ◌≤◌, ◌<◌, length, get_or, MatchOption, IsTrue, ◌↔◌};
ghost use Rattle.words.specs.Bytes.{part};
ghost use Rattle.words.specs.Text.{In};
ghost use Rattle.words.specs.TextTest.{is_text};
ghost use Rattle.words.specs.Chars.{Ascii, Same, front_size, low_behind, high_behind, Begins};

use crate::nums::get;

// The high bit of each byte of a word, which no ASCII byte has.
const HIGH: u64 = 0x8080_8080_8080_8080;

// Whether the eight bytes from `at` on are ASCII.
pub fn ascii8(b: &[u8], at: usize) -> bool
    requires { at + 8 ≤ length b.now }
    ensures { result ≡ true → Ascii (part b.now at 8) }
{
    get::<8>(b, at) & HIGH == 0
}

// Where a run of ASCII words from `at` on ends. A loop of its own, since nearly all the bytes of a long text pass here.
fn past_words(b: &[u8], at: usize, end: usize) -> usize
    requires { (at ≤ end) × (end ≤ length b.now) }
    ensures { (at ≤ result) × (result ≤ end) × Same b.now at end result }
{
    let mut i = at;
    while 8 <= end - i && ascii8(b, i) {
        i += 8;
    }
    i
}

// Whether the bytes from `at` up to `end` are text.
pub fn is_text(b: &[u8], at: usize, end: usize) -> bool
    requires { (at ≤ end) × (end ≤ length b.now) }
    ensures { result ≡ is_text (part b.now at (end - at)) }
{
    let mut i = at;
    while i < end {
        if 8 <= end - i && ascii8(b, i) {
            i = past_words(b, i + 8, end);
            continue;
        }
        if b[i] < 0x80 {
            i += 1;
            continue;
        }
        let Some(n) = char_size(b, i, end) else {
            return false;
        };
        i += n;
    }
    true
}

// How many bytes the character takes that begins at i with a byte above 7F, if one does.
fn char_size(b: &[u8], i: usize, end: usize) -> Option<usize>
    requires { (i < end) × (end ≤ length b.now) × (0x80 ≤ get_or b.now i 0) }
    ensures { let u = part b.now i (end - i) in MatchOption result (front_size u ≡ 0) (λ n. (front_size u ≡ n) × (0 < n)) }
{
    let a = b[i];
    if !begins(a, behind(b, i, end, 1)) {
        return None;
    }
    if a < 0xE0 {
        return Some(2);
    }
    if !within(behind(b, i, end, 2), 0x80, 0xBF) {
        return None;
    }
    if a < 0xF0 {
        return Some(3);
    }
    if !within(behind(b, i, end, 3), 0x80, 0xBF) {
        return None;
    }
    Some(4)
}

// The byte k behind i; 0, which no character goes on with, from `end` on.
fn behind(b: &[u8], i: usize, end: usize, k: usize) -> u8
    requires { (i < end) × (end ≤ length b.now) }
    ensures { result ≡ get_or (part b.now i (end - i)) k 0 }
{
    if end - i <= k { 0 } else { b[i + k] }
}

fn within(x: u8, low: u8, high: u8) -> bool
    ensures { IsTrue result ↔ In low high x }
{
    low <= x && x <= high
}

// Whether a character of more than one byte begins with a and x.
fn begins(a: u8, x: u8) -> bool
    ensures { IsTrue result ↔ Begins a x }
{
    within(a, 0xC2, 0xF4) && within(x, low_behind(a), high_behind(a))
}

// No character of three bytes or four could do with fewer.
fn low_behind(a: u8) -> u8
    ensures { result ≡ low_behind a }
{
    match a {
        0xE0 => 0xA0,
        0xF0 => 0x90,
        _ => 0x80,
    }
}

// No surrogate, and nothing above 10FFFF.
fn high_behind(a: u8) -> u8
    ensures { result ≡ high_behind a }
{
    match a {
        0xED => 0x9F,
        0xF4 => 0x8F,
        _ => 0xBF,
    }
}
