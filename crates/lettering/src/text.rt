// Numbers, bytes and paths as text. Each function puts its text into the lent bytes at a place with room for it, and answers the place after it.
ghost use Rattle.std.specs.Prelude.{◌≡◌, [], ◌∷◌, ◌+◌, ◌*◌, ◌/◌, ◌^◌, ◌≤◌, ◌<◌, length};
ghost use Rattle.io.specs.Digits.{hex_digit_ascii as glyph_of};
ghost use Rattle.words.specs.Bytes.{part};
ghost use Rattle.answers.specs.Paths.{path_of};
ghost use Rattle.lettering.specs.Text.{hex as hex_of, decimal_in, decimal as decimal_of, signed as signed_of, bytes as bytes_of};
ghost use Rattle.lettering.specs.Text.{path as path_text, numbered as numbered_of, Puts, PathRoom};

use answers::Path;

pub fn glyph(d: u8) -> u8
    requires { d < 16 }
    ensures { result ≡ glyph_of d }
{
    if d < 10 { b'0' + d } else { b'a' + (d - 10) }
}

pub fn byte(out: &mut [u8], at: usize, b: u8) -> usize
    requires { at + 1 ≤ length out.old }
    ensures { Puts out.old at (b ∷ []) result out.new }
{
    out[at] = b;
    at + 1
}

pub fn put(out: &mut [u8], at: usize, word: &[u8]) -> usize
    requires { at + length word.now ≤ length out.old }
    ensures { Puts out.old at word.now result out.new }
{
    let n = word.len();
    out[at..at + n].copy_from_slice(word);
    at + n
}

// The last k hex digits of a number, the most significant first.
pub fn hex(out: &mut [u8], at: usize, n: u64, k: usize) -> usize
    requires { at + k ≤ length out.old }
    ensures { Puts out.old at (hex_of k n) result out.new }
{
    if k == 0 {
        return at;
    }
    let next = hex(out, at, n >> 4, k - 1);
    byte(out, next, glyph((n & 15) as u8))
}

// A tenth of a number of 32 bits, rounded down, by its reciprocal: 10 * 0xCCCC_CCCD is 2^35 + 2.
fn short_tenth(n: u64) -> u64
    requires { n < 2 ^ 32 }
    ensures { result ≡ n / 10 }
{
    (n * 0xCCCC_CCCD) >> 35
}

// A tenth of any number, rounded down: of its upper half, then of 16 bits more at a time. What is left is below 0xA_0000, ten times 2^16.
pub fn tenth(n: u64) -> u64
    ensures { result ≡ n / 10 }
{
    if n < 0x1_0000_0000 {
        return short_tenth(n);
    }
    let a = short_tenth(n >> 32);
    let b = a * 0x1_0000 + short_tenth((n >> 16) - a * 0xA_0000);
    b * 0x1_0000 + short_tenth(n - b * 0xA_0000)
}

// The decimal digits of a number, and no more than the last k.
fn decimal_in(out: &mut [u8], at: usize, n: u64, k: usize) -> usize
    requires { at + k ≤ length out.old }
    ensures { Puts out.old at (decimal_in k n) result out.new }
{
    if k == 0 {
        return at;
    }
    if n < 10 {
        return byte(out, at, glyph(n as u8));
    }
    let q = tenth(n);
    let next = decimal_in(out, at, q, k - 1);
    byte(out, next, glyph((n - 10 * q) as u8))
}

// No number of 64 bits has more than 20 digits.
fn decimal(out: &mut [u8], at: usize, n: u64) -> usize
    requires { at + 20 ≤ length out.old }
    ensures { Puts out.old at (decimal_of n) result out.new }
{
    decimal_in(out, at, n, 20)
}

pub fn signed(out: &mut [u8], at: usize, x: i64) -> usize
    requires { at + 21 ≤ length out.old }
    ensures { Puts out.old at (signed_of x) result out.new }
{
    let m = words::signed::magnitude(x);
    if words::signed::negative(x) {
        let next = byte(out, at, b'-');
        return decimal(out, next, m + 1);
    }
    decimal(out, at, m)
}

// The n bytes from the one numbered start on, two digits each.
pub fn bytes(out: &mut [u8], at: usize, row: &[u8], start: usize, n: usize) -> usize
    requires { (at + (2 * n + 1) ≤ length out.old) × (start + n ≤ length row.now) }
    ensures { Puts out.old at (bytes_of (part row.now start n)) result out.new }
{
    if n == 0 {
        return byte(out, at, b'-');
    }
    let mut next = at;
    for x in &row[start..start + n] {
        next = hex(out, next, u64::from(*x), 2);
    }
    next
}

fn dotted(out: &mut [u8], at: usize, i: u32) -> usize
    requires { at + 21 ≤ length out.old }
    ensures { Puts out.old at (46 ∷ decimal_of i) result out.new }
{
    let next = byte(out, at, b'.');
    decimal(out, next, i as u64)
}

// The steps of a path with dots between them; the root has none.
pub fn path(out: &mut [u8], at: usize, path: Path) -> usize
    requires { PathRoom out.old at path }
    ensures { Puts out.old at (path_text (path_of path)) result out.new }
{
    let n = path.len;
    if n == 0 {
        return at;
    }
    let mut next = decimal(out, at, answers::paths::step_at(path, 0) as u64);
    for k in 1..n {
        next = dotted(out, next, answers::paths::step_at(path, k));
    }
    next
}

// A word, a number and the line's end.
pub fn numbered(out: &mut [u8], at: usize, word: &[u8], n: u64) -> usize
    requires { at + length word.now + 21 ≤ length out.old }
    ensures { Puts out.old at (numbered_of word.now n) result out.new }
{
    let next = put(out, at, word);
    let end = decimal(out, next, n);
    byte(out, end, b'\n')
}
