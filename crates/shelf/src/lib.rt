// A catalogue's lent bytes: byte 0 the count of its schemas, and then each, its length in 2 bytes, little endian, and its bytes, back to
// back. They are judged in one pass; what lies behind the schemas is not looked at.
#![tactic(auto)]

ghost use Rattle.std.specs.Prelude.{◌≡◌, ◌+◌, ◌≤◌, length};
ghost use Rattle.compare.specs.Lent.{same};
ghost use Rattle.words.specs.Bytes.{part};
ghost use Rattle.words.specs.Reads.{Reads};
ghost use Rattle.shelf.specs.Catalogue.{size_at, start_of, schemas_to};
ghost use Rattle.shelf.specs.Places.{Short, NumberAs, stands_but, JudgedBut, FoundAs};

use answers::{Refusal, Span};

// Room for 16 schemas of 1,024 bytes.
pub const SIZE: usize = 16417;

pub const MOST: usize = 16;

// The length of the schema whose entry starts at a place.
fn size_at(t: &[u8], at: usize) -> usize
    requires { at + 2 ≤ length t.now }
    ensures { Reads t.now at 2 result }
{
    words::nums::get::<2>(t, at) as usize
}

// Whether the schema whose entry starts at a place is s.
fn is_at(t: &[u8], at: usize, s: &[u8]) -> bool
    requires { at + 2 + size_at t.now at ≤ length t.now }
    ensures { result ≡ same (part t.now (at + 2) (size_at t.now at)) s.now }
{
    let start = at + 2;
    &t[start..start + size_at(t, at)] == s
}

// The number of s among the first n schemas; none where it is none of them.
pub fn number(t: &[u8], n: usize, s: &[u8]) -> Option<usize>
    requires { Short t.now n }
    ensures { NumberAs s.now (schemas_to t.now n) result }
{
    let mut at = 1;
    for i in 0..n {
        if is_at(t, at, s) {
            return Some(i);
        }
        at += 2 + size_at(t, at);
    }
    None
}

// Whether s, which is schema i, is none of those before it and keeps its rules; those of schema k are not looked at.
fn stands_but(t: &[u8], i: usize, s: &[u8], k: usize) -> bool
    requires { Short t.now i }
    ensures { result ≡ stands_but t.now i s.now k }
{
    number(t, i, s).is_none() && (i == k || row::judge(s).is_ok())
}

// Where the schemas end; none where the bytes are no catalogue. The rules of schema k are left to whoever works its table out.
pub fn judge(t: &[u8], k: usize) -> Option<usize>
    ensures { JudgedBut t.now k result }
{
    if t.len() != SIZE {
        return None;
    }
    let count = t[0] as usize;
    if MOST < count {
        return None;
    }
    let mut at = 1;
    for i in 0..count {
        let n = size_at(t, at);
        if 1024 < n {
            return None;
        }
        let start = at + 2;
        let end = start + n;
        if !stands_but(t, i, &t[start..end], k) {
            return None;
        }
        at = end;
    }
    Some(at)
}

// Where the entry of schema k starts.
fn start_of(t: &[u8], k: usize) -> usize
    requires { Short t.now k }
    ensures { result ≡ start_of t.now k }
{
    let mut at = 1;
    for i in 0..k {
        at += 2 + size_at(t, at);
    }
    at
}

// Where the schema of a number lies, or refused with 1 or 13. Its own rules are left to whoever works its table out: no schema is judged twice.
pub fn find(t: &[u8], k: usize) -> Result<Span, Refusal>
    ensures { FoundAs t.now k result }
{
    judge(t, k).ok_or(Refusal::Schema)?;
    if t[0] as usize <= k {
        return Err(Refusal::NoNumber);
    }
    let at = start_of(t, k);
    let start = at + 2;
    Ok(Span {
        start,
        end: start + size_at(t, at),
    })
}
