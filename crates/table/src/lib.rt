// The table of a schema: for each type an entry of one word, in the schema's order.
#![tactic(auto)]

ghost use Rattle.std.specs.Prelude.{◌≡◌, ◌+◌, ◌*◌, ◌<◌, ◌≤◌, length};
ghost use Rattle.schema.specs.Marks.{element_width, LIST};
ghost use Rattle.table.specs.Words.{MarkAt, line_for, lines_of, held_at, behind_at, Lined, place_in, mark_in, width_in, top_in, count_in, after_in};
ghost use Rattle.table.specs.Tables.{Built, InTable, EntryAt};

pub mod rooms;

// The constant table of the twelve types, a word a line: the mark in bits 0 to 15, the top bit of a fixed-width slot's contents in 16 to 21,
// the width in 22 to 25, 0 where it varies, and the kind in 28 to 31. The mark numbered m can stand at (109 m / 1024) mod 16, which
// differs for all twelve; 0 where none does.
pub const TYPES: [u32; 16] = [
    0x623F3866, 0x423F3869, 0x10473169, 0x511F3466, 0x311F3469, 0x70007473, 0x0, 0x80006962,
    0x9000696C, 0x0, 0x0, 0x406F62, 0xB0006F72, 0x208F3269, 0xA000616D, 0x0,
];

// Where the line of a list stands in it.
pub const LIST_LINE: usize = 8;

// The kinds that the code names, by their place in the document's table: those before STRING have a fixed width, and those before LIST are leaves.
pub const BOOL: usize = 0;

pub const INT64: usize = 4;

pub const FLOAT32: usize = 5;

pub const FLOAT64: usize = 6;

pub const STRING: usize = 7;

pub const BINARY: usize = 8;

pub const LIST: usize = 9;

pub const MAP: usize = 10;

pub const STRUCT: usize = 11;

// One in a column of an entry: of its line the kind in bits 28 to 31, then the depth in 32 to 35, the number of children in 36 to 43, the
// place of the first child in 44 to 53, and the place behind the last descendant in 54 to 63.
pub const KIND: u64 = 0x1000_0000;

pub const DEPTH: u64 = 0x1_0000_0000;

pub const COUNT: u64 = 0x10_0000_0000;

const FIRST: u64 = 0x1000_0000_0000;

pub const AFTER: u64 = 0x40_0000_0000_0000;

// The mark of a struct, which a schema begins with, and the root's entry but for its fields and its end.
pub const STRUCT_MARK: u64 = 0x6F72;

pub const ROOT: u64 = STRUCT_MARK + STRUCT as u64 * KIND + DEPTH + FIRST;

// The lines of containers are those from here on.
const CONTAINERS: u64 = LIST as u64 * KIND;

// What a leaf's entry adds to its line as the root's first field; and by how much more it adds behind another leaf, and as a container's
// first child.
pub const FIELD: u64 = 2 * (DEPTH + FIRST + AFTER);

pub const NEXT: u64 = FIRST + AFTER;

pub const CHILD: u64 = DEPTH + FIRST + AFTER;

fn wide(x: u8) -> u64
    ensures { result ≡ x }
{
    x as u64
}

pub fn widen(x: u32) -> u64
    ensures { result ≡ x }
{
    x as u64
}

// The two bytes of a mark as a number.
pub fn mark_at(s: &[u8], at: usize) -> u64
    requires { at + 2 ≤ length s.now }
    ensures { MarkAt s.now at result }
{
    words::nums::wide(s[at]) + 256 * words::nums::wide(s[at + 1])
}

// The line where the mark numbered m can stand: m is a mark where that line's is m.
fn line_of(lines: &[u32], m: u64) -> u64
    requires { (lines.now ≡ lines_of) × (m < 65536) }
    ensures { result ≡ line_for m }
{
    widen(lines[(m * 109 >> 10 & 15) as usize])
}

// How many children a container has, whose place in the table of types is k and whose mark ends at a position; 0 where that is refused.
fn held(s: &[u8], at: usize, k: usize) -> u64
    requires { (LIST ≤ k) × (k < 12) }
    ensures { result ≡ held_at s.now at k }
{
    if k != STRUCT {
        return (k - LIST + 1) as u64;
    }
    if s.len() <= at {
        return 0;
    }
    let n = wide(s[at]);
    if 128 < n {
        return 0;
    }
    n
}

// Where its first child stands.
fn behind(at: usize, k: usize) -> usize
    requires { at ≤ 1024 }
    ensures { result ≡ behind_at at k }
{
    if k == STRUCT { at + 1 } else { at }
}

// The table of a schema, at the start of t: how many entries it has, or 0 where the schema is refused. One pass over the bytes: a frame
// for each container that is open holds its place and how many types are left in its holder.
pub fn build(s: &[u8], t: &mut [u64]) -> usize
    requires { length s.now ≤ 2 * length t.old }
    ensures { Built s.now result t.new }
{
    let len = s.len();
    if 1024 < len {
        return 0;
    }
    if len < 3 {
        return 0;
    }
    let lines = TYPES;
    if mark_at(s, 0) != STRUCT_MARK {
        return 0;
    }
    let fields = held(s, 2, STRUCT);
    if fields == 0 {
        return 0;
    }
    let mut frames = [0u64; 8];
    t[0] = ROOT + fields * COUNT;
    let mut n = fields;
    let mut at: usize = 3;
    let mut i: usize = 1;
    let mut d: usize = 0;
    let mut base: u64 = FIELD;
    loop {
        if len < at + 2 {
            return 0;
        }
        let m = mark_at(s, at);
        let w = line_of(&lines, m);
        if w & 0xFFFF != m {
            return 0;
        }
        n -= 1;
        if w < CONTAINERS {
            t[i] = w + base;
            at += 2;
            i += 1;
            base += NEXT;
            while n == 0 {
                let f = frames[d];
                let p = (f >> 8) as usize;
                t[p] = std::num::wrapping_add_u64(t[p], i as u64 * AFTER);
                if d == 0 {
                    if at == len {
                        return i;
                    }
                    return 0;
                }
                n = f & 0xFF;
                d -= 1;
                base -= DEPTH;
            }
            continue;
        }
        if d == 6 {
            return 0;
        }
        let k = (w >> 28) as usize;
        let c = held(s, at + 2, k);
        if c == 0 {
            return 0;
        }
        at = behind(at + 2, k);
        d += 1;
        frames[d] = i as u64 * 256 + n;
        t[i] = w + c * COUNT + (base - (i as u64 + 1) * AFTER);
        n = c;
        i += 1;
        base += CHILD;
    }
}

// The entry of the type at a place.
pub fn entry_at(t: &[u64], c: usize, depth: usize) -> u64
    requires { InTable t.now c depth }
    ensures { EntryAt t.now c depth result }
{
    t[c]
}

// The kind that an entry says, and its other columns: the mark's two bytes as a number,
pub fn place(w: u64) -> usize
    ensures { result ≡ place_in w }
{
    (w >> 28 & 15) as usize
}

pub fn mark(w: u64) -> usize
    ensures { result ≡ mark_in w }
{
    (w & 0xFFFF) as usize
}

// the bytes in a row, 0 where they vary,
pub fn width(w: u64) -> usize
    ensures { result ≡ width_in w }
{
    (w >> 22 & 15) as usize
}

// the highest bit of a fixed width's contents in a slot,
pub fn top(w: u64) -> u64
    ensures { result ≡ top_in w }
{
    w >> 16 & 63
}

// a struct's fields,
pub fn count(w: u64) -> usize
    ensures { result ≡ count_in w }
{
    (w >> 36 & 0xFF) as usize
}

// and the place behind the last descendant.
pub fn after(w: u64) -> usize
    ensures { result ≡ after_in w }
{
    (w >> 54) as usize
}

// The bytes of an element of the type: a slot's 8 where they vary.
pub fn element_width(w: u64) -> usize
    requires { Lined w }
    ensures { result ≡ element_width (place_in w) }
{
    if place(w) < STRING { width(w) } else { 8 }
}
