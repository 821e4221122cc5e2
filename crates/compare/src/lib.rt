// Whether a lent table is the one that its schema gives: the schema and the table are walked side by side, once, with no room but a frame
// for each container that is open.
#![tactic(auto)]

ghost use Rattle.std.specs.Prelude.{◌≡◌, ◌<◌, MatchOption};
ghost use Rattle.compare.specs.Lent.{Gives};
ghost use Rattle.compare.specs.Lines.{leaves_of, is_leaf, held_by};

use table::{AFTER, CHILD, COUNT, DEPTH, FIELD, KIND, LIST, MAP, NEXT, ROOT, STRUCT, STRUCT_MARK};

// The lines of `table::TYPES` that are leaves', each at its kind; 0 at every other.
const LEAVES: [u32; 16] = [
    0x406F62, 0x10473169, 0x208F3269, 0x311F3469, 0x423F3869, 0x511F3466, 0x623F3866, 0x70007473,
    0x80006962, 0x0, 0x0, 0x0, 0x0, 0x0, 0x0, 0x0,
];

// What a container's entry says beside its depth, its place and its end, its mark (`li`, `ma`) first; a struct's without its fields.
const LIST_ENTRY: u64 = 0x696C + LIST as u64 * KIND + COUNT;

const MAP_ENTRY: u64 = 0x616D + MAP as u64 * KIND + 2 * COUNT;

const STRUCT_ENTRY: u64 = STRUCT_MARK + STRUCT as u64 * KIND;

// All of an entry but the place behind the last descendant.
const COLUMNS: u64 = AFTER - 1;

// Whether w is a leaf's line.
fn is_leaf(lines: &[u32], w: u64) -> bool
    requires { lines.now ≡ leaves_of }
    ensures { result ≡ is_leaf w }
{
    table::widen(lines[(w >> 28 & 15) as usize]) == w
}

// How many children a list or a map has by what its entry says, if it says either.
fn held_by(w: u64) -> Option<u64>
    ensures { MatchOption result (held_by w ≡ 0) (λ n. (n ≡ held_by w) × (0 < n)) }
{
    match w & COLUMNS {
        LIST_ENTRY => Some(1),
        MAP_ENTRY => Some(2),
        _ => None,
    }
}

// A frame holds the place of a container that is open, and how many types are left in its holder. `left` is one more than the words of the
// table that no container seen so far has asked for, and `extra` the schema's bytes so far beyond two a type: so no mark and no word is
// looked for where none stands.
pub fn gives(s: &[u8], t: &[u64]) -> bool
    ensures { Gives s.now t.now result }
{
    let len = s.len();
    let all = t.len();
    if 1024 < len {
        return false;
    }
    if len < 5 {
        return false;
    }
    if len <= 2 * all {
        return false;
    }
    let most = len - 2 * all;
    let fields = words::nums::wide(s[2]);
    if all <= fields as usize {
        return false;
    }
    let mut left = all - fields as usize;
    if table::mark_at(s, 0) != STRUCT_MARK {
        return false;
    }
    if fields == 0 {
        return false;
    }
    if 128 < fields {
        return false;
    }
    if t[0] != ROOT + fields * COUNT + all as u64 * AFTER {
        return false;
    }
    let lines = LEAVES;
    let mut frames = [0u64; 8];
    let mut n = fields;
    let mut extra: usize = 1;
    let mut i: usize = 1;
    let mut d: usize = 0;
    let mut base: u64 = FIELD;
    loop {
        // The entry, less the place and the depth that are due here: a leaf's is then its line.
        let w = std::num::wrapping_sub_u64(t[i], base);
        if is_leaf(&lines, w) {
            if table::mark_at(s, 2 * i + extra) != w & 0xFFFF {
                return false;
            }
            i += 1;
            base += NEXT;
            n -= 1;
            // Each container whose last type this was says that it ends here; that the root does, its entry said first.
            while n == 0 {
                if d == 0 {
                    return left == 1 && extra == most;
                }
                let f = frames[d];
                let p = (f >> 8) as usize;
                if t[p] >> 54 != i as u64 {
                    return false;
                }
                n = f & 0xFF;
                d -= 1;
                base -= DEPTH;
            }
            continue;
        }
        if d == 6 {
            return false;
        }
        let m = table::mark_at(s, 2 * i + extra);
        if m == STRUCT_MARK {
            if extra == most {
                return false;
            }
            let c = words::nums::wide(s[2 * i + extra + 2]);
            if c == 0 {
                return false;
            }
            if 128 < c {
                return false;
            }
            if w & COLUMNS != STRUCT_ENTRY + c * COUNT {
                return false;
            }
            if left <= c as usize {
                return false;
            }
            left -= c as usize;
            extra += 1;
            d += 1;
            frames[d] = i as u64 * 256 + (n - 1);
            n = c;
            i += 1;
            base += CHILD;
            continue;
        }
        if m != w & 0xFFFF {
            return false;
        }
        let Some(c) = held_by(w) else {
            return false;
        };
        if left <= c as usize {
            return false;
        }
        left -= c as usize;
        d += 1;
        frames[d] = i as u64 * 256 + (n - 1);
        n = c;
        i += 1;
        base += CHILD;
    }
}
