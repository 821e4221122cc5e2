// The card of a row that was accepted: a line of text for each of its leaves and nulls.
#![tactic(auto)]

ghost use Rattle.std.specs.Prelude.{◌≡◌, ◌+◌, ◌≤◌, length, IfOk, IsOk};
ghost use Rattle.table.specs.Tables.{schema_of};
ghost use Rattle.answers.specs.Meaning.{meaning};
ghost use Rattle.answers.specs.Paths.{path_of};
ghost use Rattle.reading.specs.Finding.{Open};
ghost use Rattle.reading.specs.Opening.{Kinded};
ghost use Rattle.lettering.specs.Held.{Walked};
ghost use Rattle.leaves.specs.Places.{Says, below, ShowRoom, Shows};
ghost use Rattle.leaves.specs.Whole.{card_of, card_at, WalkRoom};

use answers::{Answer, Path};
use reading::{Found, TypeParts};
use std::io::{Result, Write};

mod lines;

// What a place comes to: where the text ends behind its line, and how many places are right below it.
#[derive(Clone, Copy)]
pub struct Shown {
    pub next: usize,
    pub count: usize,
}

// The entry that says the mark of a type: its own, but a map's array is a list and has the map's.
fn entry_of(x: TypeParts) -> u64
    requires { Kinded x }
    ensures { Says x result }
{
    if x.kind == table::LIST {
        return table::TYPES[table::LIST_LINE] as u64;
    }
    x.entry
}

// How many places are right below the one that an answer is of.
fn count_of(x: Answer) -> usize
    ensures { result ≡ below (meaning x) }
{
    match x {
        Answer::Container { count, .. } => count,
        _ => 0,
    }
}

// The line of the place that a path leads to, where it has one: a leaf or a null.
fn show(t: &[u64], row: &[u8], path: Path, out: &mut [u8], at: usize) -> Shown
    requires { ShowRoom t.now row.now path out.old at }
    ensures { Shows (schema_of t.now) row.now (path_of path) out.old at result out.new }
{
    match reading::find(t, row, path) {
        Err(_) => Shown { next: at, count: 0 },
        Ok(Found::Null(x, _)) => {
            let next = lines::line(out, at, path, entry_of(x), row, Answer::Null);
            Shown { next, count: 0 }
        }
        Ok(Found::At(p)) => {
            let x = p.opened;
            let a = reading::values::answer(row, p);
            if x.kind < table::LIST {
                let next = lines::line(out, at, path, x.entry, row, a);
                return Shown { next, count: 0 };
            }
            Shown {
                next: at,
                count: count_of(a),
            }
        }
    }
}

// A place and all below it: a loop over its children, so that the stack grows with the path's length alone. A schema of eight levels has
// paths of at most 13 steps, two for a map.
fn place<W: Write>(
    to: &mut W,
    t: &[u64],
    row: &[u8],
    path: Path,
    out: &mut [u8],
    used: usize,
) -> Result<usize>
    requires { WalkRoom t.now row.now path out.old used }
    ensures walked { IfOk result (λ r. Walked (card_at (schema_of t.now) row.now path) out.old used r out.new) }
    ensures held { used + length (card_at (schema_of t.now) row.now path) ≤ 229000 → IsOk result }
{
    let at = lettering::spill(to, out, used)?;
    let Shown { mut next, count } = show(t, row, path, out, at);
    let n = path.len;
    if 16 <= n {
        return Ok(next);
    }
    let mut child = path;
    child.len = n + 1;
    for i in 0..count {
        child.steps[n] = i as u32;
        next = place(to, t, row, child, out, next)?;
    }
    Ok(next)
}

// The card of an accepted row: its text in the lent bytes behind the used ones, but for what was printed on the way.
pub fn whole<W: Write>(
    to: &mut W,
    t: &[u64],
    row: &[u8],
    out: &mut [u8],
    used: usize,
) -> Result<usize>
    requires { Open t.now row.now × (length out.old ≡ 262144) × (used ≤ 262144) }
    ensures walked { IfOk result (λ r. Walked (card_of (schema_of t.now) row.now) out.old used r out.new) }
    ensures held { used + length (card_of (schema_of t.now) row.now) ≤ 229000 → IsOk result }
{
    let root = Path {
        steps: [0; 16],
        len: 0,
    };
    place(to, t, row, root, out, used)
}
