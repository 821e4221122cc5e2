// A path walked, by the schema alone and in the row.
ghost use Rattle.std.specs.Prelude.{◌≡◌};
ghost use Rattle.answers.specs.Paths.{path_of};
ghost use Rattle.reading.specs.Finding.{Asked, Asks, Goes, is_on, or_no_place};

use crate::{Found, Place, TypeParts, own, steps, types};
use answers::{Path, Refusal};

// Whether the schema alone shows a place at the path's end, from a type that its first steps led to.
fn is_place(t: &[u64], from: TypeParts, path: Path, done: usize) -> bool
    requires { Asked t.now from path }
    ensures { result ≡ is_on t.now from path done }
{
    let mut x = from;
    for k in done..path.len {
        let Some(y) = types::kin(t, x, path.steps[k] as usize) else {
            return false;
        };
        x = y;
    }
    true
}

// What the schema alone shows comes before all that the row shows: r, or that there is no such place. It is asked only where the row has
// a fault or a null on the way, since a path that was walked to its end leads to a place.
fn refused(t: &[u64], x: TypeParts, path: Path, done: usize, r: Refusal) -> Refusal
    requires { Asked t.now x path }
    ensures { result ≡ or_no_place (is_on t.now x path done) r }
{
    if is_place(t, x, path, done) {
        return r;
    }
    Refusal::NoPlace
}

// The path from a place: its own rules, then a step to the next.
pub fn along(t: &[u64], row: &[u8], from: Place, path: Path) -> Result<Found, Refusal>
    requires { Asks t.now row.now from path }
    ensures { Goes t.now row.now from (path_of path) result }
{
    let n = path.len;
    let mut at = from;
    let mut k = 0;
    loop {
        if !own::holds(t, row, at) {
            let place = own::broken_at(at);
            return Err(refused(t, at.opened, path, k, Refusal::Layout { place }));
        }
        if n <= k {
            return Ok(Found::At(at));
        }
        let i = path.steps[k] as usize;
        match steps::step(t, row, at, i) {
            Err(Refusal::NoPlace) => {
                return Err(Refusal::NoPlace);
            }
            Err(r) => {
                return Err(refused(t, at.opened, path, k, r));
            }
            Ok(Found::Null(x, seat)) => {
                if k + 1 == n {
                    return Ok(Found::Null(x, seat));
                }
                return Err(refused(t, at.opened, path, k, Refusal::NullBefore));
            }
            Ok(Found::At(p)) => {
                at = p;
            }
        }
        k += 1;
    }
}
