// One step of a path in the row.
ghost use Rattle.reading.specs.Places.{Entered, array_at, From, Steps, PlaceHolds};
ghost use Rattle.std.specs.Prelude.{◌≡◌};

use crate::{Child, Found, Place, Seat, TypeParts, own, slots, types};
use answers::Refusal;

// A child of the type y, as a step.
fn enter(y: TypeParts, c: Child) -> Found
    ensures { Entered y c result }
{
    match c {
        Child::Null(seat) => Found::Null(y, seat),
        Child::At(seat, start, len) => Found::At(Place {
            opened: y,
            seat,
            start,
            len,
        }),
    }
}

// Element i of a list.
fn in_list(t: &[u64], row: &[u8], p: Place, i: usize) -> Result<Found, Refusal>
    requires { From t.now row.now 9 p }
    ensures { Steps t.now row.now p i result }
{
    let n = words::nums::get::<8>(row, p.start) as usize;
    if n <= i {
        return Err(Refusal::NoPlace);
    }
    let y = types::element(t, p.opened);
    let v = table::width(y.entry);
    let w = own::slot_width(v);
    let child = slots::child(row, p.start, p.len, 8, n, w, v, i)?;
    Ok(enter(y, child))
}

// An array of a map has its first byte for a slot.
fn array_at(y: TypeParts, start: usize, len: usize) -> Found
    ensures { result ≡ array_at y start len }
{
    let seat = Seat {
        bits: 0,
        number: 0,
        slot: start,
        wide: 0,
    };
    Found::At(Place {
        opened: y,
        seat,
        start,
        len,
    })
}

// A map's keys, step 0, or its values, step 1: the array in its extent, which the size of the keys' array tells.
fn in_map(t: &[u64], row: &[u8], p: Place, i: usize) -> Result<Found, Refusal>
    requires { From t.now row.now 10 p }
    ensures { Steps t.now row.now p i result }
{
    if 2 <= i {
        return Err(Refusal::NoPlace);
    }
    let y = types::array(t, p.opened, i);
    let size = words::nums::get::<8>(row, p.start) as usize;
    if i == 0 {
        return Ok(array_at(y, p.start + 8, size));
    }
    let before = 8 + size;
    Ok(array_at(y, p.start + before, p.len - before))
}

// Field i of a struct.
fn in_struct(t: &[u64], row: &[u8], p: Place, i: usize) -> Result<Found, Refusal>
    requires { From t.now row.now 11 p }
    ensures { Steps t.now row.now p i result }
{
    let x = p.opened;
    let n = table::count(x.entry);
    if n <= i {
        return Err(Refusal::NoPlace);
    }
    let y = types::field(t, x, i);
    let child = slots::child(row, p.start, p.len, 0, n, 8, table::width(y.entry), i)?;
    Ok(enter(y, child))
}

// Step i from a place whose own rules hold.
pub fn step(t: &[u64], row: &[u8], p: Place, i: usize) -> Result<Found, Refusal>
    requires { PlaceHolds t.now row.now p }
    ensures { Steps t.now row.now p i result }
{
    let x = p.opened;
    let k = x.kind;
    if k < table::LIST {
        return Err(Refusal::NoPlace);
    }
    if k == table::LIST {
        return in_list(t, row, p, i);
    }
    if k == table::MAP {
        return in_map(t, row, p, i);
    }
    in_struct(t, row, p, i)
}
