// A child by its bit and its slot.
ghost use Rattle.std.specs.Prelude.{◌+◌};
ghost use Rattle.reading.specs.Children.{SlotOf, Points, IsChild, Comes};

use crate::{Child, Seat};
use answers::Refusal;

// Where the slot of a seat points to, in the container of `size` bytes at `base` whose fixed part is `fixed`. Offset and size are added
// in 64 bits, where their sum is whole.
fn pointed(row: &[u8], base: usize, size: usize, fixed: usize, seat: Seat) -> Result<Child, Refusal>
    requires { SlotOf row.now base size seat }
    ensures { Points row.now base size fixed seat result }
{
    let broken = Err(Refusal::Layout { place: seat.slot });
    let x = words::nums::get::<8>(row, seat.slot);
    let off = words::slots::slot_offset(x);
    let len = words::slots::slot_size(x);
    if off < fixed as u64 {
        return broken;
    }
    if off & 7 != 0 {
        return broken;
    }
    if (size as u64) < off + len {
        return broken;
    }
    let start = base + off as usize;
    Ok(Child::At(seat, start, len as usize))
}

// Child i of the n in slots of w bytes, behind a header of h bytes, in the container of `size` bytes at `base`; the child has v bytes,
// or varies where v is 0.
pub fn child(
    row: &[u8],
    base: usize,
    size: usize,
    h: usize,
    n: usize,
    w: usize,
    v: usize,
    i: usize,
) -> Result<Child, Refusal>
    requires { IsChild row.now base size h n w v i }
    ensures { Comes row.now base size h n w v i result }
{
    let map = words::sizes::bitmap_size(n);
    let bits = base + h;
    let slot = base + (h + (map + i * w));
    let seat = Seat {
        bits,
        number: i,
        slot,
        wide: w,
    };
    if words::nulls::is_null(row, bits, i) {
        return Ok(Child::Null(seat));
    }
    if v == 0 {
        return pointed(
            row,
            base,
            size,
            h + map + words::sizes::pad_size(n * w),
            seat,
        );
    }
    Ok(Child::At(seat, slot, v))
}
