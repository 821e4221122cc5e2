// What is written at a seat: its bit, and its slot or element. Most are 8 bytes wide: one store.
ghost use Rattle.std.specs.Prelude.{◌≡◌, true, false, ◌+◌, ◌≤◌, length};
ghost use Rattle.std.proofs.lemmas.List.Edits.{sets};
ghost use Rattle.words.specs.Bytes.{le, zeros};
ghost use Rattle.words.specs.Bits.{put_bit};
ghost use Rattle.setting.specs.Writes.{Sits};

use reading::Seat;

pub fn clear(row: &mut [u8], slot: usize, wide: usize)
    requires { slot + wide ≤ length row.old }
    ensures { row.new ≡ sets row.old slot (zeros wide) }
{
    if wide == 8 {
        words::nums::put::<8>(row, slot, 0);
        return;
    }
    words::copies::zero(row, slot, wide);
}

fn put(row: &mut [u8], slot: usize, wide: usize, v: u64)
    requires { slot + wide ≤ length row.old }
    ensures { row.new ≡ sets row.old slot (le wide v) }
{
    if wide == 8 {
        words::nums::put::<8>(row, slot, v);
        return;
    }
    words::nums::put_num(row, slot, wide, v);
}

// Null sets the bit and zeroes the slot.
pub fn put_null(row: &mut [u8], seat: Seat)
    requires { Sits row.old seat }
    ensures { row.new ≡ sets (put_bit row.old seat.bits seat.number true) seat.slot (zeros seat.wide) }
{
    words::nulls::set_null(row, seat.bits, seat.number);
    clear(row, seat.slot, seat.wide);
}

// A bool or number clears the bit and takes the whole slot, whose rest is the number's upper bytes, zeros.
pub fn put_bits(row: &mut [u8], seat: Seat, v: u64)
    requires { Sits row.old seat }
    ensures { row.new ≡ sets (put_bit row.old seat.bits seat.number false) seat.slot (le seat.wide v) }
{
    words::nulls::clear_null(row, seat.bits, seat.number);
    put(row, seat.slot, seat.wide, v);
}
