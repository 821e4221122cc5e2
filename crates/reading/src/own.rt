// A type's own rules on its bytes.
ghost use Rattle.std.specs.Prelude.{◌≡◌, ◌+◌, ◌≤◌, ◌<◌};
ghost use Rattle.words.specs.Bytes.{part};
ghost use Rattle.schema.specs.Types.{fix, fixed_at};
ghost use Rattle.table.specs.Tables.{InTable};
ghost use Rattle.reading.specs.Children.{wide_of};
ghost use Rattle.reading.specs.Opening.{held_ty};
ghost use Rattle.reading.specs.Places.{slot_width, Leaf, Row, list_holds, map_holds, struct_holds, holds_of, place_ty, bytes_of, Rests};
ghost use Rattle.reading.specs.Places.{by_size, Breaks};

use crate::Place;

// A slot's bytes in an array: the table's, 8 where they vary.
pub fn slot_width(v: usize) -> usize
    ensures { result ≡ slot_width v }
{
    if v == 0 { 8 } else { v }
}

// A bool is 0 or 1.
fn leaf_holds(k: usize, row: &[u8], base: usize, size: usize) -> bool
    requires { Leaf row.now k base size }
    ensures { result ≡ holds_of (fix (fixed_at k)) (part row.now base size) }
{
    let b = row[base];
    if k == table::BOOL {
        return b < 2;
    }
    true
}

// A list of slots of w bytes has 8 bytes, and its header and padded elements fit.
fn list_holds(row: &[u8], base: usize, size: usize, w: usize) -> bool
    requires { Row row.now base size × (0 < w) × (w ≤ 8) }
    ensures { result ≡ list_holds w (part row.now base size) }
{
    if size < 8 {
        return false;
    }
    let n = words::nums::get::<8>(row, base) as usize;
    if size < n {
        return false;
    }
    8 + words::sizes::bitmap_size(n) + words::sizes::pad_size(n * w) <= size
}

// A map has 8 bytes, K is a multiple of 8, and 8 + K is at most its size.
fn map_holds(row: &[u8], base: usize, size: usize) -> bool
    requires { Row row.now base size }
    ensures { result ≡ map_holds (part row.now base size) }
{
    if size < 8 {
        return false;
    }
    let z = words::nums::get::<8>(row, base) as usize;
    if z & 7 != 0 {
        return false;
    }
    z <= size - 8
}

// A struct holds its fixed part.
fn struct_holds(n: usize, size: usize) -> bool
    requires { n ≤ 128 }
    ensures { result ≡ struct_holds n size }
{
    words::sizes::bitmap_size(n) + words::sizes::pad_size(n * 8) <= size
}

// The slot's bytes of a list's elements, whose type stands at a place of the table.
pub fn element_width(t: &[u64], c: usize) -> usize
    requires { InTable t.now c 7 }
    ensures { result ≡ slot_width (wide_of (held_ty t.now c)) }
{
    table::element_width(table::entry_at(t, c, 7))
}

// A slot for less than 8 bytes, else the header.
fn by_size(size: usize, slot: usize, header: usize) -> usize
    ensures { result ≡ by_size size slot header }
{
    if size < 8 { slot } else { header }
}

// Whether the own rules of a place hold.
pub fn holds(t: &[u64], row: &[u8], p: Place) -> bool
    requires { Rests t.now row.now p }
    ensures { result ≡ holds_of (place_ty t.now p) (bytes_of row.now p) }
{
    let x = p.opened;
    let k = x.kind;
    if k < table::STRING {
        return leaf_holds(k, row, p.start, p.len);
    }
    if k < table::LIST {
        return spelling::is_spelled(row, k, p.start, p.start + p.len);
    }
    if k == table::LIST {
        return list_holds(row, p.start, p.len, element_width(t, x.first));
    }
    if k == table::MAP {
        return map_holds(row, p.start, p.len);
    }
    struct_holds(table::count(x.entry), p.len)
}

// Where a place is broken whose own rules do not hold: a leaf of a fixed width and a wrong header at its first byte, a string that is no
// text and a wrong size at its slot.
pub fn broken_at(p: Place) -> usize
    ensures { Breaks p result }
{
    let x = p.opened;
    let kind = x.kind;
    let seat = p.seat;
    if kind < table::STRING {
        return p.start;
    }
    if kind < table::LIST {
        return seat.slot;
    }
    if kind == table::STRUCT {
        return seat.slot;
    }
    by_size(p.len, seat.slot, p.start)
}
