// Writing the row of a listing that was measured, by the schema's table. An answer is two numbers in one word (words::pairs): in its low
// half where the listing goes on, in its high half where what was written ends.
#![tactic(auto)]

ghost use Rattle.std.specs.Prelude.{◌≡◌, length};
ghost use Rattle.std.proofs.Math.Option.{some};
ghost use Rattle.words.specs.Pairs.{low_in, high_in};
ghost use Rattle.layout.specs.Entries.{image_of};
ghost use Rattle.table.specs.Tables.{schema_of, type_of};
ghost use Rattle.putting.specs.Put.{Held, PutValue, PutStruct, PutArray, ArrayWrote, PutRow};

use crate::leaves::{clear_bits, held_end, held_slot, number, put_front, put_slot, put_text};
use words::pairs;

mod leaves;

// The mark of a null.
const NULL: usize = 0x756E;

// The contents of the container at a place of the table, behind their mark, from pos on.
#[cycle(puts)]
fn put_value(
    t: &[u64],
    c: usize,
    depth: usize,
    l: &[u8],
    from: usize,
    out: &mut [u8],
    pos: usize,
) -> u64
    requires { PutValue t.now c depth l.now from pos (length out.old) }
    ensures { Held (type_of t.now c depth) l.now from pos out.old out.new (low_in result) (high_in result) }
{
    let d = depth - 1;
    let held = c + 1;
    match table::place(table::entry_at(t, c, depth)) {
        table::STRUCT => put_fields(t, c, depth, l, from, out, pos),
        table::LIST => {
            let n = words::nums::get::<4>(l, from) as usize;
            put_array(t, held, d, l, from + 4, n, out, pos)
        }
        _ => {
            let n = words::nums::get::<4>(l, from) as usize;
            let start = pos + 8;
            let keys = put_array(t, held, d, l, from + 4, n, out, start);
            let end = pairs::high(keys);
            words::nums::put::<8>(out, pos, (end - start) as u64);
            let values = table::after(table::entry_at(t, held, d));
            put_array(t, values, d, l, pairs::low(keys), n, out, end)
        }
    }
}

// An array of n elements of the type at a place, from pos on: its count, its bitmap, its elements and the zeros up to Pad, and the
// bytes behind them.
#[cycle(puts)]
fn put_array(
    t: &[u64],
    c: usize,
    depth: usize,
    l: &[u8],
    from: usize,
    n: usize,
    out: &mut [u8],
    pos: usize,
) -> u64
    requires { PutArray t.now c depth l.now from n pos (length out.old) }
    ensures { ArrayWrote (type_of t.now c depth) l.now from n pos out.old out.new (low_in result) (high_in result) }
{
    let e = table::entry_at(t, c, depth);
    let w = table::element_width(e);
    let kind = table::place(e);
    put_front(out, pos, n, w);
    let map = pos + 8;
    let mut slot = map + words::sizes::bitmap_size(n);
    let mut cur = slot + words::sizes::pad_size(n * w);
    let mut at = from;
    for i in 0..n {
        let body = at + 2;
        let mut x: u64 = 0;
        if words::nums::get::<2>(l, at) as usize == NULL {
            words::nulls::set_null(out, map, i);
            at = body;
        } else if kind < table::STRING {
            x = number(l, body, w);
            at = body + w;
        } else {
            let p = if kind < table::LIST {
                put_text(l, body, out, cur)
            } else {
                put_value(t, c, depth, l, body, out, cur)
            };
            x = held_slot(p, pos, cur);
            at = pairs::low(p);
            cur = held_end(p, cur);
        }
        put_slot(out, slot, w, x);
        slot += w;
    }
    pairs::pair(at, cur)
}

// The fields of the struct at a place of the table, from pos on: its bitmap, its slots, and the bytes behind them.
#[cycle(puts)]
fn put_fields(
    t: &[u64],
    c: usize,
    depth: usize,
    l: &[u8],
    from: usize,
    out: &mut [u8],
    pos: usize,
) -> u64
    requires { PutStruct t.now c depth l.now from pos (length out.old) }
    ensures { Held (type_of t.now c depth) l.now from pos out.old out.new (low_in result) (high_in result) }
{
    let n = table::count(table::entry_at(t, c, depth));
    let d = depth - 1;
    clear_bits(out, pos, n);
    let mut slot = pos + words::sizes::bitmap_size(n);
    let mut cur = slot + 8 * n;
    let mut field = c + 1;
    let mut at = from;
    for i in 0..n {
        let e = table::entry_at(t, field, d);
        let kind = table::place(e);
        let body = at + 2;
        let mut x: u64 = 0;
        if words::nums::get::<2>(l, at) as usize == NULL {
            words::nulls::set_null(out, pos, i);
            at = body;
        } else if kind < table::STRING {
            let w = table::width(e);
            x = number(l, body, w);
            at = body + w;
        } else {
            let p = if kind < table::LIST {
                put_text(l, body, out, cur)
            } else {
                put_value(t, field, d, l, body, out, cur)
            };
            x = held_slot(p, pos, cur);
            at = pairs::low(p);
            cur = held_end(p, cur);
        }
        words::nums::put::<8>(out, slot, x);
        field = table::after(e);
        slot += 8;
    }
    pairs::pair(at, cur)
}

// The row of a listing that was measured, in a room of exactly its size.
pub fn put_row(t: &[u64], l: &[u8], out: &mut [u8])
    requires { PutRow t.now l.now (length out.old) }
    ensures { some out.new ≡ image_of (schema_of t.now) l.now }
{
    put_fields(t, 0, 8, l, 2, out, 0);
}
