// Listing a row that was checked, back into records: a cycle over value, struct, list and map, with remaining depth falling along the
// calls, and loops over the children. A type is its entry w of the schema's table t, which stands at a place there.
#![tactic(auto)]

ghost use Rattle.std.specs.Prelude.{◌≡◌, ◌++◌, ◌≤◌, length};
ghost use Rattle.std.proofs.Math.Option.{none};
ghost use Rattle.words.specs.Bytes.{le, part};
ghost use Rattle.schema.specs.Marks.{mark_at, line};
ghost use Rattle.table.specs.Words.{place_in, Lined};
ghost use Rattle.table.specs.Tables.{schema_of, type_of, types_of};
ghost use Rattle.layout.specs.Listing.{nu};
ghost use Rattle.layout.specs.Setting.{or_empty};
ghost use Rattle.layout.specs.Entries.{listing_of};
ghost use Rattle.listing.specs.Lines.{lines, item_lines, field_lines, own_bytes, own_lines, Written, Answered};
ghost use Rattle.listing.specs.Room.{leaf_at, NumberRoom, TextRoom, Elsewhere, Leaf, Leaves};
ghost use Rattle.listing.specs.Room.{Container, Pair, Elements, Fields, Checked};

// The mark of a type.
fn put_mark(out: &mut [u8], pos: usize, w: u64) -> usize
    requires { (Lined w) × (pos ≤ 65536) }
    ensures { Written out.old pos (mark_at (place_in w)) out.new result }
{
    let end = pos + 2;
    if out.len() < end {
        return end;
    }
    words::nums::put::<2>(out, pos, table::mark(w) as u64);
    end
}

// A null's mark.
fn put_null(out: &mut [u8], pos: usize) -> usize
    requires { pos ≤ 65536 }
    ensures { Written out.old pos nu out.new result }
{
    let end = pos + 2;
    if out.len() < end {
        return end;
    }
    out[pos] = b'n';
    out[pos + 1] = b'u';
    end
}

// A mark and a 4-byte count or length behind it.
fn put_count(out: &mut [u8], pos: usize, w: u64, n: usize) -> usize
    requires { (Lined w) × (pos ≤ 65536) }
    ensures { Written out.old pos (mark_at (place_in w) ++ le 4 n) out.new result }
{
    let at = put_mark(out, pos, w);
    let end = at + 4;
    if out.len() < end {
        return end;
    }
    words::nums::put::<4>(out, at, n as u64);
    end
}

// A number. Without room for all of it nothing is written, and each width has its own load and store.
fn put_number(out: &mut [u8], pos: usize, w: u64, b: &[u8], slot: usize) -> usize
    requires { NumberRoom b.now slot w pos }
    ensures { Written out.old pos (mark_at (place_in w) ++ part b.now slot (line (place_in w)).width) out.new result }
{
    let wide = table::width(w);
    let end = pos + 2 + wide;
    if out.len() < end {
        return end;
    }
    let p = put_mark(out, pos, w);
    match wide {
        8 => words::nums::put::<8>(out, p, words::nums::get::<8>(b, slot)),
        4 => words::nums::put::<4>(out, p, words::nums::get::<4>(b, slot) as u64),
        2 => words::nums::put::<2>(out, p, words::nums::get::<2>(b, slot) as u64),
        _ => out[p] = b[slot],
    }
    end
}

// A string or binary, whose length is its size without padding.
fn put_text(out: &mut [u8], pos: usize, w: u64, text: &[u8]) -> usize
    requires { TextRoom text.now w pos }
    ensures { Written out.old pos ((mark_at (place_in w) ++ le 4 (length text.now)) ++ text.now) out.new result }
{
    let size = text.len();
    let end = pos + 6 + size;
    if out.len() < end {
        return end;
    }
    let p = put_count(out, pos, w, size);
    words::copies::copy(out, p, text, 0, size);
    end
}

// The bytes of a child that stands elsewhere in the container b: where its slot says.
fn own(b: &[u8], slot: usize) -> &[u8]
    requires { Elsewhere b.now slot }
    ensures { result.now ≡ own_bytes none b.now slot }
{
    let x = words::nums::get::<8>(b, slot);
    let off = words::slots::slot_offset(x) as usize;
    let end = off + words::slots::slot_size(x) as usize;
    &b[off..end]
}

// A leaf that is not null, whose slot is at a position of the container b.
fn put_leaf(out: &mut [u8], pos: usize, w: u64, b: &[u8], slot: usize) -> usize
    requires { Leaf w b.now slot pos }
    ensures { Written out.old pos (own_lines (leaf_at (place_in w)) b.now slot) out.new result }
{
    if table::place(w) < table::STRING {
        put_number(out, pos, w, b, slot)
    } else {
        put_text(out, pos, w, own(b, slot))
    }
}

// The elements of a list of leaves: a loop of its own, with no call of the cycle. There is no look at what lies under a null.
fn list_leaves(w: u64, b: &[u8], out: &mut [u8], pos: usize) -> usize
    requires { Leaves w b.now pos }
    ensures { Written out.old pos (item_lines (leaf_at (place_in w)) b.now) out.new result }
{
    let n = words::nums::get::<8>(b, 0) as usize;
    let wide = table::element_width(w);
    let mut slot = 8 + words::sizes::bitmap_size(n);
    let mut p = pos;
    for i in 0..n {
        if words::nulls::is_null(b, 8, i) {
            p = put_null(out, p);
        } else {
            p = put_leaf(out, p, w, b, slot);
        }
        slot += wide;
    }
    p
}

// A container.
#[cycle(lists)]
fn list_value(t: &[u64], at: usize, depth: usize, b: &[u8], out: &mut [u8], pos: usize) -> usize
    requires { Container t.now at depth b.now pos }
    ensures { Written out.old pos (lines (type_of t.now at depth) b.now) out.new result }
{
    let w = table::entry_at(t, at, depth);
    let d = depth - 1;
    match table::place(w) {
        table::LIST => {
            let p = put_count(out, pos, w, words::nums::get::<8>(b, 0) as usize);
            list_items(t, at + 1, d, b, out, p)
        }
        table::MAP => list_map(t, at, depth, b, out, pos),
        _ => {
            let p = put_mark(out, pos, w);
            list_fields(t, at + 1, table::count(w), d, b, out, p)
        }
    }
}

// A map: its count, the keys, then the values.
#[cycle(lists)]
fn list_map(t: &[u64], at: usize, depth: usize, b: &[u8], out: &mut [u8], pos: usize) -> usize
    requires { Pair t.now at depth b.now pos }
    ensures { Written out.old pos (lines (type_of t.now at depth) b.now) out.new result }
{
    let w = table::entry_at(t, at, depth);
    let d = depth - 1;
    let keys = at + 1;
    let values = table::after(table::entry_at(t, keys, d));
    let size = words::nums::get::<8>(b, 0) as usize;
    let end = 8 + size;
    let p = put_count(out, pos, w, words::nums::get::<8>(b, 8) as usize);
    let q = list_items(t, keys, d, &b[8..end], out, p);
    list_items(t, values, d, &b[end..], out, q)
}

// The elements of a list, whose type stands at a place of the table.
#[cycle(lists)]
fn list_items(t: &[u64], at: usize, depth: usize, b: &[u8], out: &mut [u8], pos: usize) -> usize
    requires { Elements t.now at depth b.now pos }
    ensures { Written out.old pos (item_lines (type_of t.now at depth) b.now) out.new result }
{
    let w = table::entry_at(t, at, depth);
    if table::place(w) < table::LIST {
        return list_leaves(w, b, out, pos);
    }
    let n = words::nums::get::<8>(b, 0) as usize;
    let mut slot = 8 + words::sizes::bitmap_size(n);
    let mut p = pos;
    for i in 0..n {
        if words::nulls::is_null(b, 8, i) {
            p = put_null(out, p);
        } else {
            p = list_value(t, at, depth, own(b, slot), out, p);
        }
        slot += 8;
    }
    p
}

// The fields of a struct, whose n types stand from a place of the table on: only containers are listed by a call of the cycle.
#[cycle(lists)]
fn list_fields(
    t: &[u64],
    first: usize,
    n: usize,
    depth: usize,
    b: &[u8],
    out: &mut [u8],
    pos: usize,
) -> usize
    requires { Fields t.now first n depth b.now pos }
    ensures { Written out.old pos (field_lines (types_of t.now first depth n) b.now) out.new result }
{
    let mut at = first;
    let mut slot = words::sizes::bitmap_size(n);
    let mut p = pos;
    for i in 0..n {
        let w = table::entry_at(t, at, depth);
        if words::nulls::is_null(b, 0, i) {
            p = put_null(out, p);
        } else if table::place(w) < table::LIST {
            p = put_leaf(out, p, w, b, slot);
        } else {
            p = list_value(t, at, depth, own(b, slot), out, p);
        }
        at = table::after(w);
        slot += 8;
    }
    p
}

// The listing of a row that was checked, at the start of out where it fits; its length in any case. It is at most three times as long
// as the row: with that much room there is nothing to measure first. A call that is lent no byte measures.
pub fn list_row(t: &[u64], row: &[u8], out: &mut [u8]) -> usize
    requires { Checked t.now row.now }
    ensures { Answered out.old (or_empty (listing_of (schema_of t.now) row.now)) out.new result }
{
    if 3 * row.len() <= out.len() {
        return list_value(t, 0, 8, row, out, 0);
    }
    let need = list_value(t, 0, 8, row, &mut out[..0], 0);
    if out.len() < need {
        return need;
    }
    list_value(t, 0, 8, row, out, 0)
}
