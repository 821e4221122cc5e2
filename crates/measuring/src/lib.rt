// Judging and measuring a listing by its schema's table, so that nothing is written where it is refused.
// A measure is one number and stays in a register: where the listing goes on in the low half, and the bytes in the high half. It is 0
// where the listing is refused. What a container holds is whole words, so only a text is padded.
#![tactic(auto)]

ghost use Rattle.std.specs.Prelude.{◌≡◌, ◌+◌, ◌*◌, ◌≤◌, ◌<◌};
ghost use Rattle.words.specs.Bytes.{bitmap, pad};
ghost use Rattle.schema.specs.Marks.{element_width};
ghost use Rattle.schema.specs.Walk.{type_at, types_at};
ghost use Rattle.table.specs.Words.{place_in, Lined};
ghost use Rattle.table.specs.Tables.{Table, schema_of, pos_of};
ghost use Rattle.measuring.specs.Measure.{NullTold, OnlyNull, BodyTold, ChildTold, LeafTold, ArrayTold};
ghost use Rattle.measuring.specs.Measure.{FieldsTold, Goes, FixedCan, TextCan, ChildCan, ListsCan, ArrayCan, FieldsCan};
ghost use Rattle.measuring.specs.Row.{RowTold};

use words::pairs;

// The number of the mark of null.
const NULL: usize = 0x756E;

// The number of the mark of a struct.
const STRUCT_MARK: usize = 0x6F72;

// The bytes of an array of n elements up to their data: its count, its bitmap, its elements and the zeros up to Pad.
fn array_size(w: u64, n: usize) -> usize
    requires { (Lined w) × (n < 4294967296) }
    ensures { result ≡ 8 + bitmap n + pad (n * element_width (place_in w)) }
{
    8 + words::sizes::bitmap_size(n) + words::sizes::pad_size(n * table::element_width(w))
}

// The bytes of a struct of n fields up to their data: its bitmap and its slots.
fn struct_size(n: usize) -> usize
    requires { n ≤ 128 }
    ensures { result ≡ bitmap n + 8 * n }
{
    words::sizes::bitmap_size(n) + 8 * n
}

// A child whose mark, numbered m, is not its type's.
fn unmarked(m: usize, from: usize) -> u64
    requires { from ≤ 65536 }
    ensures { NullTold m from result }
{
    if m == NULL { from as u64 + 2 } else { 0 }
}

// Where too little of the listing is left for the contents of a leaf, only a null can stand.
fn only_null(l: &[u8], from: usize) -> u64
    requires { Goes l.now from }
    ensures { OnlyNull l.now from result }
{
    if l.len() - from < 2 {
        return 0;
    }
    unmarked(words::nums::get::<2>(l, from) as usize, from)
}

// A number of fixed width with its mark, by its entry: it goes into its slot, and takes no bytes elsewhere.
fn measure_fixed(w: u64, l: &[u8], from: usize) -> u64
    requires { FixedCan w l.now from }
    ensures { LeafTold (place_in w) l.now from result }
{
    let v = 2 + table::width(w);
    if l.len() - from < v {
        return only_null(l, from);
    }
    let m = words::nums::get::<2>(l, from) as usize;
    if m != table::mark(w) {
        return unmarked(m, from);
    }
    if table::place(w) == table::BOOL && 1 < l[from + 2] {
        return 0;
    }
    pairs::pair(from + v, 0)
}

// A string or binary with its mark: one that is no text is refused.
fn measure_text(w: u64, l: &[u8], from: usize) -> u64
    requires { TextCan w l.now from }
    ensures { LeafTold (place_in w) l.now from result }
{
    if l.len() - from < 6 {
        return only_null(l, from);
    }
    let m = words::nums::get::<2>(l, from) as usize;
    if m != table::mark(w) {
        return unmarked(m, from);
    }
    let n = words::nums::get::<4>(l, from + 2) as usize;
    if l.len() - from - 6 < n {
        return 0;
    }
    let end = from + 6 + n;
    if !spelling::is_spelled(l, table::place(w), from + 6, end) {
        return 0;
    }
    pairs::pair(end, words::sizes::pad_size(n))
}

// A container with its mark: its type's entry stands at place c.
#[cycle(measures)]
fn measure_child(t: &[u64], c: usize, depth: usize, l: &[u8], from: usize) -> u64
    requires { ChildCan t.now c depth l.now from }
    ensures { ChildTold (type_at (schema_of t.now) (pos_of t.now c) depth) l.now from result }
{
    if l.len() - from < 2 {
        return 0;
    }
    let w = table::entry_at(t, c, depth);
    let m = words::nums::get::<2>(l, from) as usize;
    if m != table::mark(w) {
        return unmarked(m, from);
    }
    if table::place(w) == table::STRUCT {
        measure_fields(t, c + 1, table::count(w), depth - 1, l, from + 2)
    } else {
        measure_lists(t, c, depth, w, l, from + 2)
    }
}

// The contents of a list or a map, whose entry w stands at place c.
#[cycle(measures)]
fn measure_lists(t: &[u64], c: usize, depth: usize, w: u64, l: &[u8], from: usize) -> u64
    requires { ListsCan t.now c depth w l.now from }
    ensures { BodyTold (type_at (schema_of t.now) (pos_of t.now c) depth) l.now from result }
{
    if l.len() - from < 4 {
        return 0;
    }
    let n = words::nums::get::<4>(l, from) as usize;
    let d = depth - 1;
    let keys = measure_array(t, c + 1, d, l, from + 4, n);
    if table::place(w) == table::LIST {
        return keys;
    }
    if keys == 0 {
        return 0;
    }
    let values = measure_array(
        t,
        table::after(table::entry_at(t, c + 1, d)),
        d,
        l,
        pairs::low(keys),
        n,
    );
    if values == 0 {
        return 0;
    }
    pairs::pair(
        pairs::low(values),
        8 + pairs::high(keys) + pairs::high(values),
    )
}

// n elements of the type at place c, as an array: a short listing that announces many is refused where it ends.
#[cycle(measures)]
fn measure_array(t: &[u64], c: usize, depth: usize, l: &[u8], from: usize, n: usize) -> u64
    requires { ArrayCan t.now c depth l.now from n }
    ensures { ArrayTold (type_at (schema_of t.now) (pos_of t.now c) depth) l.now from n result }
{
    let w = table::entry_at(t, c, depth);
    let mut pos = from;
    let mut sum = array_size(w, n);
    for _ in 0..n {
        let r = if table::place(w) < table::STRING {
            measure_fixed(w, l, pos)
        } else if table::place(w) < table::LIST {
            measure_text(w, l, pos)
        } else {
            measure_child(t, c, depth, l, pos)
        };
        if r == 0 {
            return 0;
        }
        pos = pairs::low(r);
        sum += pairs::high(r);
    }
    pairs::pair(pos, sum)
}

// The n fields of a struct, the first's entry at place first.
#[cycle(measures)]
fn measure_fields(t: &[u64], first: usize, n: usize, depth: usize, l: &[u8], from: usize) -> u64
    requires { FieldsCan t.now first n depth l.now from }
    ensures { FieldsTold (types_at (schema_of t.now) (pos_of t.now first) depth n) l.now from result }
{
    let mut c = first;
    let mut pos = from;
    let mut sum = struct_size(n);
    for _ in 0..n {
        let w = table::entry_at(t, c, depth);
        let r = if table::place(w) < table::STRING {
            measure_fixed(w, l, pos)
        } else if table::place(w) < table::LIST {
            measure_text(w, l, pos)
        } else {
            measure_child(t, c, depth, l, pos)
        };
        if r == 0 {
            return 0;
        }
        pos = pairs::low(r);
        sum += pairs::high(r);
        c = table::after(w);
    }
    pairs::pair(pos, sum)
}

// The bytes of the row of a whole listing, none where it is refused: the root is not null, and nothing is left over.
pub fn measure_row(t: &[u64], l: &[u8]) -> Option<usize>
    requires { Table t.now }
    ensures { RowTold (schema_of t.now) l.now result }
{
    if 65536 < l.len() {
        return None;
    }
    if l.len() < 2 {
        return None;
    }
    if words::nums::get::<2>(l, 0) as usize != STRUCT_MARK {
        return None;
    }
    let m = measure_child(t, 0, 8, l, 0);
    if pairs::low(m) != l.len() {
        return None;
    }
    Some(pairs::high(m))
}
