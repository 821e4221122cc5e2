// Checking a row against the layout by its schema's table: a cycle over struct, list and map, with remaining depth falling along the
// calls, and loops over the children. Each answers a number: 0 where there is no fault, 1 for one in the value's slot, i + 2 for one
// at the value's byte i. The exact byte is looked for only where there is a fault. A container's size is judged first and is a multiple of
// 8: there is no padding to look at behind one, and a value that ends in one ends there with its padding too.
//
// Values may stand in any order, and mostly stand in the order of their slots. A loop over children holds its cursor where the next value
// in order would stand. Where a slot says another place, the cursor moves there, and at the first such move the slots are asked, once,
// which child is the first that can't stand where its slot says: the loop stops before that one.
#![tactic(auto)]

ghost use Rattle.std.specs.Prelude.{◌≡◌, true, false, [], ◌+◌, ◌≤◌, ◌<◌, length};
ghost use Rattle.schema.specs.Types.{ro, li, ma, fixed_at};
ghost use Rattle.schema.specs.Walk.{fields_of};
ghost use Rattle.layout.specs.Layout.{kids, fault_at};
ghost use Rattle.table.specs.Words.{place_in};
ghost use Rattle.table.specs.Tables.{Table, schema_of, type_of, types_of};
ghost use Rattle.standing.specs.Standing.{FieldsFrom};
ghost use Rattle.checking.specs.Sound.{fault_of, in_child, fault_from, checked_means};
ghost use Rattle.checking.specs.Room.{FieldRoom, field_good, field_then, Holding, Fields, LeavesOr0, Items, Pair};
ghost use Rattle.checking.specs.Room.{elements, Asked, Unfit, varies_in};

mod lists;

// A child's fault as its container tells it: its slot stands at `slot`, its bytes from `cur` on.
fn in_child(r: usize, slot: usize, cur: usize) -> usize
    requires { (1 ≤ r) × (r ≤ 65536) × (slot ≤ 65536) × (cur ≤ 65536) }
    ensures { result ≡ in_child slot cur r 0 }
{
    if r == 1 {
        return slot + 2;
    }
    cur + r
}

// A field of a fixed width in its slot of 8 bytes: no bit is set above its highest. An int64 and a float64 fill the slot, whatever they
// are: there is no look at them.
fn check_field(b: &[u8], i: usize, slot: usize, w: u64) -> bool
    requires { FieldRoom b.now i slot w }
    ensures { result ≡ field_good (fixed_at (place_in w)) b.now i slot }
{
    let top = table::top(w);
    if top == 63 {
        return true;
    }
    if words::nulls::is_null(b, 0, i) {
        return true;
    }
    words::nums::get::<8>(b, slot) >> 1 >> top == 0
}

// The first wrong byte of a field that is not good.
fn field_fault(b: &[u8], i: usize, slot: usize, w: u64) -> usize
    requires field_room { FieldRoom b.now i slot w }
    requires slot_value { field_good (fixed_at (place_in w)) b.now i slot ≡ false }
    ensures { result ≡ field_then (fixed_at (place_in w)) b.now i slot 0 }
{
    if table::place(w) == table::BOOL {
        if 1 < b[slot] {
            return slot + 2;
        }
        return words::finds::first_set(b, slot + 1, slot + 8) + 2;
    }
    words::finds::first_set(b, slot + table::width(w), slot + 8) + 2
}

// Before which of a struct's fields the values stand where their slots say: asked once, as long as nothing is done.
fn fields_stand(
    t: &[u64],
    first: usize,
    n: usize,
    depth: usize,
    b: &[u8],
    stop: usize,
    done: usize,
) -> usize
    requires { FieldsFrom t.now first depth n b.now }
    ensures { Asked (Unfit 0 (varies_in (types_of t.now first depth n)) b.now n) stop done result }
{
    if done == 0 {
        return standing::unfit_field(t, first, n, depth, b);
    }
    stop
}

// How many fields a struct has that has fewer than 64, all of them leaves: those are worth a look of their own. 0 for any other type.
fn leaf_fields(c: usize, w: u64) -> usize
    requires { c < 1024 }
    ensures { LeavesOr0 w result }
{
    if table::place(w) != table::STRUCT {
        return 0;
    }
    let n = table::count(w);
    if 64 <= n {
        return 0;
    }
    // a field that is no leaf would have descendants
    if table::after(w) != c + 1 + n {
        return 0;
    }
    n
}

// Whether a struct of n fields, fewer than 64, is without a fault, all its fields are leaves, and their values stand in the order of
// their slots: most structs that a container holds do. A look that answers no says nothing.
fn is_plain(t: &[u64], first: usize, n: usize, depth: usize, b: &[u8]) -> bool
    requires { Fields t.now first n depth b.now × (1 ≤ n) × (n < 64) }
    ensures { result ≡ true → 0 ≡ fault_of (ro (types_of t.now first depth n)) b.now }
{
    if b.len() & 7 != 0 {
        return false;
    }
    if b.len() < 8 + 8 * n {
        return false;
    }
    let nulls = words::nums::get::<8>(b, 0);
    if nulls >> n != 0 {
        return false;
    }
    let mut cur = 8 + 8 * n;
    for i in 0..n {
        let w = table::entry_at(t, first + i, depth);
        let k = table::place(w);
        let slot = 8 + 8 * i;
        if k < table::STRING {
            if nulls >> i & 1 == 0 && words::nums::get::<8>(b, slot) >> 1 >> table::top(w) != 0 {
                return false;
            }
            continue;
        }
        if k >= table::LIST {
            return false;
        }
        if nulls >> i & 1 != 0 {
            continue;
        }
        if words::slots::offset_at(b, slot) != cur {
            return false;
        }
        let end = cur + words::slots::size_at(b, slot);
        if b.len() < end {
            return false;
        }
        let next = words::sizes::pad_size(end);
        if !spelling::looks_spelled(b, k, cur, end, next) {
            return false;
        }
        if !words::sizes::pad_clear(b, end, next) {
            return false;
        }
        cur = next;
    }
    cur == b.len()
}

// A struct of n fields, whose types stand from a place on: its size and bitmap, then the fields.
#[cycle(checks)]
fn check_struct(t: &[u64], first: usize, n: usize, depth: usize, b: &[u8]) -> usize
    requires { Fields t.now first n depth b.now }
    ensures { result ≡ fault_of (ro (types_of t.now first depth n)) b.now }
{
    let slots = words::sizes::bitmap_size(n);
    if b.len() & 7 != 0 {
        return 1;
    }
    if b.len() < slots + 8 * n {
        return 1;
    }
    if !words::nulls::past_clear(b, n, slots) {
        return words::finds::past_byte(b, n, slots) + 2;
    }
    check_fields(t, first, n, depth, b)
}

// A list of the type at a place: its size, header and bitmap, then its elements by their kind.
#[cycle(checks)]
fn check_list(t: &[u64], c: usize, depth: usize, b: &[u8]) -> usize
    requires { Holding t.now c depth b.now }
    ensures { result ≡ fault_of (li (type_of t.now c depth)) b.now }
{
    if b.len() & 7 != 0 {
        return 1;
    }
    if b.len() < 8 {
        return 1;
    }
    let n = words::nums::get::<8>(b, 0) as usize;
    if b.len() < n {
        return 2;
    }
    let w = table::entry_at(t, c, depth);
    let slots = 8 + words::sizes::bitmap_size(n);
    let end = slots + n * table::element_width(w);
    let start = words::sizes::pad_size(end);
    if b.len() < start {
        return 2;
    }
    if !words::nulls::past_clear(b, n, slots) {
        return words::finds::past_byte(b, n, slots) + 2;
    }
    let k = table::place(w);
    if k == table::BOOL {
        return lists::check_bools(b, n, slots, start);
    }
    if k < table::STRING {
        return lists::check_end(b, end, start);
    }
    if k == table::STRING {
        return lists::check_texts::<true>(b, n, slots, start);
    }
    if k < table::LIST {
        return lists::check_texts::<false>(b, n, slots, start);
    }
    check_items(t, c, depth, w, b, n)
}

// Elements that are containers. Their kind is asked here, as that of fields in `check_fields`: a function between would cost each of them
// another call.
#[cycle(checks)]
fn check_items(t: &[u64], c: usize, depth: usize, w: u64, b: &[u8], n: usize) -> usize
    requires { Items t.now c depth w b.now n }
    ensures { result ≡ fault_from 8 8 (elements (type_of t.now c depth) n) b.now 0 [] }
{
    let d = depth - 1;
    let k = table::place(w);
    let m = leaf_fields(c, w);
    let slots = 8 + words::sizes::bitmap_size(n);
    let mut slot = slots;
    let mut cur = slots + 8 * n;
    let mut i: usize = 0;
    let mut stop = n;
    let mut done: usize = 0;
    let mut since: usize = 0;
    while i < stop {
        if words::nulls::is_null(b, 8, i) {
            slot += 8;
            i += 1;
            continue;
        }
        let from = words::slots::offset_at(b, slot);
        if from != cur {
            stop = lists::items_stand(b, n, stop, done);
            done += cur - since;
            since = from;
            cur = from;
            continue;
        }
        let end = cur + words::slots::size_at(b, slot);
        if b.len() < end {
            return slot + 2;
        }
        let next = words::sizes::pad_size(end);
        let part = &b[cur..end];
        let r = if m != 0 && is_plain(t, c + 1, m, d, part) {
            0
        } else if k == table::STRUCT {
            check_struct(t, c + 1, table::count(w), d, part)
        } else if k == table::LIST {
            check_list(t, c + 1, d, part)
        } else {
            check_map(
                t,
                c + 1,
                table::after(table::entry_at(t, c + 1, d)),
                d,
                part,
            )
        };
        if r != 0 {
            return in_child(r, slot, cur);
        }
        cur = next;
        slot += 8;
        i += 1;
    }
    if stop < n {
        return slot + 2;
    }
    if done + (cur - since) != b.len() {
        return 1;
    }
    0
}

// A map: K, the two arrays, and equal counts.
#[cycle(checks)]
fn check_map(t: &[u64], k: usize, v: usize, depth: usize, b: &[u8]) -> usize
    requires { Pair t.now k v depth b.now }
    ensures { result ≡ fault_of (ma (type_of t.now k depth) (type_of t.now v depth)) b.now }
{
    if b.len() & 7 != 0 {
        return 1;
    }
    if b.len() < 8 {
        return 1;
    }
    let size = words::nums::get::<8>(b, 0) as usize;
    if size & 7 != 0 {
        return 2;
    }
    if b.len() - 8 < size {
        return 2;
    }
    let end = 8 + size;
    let r = check_list(t, k, depth, &b[8..end]);
    if r != 0 {
        return in_child(r, 8, 8);
    }
    if b.len() - end < 8 {
        return end + 2;
    }
    if words::nums::get::<8>(b, 8) != words::nums::get::<8>(b, end) {
        return end + 2;
    }
    let q = check_list(t, v, depth, &b[end..]);
    if q != 0 {
        return in_child(q, end, end);
    }
    0
}

// The n fields of a struct, whose types stand from a place on: leaves are judged in the loop, only containers by a call.
#[cycle(checks)]
fn check_fields(t: &[u64], first: usize, n: usize, depth: usize, b: &[u8]) -> usize
    requires { FieldsFrom t.now first depth n b.now }
    ensures { result ≡ fault_from 0 8 (kids (types_of t.now first depth n)) b.now 0 [] }
{
    let slots = words::sizes::bitmap_size(n);
    let mut slot = slots;
    let mut cur = slots + 8 * n;
    let mut c = first;
    let mut i: usize = 0;
    let mut stop = n;
    let mut done: usize = 0;
    let mut since: usize = 0;
    while i < stop {
        let w = table::entry_at(t, c, depth);
        let k = table::place(w);
        if k < table::STRING {
            if !check_field(b, i, slot, w) {
                return field_fault(b, i, slot, w);
            }
            c = table::after(w);
            slot += 8;
            i += 1;
            continue;
        }
        if words::nulls::is_null(b, 0, i) {
            c = table::after(w);
            slot += 8;
            i += 1;
            continue;
        }
        let from = words::slots::offset_at(b, slot);
        if from != cur {
            stop = fields_stand(t, first, n, depth, b, stop, done);
            done += cur - since;
            since = from;
            cur = from;
            continue;
        }
        let end = cur + words::slots::size_at(b, slot);
        if b.len() < end {
            return slot + 2;
        }
        let next = words::sizes::pad_size(end);
        if k < table::LIST {
            if !spelling::is_spelled_in(b, k, cur, end, next) {
                return slot + 2;
            }
            if !words::sizes::pad_clear(b, end, next) {
                return words::finds::first_set(b, end, next) + 2;
            }
            c = table::after(w);
            cur = next;
            slot += 8;
            i += 1;
            continue;
        }
        let d = depth - 1;
        let m = leaf_fields(c, w);
        let part = &b[cur..end];
        let r = if m != 0 && is_plain(t, c + 1, m, d, part) {
            0
        } else if k == table::STRUCT {
            check_struct(t, c + 1, table::count(w), d, part)
        } else if k == table::LIST {
            check_list(t, c + 1, d, part)
        } else {
            check_map(
                t,
                c + 1,
                table::after(table::entry_at(t, c + 1, d)),
                d,
                part,
            )
        };
        if r != 0 {
            return in_child(r, slot, cur);
        }
        c = table::after(w);
        cur = next;
        slot += 8;
        i += 1;
    }
    if stop < n {
        return slot + 2;
    }
    if done + (cur - since) != b.len() {
        return 1;
    }
    0
}

// Where the row is broken: the place of its first fault, from its first byte on, and None where it stands for contents of the schema whose
// table this is. The root has its first byte for a slot.
pub fn check_row(t: &[u64], row: &[u8]) -> Option<usize>
    requires { Table t.now × (length row.now ≤ 16384) }
    ensures { checked_means result ≡ fault_at (ro (fields_of (schema_of t.now))) row.now }
{
    match check_struct(t, 1, table::count(table::entry_at(t, 0, 8)), 7, row) {
        0 => None,
        1 => Some(0),
        r => Some(r - 2),
    }
}
