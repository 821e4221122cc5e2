// The first child of a container whose value can't stand where its slot says, alone or beside those before it: by the slots alone, for
// containers whose values stand in any order.
#![tactic(auto)]

ghost use Rattle.std.specs.Prelude.{true, ◌+◌, ◌*◌};
ghost use Rattle.words.specs.Bytes.{bitmap};
ghost use Rattle.standing.specs.Standing.{SlotsIn, FieldsFrom, FirstUnfit, field_varies};

mod maps;

// The first of a list's n elements, which vary in size; n where all may stand.
pub fn unfit_item(b: &[u8], n: usize) -> usize
    requires { SlotsIn 8 b.now n }
    ensures { FirstUnfit 8 (8 + bitmap n) (8 + bitmap n + 8 * n) (λ _. true) b.now n result }
{
    let slots = 8 + words::sizes::bitmap_size(n);
    let start = slots + 8 * n;
    let mut map = [0u8; 792];
    for i in 0..n {
        if !maps::place_child(&mut map, b, 8, i, slots + 8 * i, start) {
            return i;
        }
    }
    n
}

// The first of a struct's n fields, whose types stand from a place of the table on; n where all may stand. A fixed width has no value
// outside its slot.
pub fn unfit_field(t: &[u64], first: usize, n: usize, depth: usize, b: &[u8]) -> usize
    requires { FieldsFrom t.now first depth n b.now }
    ensures { FirstUnfit 0 (bitmap n) (bitmap n + 8 * n) (field_varies t.now first depth n) b.now n result }
{
    let slots = words::sizes::bitmap_size(n);
    let start = slots + 8 * n;
    let mut map = [0u8; 792];
    let mut at = first;
    for i in 0..n {
        let w = table::entry_at(t, at, depth);
        at = table::after(w);
        if table::place(w) < table::STRING {
            continue;
        }
        if !maps::place_child(&mut map, b, 0, i, slots + 8 * i, start) {
            return i;
        }
    }
    n
}
