// Lists whose elements are leaves. Each function that judges one answers a number: 0 where there is no fault, 1 for one in the list's
// slot, i + 2 for one at its byte i.
ghost use Rattle.std.specs.Prelude.{◌≡◌, true, cond, [], ◌+◌, ◌*◌, ◌/◌, ◌≤◌, ◌<◌, eqb, length};
ghost use Rattle.words.specs.Bits.{bit};
ghost use Rattle.schema.specs.Types.{text};
ghost use Rattle.standing.specs.Standing.{SlotsIn};
ghost use Rattle.checking.specs.Sound.{fault_from, zeros_then};
ghost use Rattle.checking.specs.Room.{ListRoom, ListEnd, NoNullsIf, NullAsk, text_if, elements, bools, Asked, Unfit, all_vary};

// Before which of a list's elements the values stand where their slots say: asked once, as long as nothing is done.
pub fn items_stand(b: &[u8], n: usize, stop: usize, done: usize) -> usize
    requires { SlotsIn 8 b.now n }
    ensures { Asked (Unfit 8 all_vary b.now n) stop done result }
{
    if done == 0 {
        return standing::unfit_item(b, n);
    }
    stop
}

// Whether no bitmap word of n elements has a bit: one load for 64 elements.
pub fn no_nulls(b: &[u8], n: usize) -> bool
    requires { (length b.now ≤ 16384) × (8 + (n + 63) / 64 * 8 ≤ length b.now) }
    ensures { NoNullsIf b.now n result }
{
    for k in 0..(n + 63) >> 6 {
        if words::nums::get::<8>(b, 8 + 8 * k) != 0 {
            return false;
        }
    }
    true
}

// Whether element i is null: no look where none is.
pub fn null_at(b: &[u8], i: usize, full: bool) -> bool
    requires { NullAsk b.now i full }
    ensures { result ≡ bit b.now 8 i }
{
    if full {
        return false;
    }
    words::nulls::is_null(b, 8, i)
}

// A list's strings with TEXT, and without it its binaries, whose bytes nothing is asked of. Each has its own loop, since the call that
// looks at a string's bytes costs each element what the loop keeps across it.
pub fn check_texts<const TEXT: bool>(b: &[u8], n: usize, slots: usize, start: usize) -> usize
    requires { ListRoom b.now 8 n slots start }
    ensures { result ≡ fault_from 8 8 (elements (text (text_if TEXT)) n) b.now 0 [] }
{
    let full = no_nulls(b, n);
    let mut slot = slots;
    let mut cur = start;
    let mut i: usize = 0;
    let mut stop = n;
    let mut done: usize = 0;
    let mut since: usize = 0;
    while i < stop {
        if null_at(b, i, full) {
            slot += 8;
            i += 1;
            continue;
        }
        let from = words::slots::offset_at(b, slot);
        if from != cur {
            stop = items_stand(b, n, stop, done);
            done += cur - since;
            since = from;
            cur = from;
            continue;
        }
        let end = cur + words::slots::size_at(b, slot);
        if b.len() < end {
            return slot + 2;
        }
        let next = words::sizes::pad_size(end);
        if TEXT && !spelling::is_text_in(b, cur, end, next) {
            return slot + 2;
        }
        if !words::sizes::pad_clear(b, end, next) {
            return words::finds::first_set(b, end, next) + 2;
        }
        cur = next;
        slot += 8;
        i += 1;
    }
    if stop < n {
        return slot + 2;
    }
    if done + (cur - since) != b.len() {
        return 1;
    }
    0
}

// Behind a list's elements of a fixed width, which end at `end`: zeros up to `start`, and nothing after them. Numbers need no other look.
pub fn check_end(b: &[u8], end: usize, start: usize) -> usize
    requires { ListEnd b.now end start }
    ensures { result ≡ zeros_then b.now end start (cond (eqb start (length b.now)) 0 1) }
{
    if !words::sizes::pad_clear(b, end, start) {
        return words::finds::first_set(b, end, start) + 2;
    }
    if start != b.len() {
        return 1;
    }
    0
}

// A list's bools: each that is not null is 0 or 1.
pub fn check_bools(b: &[u8], n: usize, slots: usize, start: usize) -> usize
    requires { ListRoom b.now 1 n slots start }
    ensures { result ≡ fault_from 8 1 (bools n) b.now 0 [] }
{
    for i in 0..n {
        if !words::nulls::is_null(b, 8, i) && 1 < b[slots + i] {
            return slots + i + 2;
        }
    }
    check_end(b, slots + n, start)
}
