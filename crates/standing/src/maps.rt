// Which units of 8 bytes of a container's variable data are taken, where values stand in any order: three bitmaps in 792 bytes. From
// byte 0 on the units that are covered, from byte 264 on the units' starts that lie inside a value, from byte 528 on those at which an
// empty value stands.
ghost use Rattle.std.specs.Prelude.{◌≡◌, ◌+◌, ◌-◌, ◌≤◌, ◌<◌, length};
ghost use Rattle.standing.specs.Maps.{clear_from, marked, admits, admitted};
ghost use Rattle.standing.specs.Standing.{ChildRoom, PlacingChild};

// No bit from a up to b is set.
fn clear(m: &[u8], at: usize, a: usize, b: usize) -> bool
    requires { (a ≤ b) × (b ≤ 2048) × (at + 257 ≤ length m.now) × (at ≤ 528) }
    ensures { result ≡ clear_from m.now at a (b - a) }
{
    for q in a..b {
        if words::nulls::is_null(m, at, q) {
            return false;
        }
    }
    true
}

// The bits from a up to b are set.
fn mark(m: &mut [u8], at: usize, a: usize, b: usize)
    requires { (a ≤ b) × (b ≤ 2048) × (at + 257 ≤ length m.old) × (at ≤ 528) }
    ensures { m.new ≡ marked m.old at a (b - a) }
{
    for q in a..b {
        words::nulls::set_null(m, at, q);
    }
}

// Unit a is taken if nothing took it before: its bit set in a whole word is one instruction, in a byte four.
fn take(m: &mut [u8], a: usize) -> bool
    requires { (a < 2048) × (length m.old ≡ 792) }
    ensures { (result ≡ admits m.old a (a + 1)) × (m.new ≡ admitted m.old a (a + 1) result) }
{
    let old = words::nums::wide(m[a >> 3]);
    let new = old | 1 << (a & 7);
    if new == old {
        return false;
    }
    m[a >> 3] = new as u8;
    true
}

// A value that takes the units from a up to b stands apart from those that were admitted, and is then admitted too.
fn admit(m: &mut [u8], a: usize, b: usize) -> bool
    requires { (a ≤ b) × (b ≤ 2048) × (length m.old ≡ 792) }
    ensures { (result ≡ admits m.old a b) × (m.new ≡ admitted m.old a b result) }
{
    if a == b {
        if words::nulls::is_null(m, 264, a) {
            return false;
        }
        words::nulls::set_null(m, 528, a);
        return true;
    }
    if !clear(m, 0, a, b) {
        return false;
    }
    if !clear(m, 528, a + 1, b) {
        return false;
    }
    mark(m, 0, a, b);
    mark(m, 264, a + 1, b);
    true
}

// Child i of b, whose slot stands at `slot` and whose null bit behind a header of h bytes, may stand beside those that were placed before:
// a null has no value.
pub fn place_child(m: &mut [u8], b: &[u8], h: usize, i: usize, slot: usize, start: usize) -> bool
    requires { ChildRoom m.old b.now h i slot }
    ensures { PlacingChild m.old b.now h i slot start result m.new }
{
    if words::nulls::is_null(b, h, i) {
        return true;
    }
    let from = words::slots::offset_at(b, slot);
    if from < start {
        return false;
    }
    // b is whole units: what ends in it ends there with its padding too
    let size = words::slots::size_at(b, slot);
    let end = from + size;
    if b.len() < end {
        return false;
    }
    if from & 7 != 0 {
        return false;
    }
    // most values take one unit, and nothing can stand inside one
    if size != 0 && size <= 8 {
        return take(m, from >> 3);
    }
    admit(m, from >> 3, words::sizes::pad_size(end) >> 3)
}
