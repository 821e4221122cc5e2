// One row of a log: which rows a log may have, the chords that a row holds, and the row that holds a chord or two.
#![tactic(auto)]

ghost use Rattle.std.specs.Prelude.{◌≡◌, true, false, ◌+◌, ◌*◌, ◌≤◌, ◌<◌, length};
ghost use Rattle.std.proofs.Math.Option.{none, some};
ghost use Rattle.std.proofs.lemmas.List.Edits.{sets};
ghost use Rattle.layout.specs.Entries.{verdict};
ghost use Rattle.answers.specs.Meaning.{outcome_means};
ghost use Rattle.chords.specs.Chords.{chord, row_for, no_stroke, chord_at, nulls_bad, row_bad};
ghost use Rattle.chords.specs.Plain.{SeesStroke, TwoSlots};
ghost use Rattle.chords.specs.Places.{Checked, Keeps, lacks, stroke_bytes};

use answers::Refusal;
use words::nulls::is_null;
use words::nums::{get, put};
use words::slots::{offset_at, slot};

// A tick and a key mask.
#[derive(Clone, Copy)]
pub struct Chord {
    pub tick: u32,
    pub keys: u32,
}

// The table of the schema of every row: `ro` 2, and twice `ro` 2 `i4` `i4`.
const TABLE: [u64; 7] = [
    0x1C0_1021_B000_6F72,
    0x100_2022_B000_6F72,
    0xC0_3003_311F_3469,
    0x100_4003_311F_3469,
    0x1C0_5022_B000_6F72,
    0x180_6003_311F_3469,
    0x1C0_7003_311F_3469,
];

// The tick or the keys of the stroke that starts at a place is null.
fn lacks(row: &[u8], at: usize) -> bool
    requires { at < length row.now }
    ensures { result ≡ lacks row.now at }
{
    if is_null(row, at, 0) {
        return true;
    }
    is_null(row, at, 1)
}

// Only the second stroke of a row may be null: done, or refused with 7 at the byte of the bitmap that says otherwise.
fn judge_nulls(row: &[u8]) -> Result<(), Refusal>
    requires { Checked row.now }
    ensures { outcome_means result ≡ verdict (nulls_bad row.now) }
{
    if is_null(row, 0, 0) {
        return Err(Refusal::Layout { place: 0 });
    }
    let first = offset_at(row, 8);
    if lacks(row, first) {
        return Err(Refusal::Layout { place: first });
    }
    if is_null(row, 0, 1) {
        return Ok(());
    }
    let second = offset_at(row, 16);
    if lacks(row, second) {
        return Err(Refusal::Layout { place: second });
    }
    Ok(())
}

// A stroke without a null, and nothing behind its numbers.
fn is_stroke(row: &[u8], at: usize) -> bool
    requires { at + 24 ≤ length row.now }
    ensures { SeesStroke row.now at result }
{
    (get::<8>(row, at) | (get::<8>(row, at + 8) >> 32) | (get::<8>(row, at + 16) >> 32)) == 0
}

// The slots of two strokes, the first stroke behind the fixed part or behind the second.
fn are_slots(first: u64, second: u64) -> bool
    ensures { result ≡ true → TwoSlots first second }
{
    if first == slot(24, 24) {
        return second == slot(48, 24);
    }
    if first == slot(48, 24) {
        return second == slot(24, 24);
    }
    false
}

// One chord, whatever lies under the null.
fn is_one(row: &[u8]) -> bool
    requires { length row.now ≡ 48 }
    ensures { result ≡ true → row_bad row.now ≡ none }
{
    if get::<8>(row, 0) != 2 {
        return false;
    }
    if get::<8>(row, 8) != slot(24, 24) {
        return false;
    }
    is_stroke(row, 24)
}

// Two chords, in either order.
fn is_two(row: &[u8]) -> bool
    requires { length row.now ≡ 72 }
    ensures { result ≡ true → row_bad row.now ≡ none }
{
    if get::<8>(row, 0) != 0 {
        return false;
    }
    if !are_slots(get::<8>(row, 8), get::<8>(row, 16)) {
        return false;
    }
    if !is_stroke(row, 24) {
        return false;
    }
    is_stroke(row, 48)
}

// Whether a row has one of the three forms that a log's rows have, seen without the general checker; a no says nothing.
fn is_plain(row: &[u8]) -> bool
    ensures { result ≡ true → row_bad row.now ≡ none }
{
    if row.len() == 48 {
        return is_one(row);
    }
    if row.len() == 72 {
        return is_two(row);
    }
    false
}

// Whether a log may have the row: done, or refused with 3 or 7.
pub fn judge(row: &[u8]) -> Result<(), Refusal>
    ensures { outcome_means result ≡ verdict (row_bad row.now) }
{
    if is_plain(row) {
        return Ok(());
    }
    engine::check(&TABLE, row)?;
    judge_nulls(row)
}

// Whether the second place is free.
pub fn is_single(row: &[u8]) -> bool
    requires { Keeps row.now }
    ensures { result ≡ no_stroke row.now 1 }
{
    is_null(row, 0, 1)
}

// The chord of stroke i, which is not null.
pub fn chord_at(row: &[u8], i: usize) -> Chord
    requires { Keeps row.now × (i < 2) × (no_stroke row.now i ≡ false) }
    ensures { result ≡ chord_at row.now i }
{
    let at = offset_at(row, 8 + 8 * i);
    Chord {
        tick: get::<4>(row, at + 8) as u32,
        keys: get::<4>(row, at + 16) as u32,
    }
}

// A stroke's 24 bytes.
fn put_stroke(row: &mut [u8], at: usize, tick: u32, keys: u32)
    requires { at + 24 ≤ length row.old }
    ensures { row.new ≡ sets row.old at (stroke_bytes (chord tick keys)) }
{
    put::<8>(row, at, 0);
    put::<8>(row, at + 8, tick as u64);
    put::<8>(row, at + 16, keys as u64);
}

// The row of one chord: bit 1 of its bitmap is set.
pub fn fill_one(row: &mut [u8], c: Chord)
    requires { length row.old ≡ 48 }
    ensures { row.new ≡ row_for c none }
{
    put::<8>(row, 0, 2);
    put::<8>(row, 8, slot(24, 24));
    put::<8>(row, 16, 0);
    put_stroke(row, 24, c.tick, c.keys);
}

// The row of two chords.
pub fn fill_two(row: &mut [u8], c: Chord, d: Chord)
    requires { length row.old ≡ 72 }
    ensures { row.new ≡ row_for c (some d) }
{
    put::<8>(row, 0, 0);
    put::<8>(row, 8, slot(24, 24));
    put::<8>(row, 16, slot(48, 24));
    put_stroke(row, 24, c.tick, c.keys);
    put_stroke(row, 48, d.tick, d.keys);
}
