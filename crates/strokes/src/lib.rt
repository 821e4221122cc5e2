// The stroke log: a batch whose rows hold a chord or two, a tick and a key mask each. Each entry takes any bytes of any length and ends with
// a result or a numbered refusal: the log is judged whole, and then 11 and 5.
#![tactic(auto)]

ghost use Rattle.std.specs.Prelude.{◌≡◌, ◌+◌, ◌<◌, ◌≤◌, [], ◌∷◌, length, take, slice_index_or};
ghost use Rattle.std.proofs.Math.Option.{none, some};
ghost use Rattle.std.proofs.lemmas.List.Edits.{sets};
ghost use Rattle.batch.specs.Entries.{rows_of};
ghost use Rattle.chords.specs.Chords.{chord, row_for};
ghost use Rattle.chords.specs.Places.{Keeps};
ghost use Rattle.strokes.specs.Log.{chords_in, chords_of, joins as row_joins};
ghost use Rattle.strokes.specs.Entries.{numbers_of, numbers_in, chord_of};
ghost use Rattle.strokes.specs.Meaning.{Adds, ReadsAll, chord_means};
ghost use Rattle.strokes.specs.Places.{PutsFrame, Sound, Ends, JudgedAs, RefusedAt, AddsTo};

use answers::Refusal;
use batch::frames;
use chords::Chord;

// What judging a log tells of it: where the frame of its last row starts, and how many chords it has.
#[derive(Clone, Copy)]
struct Judged {
    last: usize,
    count: usize,
}

// The refusal of a row whose frame is the n-th and ends at a place: 10 of the whole log comes before it.
fn refuse_row(log: &[u8], end: usize, n: usize, r: Refusal) -> Refusal
    requires { RefusedAt log.now end n r }
    ensures { JudgedAs log.now (Err result) }
{
    match frames::count_on(log, end, n) {
        Ok(_) => r,
        Err(_) => Refusal::Batch,
    }
}

// How many chords a row of a log holds.
fn chords_in(row: &[u8]) -> usize
    requires { Keeps row.now }
    ensures { (result ≡ length (chords_in row.now)) × (result ≤ 2) }
{
    if chords::is_single(row) { 1 } else { 2 }
}

// Frames and rows in one walk; behind a refused row the frames alone are looked at.
fn judge_log(log: &[u8]) -> Result<Judged, Refusal>
    ensures { JudgedAs log.now result }
{
    let mut at = 0;
    let mut n = 0;
    let mut last = 0;
    let mut count = 0;
    while at < log.len() {
        let end = frames::frame_end(log, at).ok_or(Refusal::Batch)?;
        let row = &log[at + 4..end];
        if let Err(r) = chords::judge(row) {
            return Err(refuse_row(log, end, n + 1, r));
        }
        count += chords_in(row);
        n += 1;
        last = at;
        at = end;
    }
    Ok(Judged { last, count })
}

// A row in its frame from a place on: the new length, or refused with 11.
fn put_frame(room: &mut [u8], at: usize, row: &[u8]) -> Result<usize, Refusal>
    requires { (at ≤ length room.old) × (length row.now ≤ 16384) }
    ensures { PutsFrame room.old at row.now result room.new }
{
    frames::put_row(room, at, row).or(Err(Refusal::Log))
}

fn put_one(room: &mut [u8], at: usize, c: Chord) -> Result<usize, Refusal>
    requires { at ≤ length room.old }
    ensures { PutsFrame room.old at (row_for c none) result room.new }
{
    let mut row = [0u8; 48];
    chords::fill_one(&mut row, c);
    put_frame(room, at, &row)
}

fn put_two(room: &mut [u8], at: usize, c: Chord, d: Chord) -> Result<usize, Refusal>
    requires { at ≤ length room.old }
    ensures { PutsFrame room.old at (row_for c (some d)) result room.new }
{
    let mut row = [0u8; 72];
    chords::fill_two(&mut row, c, d);
    put_frame(room, at, &row)
}

// Whether the row takes a chord of that tick into its second place: it is free, and the gap from the first chord is at most the window. The
// tick counter starts again at zero, so the difference wraps.
fn joins(row: &[u8], tick: u32, window: u32) -> bool
    requires { Keeps row.now }
    ensures { result ≡ row_joins row.now tick window }
{
    if !chords::is_single(row) {
        return false;
    }
    let first = chords::chord_at(row, 0);
    std::num::wrapping_sub_u32(tick, first.tick) <= window
}

// A chord added to the log that the first `used` bytes of a room are, the last row's frame at a place: the row it goes into is laid down
// where its frame begins, and nothing before that is written.
fn add_to(
    room: &mut [u8],
    used: usize,
    last: usize,
    c: Chord,
    window: u32,
) -> Result<usize, Refusal>
    requires { (used ≤ length room.old) × Ends (take used room.old) last }
    ensures { AddsTo room.old (rows_of (take used room.old)) c window result room.new }
{
    if used <= last {
        return put_one(room, used, c);
    }
    let start = last + 4;
    if !joins(&room[start..used], c.tick, window) {
        return put_one(room, used, c);
    }
    let first = chords::chord_at(&room[start..used], 0);
    put_two(room, last, first, c)
}

// A chord added to the log that the first `used` bytes of a room are: the new length, or refused with 10, 3, 7 or 11.
pub fn add(
    room: &mut [u8],
    used: usize,
    tick: u32,
    keys: u32,
    window: u32,
) -> Result<usize, Refusal>
    ensures { Adds room.old used (chord tick keys) window result room.new }
{
    if room.len() < used {
        return Err(Refusal::Batch);
    }
    let judged = judge_log(&room[..used])?;
    if 1000 < window {
        return Err(Refusal::Log);
    }
    add_to(room, used, judged.last, Chord { tick, keys }, window)
}

// The numbers of a chord from place i on.
fn put_chord(out: &mut [u32], i: usize, c: Chord)
    requires { i + 2 ≤ length out.old }
    ensures { out.new ≡ sets out.old i (numbers_of (c ∷ [])) }
{
    out[i] = c.tick;
    out[i + 1] = c.keys;
}

// The numbers of a row's chords from place i on, and the place behind them.
fn put_row(out: &mut [u32], i: usize, row: &[u8]) -> usize
    requires { Keeps row.now × (i + length (numbers_of (chords_in row.now)) ≤ length out.old) }
    ensures { (result ≡ i + length (numbers_of (chords_in row.now)))
        × (out.new ≡ sets out.old i (numbers_of (chords_in row.now))) }
{
    put_chord(out, i, chords::chord_at(row, 0));
    if chords::is_single(row) {
        return i + 2;
    }
    put_chord(out, i + 2, chords::chord_at(row, 1));
    i + 4
}

// The numbers of all chords of an accepted log.
fn put_chords(log: &[u8], out: &mut [u32])
    requires { Sound log.now × (length (numbers_in log.now) ≤ length out.old) }
    ensures { out.new ≡ sets out.old 0 (numbers_in log.now) }
{
    let mut at = 0;
    let mut i = 0;
    while let Some(end) = frames::frame_end(log, at) {
        i = put_row(out, i, &log[at + 4..end]);
        at = end;
    }
}

// All chords of a log, tick, keys, tick, keys .. from the start of the lent numbers on: how many numbers, or refused with 10, 3, 7 or 11.
pub fn read(log: &[u8], out: &mut [u32]) -> Result<usize, Refusal>
    ensures { ReadsAll log.now out.old result out.new }
{
    let needed = 2 * judge_log(log)?.count;
    if out.len() < needed {
        return Err(Refusal::Log);
    }
    put_chords(log, out);
    Ok(needed)
}

// Chord n of an accepted log that has it.
fn find(log: &[u8], n: usize) -> Chord
    requires { Sound log.now × (n < length (chords_of (rows_of log.now))) }
    ensures { result ≡ slice_index_or (chords_of (rows_of log.now)) n (chord 0 0) }
{
    let mut at = 0;
    let mut left = n;
    while let Some(end) = frames::frame_end(log, at) {
        let row = &log[at + 4..end];
        let held = chords_in(row);
        if left < held {
            return chords::chord_at(row, left);
        }
        left -= held;
        at = end;
    }
    unreachable!()
}

// Chord n of a log, counted from 0: the chord, or refused with 10, 3, 7 or 5.
pub fn chord(log: &[u8], n: usize) -> Result<Chord, Refusal>
    ensures { chord_means result ≡ chord_of log.now n }
{
    if judge_log(log)?.count <= n {
        return Err(Refusal::NoPlace);
    }
    Ok(find(log, n))
}
