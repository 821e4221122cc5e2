// The frames of a batch, walked from the first byte on.
ghost use Rattle.std.specs.Prelude.{◌≡◌, ◌+◌, ◌≤◌, length};
ghost use Rattle.std.proofs.lemmas.List.Edits.{sets};
ghost use Rattle.batch.specs.Frames.{be};
ghost use Rattle.batch.specs.Entries.{count_of};
ghost use Rattle.batch.specs.Meaning.{count_means};
ghost use Rattle.batch.specs.Places.{Says, PutsRow, FrameEnd, Passed, no_frame, Finds};

use answers::{Refusal, Span};
use words::nums::wide;

// The size that 4 bytes say, the highest first.
fn size_at(b: &[u8], at: usize) -> usize
    requires { at + 4 ≤ length b.now }
    ensures { Says b.now at result }
{
    let x3 = wide(b[at]);
    let x2 = wide(b[at + 1]);
    let x1 = wide(b[at + 2]);
    let x0 = wide(b[at + 3]);
    let size = x0 | (x1 << 8) | (x2 << 16) | (x3 << 24);
    size as usize
}

// A size as 4 bytes, the highest first.
fn put_size(b: &mut [u8], at: usize, size: usize)
    requires { at + 4 ≤ length b.old }
    ensures { b.new ≡ sets b.old at (be 4 size) }
{
    b[at] = ((size >> 24) & 0xFF) as u8;
    b[at + 1] = ((size >> 16) & 0xFF) as u8;
    b[at + 2] = ((size >> 8) & 0xFF) as u8;
    b[at + 3] = (size & 0xFF) as u8;
}

// A row in its frame behind the first `used` bytes of a room: the new length, or refused with 4. A checked row is as short as is asked here,
// so the sum of the lengths doesn't wrap.
pub fn put_row(room: &mut [u8], used: usize, row: &[u8]) -> Result<usize, Refusal>
    requires { (used ≤ length room.old) × (length row.now ≤ 16384) }
    ensures { PutsRow room.old used row.now result room.new }
{
    let size = row.len();
    let needed = used + 4 + size;
    if room.len() < needed {
        return Err(Refusal::Room { needed });
    }
    put_size(room, used, size);
    words::copies::copy(room, used + 4, row, 0, size);
    Ok(needed)
}

// The end of the frame at a place, if the bytes do not end inside it. No sum wraps: a slice has less than 2^63 bytes.
pub fn frame_end(b: &[u8], at: usize) -> Option<usize>
    requires { at ≤ length b.now }
    ensures { FrameEnd b.now at result }
{
    let start = at + 4;
    if b.len() < start {
        return None;
    }
    let end = start + size_at(b, at);
    if b.len() < end {
        return None;
    }
    Some(end)
}

// The frames of the whole batch, of which n stand before a place.
pub fn count_on(b: &[u8], from: usize, before: usize) -> Result<usize, Refusal>
    requires { Passed b.now from before }
    ensures { count_means result ≡ count_of b.now }
{
    let mut at = from;
    let mut n = before;
    while at < b.len() {
        at = frame_end(b, at).ok_or(Refusal::Batch)?;
        n += 1;
    }
    Ok(n)
}

// What it means that no frame ends behind a place before row k.
fn no_frame(b: &[u8], at: usize) -> Refusal
    ensures { result ≡ no_frame b.now at }
{
    if at == b.len() {
        Refusal::NoPlace
    } else {
        Refusal::Batch
    }
}

// Where row k stands, or refused with 10 or 5. The whole batch is judged, to its end.
pub fn find(b: &[u8], k: usize) -> Result<Span, Refusal>
    ensures { Finds b.now k result }
{
    let mut at = 0;
    for _ in 0..k {
        let Some(end) = frame_end(b, at) else {
            return Err(no_frame(b, at));
        };
        at = end;
    }
    let Some(end) = frame_end(b, at) else {
        return Err(no_frame(b, at));
    };
    count_on(b, end, k + 1)?;
    Ok(Span { start: at + 4, end })
}
