// The calls about a stroke log, which take no schema; lines as in `calls`.
use crate::calls;
use crate::requests::Request;
use telling::Line;

// So many numbers may be lent for the chords of a log.
const NUMBERS: usize = 17500;

// The chord added to the log laid over the start of a room: the lower half of the field `value` is its tick, the upper half its keys. The
// window is the first step, and 0 where there is none.
pub fn add(r: Request, out: &mut [u8], line: &mut Line) {
    calls::lay(out, r.second);
    let tick = (r.value & 0xFFFF_FFFF) as u32;
    let keys = (r.value >> 32) as u32;
    let window = r.steps.first().copied().unwrap_or(0);
    let length = strokes::add(out, r.second.len(), tick, keys, window);
    telling::length(line, length, out);
}

// The field `room` counts numbers.
pub fn read(r: Request, line: &mut Line) {
    if NUMBERS < r.room {
        return;
    }
    let mut numbers = [0; NUMBERS];
    let out = &mut numbers[..r.room];
    let length = strokes::read(r.second, out);
    telling::numbers(line, length, out);
}
