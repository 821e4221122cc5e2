// A request: its head, the table behind it where one is lent, and the parts that it announces.
use crate::calls;
use crate::calls::WORDS;
use std::io::{Read, Result, Write};
use telling::Line;
use words::nums;

// The longest parts that a request may have; what it may ask to be lent, `calls` says.
const SCHEMA: usize = 20000;

const SECOND: usize = 70000;

const STEPS: usize = 64;

const THIRD: usize = 20000;

pub const PARTS: usize = SCHEMA + SECOND + 4 * STEPS + THIRD;

const HEAD: usize = 30;

// The bit of a kind that says: by a table.
const BY_TABLE: u8 = 0x80;

// The lengths count bytes, `steps` the steps of 4 bytes each, and `room` the bytes lent for an output, the words for a table, or the numbers
// for a log's chords.
#[derive(Clone, Copy)]
struct Head {
    op: u8,
    schema: usize,
    second: usize,
    steps: usize,
    room: usize,
    third: usize,
    by_table: bool,
    kind: u8,
    value: u64,
}

// The same with the parts for their lengths.
#[derive(Clone, Copy)]
pub struct Request<'a> {
    pub op: u8,
    pub table: Option<&'a [u64]>,
    pub schema: &'a [u8],
    pub second: &'a [u8],
    pub steps: &'a [u32],
    pub room: usize,
    pub third: &'a [u8],
    pub kind: u32,
    pub value: u64,
}

fn head_of(bytes: &[u8; HEAD]) -> Head {
    Head {
        op: bytes[0],
        schema: nums::get::<4>(bytes, 1) as usize,
        second: nums::get::<4>(bytes, 5) as usize,
        steps: nums::get::<4>(bytes, 9) as usize,
        room: nums::get::<4>(bytes, 13) as usize,
        third: nums::get::<4>(bytes, 17) as usize,
        by_table: BY_TABLE <= bytes[21],
        kind: bytes[21] % BY_TABLE,
        value: nums::get::<8>(bytes, 22),
    }
}

// The table behind the head, which then stands at the start of the lent words; none where it is longer or cut short. Its bytes go through
// the room of the parts, which are read after them.
fn read_table<'a, R: Read>(
    from: &mut R,
    body: &mut [u8; PARTS],
    words: &'a mut [u64; WORDS],
) -> Result<Option<&'a [u64]>> {
    if streams::fill(from, &mut body[..4])? < 4 {
        return Ok(None);
    }
    let n = nums::get::<4>(body, 0) as usize;
    if WORDS < n {
        return Ok(None);
    }
    let end = 8 * n;
    if streams::fill(from, &mut body[..end])? < end {
        return Ok(None);
    }
    for (word, bytes) in words.iter_mut().zip(body[..end].chunks_exact(8)) {
        *word = nums::get::<8>(bytes, 0);
    }
    Ok(Some(&words[..n]))
}

// The line of a request, written; false where it has none.
fn write_line<W: Write>(to: &mut W, line: &mut Line) -> Result<bool> {
    if line.as_bytes().is_empty() {
        return Ok(false);
    }
    line.byte(b'\n');
    to.write_all(line.as_bytes())?;
    Ok(true)
}

// The parts of a request and its line; false where it is beyond the limits, cut short, or of no op.
fn serve_parts<R: Read, W: Write>(
    from: &mut R,
    to: &mut W,
    h: Head,
    table: Option<&[u64]>,
    body: &mut [u8; PARTS],
    out: &mut [u8],
    line: &mut [u8],
) -> Result<bool> {
    if SCHEMA < h.schema || SECOND < h.second || STEPS < h.steps || THIRD < h.third {
        return Ok(false);
    }
    let end = h.schema + h.second + 4 * h.steps + h.third;
    if streams::fill(from, &mut body[..end])? < end {
        return Ok(false);
    }
    let (schema, rest) = body[..end].split_at(h.schema);
    let (second, rest) = rest.split_at(h.second);
    let (bytes, third) = rest.split_at(4 * h.steps);
    let mut steps = [0; STEPS];
    for (step, bytes) in steps.iter_mut().zip(bytes.chunks_exact(4)) {
        *step = nums::get::<4>(bytes, 0) as u32;
    }
    let mut line = Line::new(line);
    let request = Request {
        op: h.op,
        table,
        schema,
        second,
        steps: &steps[..h.steps],
        room: h.room,
        third,
        kind: u32::from(h.kind),
        value: h.value,
    };
    calls::answer(request, out, &mut line);
    write_line(to, &mut line)
}

// The same, with the table behind the head.
fn serve<R: Read, W: Write>(
    from: &mut R,
    to: &mut W,
    h: Head,
    body: &mut [u8; PARTS],
    out: &mut [u8],
    line: &mut [u8],
) -> Result<bool> {
    if !h.by_table {
        return serve_parts(from, to, h, None, body, out, line);
    }
    let mut words = [0; WORDS];
    match read_table(from, body, &mut words)? {
        None => Ok(false),
        table => serve_parts(from, to, h, table, body, out, line),
    }
}

fn end_run<W: Write>(to: &mut W) -> Result<bool> {
    to.write_all(b"end\n")?;
    Ok(false)
}

// Whether the run goes on after one more request.
pub fn next<R: Read, W: Write>(
    from: &mut R,
    to: &mut W,
    body: &mut [u8; PARTS],
    out: &mut [u8],
    line: &mut [u8],
) -> Result<bool> {
    let mut bytes = [0; HEAD];
    match streams::fill(from, &mut bytes)? {
        0 => Ok(false),
        HEAD => Ok(serve(from, to, head_of(&bytes), body, out, line)? || end_run(to)?),
        _ => end_run(to),
    }
}
