// One call of the library for each op, by the lent table where there is one, and its line: it stays empty where there is no call.
use crate::requests::Request;
use crate::{calls_catalogue, calls_log};
use codes::path_of;
use telling::Line;

// So many words a table may have, lent by the request or for the answer.
pub const WORDS: usize = 1024;

// What the bytes and the words lent for an answer hold before the call.
pub const BYTE: u8 = 0xAA;

const WORD: u64 = 0xAAAA_AAAA_AAAA_AAAA;

fn judge(r: Request, line: &mut Line) {
    let code = match r.table {
        None => desk::loaf_judge(r.schema),
        Some(t) => desk::tables::loaf_judge_by(r.schema, t),
    };
    telling::verdict(line, code);
}

fn check(r: Request, line: &mut Line) {
    let code = match r.table {
        None => desk::loaf_check(r.schema, r.second),
        Some(t) => desk::tables::loaf_check_by(r.schema, t, r.second),
    };
    telling::verdict(line, code);
}

fn write(r: Request, out: &mut [u8], line: &mut Line) {
    out.fill(BYTE);
    let code = match r.table {
        None => desk::loaf_write(r.schema, r.second, out),
        Some(t) => desk::tables::loaf_write_by(r.schema, t, r.second, out),
    };
    telling::output(line, code, out);
}

fn list(r: Request, out: &mut [u8], line: &mut Line) {
    out.fill(BYTE);
    let code = match r.table {
        None => desk::loaf_list(r.schema, r.second, out),
        Some(t) => desk::tables::loaf_list_by(r.schema, t, r.second, out),
    };
    telling::output(line, code, out);
}

fn read(r: Request, line: &mut Line) {
    let path = path_of(r.steps);
    let answer = match r.table {
        None => row::read(r.schema, r.second, path),
        Some(t) => lent::read_by(r.schema, t, r.second, path),
    };
    telling::answer(line, answer);
}

fn ask(r: Request, line: &mut Line) {
    let path = path_of(r.steps);
    let answer = match r.table {
        None => row::ask_once(r.schema, r.second, path),
        Some(t) => lent::ask_once_by(r.schema, t, r.second, path),
    };
    telling::answer(line, answer);
}

fn text(r: Request, line: &mut Line) {
    let path = path_of(r.steps);
    let text = match r.table {
        None => row::text_or(r.schema, r.second, path, r.third),
        Some(t) => lent::text_or_by(r.schema, t, r.second, path, r.third),
    };
    telling::text(line, text);
}

// The field `room` is the row's number.
fn fetch(r: Request, line: &mut Line) {
    let fetched = match r.table {
        None => batch::fetch(r.schema, r.second, r.room),
        Some(t) => lent::batches::fetch_by(r.schema, t, r.second, r.room),
    };
    telling::fetched(line, fetched);
}

fn check_batch(r: Request, line: &mut Line) {
    let checked = match r.table {
        None => batch::check(r.schema, r.second),
        Some(t) => lent::batches::check_by(r.schema, t, r.second),
    };
    telling::checked(line, checked);
}

// The field `room` is the row's number.
fn read_in_batch(r: Request, line: &mut Line) {
    let path = path_of(r.steps);
    let answer = match r.table {
        None => batch::read(r.schema, r.second, r.room, path),
        Some(t) => lent::batches::read_by(r.schema, t, r.second, r.room, path),
    };
    telling::answer(line, answer);
}

// A batch or a log laid over the start of a room; a longer one is cut.
pub fn lay(out: &mut [u8], bytes: &[u8]) {
    out.fill(BYTE);
    let n = bytes.len().min(out.len());
    out[..n].copy_from_slice(&bytes[..n]);
}

// The row appended to the batch there, which says how long it is where it was cut, too.
fn append(r: Request, out: &mut [u8], line: &mut Line) {
    lay(out, r.second);
    let used = r.second.len();
    let length = match r.table {
        None => batch::append(r.schema, out, used, r.third),
        Some(t) => lent::batches::append_by(r.schema, t, out, used, r.third),
    };
    telling::length(line, length, out);
}

// A copy of lent bytes at the start of a room that holds it, for a call that changes it: the request lies in one piece, which the schema
// and the third are lent from too.
pub fn copied<'a>(bytes: &[u8], out: &'a mut [u8]) -> Option<&'a mut [u8]> {
    let n = bytes.len();
    if out.len() < n {
        return None;
    }
    let copy = &mut out[..n];
    copy.copy_from_slice(bytes);
    Some(copy)
}

fn set_row(r: Request, row: &mut [u8]) -> u64 {
    match r.table {
        None => desk::loaf_set(r.schema, row, r.steps, r.kind, r.value, r.third),
        Some(t) => {
            desk::tables::loaf_set_by(r.schema, t, row, r.steps, r.kind, r.value, r.third)
        }
    }
}

// The field `room` is the row's number.
fn set_in_batch(r: Request, batch: &mut [u8]) -> u64 {
    match r.table {
        None => desk::batches::loaf_batch_set(
            r.schema, batch, r.room, r.steps, r.kind, r.value, r.third,
        ),
        Some(t) => desk::tables::loaf_batch_set_by(
            r.schema, t, batch, r.room, r.steps, r.kind, r.value, r.third,
        ),
    }
}

fn set(r: Request, out: &mut [u8], line: &mut Line) {
    if let Some(copy) = copied(r.second, out) {
        let code = match r.op {
            b'z' => set_in_batch(r, copy),
            _ => set_row(r, copy),
        };
        telling::bytes(line, code, copy);
    }
}

// The field `room` counts words.
fn work_out(r: Request, line: &mut Line) {
    if WORDS < r.room {
        return;
    }
    let mut words = [WORD; WORDS];
    let out = &mut words[..r.room];
    let code = desk::tables::loaf_table(r.schema, out);
    telling::table(line, code, out);
}

// None also where the room is more than there is to lend.
pub fn answer(r: Request, out: &mut [u8], line: &mut Line) {
    let room = r.room;
    if out.len() < room {
        return;
    }
    match r.op {
        b'j' => judge(r, line),
        b'c' => check(r, line),
        b'w' => write(r, &mut out[..room], line),
        b'l' => list(r, &mut out[..room], line),
        b's' | b'z' => set(r, out, line),
        b'r' => read(r, line),
        b'o' => ask(r, line),
        b't' => text(r, line),
        b'f' => fetch(r, line),
        b'k' => check_batch(r, line),
        b'A' => append(r, &mut out[..room], line),
        b'g' => read_in_batch(r, line),
        b'a' => calls_catalogue::add(r, out, line),
        // The others take no table.
        _ if r.table.is_some() => {}
        b'n' => telling::count(line, batch::count(r.second)),
        b'T' => work_out(r, line),
        b'L' => calls_log::add(r, &mut out[..room], line),
        b'R' => calls_log::read(r, line),
        b'C' => telling::struck(line, strokes::chord(r.second, room)),
        b'x' => calls_catalogue::check(r, line),
        b'y' => calls_catalogue::read(r, line),
        b'v' => calls_catalogue::set(r, out, line),
        b'W' => calls_catalogue::write(r, &mut out[..room], line),
        b'I' => calls_catalogue::list(r, &mut out[..room], line),
        _ => {}
    }
}
