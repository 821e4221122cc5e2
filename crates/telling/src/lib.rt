// What a call answered, as text in a lent line. Each function is proved safe and ending; the text is tested, and not promised.
#![tactic(auto)]

use answers::{Answer, Refusal, floats, refusals};
use batch::{Fault, Fetched};
use chords::Chord;

mod lines;

pub use lines::Line;

// A refusal's number, and its length or its place: none has both.
fn refused(line: &mut Line, r: Refusal) {
    let low = refusals::length(r) as u64 | refusals::place(r) as u64;
    refused_with(line, u64::from(refusals::number(r)), low);
}

fn refused_with(line: &mut Line, number: u64, low: u64) {
    line.text(b"refused");
    line.number(number);
    line.number(low);
}

fn named(line: &mut Line, name: &[u8], n: u64) {
    line.text(name);
    line.number(n);
}

// A code whose upper half is a refusal's number, 0 for done.
pub fn verdict(line: &mut Line, code: u64) {
    match code >> 32 {
        0 => line.text(b"done"),
        number => refused_with(line, number, code & 0xFFFF_FFFF),
    }
}

// The same for a code that is a number where the call is done: a name stands before it.
fn sized(line: &mut Line, name: &[u8], code: u64) {
    match code >> 32 {
        0 => named(line, name, code),
        number => refused_with(line, number, code & 0xFFFF_FFFF),
    }
}

// A verdict with all of the lent bytes after the call.
pub fn bytes(line: &mut Line, code: u64, bytes: &[u8]) {
    verdict(line, code);
    line.byte(b' ');
    line.bytes(bytes);
}

// A code that is a length where the call is done, with all of the lent bytes, or of the lent words, after the call.
pub fn output(line: &mut Line, code: u64, out: &[u8]) {
    sized(line, b"done", code);
    line.byte(b' ');
    line.bytes(out);
}

pub fn table(line: &mut Line, code: u64, out: &[u64]) {
    sized(line, b"done", code);
    line.byte(b' ');
    line.words(out);
}

// A code that is a schema's number where the call is done, with the used bytes of the catalogue after the call.
pub fn numbered(line: &mut Line, code: u64, used: &[u8]) {
    sized(line, b"number", code);
    line.byte(b' ');
    line.bytes(used);
}

// Lent bytes by themselves.
pub fn text(line: &mut Line, bytes: &[u8]) {
    line.bytes(bytes);
}

fn range(line: &mut Line, name: &[u8], start: usize, len: usize) {
    named(line, name, start as u64);
    line.number(len as u64);
}

fn float(line: &mut Line, name: &[u8], bits: u64, width: usize) {
    line.text(name);
    line.hex(bits, width);
}

fn value(line: &mut Line, answer: Answer) {
    match answer {
        Answer::Null => line.text(b"null"),
        Answer::Bool(v) => named(line, b"bool", u64::from(v)),
        Answer::Number(n) => {
            line.text(b"number");
            line.signed(n);
        }
        Answer::Float32(v) => float(line, b"float32", u64::from(floats::bits32(v)), 8),
        Answer::Float32Nan(v) => float(line, b"float32", u64::from(v), 8),
        Answer::Float64(v) => float(line, b"float64", floats::bits64(v), 16),
        Answer::Float64Nan(v) => float(line, b"float64", v, 16),
        Answer::Bytes { start, len } => range(line, b"bytes", start, len),
        Answer::Container { start, len, count } => {
            range(line, b"container", start, len);
            line.number(count as u64);
        }
    }
}

pub fn answer(line: &mut Line, read: Result<Answer, Refusal>) {
    match read {
        Ok(answer) => value(line, answer),
        Err(r) => refused(line, r),
    }
}

pub fn count(line: &mut Line, counted: Result<usize, Refusal>) {
    match counted {
        Ok(n) => named(line, b"count", n as u64),
        Err(r) => refused(line, r),
    }
}

pub fn fetched(line: &mut Line, fetched: Result<Fetched, Refusal>) {
    match fetched {
        Ok(Fetched { start, len }) => range(line, b"bytes", start, len),
        Err(r) => refused(line, r),
    }
}

// A refusal of one row, with that row's number.
pub fn checked(line: &mut Line, checked: Result<(), Fault>) {
    match checked {
        Ok(()) => line.text(b"done"),
        Err(Fault::Whole(r)) => refused(line, r),
        Err(Fault::Row { row, refusal }) => {
            refused(line, refusal);
            named(line, b" row", row as u64);
        }
    }
}

// A length or a refusal, with all of the lent bytes after the call.
pub fn length(line: &mut Line, length: Result<usize, Refusal>, out: &[u8]) {
    match length {
        Ok(n) => named(line, b"done", n as u64),
        Err(r) => refused(line, r),
    }
    line.byte(b' ');
    line.bytes(out);
}

// How many of the lent numbers there are, and each of these; or a refusal.
pub fn numbers(line: &mut Line, length: Result<usize, Refusal>, out: &[u32]) {
    match length {
        Ok(n) => {
            named(line, b"done", n as u64);
            if n <= out.len() {
                line.numbers(&out[..n]);
            }
        }
        Err(r) => refused(line, r),
    }
}

pub fn struck(line: &mut Line, chord: Result<Chord, Refusal>) {
    match chord {
        Ok(c) => {
            named(line, b"chord", u64::from(c.tick));
            line.number(u64::from(c.keys));
        }
        Err(r) => refused(line, r),
    }
}
