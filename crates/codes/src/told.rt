// What an entry answered, told in words where they fit: a number, two, or an answer of reading in four; and a word beside a code.
ghost use Rattle.std.specs.Prelude.{◌≡◌, ◌≤◌, set};
ghost use Rattle.std.proofs.Math.Option.{none};
ghost use Rattle.layout.specs.Setting.{refusal_in};
ghost use Rattle.layout.specs.Entries.{refused_with};
ghost use Rattle.answers.specs.Meaning.{refusal_means, length_of, length_means, meaning, read_means, Numbered};
ghost use Rattle.batch.specs.Meaning.{count_means, fetch_means, check_means};
ghost use Rattle.row.specs.Outcomes.{Low, LowIn, LowSized};
ghost use Rattle.strokes.specs.Meaning.{chord_means};
ghost use Rattle.codes.specs.Batch.{count_refusal, count_words, fetch_refusal, fetch_words};
ghost use Rattle.codes.specs.Batch.{check_refusal, check_code, check_words, append_code, append_words, Beside};
ghost use Rattle.codes.specs.Log.{chord_refusal, chord_words};
ghost use Rattle.codes.specs.Words.{Told, Tells, words_of};

use crate::refusal_code;
use answers::{Answer, Refusal, floats};
use batch::{Fault, Fetched};
use chords::Chord;

// Words at the start of those lent; 4 with their number where they don't fit.
fn put<const N: usize>(answer: &mut [u64], words: [u64; N]) -> u64
    requires { N ≤ 4 }
    ensures { Told N none words.entry answer.old result answer.new }
{
    if answer.len() < N {
        return 0x4_0000_0000 + N as u64;
    }
    answer[..N].copy_from_slice(&words);
    0
}

pub fn put_answer(answer: &mut [u64], x: Result<Answer, Refusal>) -> u64
    requires { Numbered (read_means x) × LowIn 16384 (refusal_in (read_means x)) }
    ensures { Tells (read_means x) answer.old result answer.new }
{
    match x {
        Ok(a) => put(answer, four(a)),
        Err(r) => refusal_code(r),
    }
}

// An answer as its kind and three words.
fn four(x: Answer) -> [u64; 4]
    requires { Numbered (meaning x) }
    ensures { result ≡ words_of (meaning x) }
{
    match x {
        Answer::Null => [0, 0, 0, 0],
        Answer::Bool(v) => [1, v as u64, 0, 0],
        Answer::Number(n) => [2, words::signed::of_signed(n, 8), 0, 0],
        Answer::Float32(v) => [3, floats::bits32(v) as u64, 0, 0],
        Answer::Float32Nan(v) => [3, v as u64, 0, 0],
        Answer::Float64(v) => [4, floats::bits64(v), 0, 0],
        Answer::Float64Nan(v) => [4, v, 0, 0],
        Answer::Bytes { start, len } => [5, start as u64, len as u64, 0],
        Answer::Container { start, len, count } => [6, start as u64, len as u64, count as u64],
    }
}

// A word of those lent, where it is one.
fn put_word(answer: &mut [u64], i: usize, x: u64)
    ensures { answer.new ≡ set answer.old i x }
{
    if i < answer.len() {
        answer[i] = x;
    }
}

// A refusal's code; with 4 the length needed beside it.
fn tell_refusal(answer: &mut [u64], r: Refusal) -> u64
    requires { Low 16384 (refusal_means r) }
    ensures { Beside
        (append_code (refused_with (refusal_means r) (length_of r))) (append_words (refused_with (refusal_means r) (length_of r)))
        answer.old result answer.new }
{
    if answers::refusals::number(r) != 4 {
        return refusal_code(r);
    }
    put_word(answer, 0, answers::refusals::length(r) as u64);
    refusal_code(r)
}

// The number of rows in a word.
pub fn counted(answer: &mut [u64], c: Result<usize, Refusal>) -> u64
    requires { LowIn 16384 (count_refusal (count_means c)) }
    ensures { Told 1 (count_refusal (count_means c)) (count_words (count_means c)) answer.old result answer.new }
{
    match c {
        Ok(n) => put(answer, [n as u64]),
        Err(r) => refusal_code(r),
    }
}

// A row's start and its length in two.
pub fn fetched(answer: &mut [u64], f: Result<Fetched, Refusal>) -> u64
    requires { LowIn 16384 (fetch_refusal (fetch_means f)) }
    ensures { Told 2 (fetch_refusal (fetch_means f)) (fetch_words (fetch_means f)) answer.old result answer.new }
{
    match f {
        Ok(row) => put(answer, [row.start as u64, row.len as u64]),
        Err(r) => refusal_code(r),
    }
}

// A chord's tick and its keys in two.
pub fn struck(answer: &mut [u64], s: Result<Chord, Refusal>) -> u64
    requires { LowIn 16384 (chord_refusal (chord_means s)) }
    ensures { Told 2 (chord_refusal (chord_means s)) (chord_words (chord_means s)) answer.old result answer.new }
{
    match s {
        Ok(c) => put(answer, [c.tick as u64, c.keys as u64]),
        Err(r) => refusal_code(r),
    }
}

// The number of the row that is refused, beside its code.
pub fn checked(answer: &mut [u64], c: Result<(), Fault>) -> u64
    requires { LowIn 16384 (check_refusal (check_means c)) }
    ensures { Beside (check_code (check_means c)) (check_words (check_means c)) answer.old result answer.new }
{
    match c {
        Ok(()) => 0,
        Err(Fault::Whole(r)) => refusal_code(r),
        Err(Fault::Row { row, refusal }) => {
            put_word(answer, 0, row as u64);
            refusal_code(refusal)
        }
    }
}

// The batch's or the log's new length, or how many numbers were read, beside the code 0; with 4 the length needed.
pub fn appended(answer: &mut [u64], l: Result<usize, Refusal>) -> u64
    requires { LowSized 16384 (length_means l) }
    ensures { Beside (append_code (length_means l)) (append_words (length_means l)) answer.old result answer.new }
{
    match l {
        Ok(n) => {
            put_word(answer, 0, n as u64);
            0
        }
        Err(r) => tell_refusal(answer, r),
    }
}
