// The card tool: a row or a batch on standard input, the leaves as lines of text on standard output, or the picture of a row.
#![tactic(auto)]

ghost use Rattle.std.specs.Prelude.{◌≡◌, length, IfOk, ◌≤◌, IsOk};
ghost use Rattle.lettering.specs.Text.{Puts};
ghost use Rattle.lettering.specs.Held.{Walked};
ghost use Rattle.leaves.specs.Whole.{card_of};
ghost use Rattle.card.specs.Output.{refusal, Ready, judged_text, output_of};

use answers::Refusal;
use lettering::text;
use std::env::{Env, FillError};
use std::io::{Result, Write};
use table::rooms;

mod batches;
mod input;
mod whereabouts;

// The one line of an input that is not accepted.
fn refused(out: &mut [u8], n: u8) -> usize
    requires { length out.old ≡ 262144 }
    ensures { Puts out.old 0 (refusal n) result out.new }
{
    text::numbered(out, 0, b"refused ", n as u64)
}

// Says where a row is broken that is refused with 7: standard output has the document's one line, and no place.
fn say_place<E: Write>(errors: &mut E, r: Refusal) -> Result<()> {
    if answers::refusals::number(r) == 7 {
        let place = answers::refusals::place(r);
        writeln!(errors, "the row is broken at byte {place}")?;
    }
    Ok(())
}

// The card of an accepted row, by the table of its schema, which is worked out once.
fn accepted_text<W: Write>(to: &mut W, schema: &[u8], row: &[u8], out: &mut [u8]) -> Result<usize>
    requires { Ready schema.now row.now × (length out.old ≡ 262144) }
    ensures walked { IfOk result (λ r. Walked (card_of schema.now row.now) out.old 0 r out.new) }
    ensures held { length (card_of schema.now row.now) ≤ 229000 → IsOk result }
{
    rooms::with_out(schema, out, |t, out| leaves::whole(to, t, row, out, 0)).unwrap()
}

// The whole row is checked before its first line is made.
fn row_text<W: Write, E: Write>(
    to: &mut W,
    errors: &mut E,
    schema: &[u8],
    row: &[u8],
    out: &mut [u8],
) -> Result<usize>
    requires { length out.old ≡ 262144 }
    ensures { IfOk result (λ r. Walked (judged_text schema.now row.now) out.old 0 r out.new) }
{
    match row::check(schema, row) {
        Ok(()) => accepted_text(to, schema, row, out),
        Err(r) => {
            say_place(errors, r)?;
            Ok(refused(out, answers::refusals::number(r)))
        }
    }
}

// What the tool writes for an input, but for what it printed on the way.
fn card<W: Write, E: Write>(
    to: &mut W,
    errors: &mut E,
    input: &[u8],
    out: &mut [u8],
) -> Result<usize>
    requires { length out.old ≡ 262144 }
    ensures { IfOk result (λ r. Walked (output_of input.now) out.old 0 r out.new) }
{
    match input::take_apart(input) {
        None => Ok(refused(out, 1)),
        Some(end) => row_text(to, errors, &input[2..end], &input[end..], out),
    }
}

// Room for the text of nearly every row, and for the longest line behind 229,000 bytes.
fn room() -> [u8; 262144]
    ensures { 262144 ≡ length result }
{
    [0; 262144]
}

// 2 bytes, the longest schema that they announce and a byte more than the longest row: a longer input is refused as this much of it is.
fn print_card(rt: HostRuntime) -> Result<()> {
    let mut to = rt.stdout();
    let mut buf = [0u8; 81922];
    let n = streams::fill(&mut rt.stdin(), &mut buf)?;
    let mut out = room();
    let k = card(&mut to, &mut rt.stderr(), &buf[..n], &mut out)?;
    to.write_all(&out[..k])
}

// A batch is judged whole before its first line, so it is held whole: up to 4 MiB, half of the stack that programs commonly have, and a
// byte by which a longer one shows.
fn batch_room() -> [u8; 4194305]
    ensures { 4194305 ≡ length result }
{
    [0; 4194305]
}

// Kept out of its caller, as `print_where` is, so that the card of a row takes none of the batch's memory, nor of the picture's.
#[inline(never)]
fn print_cards(rt: HostRuntime) -> Result<()> {
    let mut to = rt.stdout();
    let mut errors = rt.stderr();
    let mut buf = batch_room();
    let n = streams::fill(&mut rt.stdin(), &mut buf)?;
    if 4194304 < n {
        return errors.write_all(b"the input is longer than 4194304 bytes\n");
    }
    let mut out = room();
    let k = batches::cards(&mut to, &mut errors, &buf[..n], &mut out)?;
    to.write_all(&out[..k])
}

#[inline(never)]
fn print_where(rt: HostRuntime) -> Result<()> {
    let mut to = rt.stdout();
    let mut buf = [0u8; 81922];
    let n = streams::fill(&mut rt.stdin(), &mut buf)?;
    let mut out = room();
    let k = whereabouts::where_output(&mut to, &mut rt.stderr(), &buf[..n], &mut out)?;
    to.write_all(&out[..k])
}

// What the tool does.
#[derive(Clone, Copy)]
enum Mode {
    Card,
    Cards,
    Where,
    Nothing,
}

// A row without an argument, a batch with `--batch` or its short name `-b`, a row's picture with `--where` or `-w`.
fn mode_named(word: &[u8]) -> Mode {
    match word {
        b"--batch" | b"-b" => Mode::Cards,
        b"--where" | b"-w" => Mode::Where,
        _ => Mode::Nothing,
    }
}

// What the one argument asks for, if there is no more than one.
fn mode_of<E: Env>(env: &E) -> Mode {
    let mut word = [0u8; 8];
    match env.arg(2, &mut word) {
        Err(FillError::NotPresent) => {}
        _ => return Mode::Nothing,
    }
    match env.arg(1, &mut word) {
        Ok(n) => mode_named(&word[..n]),
        Err(FillError::NotPresent) => Mode::Card,
        Err(FillError::TooLong) => Mode::Nothing,
    }
}

fn main(rt: HostRuntime) -> Result<()> {
    match mode_of(&rt) {
        Mode::Card => print_card(rt),
        Mode::Cards => print_cards(rt),
        Mode::Where => print_where(rt),
        Mode::Nothing => rt
            .stderr()
            .write_all(b"usage: card [-b | --batch | -w | --where]\n"),
    }
}
