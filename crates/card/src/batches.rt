// A batch of rows: their cards in turn, each behind a line with the row's number.
ghost use Rattle.std.specs.Prelude.{◌≡◌, ◌+◌, ◌≤◌, length, IfOk, IsOk};
ghost use Rattle.table.specs.Tables.{Table, schema_of};
ghost use Rattle.batch.specs.Entries.{done, rows_of, check_of};
ghost use Rattle.lettering.specs.Text.{Puts};
ghost use Rattle.lettering.specs.Held.{Walked};
ghost use Rattle.card.specs.Rows.{heading as heading_of, rows_text, batch_text, batch_output_of};

use crate::input;
use answers::Refusal;
use batch::{Fault, frames};
use lettering::text;
use std::io::{Result, Write};
use table::rooms;

// The line before the card of row k.
fn heading(out: &mut [u8], at: usize, k: usize) -> usize
    requires { at + 25 ≤ length out.old }
    ensures { Puts out.old at (heading_of k) result out.new }
{
    text::numbered(out, at, b"row ", k as u64)
}

// The rows of an accepted batch, each frame passed once.
fn rows_text<W: Write>(to: &mut W, t: &[u64], b: &[u8], out: &mut [u8]) -> Result<usize>
    requires { Table t.now × (check_of (schema_of t.now) b.now ≡ done) × (length out.old ≡ 262144) }
    ensures walked { IfOk result (λ r. Walked (rows_text (schema_of t.now) 0 (rows_of b.now)) out.old 0 r out.new) }
    ensures held { length (rows_text (schema_of t.now) 0 (rows_of b.now)) ≤ 229000 → IsOk result }
{
    let mut used = 0;
    let mut at = 0;
    let mut n = 0;
    while let Some(end) = frames::frame_end(b, at) {
        let line = lettering::spill(to, out, used)?;
        let next = heading(out, line, n);
        used = leaves::whole(to, t, &b[at + 4..end], out, next)?;
        at = end;
        n += 1;
    }
    Ok(used)
}

// The same by the table of the batch's schema, which is worked out once for all rows.
fn accepted_text<W: Write>(to: &mut W, s: &[u8], b: &[u8], out: &mut [u8]) -> Result<usize>
    requires { (check_of s.now b.now ≡ done) × (length out.old ≡ 262144) }
    ensures walked { IfOk result (λ r. Walked (rows_text s.now 0 (rows_of b.now)) out.old 0 r out.new) }
    ensures held { length (rows_text s.now 0 (rows_of b.now)) ≤ 229000 → IsOk result }
{
    rooms::with_out(s, out, |t, out| rows_text(to, t, b, out)).unwrap()
}

// Says which row it is that is refused, and of a 7 where it is broken.
fn say_row<E: Write>(errors: &mut E, k: usize, r: Refusal) -> Result<()> {
    if answers::refusals::number(r) == 7 {
        let place = answers::refusals::place(r);
        return writeln!(errors, "row {k} of the batch is broken at byte {place}");
    }
    writeln!(errors, "row {k} of the batch is refused")
}

// The whole batch is checked, once, before its first line is made.
fn batch_text<W: Write, E: Write>(
    to: &mut W,
    errors: &mut E,
    s: &[u8],
    b: &[u8],
    out: &mut [u8],
) -> Result<usize>
    requires { length out.old ≡ 262144 }
    ensures { IfOk result (λ r. Walked (batch_text s.now b.now) out.old 0 r out.new) }
{
    match batch::check(s, b) {
        Ok(()) => accepted_text(to, s, b, out),
        Err(Fault::Whole(r)) => Ok(crate::refused(out, answers::refusals::number(r))),
        Err(Fault::Row { row, refusal }) => {
            say_row(errors, row, refusal)?;
            Ok(crate::refused(out, answers::refusals::number(refusal)))
        }
    }
}

// What the tool writes for an input with a batch, but for what it printed on the way.
pub fn cards<W: Write, E: Write>(
    to: &mut W,
    errors: &mut E,
    input: &[u8],
    out: &mut [u8],
) -> Result<usize>
    requires { length out.old ≡ 262144 }
    ensures { IfOk result (λ r. Walked (batch_output_of input.now) out.old 0 r out.new) }
{
    match input::take_apart(input) {
        None => Ok(crate::refused(out, 1)),
        Some(end) => batch_text(to, errors, &input[2..end], &input[end..], out),
    }
}
