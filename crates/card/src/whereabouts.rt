// What the tool writes where the picture of a row is asked for.
ghost use Rattle.std.specs.Prelude.{◌≡◌, length, IfOk, ◌≤◌, IsOk};
ghost use Rattle.lettering.specs.Held.{Walked};
ghost use Rattle.picture.specs.Picture.{fault_of, shown};
ghost use Rattle.card.specs.Output.{Ready};
ghost use Rattle.card.specs.Whereabouts.{where_text, where_output_of};

use crate::input;
use std::io::{Result, Write};
use table::rooms;

// The picture of a row, sound or broken, by the table of its schema.
fn pictured<W: Write>(
    to: &mut W,
    schema: &[u8],
    row: &[u8],
    fault: Option<usize>,
    out: &mut [u8],
) -> Result<usize>
    requires { Ready schema.now row.now × (length out.old ≡ 262144) }
    ensures walked { IfOk result (λ r. Walked (shown schema.now row.now (fault_of fault)) out.old 0 r out.new) }
    ensures held { length (shown schema.now row.now (fault_of fault)) ≤ 229000 → IsOk result }
{
    rooms::with_out(
        schema,
        out,
        |t, out| picture::charted(to, t, row, fault, out),
    )
    .unwrap()
}

// A broken row has its picture too: only one without an accepted schema, or too long, has none.
fn where_text<W: Write, E: Write>(
    to: &mut W,
    errors: &mut E,
    schema: &[u8],
    row: &[u8],
    out: &mut [u8],
) -> Result<usize>
    requires { length out.old ≡ 262144 }
    ensures { IfOk result (λ r. Walked (where_text schema.now row.now) out.old 0 r out.new) }
{
    match row::check(schema, row) {
        Ok(()) => pictured(to, schema, row, None, out),
        Err(r) => {
            let n = answers::refusals::number(r);
            if n != 7 {
                return Ok(crate::refused(out, n));
            }
            crate::say_place(errors, r)?;
            pictured(to, schema, row, Some(answers::refusals::place(r)), out)
        }
    }
}

// What the tool writes for an input, but for what it printed on the way.
pub fn where_output<W: Write, E: Write>(
    to: &mut W,
    errors: &mut E,
    input: &[u8],
    out: &mut [u8],
) -> Result<usize>
    requires { length out.old ≡ 262144 }
    ensures { IfOk result (λ r. Walked (where_output_of input.now) out.old 0 r out.new) }
{
    match input::take_apart(input) {
        None => Ok(crate::refused(out, 1)),
        Some(end) => where_text(to, errors, &input[2..end], &input[end..], out),
    }
}
