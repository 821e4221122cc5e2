// Text for standard output: numbers, bytes and paths, put into lent bytes and printed where they grow long.
#![tactic(auto)]

ghost use Rattle.std.specs.Prelude.{◌≡◌, ◌≤◌, length, Ok, IfOk};
ghost use Rattle.lettering.specs.Held.{Spilt};

use std::io::{Result, Write};

pub mod text;

// Prints the text so far where another line might not find room behind it, and answers where that line goes.
pub fn spill<W: Write>(to: &mut W, out: &[u8], used: usize) -> Result<usize>
    requires { used ≤ length out.now }
    ensures spilt { IfOk result (λ r. Spilt used r) }
    ensures held { used ≤ 229000 → result ≡ Ok used }
{
    if used <= 229000 {
        return Ok(used);
    }
    to.write_all(&out[..used])?;
    Ok(0)
}
