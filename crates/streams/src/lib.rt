// Reading what a stream has into lent bytes, up to all of them.
#![tactic(auto)]

ghost use Rattle.std.specs.Prelude.{◌≤◌, length, IfOk};

use std::io::{Read, Result};

// Reads until the lent bytes are full or the stream ends, and answers how many bytes it put at their start.
pub fn fill<R: Read>(from: &mut R, out: &mut [u8]) -> Result<usize>
    ensures { IfOk result (λ n. n ≤ length out.new) }
{
    let mut done = 0;
    while done < out.len() {
        let n = from.read(&mut out[done..])?;
        if n == 0 {
            break;
        }
        done += n;
    }
    Ok(done)
}
