// Requests from standard input against the library, one line each on standard output.
#![tactic(auto)]

mod calls;
mod calls_catalogue;
mod calls_log;
mod requests;

use requests::PARTS;
use std::io::{Read, Result, Write};

// More requests than any run holds: the loop counts them, so that it ends on every input.
const REQUESTS: u64 = 0xFFFF_FFFF_FFFF_FFFF;

fn run<R: Read, W: Write>(
    from: &mut R,
    to: &mut W,
    body: &mut [u8; PARTS],
    out: &mut [u8],
    line: &mut [u8],
) -> Result<()> {
    for _ in 0..REQUESTS {
        if !requests::next(from, to, body, out, line)? {
            break;
        }
    }
    Ok(())
}

fn main(rt: HostRuntime) -> Result<()> {
    // The parts of the longest request, the longest output, and a line with that in hex.
    let mut body = [0; PARTS];
    let mut out = [0; 70000];
    let mut line = [0; 140100];
    run(
        &mut rt.stdin(),
        &mut rt.stdout(),
        &mut body,
        &mut out,
        &mut line,
    )
}
