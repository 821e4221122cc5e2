// An answer as a C program gets it: one 64-bit code, and words lent beside it; a path and a setting as it gives them.
#![tactic(auto)]

ghost use Rattle.std.specs.Prelude.{◌≡◌};
ghost use Rattle.layout.specs.Setting.{refusal_in, ◌or◌};
ghost use Rattle.answers.specs.Meaning.{refusal_means, outcome_means, length_means, read_means, Numbered};
ghost use Rattle.batch.specs.Meaning.{fetch_means};
ghost use Rattle.row.specs.Outcomes.{Low, LowIn, LowVerdict};
ghost use Rattle.codes.specs.Asked.{verdict_refusal, or_eight};
ghost use Rattle.codes.specs.Batch.{fetch_refusal};
ghost use Rattle.codes.specs.Codes.{refusal_code, verdict_code, sized_code, Halved};
ghost use Rattle.codes.specs.Steps.{Taken};

use answers::{Answer, Path, Refusal};
use batch::Fetched;

pub mod kinds;
pub mod numbers;
pub mod told;

// A refusal's code: its number in the upper half, the place of a 7 in the lower.
pub fn refusal_code(r: Refusal) -> u64
    requires { Low 16384 (refusal_means r) }
    ensures { result ≡ refusal_code (refusal_means r) }
{
    let place = answers::refusals::place(r) as u64;
    ((answers::refusals::number(r) as u64) << 32) + place
}

// An outcome's code.
pub fn outcome_code(o: Result<(), Refusal>) -> u64
    requires { LowVerdict 16384 (outcome_means o) }
    ensures { result ≡ verdict_code (outcome_means o) }
{
    match o {
        Ok(()) => 0,
        Err(r) => refusal_code(r),
    }
}

// A length's code.
pub fn length_code(l: Result<usize, Refusal>) -> u64
    requires { Halved (length_means l) }
    ensures { result ≡ sized_code (length_means l) }
{
    match l {
        Ok(n) => n as u64,
        Err(r) => {
            let needed = answers::refusals::length(r) as u64;
            refusal_code(r) + needed
        }
    }
}

// Lent steps as a path: of more than 16 the first 16 are kept, and the length says how many there were.
pub fn path_of(steps: &[u32]) -> Path
    ensures { Taken steps.now result }
{
    let n = steps.len();
    let kept = n.min(16);
    let mut held = [0u32; 16];
    held[..kept].copy_from_slice(&steps[..kept]);
    Path {
        steps: held,
        len: n,
    }
}

// The refusal of reading, and 8 where the place is read.
fn or_eight(a: Result<Answer, Refusal>) -> u64
    requires { Numbered (read_means a) × LowIn 16384 (refusal_in (read_means a)) }
    ensures { result ≡ refusal_code (or_eight (refusal_in (read_means a))) }
{
    match a {
        Ok(_) => 0x8_0000_0000,
        Err(r) => refusal_code(r),
    }
}

// A setting that is none is refused with 8, after the refusals of the row and of the place: by what checking and reading answered.
pub fn unfit(o: Result<(), Refusal>, a: Result<Answer, Refusal>) -> u64
    requires { LowVerdict 16384 (outcome_means o) × Numbered (read_means a) × LowIn 16384 (refusal_in (read_means a)) }
    ensures { result ≡ refusal_code (or_eight (verdict_refusal (outcome_means o) or refusal_in (read_means a))) }
{
    match o {
        Ok(()) => or_eight(a),
        Err(r) => refusal_code(r),
    }
}

// The same in a batch: by what fetching and reading answered.
pub fn unfit_in(f: Result<Fetched, Refusal>, a: Result<Answer, Refusal>) -> u64
    requires { LowIn 16384 (fetch_refusal (fetch_means f)) × Numbered (read_means a) × LowIn 16384 (refusal_in (read_means a)) }
    ensures { result ≡ refusal_code (or_eight (fetch_refusal (fetch_means f) or refusal_in (read_means a))) }
{
    match f {
        Ok(_) => or_eight(a),
        Err(refusal) => refusal_code(refusal),
    }
}
