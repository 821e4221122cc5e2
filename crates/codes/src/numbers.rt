// The number of a schema in a catalogue, as a C program gets it.
ghost use Rattle.std.specs.Prelude.{◌≡◌};
ghost use Rattle.catalogue.specs.Meaning.{number_means};
ghost use Rattle.codes.specs.Catalogue.{numbering_code, LowNumbering};

use answers::Refusal;

// The number itself, or the refusal's code.
pub fn number_code(n: Result<usize, Refusal>) -> u64
    requires { LowNumbering (number_means n) }
    ensures { result ≡ numbering_code (number_means n) }
{
    match n {
        Ok(k) => k as u64,
        Err(r) => crate::refusal_code(r),
    }
}
