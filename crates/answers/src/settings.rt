// A setting as a setter takes it: each float as the bits that it writes.
ghost use Rattle.answers.specs.Meaning.{GivenAs};

use crate::{Given, Setting, floats};

pub fn given(s: Setting) -> Given
    ensures { GivenAs s result }
{
    match s {
        Setting::Null => Given::Null,
        Setting::Bool(v) => Given::Bool(v),
        Setting::Number(n) => Given::Number(n),
        Setting::Float32(x) => Given::Float32(floats::bits32(x)),
        Setting::Float32Nan(b) => Given::Float32(b),
        Setting::Float64(x) => Given::Float64(floats::bits64(x)),
        Setting::Float64Nan(b) => Given::Float64(b),
        Setting::Bytes => Given::Bytes,
    }
}
