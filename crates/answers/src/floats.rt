// Floats and their bits, kept for every pattern.
ghost use Rattle.std.specs.Prelude.{◌≡◌};
ghost use Rattle.std.specs.Float.{binary32, binary64};
ghost use Rattle.std.specs.Float.Ieee.{to_bits};
ghost use Rattle.layout.specs.Reading as R;
ghost use Rattle.answers.specs.Meaning.{meaning};

use crate::Answer;

// A pattern above infinity's, the sign's bit apart, is a NaN's.
pub fn float32_of(bits: u32) -> Answer
    ensures { meaning result ≡ R.float32 bits }
{
    if bits & 0x7FFF_FFFF > 0x7F80_0000 {
        Answer::Float32Nan(bits)
    } else {
        Answer::Float32(f32::from_bits(bits))
    }
}

pub fn float64_of(bits: u64) -> Answer
    ensures { meaning result ≡ R.float64 bits }
{
    if bits & 0x7FFF_FFFF_FFFF_FFFF > 0x7FF0_0000_0000_0000 {
        Answer::Float64Nan(bits)
    } else {
        Answer::Float64(f64::from_bits(bits))
    }
}

// A compiled NaN may have any payload: the quiet one with none is written in its place.
pub fn bits32(x: f32) -> u32
    ensures { result ≡ to_bits binary32 x }
{
    if x != x { 0x7FC0_0000 } else { f32::to_bits(x) }
}

pub fn bits64(x: f64) -> u64
    ensures { result ≡ to_bits binary64 x }
{
    if x != x {
        0x7FF8_0000_0000_0000
    } else {
        f64::to_bits(x)
    }
}
