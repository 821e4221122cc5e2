// What stands at a place, as an answer.
ghost use Rattle.std.specs.Prelude.{◌≡◌};
ghost use Rattle.words.specs.Bytes.{part};
ghost use Rattle.schema.specs.Types.{fixed_at};
ghost use Rattle.layout.specs.Reading.{value_of};
ghost use Rattle.answers.specs.Meaning.{meaning};
ghost use Rattle.reading.specs.Places.{Leaf};
ghost use Rattle.reading.specs.Texts.{Counts, count_of, Showable, show_of};

use crate::{Place, TypeParts};
use answers::Answer;

// The leaf of the kind k, which has `size` bytes at `at`: a bool, a signed number, or a float by its bits.
pub fn value(row: &[u8], k: usize, at: usize, size: usize) -> Answer
    requires { Leaf row.now k at size }
    ensures { meaning result ≡ value_of (fixed_at k) (part row.now at size) }
{
    if k == table::BOOL {
        return Answer::Bool(row[at] == 1);
    }
    if k < table::FLOAT32 {
        return Answer::Number(words::signed::get_signed(row, at, size));
    }
    if k == table::FLOAT32 {
        return answers::floats::float32_of(words::nums::get::<4>(row, at) as u32);
    }
    answers::floats::float64_of(words::nums::get::<8>(row, at))
}

// A container's count is a struct's fields, a list's elements, 2 for a map.
fn count(row: &[u8], x: TypeParts, start: usize) -> usize
    requires { Counts row.now x start }
    ensures { result ≡ count_of row.now x start }
{
    let k = x.kind;
    if k == table::LIST {
        return words::nums::get::<8>(row, start) as usize;
    }
    if k == table::MAP {
        return 2;
    }
    table::count(x.entry)
}

// A place as an answer.
pub fn answer(row: &[u8], p: Place) -> Answer
    requires { Showable row.now p }
    ensures { meaning result ≡ show_of row.now p }
{
    let x = p.opened;
    let start = p.start;
    let len = p.len;
    let k = x.kind;
    if k < table::STRING {
        return value(row, k, start, len);
    }
    if k < table::LIST {
        return Answer::Bytes { start, len };
    }
    Answer::Container {
        start,
        len,
        count: count(row, x, start),
    }
}
