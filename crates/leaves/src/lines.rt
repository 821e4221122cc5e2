// A line of the card: a path, a mark and contents.
ghost use Rattle.std.specs.Prelude.{◌+◌, ◌≤◌, length};
ghost use Rattle.schema.specs.Marks.{mark_at};
ghost use Rattle.table.specs.Words.{Lined, place_in};
ghost use Rattle.answers.specs.Meaning.{meaning};
ghost use Rattle.answers.specs.Paths.{path_of};
ghost use Rattle.lettering.specs.Text.{Puts};
ghost use Rattle.leaves.specs.Lines.{contents as contents_of, line as line_of};
ghost use Rattle.leaves.specs.Room.{Room, LineRoom};

use answers::{Answer, Path, floats};
use lettering::text;

// The mark that an entry says.
fn mark(out: &mut [u8], at: usize, w: u64) -> usize
    requires { Lined w × (at + 2 ≤ length out.old) }
    ensures { Puts out.old at (mark_at (place_in w)) result out.new }
{
    let m = table::mark(w);
    let next = text::byte(out, at, (m & 0xFF) as u8);
    text::byte(out, next, (m >> 8) as u8)
}

// A container has no contents of its own.
fn contents(out: &mut [u8], at: usize, row: &[u8], x: Answer) -> usize
    requires { Room out.old at row.now (meaning x) }
    ensures { Puts out.old at (contents_of row.now (meaning x)) result out.new }
{
    match x {
        Answer::Null => text::put(out, at, b"null"),
        Answer::Bool(v) => text::byte(out, at, b'0' + v as u8),
        Answer::Number(n) => text::signed(out, at, n),
        Answer::Float32(v) => text::hex(out, at, floats::bits32(v) as u64, 8),
        Answer::Float32Nan(v) => text::hex(out, at, v as u64, 8),
        Answer::Float64(v) => text::hex(out, at, floats::bits64(v), 16),
        Answer::Float64Nan(v) => text::hex(out, at, v, 16),
        Answer::Bytes { start, len } => text::bytes(out, at, row, start, len),
        Answer::Container {
            start: _,
            len: _,
            count: _,
        } => at,
    }
}

// The line of a place which reads as x and whose mark is that of the entry w.
pub fn line(out: &mut [u8], at: usize, path: Path, w: u64, row: &[u8], x: Answer) -> usize
    requires { LineRoom out.old at path w row.now (meaning x) }
    ensures { Puts out.old at (line_of (path_of path) (mark_at (place_in w)) row.now (meaning x)) result out.new }
{
    let p = text::path(out, at, path);
    let m = text::byte(out, p, b' ');
    let s = mark(out, m, w);
    let c = text::byte(out, s, b' ');
    let end = contents(out, c, row, x);
    text::byte(out, end, b'\n')
}
