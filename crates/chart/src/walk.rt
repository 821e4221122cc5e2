// The walk over a row, sound or broken: each place by its path, and what it claims.
ghost use Rattle.std.specs.Prelude.{◌≡◌, ◌/◌, ◌<◌};
ghost use Rattle.words.specs.Bytes.{num, part};
ghost use Rattle.schema.specs.Types.{text_at};
ghost use Rattle.answers.specs.Paths.{path_of};
ghost use Rattle.table.specs.Tables.{InTable, schema_of};
ghost use Rattle.reading.specs.Children.{wide_of};
ghost use Rattle.reading.specs.Opening.{held_ty};
ghost use Rattle.chart.specs.Labels.{text_word, listed, labels_at};
ghost use Rattle.chart.specs.Room.{ListRoom, PlaceRoom, WalkRoom, Draws, Follows, labels_of, drawn_below};

use crate::lines;
use answers::Path;
use reading::{Found, Place};

// The bytes of a list's elements, whose type stands at a place of the table, 0 where they vary.
fn element_width(t: &[u64], c: usize) -> usize
    requires { InTable t.now c 7 }
    ensures { result ≡ wide_of (held_ty t.now c) }
{
    table::width(table::entry_at(t, c, 7))
}

// A text's word by its kind.
fn text_word(k: usize) -> u32
    ensures { result ≡ text_word (text_at k) }
{
    if k == table::BINARY { 7 } else { 6 }
}

// A list of elements of v bytes, 0 where they vary: only those have claims of their own.
fn list(row: &[u8], chart: &mut [u32], start: usize, v: usize, path: Path) -> usize
    requires { ListRoom chart.old row.now start v path }
    ensures { Draws (listed (start / 8) v (num (part row.now start 8)) (path_of path)) chart.old result chart.new }
{
    let n = words::nums::get::<8>(row, start) as usize;
    let line = start >> 3;
    lines::claim(chart, line, 2, path);
    lines::child_lines(chart, line + 1, reading::own::slot_width(v), n, path);
    if v == 0 { n } else { 0 }
}

// A place whose own rules hold: its claims, and how many places below it may have some.
fn present(t: &[u64], row: &[u8], chart: &mut [u32], p: Place, path: Path) -> usize
    requires { PlaceRoom chart.old t.now row.now p path }
    ensures { Draws (labels_of t.now row.now p (path_of path)) chart.old result chart.new }
{
    let x = p.opened;
    let start = p.start;
    match x.kind {
        ..table::STRING => 0,
        table::STRING | table::BINARY => {
            lines::byte_lines(chart, start >> 3, p.len, text_word(x.kind), path);
            0
        }
        table::LIST => list(row, chart, start, element_width(t, x.first), path),
        table::MAP => {
            lines::claim(chart, start >> 3, 3, path);
            2
        }
        _ => {
            let n = table::count(x.entry);
            lines::child_lines(chart, start >> 3, 8, n, path);
            n
        }
    }
}

// What the place that a path leads to claims: a place that no read finds, and a null, nothing. Answers how many places below it are to be
// visited: none where another had its first line before, for in a broken row the visits would multiply level by level.
fn label(t: &[u64], row: &[u8], path: Path, chart: &mut [u32]) -> usize
    requires { WalkRoom chart.old t.now row.now path × (path.len < 16) }
    ensures { Follows (labels_at (schema_of t.now) row.now (path_of path)) chart.old result chart.new }
{
    match reading::find(t, row, path) {
        Err(_) => 0,
        Ok(Found::Null(..)) => 0,
        Ok(Found::At(p)) => {
            let taken = lines::is_taken(chart, p.start >> 3);
            let below = present(t, row, chart, p, path);
            if taken { 0 } else { below }
        }
    }
}

// A place and all below it: a loop over its children, so that the stack grows with the path's length alone. A schema of eight levels has
// paths of at most 13 steps, two for a map.
pub fn place(t: &[u64], row: &[u8], path: Path, chart: &mut [u32])
    requires { WalkRoom chart.old t.now row.now path }
    ensures { chart.new ≡ drawn_below t.now row.now path chart.old }
{
    let n = path.len;
    if 16 <= n {
        return;
    }
    let count = label(t, row, path, chart);
    let mut child = path;
    child.len = n + 1;
    for i in 0..count {
        child.steps[n] = i as u32;
        place(t, row, child, chart);
    }
}
