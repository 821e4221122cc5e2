// The picture of a row: a line for each 8 of its bytes, and a mark under its first wrong byte.
#![tactic(auto)]

ghost use Rattle.std.specs.Prelude.{◌≡◌, ◌+◌, ◌*◌, ◌≤◌, ◌<◌, length, IfOk, IsOk};
ghost use Rattle.words.specs.Bytes.{zeros};
ghost use Rattle.answers.specs.Paths.{path_of};
ghost use Rattle.table.specs.Tables.{schema_of};
ghost use Rattle.reading.specs.Finding.{Open};
ghost use Rattle.chart.specs.Claims.{what_at, steps_at};
ghost use Rattle.chart.specs.Room.{Long};
ghost use Rattle.lettering.specs.Text.{Puts};
ghost use Rattle.lettering.specs.Held.{Walked};
ghost use Rattle.picture.specs.Picture.{spaces as spaces_of, right as right_of, spaced as spaced_of, on_line, word as word_of, padding as padding_of};
ghost use Rattle.picture.specs.Picture.{link as link_of, linked as linked_of, label as label_of, labelled as labelled_of, line_of, mark as mark_of};
ghost use Rattle.picture.specs.Picture.{under as under_of, behind as behind_of, picture as picture_of, fault_of, shown};

use answers::Path;
use lettering::text;
use std::io::{Result, Write};

fn spaces(out: &mut [u8], at: usize, n: usize) -> usize
    requires { at + n ≤ length out.old }
    ensures { Puts out.old at (spaces_of n) result out.new }
{
    out[at..at + n].fill(b' ');
    at + n
}

// The decimal digits of a number, and no more than the last k, right aligned in k columns.
fn right(out: &mut [u8], at: usize, n: usize, k: usize) -> usize
    requires { at + k ≤ length out.old }
    ensures { Puts out.old at (right_of k n) result out.new }
{
    if k == 0 {
        return at;
    }
    if n < 10 {
        let last = spaces(out, at, k - 1);
        return text::byte(out, last, text::glyph(n as u8));
    }
    let q = text::tenth(n as u64) as usize;
    let next = right(out, at, q, k - 1);
    text::byte(out, next, text::glyph((n - 10 * q) as u8))
}

// Bytes, each a space and two digits.
fn spaced(out: &mut [u8], at: usize, bytes: &[u8]) -> usize
    requires { at + 3 * length bytes.now ≤ length out.old }
    ensures { Puts out.old at (spaced_of bytes.now) result out.new }
{
    let mut next = at;
    for x in bytes {
        let digits = text::byte(out, next, b' ');
        next = text::hex(out, digits, u64::from(*x), 2);
    }
    next
}

// How many of n bytes are on the line u.
fn on_line(n: usize, u: usize) -> usize
    requires { (8 * u < n) × (n ≤ 16384) }
    ensures { result ≡ on_line n u }
{
    (n - 8 * u).min(8)
}

fn word(out: &mut [u8], at: usize, w: u32) -> usize
    requires { (w < 8) × (at + 12 ≤ length out.old) }
    ensures { Puts out.old at (word_of w) result out.new }
{
    match w {
        0 => at,
        1 => text::put(out, at, b"bitmap"),
        2 => text::put(out, at, b"count"),
        3 => text::put(out, at, b"size of keys"),
        4 => text::put(out, at, b"slot"),
        5 => text::put(out, at, b"slots"),
        6 => text::put(out, at, b"text"),
        _ => text::put(out, at, b"binary"),
    }
}

fn padding(out: &mut [u8], at: usize, w: u32) -> usize
    requires { at + 12 ≤ length out.old }
    ensures { Puts out.old at (padding_of w) result out.new }
{
    if w < 8 {
        return at;
    }
    text::put(out, at, b" and padding")
}

fn link(out: &mut [u8], at: usize, w: u32) -> usize
    requires { at + 6 ≤ length out.old }
    ensures { Puts out.old at (link_of w) result out.new }
{
    if w == 5 {
        return text::put(out, at, b" from ");
    }
    text::put(out, at, b" of ")
}

fn linked(out: &mut [u8], at: usize, w: u32, path: Path) -> usize
    requires { (at + 342 ≤ length out.old) × (path.len ≤ 16) }
    ensures { Puts out.old at (linked_of w (path_of path)) result out.new }
{
    if path.len == 0 {
        return at;
    }
    let next = link(out, at, w);
    text::path(out, next, path)
}

fn label(out: &mut [u8], at: usize, w: u32, path: Path) -> usize
    requires { (at + 366 ≤ length out.old) × (path.len ≤ 16) }
    ensures { Puts out.old at (label_of w (path_of path)) result out.new }
{
    let p = word(out, at, w & 7);
    let l = padding(out, p, w);
    linked(out, l, w & 7, path)
}

// The label of the line u behind its k bytes, where it has one.
fn labelled(out: &mut [u8], at: usize, chart: &[u32], u: usize, k: usize) -> usize
    requires { (at + 392 ≤ length out.old) × Long chart.now × (u < 2048) × (k ≤ 8) }
    ensures { Puts out.old at (labelled_of k (what_at chart.now u) (steps_at chart.now u)) result out.new }
{
    let w = chart::what(chart, u);
    if w == 0 {
        return at;
    }
    let l = spaces(out, at, 3 * (8 - k) + 2);
    label(out, l, w, chart::path_at(chart, u))
}

fn line(out: &mut [u8], at: usize, row: &[u8], chart: &[u32], u: usize) -> usize
    requires { (at + 423 ≤ length out.old) × Long chart.now × (8 * u < length row.now) × (length row.now ≤ 16384) }
    ensures { Puts out.old at (line_of row.now chart.now u) result out.new }
{
    let k = on_line(row.len(), u);
    let s = right(out, at, 8 * u, 5);
    let b = text::byte(out, s, b' ');
    let l = spaced(out, b, &row[8 * u..8 * u + k]);
    let end = labelled(out, l, chart, u, k);
    text::byte(out, end, b'\n')
}

fn mark(out: &mut [u8], at: usize, place: usize) -> usize
    requires { at + 31 ≤ length out.old }
    ensures { Puts out.old at (mark_of place) result out.new }
{
    let next = spaces(out, at, 7 + 3 * (place & 7));
    text::put(out, next, b"^^\n")
}

// The mark under the line u, where that line has the first wrong byte.
fn under(out: &mut [u8], at: usize, fault: Option<usize>, u: usize) -> usize
    requires { at + 31 ≤ length out.old }
    ensures { Puts out.old at (under_of (fault_of fault) u) result out.new }
{
    match fault {
        Some(place) if place >> 3 == u => mark(out, at, place),
        _ => at,
    }
}

// The mark behind the last of n lines, where none of them has the first wrong byte.
fn behind(out: &mut [u8], at: usize, fault: Option<usize>, n: usize) -> usize
    requires { at + 31 ≤ length out.old }
    ensures { Puts out.old at (behind_of (fault_of fault) n) result out.new }
{
    match fault {
        Some(place) if n <= place >> 3 => mark(out, at, place),
        _ => at,
    }
}

fn picture<W: Write>(
    to: &mut W,
    row: &[u8],
    chart: &[u32],
    fault: Option<usize>,
    out: &mut [u8],
) -> Result<usize>
    requires { Long chart.now × (length row.now ≤ 16384) × (length out.old ≡ 262144) }
    ensures walked { IfOk result (λ r. Walked (picture_of row.now chart.now (fault_of fault)) out.old 0 r out.new) }
    ensures held { length (picture_of row.now chart.now (fault_of fault)) ≤ 229000 → IsOk result }
{
    let n = (row.len() + 7) >> 3;
    let mut used = 0;
    for u in 0..n {
        let at = lettering::spill(to, out, used)?;
        let next = line(out, at, row, chart, u);
        used = under(out, next, fault, u);
    }
    Ok(behind(out, used, fault, n))
}

fn empty_chart() -> [u32; 36864]
    ensures { result ≡ zeros 36864 }
{
    [0; 36864]
}

// For sound and broken rows alike, so that the chart is in this frame alone; t is the table of the row's schema.
pub fn charted<W: Write>(
    to: &mut W,
    t: &[u64],
    row: &[u8],
    fault: Option<usize>,
    out: &mut [u8],
) -> Result<usize>
    requires { Open t.now row.now × (length out.old ≡ 262144) }
    ensures walked { IfOk result (λ r. Walked (shown (schema_of t.now) row.now (fault_of fault)) out.old 0 r out.new) }
    ensures held { length (shown (schema_of t.now) row.now (fault_of fault)) ≤ 229000 → IsOk result }
{
    let mut chart = empty_chart();
    chart::draw(t, row, &mut chart);
    picture(to, row, &chart, fault, out)
}
