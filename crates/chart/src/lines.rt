// Lines of the chart, claimed one by one: the first claim has the line.
ghost use Rattle.std.specs.Prelude.{◌≡◌, ◌*◌, ◌%◌, ◌≤◌};
ghost use Rattle.answers.specs.Paths.{path_of};
ghost use Rattle.chart.specs.Claims.{claim, claim_all, taken, padding, byte_lines, slot_word, slot_lines};
ghost use Rattle.chart.specs.Labels.{header, child_lines};
ghost use Rattle.chart.specs.Room.{Long, LineRoom, ByteRoom, SlotRoom, ChildRoom};

use answers::Path;

// Whether some place has a line: one behind the chart's end nobody has.
pub fn is_taken(chart: &[u32], line: usize) -> bool
    requires { Long chart.now × (line ≤ 2048) }
    ensures { result ≡ taken chart.now line }
{
    line < 2048 && chart[18 * line] != 0
}

// One line, if nothing stands there.
pub fn claim(chart: &mut [u32], line: usize, what: u32, path: Path)
    requires { LineRoom chart.old line path }
    ensures { chart.new ≡ claim (header line what (path_of path)) chart.old }
{
    let at = 18 * line;
    if chart[at] != 0 {
        return;
    }
    chart[at] = what;
    chart[at + 1] = path.len as u32;
    chart[at + 2..at + 18].copy_from_slice(&path.steps);
}

// Padding follows where size bytes end inside the line j of theirs.
fn padding(size: usize, j: usize) -> u32
    requires { j ≤ 2048 }
    ensures { result ≡ padding size j }
{
    if size < 8 * j + 8 { 8 } else { 0 }
}

// The lines of size bytes of one place.
pub fn byte_lines(chart: &mut [u32], line: usize, size: usize, what: u32, path: Path)
    requires { ByteRoom chart.old line size what path }
    ensures { chart.new ≡ claim_all (byte_lines line size what (path_of path)) chart.old }
{
    let lines = (size + 7) >> 3;
    for j in 0..lines {
        claim(chart, line + j, what + padding(size, j), path);
    }
}

// A slot of 8 bytes has a line of its own; narrower ones share one.
fn slot_word(w: usize) -> u32
    ensures { result ≡ slot_word w }
{
    if w == 8 { 4 } else { 5 }
}

// How many slots of w bytes are on a line.
fn slots_on_line(w: usize) -> usize
    requires { 8 % w ≡ 0 }
    ensures { result * w ≡ 8 }
{
    match w {
        8 => 1,
        4 => 2,
        2 => 4,
        _ => 8,
    }
}

// The lines of size bytes of slots, w bytes each: a line has the path of the first slot on it.
fn slot_lines(chart: &mut [u32], line: usize, w: usize, size: usize, path: Path)
    requires { SlotRoom chart.old line w size path }
    ensures { chart.new ≡ claim_all (slot_lines line w size (path_of path)) chart.old }
{
    let lines = (size + 7) >> 3;
    let word = slot_word(w);
    let each = slots_on_line(w);
    let n = path.len;
    let mut child = path;
    child.len = n + 1;
    for j in 0..lines {
        child.steps[n] = (each * j) as u32;
        claim(chart, line + j, word + padding(size, j), child);
    }
}

// The bitmap of n children, and their slots of w bytes.
pub fn child_lines(chart: &mut [u32], line: usize, w: usize, n: usize, path: Path)
    requires { ChildRoom chart.old line w n path }
    ensures { chart.new ≡ claim_all (child_lines line w n (path_of path)) chart.old }
{
    let bits = words::sizes::bitmap_size(n);
    byte_lines(chart, line, bits, 1, path);
    slot_lines(chart, line + (bits >> 3), w, n * w, path);
}
