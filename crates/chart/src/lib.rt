// Which label each 8 bytes of a row have: a chart of 18 words for each, what stands there (0: nothing said), its path's length, and the
// path's sixteen steps.
#![tactic(auto)]

ghost use Rattle.std.specs.Prelude.{◌≡◌, ◌<◌};
ghost use Rattle.table.specs.Tables.{schema_of};
ghost use Rattle.reading.specs.Finding.{Open};
ghost use Rattle.chart.specs.Claims.{what_at, held};
ghost use Rattle.chart.specs.Labels.{drawn};
ghost use Rattle.chart.specs.Room.{Long, PathAt};

use answers::Path;

mod lines;
mod walk;

// The claims of all places of a row, sound or broken, into a chart that the caller lends as zeros.
pub fn draw(t: &[u64], row: &[u8], chart: &mut [u32])
    requires { Open t.now row.now × Long chart.old }
    ensures { chart.new ≡ drawn (schema_of t.now) row.now chart.old }
{
    let root = Path {
        steps: [0; 16],
        len: 0,
    };
    walk::place(t, row, root, chart);
}

// What stands at a line.
pub fn what(chart: &[u32], line: usize) -> u32
    requires { Long chart.now × (line < 2048) }
    ensures { result ≡ what_at chart.now line }
{
    chart[18 * line]
}

// A path's length, held to sixteen: the words of a chart could say any.
fn held(n: usize) -> usize
    ensures { result ≡ held n }
{
    n.min(16)
}

// The path of what stands at a line.
pub fn path_at(chart: &[u32], line: usize) -> Path
    requires { Long chart.now × (line < 2048) }
    ensures { PathAt chart.now line result }
{
    let at = 18 * line;
    let mut steps = [0; 16];
    steps.copy_from_slice(&chart[at + 2..at + 18]);
    Path {
        steps,
        len: held(chart[at + 1] as usize),
    }
}
