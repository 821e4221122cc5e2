// A step of a path, copied out.
ghost use Rattle.std.specs.Prelude.{◌≡◌, get_or};
ghost use Rattle.answers.specs.Paths.{Reached, path_of};

use crate::Path;

pub fn step_at(p: Path, k: usize) -> u32
    requires { Reached p k }
    ensures { result ≡ get_or (path_of p) k 0 }
{
    p.steps[k]
}
