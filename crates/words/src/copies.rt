// Runs of bytes: a copy, and zeros.
ghost use Rattle.std.specs.Prelude.{◌≡◌, ◌+◌, ◌≤◌, length};
ghost use Rattle.std.proofs.lemmas.List.Edits.{sets};
ghost use Rattle.words.specs.Bytes.{part, zeros};

pub fn copy(out: &mut [u8], at: usize, src: &[u8], from: usize, n: usize)
    requires { (at + n ≤ length out.old) × (from + n ≤ length src.now) }
    ensures { out.new ≡ sets out.old at (part src.now from n) }
{
    for i in 0..n {
        out[at + i] = src[from + i];
    }
}

pub fn zero(out: &mut [u8], at: usize, n: usize)
    requires { at + n ≤ length out.old }
    ensures { out.new ≡ sets out.old at (zeros n) }
{
    out[at..at + n].fill(0);
}
