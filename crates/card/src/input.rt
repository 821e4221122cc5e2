// The input taken apart.
ghost use Rattle.std.specs.Prelude.{◌≡◌};
ghost use Rattle.card.specs.Input.{split_of};

// Where the schema of an input ends, if the input is as long as announced.
pub fn take_apart(input: &[u8]) -> Option<usize>
    ensures { result ≡ split_of input.now }
{
    if input.len() < 2 {
        return None;
    }
    let n = words::nums::get::<2>(input, 0) as usize;
    if input.len() - 2 < n {
        return None;
    }
    Some(2 + n)
}
