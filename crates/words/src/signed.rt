// Signed numbers of 1 to 8 bytes, as i64 and back, with no fill by the sign. Only the first three functions touch a signed
// number: the others work on its sign and its magnitude, n for n and n - 1 for -n, which are plain.
ghost use Rattle.std.specs.Prelude.{◌≡◌, ◌+◌, ◌*◌, ◌^◌, ◌≤◌, ◌<◌, length};
ghost use Rattle.std.specs.Int.Signed.{mag};
ghost use Rattle.words.specs.Bytes.{num, part};
ghost use Rattle.words.specs.Signed.{half_of, is_negative, of_magnitude, to_signed, of_signed, in_range};

use crate::nums::get_num;

pub fn negative(x: i64) -> bool
    ensures { result ≡ is_negative x }
{
    x < 0
}

pub fn magnitude(x: i64) -> u64
    ensures { result ≡ mag x }
{
    if x >= 0 { x as u64 } else { (-1 - x) as u64 }
}

fn of_magnitude(neg: bool, m: u64) -> i64
    requires { m < 2 ^ 63 }
    ensures { result ≡ of_magnitude neg m }
{
    if neg { -1 - (m as i64) } else { m as i64 }
}

// Half the range of k bytes.
fn half(k: usize) -> u64
    requires { (0 < k) × (k ≤ 8) }
    ensures { result ≡ half_of k }
{
    1 << (8 * k - 1)
}

// The number that k bytes' bits stand for.
pub fn to_signed(n: u64, k: usize) -> i64
    requires { (0 < k) × (k ≤ 8) × (n < half_of k + half_of k) }
    ensures { result ≡ to_signed (half_of k) n }
{
    let h = half(k);
    if n < h {
        of_magnitude(false, n)
    } else {
        of_magnitude(true, (h - 1) - (n - h))
    }
}

// Whether k bytes hold it.
pub fn in_range(x: i64, k: usize) -> bool
    requires { (0 < k) × (k ≤ 8) }
    ensures { result ≡ in_range (half_of k) x }
{
    magnitude(x) < half(k)
}

// The bits of a number in k bytes that hold it.
pub fn of_signed(x: i64, k: usize) -> u64
    requires { (0 < k) × (k ≤ 8) × (mag x < half_of k) }
    ensures { result ≡ of_signed (half_of k) x }
{
    let h = half(k);
    let m = magnitude(x);
    if negative(x) { h + (h - 1 - m) } else { m }
}

pub fn get_signed(b: &[u8], at: usize, k: usize) -> i64
    requires { (at + k ≤ length b.now) × (0 < k) × (k ≤ 8) }
    ensures { result ≡ to_signed (half_of k) (num (part b.now at k)) }
{
    to_signed(get_num(b, at, k), k)
}
