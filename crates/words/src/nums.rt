// Little-endian numbers of 1 to 8 bytes. Of a width that is known `get` and `put` have no loop, and compile to one load or store.
ghost use Rattle.std.specs.Prelude.{◌≡◌, ◌+◌, ◌≤◌, ◌<◌, min, length};
ghost use Rattle.std.proofs.lemmas.List.Edits.{sets};
ghost use Rattle.words.specs.Bytes.{le};
ghost use Rattle.words.specs.Reads.{Reads, PutsOn};

pub fn wide(x: u8) -> u64
    ensures { (result ≡ x) × (result < 256) }
{
    x as u64
}

// One byte more of a number of k bytes, of which r is the first i, where it has so many.
#[inline(always)]
fn with_byte(b: &[u8], at: usize, k: usize, i: usize, r: u64) -> u64
    requires room { at + k ≤ length b.now }
    requires few { i < 8 }
    requires so_far { Reads b.now at (min i k) r }
    ensures { Reads b.now at (min (i + 1) k) result }
{
    if i < k {
        r | (wide(b[at + i]) << (8 * i))
    } else {
        r
    }
}

// The number of the K bytes from `at` on: of a width that is known the bytes past it fall away.
pub fn get<const K: usize>(b: &[u8], at: usize) -> u64
    requires room { at + K ≤ length b.now }
    requires width { K ≤ 8 }
    ensures { Reads b.now at K result }
{
    let r1 = with_byte(b, at, K, 0, 0);
    let r2 = with_byte(b, at, K, 1, r1);
    let r3 = with_byte(b, at, K, 2, r2);
    let r4 = with_byte(b, at, K, 3, r3);
    let r5 = with_byte(b, at, K, 4, r4);
    let r6 = with_byte(b, at, K, 5, r5);
    let r7 = with_byte(b, at, K, 6, r6);
    with_byte(b, at, K, 7, r7)
}

// Byte i of the k lowest bytes of v, where there are so many.
#[inline(always)]
fn put_byte(b: &mut [u8], at: usize, k: usize, i: usize, v: u64)
    requires room { at + k ≤ length b.old }
    requires few { i < 8 }
    ensures { PutsOn b.old at k i v b.new }
{
    if i < k {
        b[at + i] = ((v >> (8 * i)) & 0xFF) as u8;
    }
}

// The K lowest bytes of v, from `at` on; past the eighth they are zero.
pub fn put<const K: usize>(b: &mut [u8], at: usize, v: u64)
    requires { at + K ≤ length b.old }
    ensures { b.new ≡ sets b.old at (le K v) }
{
    if 8 < K {
        return put_num(b, at, K, v);
    }
    put_byte(b, at, K, 0, v);
    put_byte(b, at, K, 1, v);
    put_byte(b, at, K, 2, v);
    put_byte(b, at, K, 3, v);
    put_byte(b, at, K, 4, v);
    put_byte(b, at, K, 5, v);
    put_byte(b, at, K, 6, v);
    put_byte(b, at, K, 7, v);
}

// The number of k bytes from `at` on, the highest byte first.
pub fn get_num(b: &[u8], at: usize, k: usize) -> u64
    requires { (at + k ≤ length b.now) × (k ≤ 8) }
    ensures { Reads b.now at k result }
{
    let mut r: u64 = 0;
    for i in (0..k).rev() {
        r = (r << 8) | wide(b[at + i]);
    }
    r
}

// The k lowest bytes of v, from `at` on.
pub fn put_num(b: &mut [u8], at: usize, k: usize, v: u64)
    requires { at + k ≤ length b.old }
    ensures { b.new ≡ sets b.old at (le k v) }
{
    let mut x = v;
    for i in 0..k {
        b[at + i] = (x & 0xFF) as u8;
        x >>= 8;
    }
}
