// Bytes copied from one slice to another: `put` is the one to call.
#![tactic(auto)]

ghost use Rattle.std.specs.Prelude.{◌≡◌, ◌+◌, ◌≤◌, ◌<◌, length, take, drop};
ghost use Rattle.std.proofs.lemmas.List.Edits.{sets};

// One by one.
fn bytes(dst: &mut [u8], to: usize, src: &[u8], from: usize, n: usize)
    requires { (to + n ≤ length dst.old) × (from + n ≤ length src.now) }
    ensures { dst.new ≡ sets dst.old to (take n (drop from src.now)) }
{
    for i in 0..n {
        dst[to + i] = src[from + i];
    }
}

// By way of an array, which overlaps neither slice: where n is a constant the compiler makes one or two wide moves of it.
fn through(dst: &mut [u8], to: usize, src: &[u8], from: usize, n: usize)
    requires { (to + n ≤ length dst.old) × (from + n ≤ length src.now) × (n ≤ 32) }
    ensures { dst.new ≡ sets dst.old to (take n (drop from src.now)) }
{
    let mut held = [0u8; 32];
    bytes(&mut held, 0, src, from, n);
    bytes(dst, to, &held, 0, n);
}

// In blocks of a width; the last one ends where the n bytes end, and may overlap the one before it.
fn blocks(dst: &mut [u8], to: usize, src: &[u8], from: usize, n: usize, width: usize)
    requires { (to + n ≤ length dst.old) × (from + n ≤ length src.now) × (0 < width) × (width ≤ n) × (width ≤ 32) }
    ensures { dst.new ≡ sets dst.old to (take n (drop from src.now)) }
{
    let last = n - width;
    let mut i = 0;
    // Stays: (d) the places are a width apart, and the width is a constant only where this is put in line.
    while i < last {
        through(dst, to + i, src, from + i, width);
        i += width;
    }
    through(dst, to + last, src, from + last, width);
}

// n bytes from a place of one slice to a place of another.
pub fn put(dst: &mut [u8], to: usize, src: &[u8], from: usize, n: usize)
    requires { (to + n ≤ length dst.old) × (from + n ≤ length src.now) }
    ensures { dst.new ≡ sets dst.old to (take n (drop from src.now)) }
{
    // wider blocks are no faster: the compiler unrolls the loop
    if 32 <= n {
        blocks(dst, to, src, from, n, 32);
    } else if 16 <= n {
        blocks(dst, to, src, from, n, 16);
    } else if 8 <= n {
        blocks(dst, to, src, from, n, 8);
    } else if 4 <= n {
        blocks(dst, to, src, from, n, 4);
    } else {
        bytes(dst, to, src, from, n);
    }
}

// All of a slice, to a place of another.
pub fn put_all(dst: &mut [u8], to: usize, src: &[u8])
    requires { to + length src.now ≤ length dst.old }
    ensures { dst.new ≡ sets dst.old to src.now }
{
    put(dst, to, src, 0, src.len());
}
