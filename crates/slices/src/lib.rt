// Lent slices: clearing one, copying one, and moving numbers, or a rectangle of one that is stored down columns, from one place to another. A slice of height
// h has the entry of row y, column x at x * h + y. What a run of stores leaves is said by recursion in specs/Stores.antt, and entry by entry in
// proofs/Stores.antt.
// Kept: copies are loops. The library's `copy_from_slice` is `memmove` in the archive for C, which needs `memcpy` and `memset` alone.
#![tactic(auto)]

ghost use Rattle.std.specs.Prelude.{◌≡◌, map, ◌+◌, ◌*◌, ◌≤◌, pos, length, replicate};
ghost use Rattle.slices.specs.Stores.{pasted, columns, rectangles, Room};

// Every entry 0. Two wrong answers that the contract rules out: the last entry left as it was; a shorter slice.
pub fn clear(s: &mut [i64])
    ensures { s.new ≡ replicate (length s.old) (pos 0) }
{
    s.fill(0);
}

// The entries of one slice in another as long. Two wrong answers that the contract rules out: the first entry left as it was; the entries turned round.
pub fn copy(from: &[i64], to: &mut [i64])
    requires { length to.old ≡ length from.now }
    ensures { to.new ≡ from.now }
{
    for (i, v) in from.iter().enumerate() {
        to[i] = *v;
    }
}

// Samples as signed entries. Two wrong answers that the contract rules out: a sample over 32,767 below zero; the last sample left out.
pub fn widen(from: &[u16], to: &mut [i64])
    requires { length to.old ≡ length from.now }
    ensures { to.new ≡ map pos from.now }
{
    for (i, sample) in from.iter().enumerate() {
        to[i] = i64::from(*sample);
    }
}

// n entries, from one place in a slice to another place in another.
fn move_run(from: &[i64], first: usize, to: &mut [i64], at: usize, n: usize)
    requires { (first + n ≤ length from.now) × (at + n ≤ length to.old) }
    ensures { to.new ≡ pasted (pos 0) from.now first at n to.old }
{
    for r in 0..n {
        to[at + r] = from[first + r];
    }
}

// The same for numbers, as those of coverings.
// Two wrong answers that the contract rules out: the numbers from the front of the slice; and one number too many.
pub fn move_numbers(from: &[u8], first: usize, to: &mut [u8], at: usize, n: usize)
    requires { (first + n ≤ length from.now) × (at + n ≤ length to.old) }
    ensures { to.new ≡ pasted 0 from.now first at n to.old }
{
    for r in 0..n {
        to[at + r] = from[first + r];
    }
}

// The first `tall` rows of `wide` columns, from one place in a slice to another place in another of the same height. Two wrong answers that the contract
// rules out: the columns one after the other, without the rows between them; an entry beside the columns changed.
pub fn move_columns(
    from: &[i64],
    first: usize,
    to: &mut [i64],
    at: usize,
    height: usize,
    tall: usize,
    wide: usize,
)
    requires { (tall ≤ height) × Room height tall wide first (length from.now) × Room height tall wide at (length to.old) }
    ensures { to.new ≡ columns height tall wide from.now first at to.old }
{
    for c in 0..wide {
        let k = c * height;
        move_run(from, first + k, to, at + k, tall);
    }
}

// The first `tall` rows of the first `wide` columns. Two wrong answers that the contract rules out: the rectangle turned; its last column left out.
pub fn copy_rectangle(from: &[i64], to: &mut [i64], height: usize, tall: usize, wide: usize)
    requires { (tall ≤ height) × (wide * height ≤ length from.now) × (wide * height ≤ length to.old) }
    ensures { to.new ≡ rectangles height tall wide from.now to.old }
{
    move_columns(from, 0, to, 0, height, tall, wide);
}
