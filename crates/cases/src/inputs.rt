// The generated inputs. A case is a number, and this module says which height, width, levels and filling it stands for, so that a difference can be found
// again from its number alone.
// Kept: the numbers of kinds and flaws, which the groups count through; an enum would be made of a number at each case and matched at once.
use crate::safe::{over, plus, rest, store, times};

// A height, a width, a number of levels, what the slices are filled with, and how long they are: `n` for samples and values, `b` for coverings.
#[derive(Clone, Copy)]
pub struct Case {
    pub height: usize,
    pub width: usize,
    pub levels: usize,
    pub kind: usize,
    pub seed: usize,
    pub n: usize,
    pub b: usize,
}

// The next number of a linear congruential sequence, below 2^31.
pub fn next(x: usize) -> usize {
    (x % 2147483648 * 1103515245 + 12345) % 2147483648
}

// The upper bits of a number of the sequence, which repeat less: below 32,768.
pub fn upper(x: usize) -> usize {
    x / 65536
}

// A seed for the case c.
pub fn mixed(c: usize) -> usize {
    upper(next(next(c)))
}

// A height or a width: five that pictures have, and three that none has.
pub fn side_of(n: usize) -> usize {
    match n {
        0 => 4,
        1 => 8,
        2 => 16,
        3 => 32,
        4 => 128,
        5 => 0,
        6 => 12,
        _ => 1024,
    }
}

// The number of blocks of all levels.
fn count_blocks(height: usize, width: usize, levels: usize) -> usize {
    let mut sum = 0;
    let mut h = height / 4;
    let mut w = width / 4;
    for _ in 0..levels {
        sum = plus(sum, times(h, w));
        h /= 2;
        w /= 2;
    }
    sum
}

// Slices hold at most 1,024 samples or values and 512 coverings: too few for a larger picture, which is then refused.
pub fn case_of(height: usize, width: usize, levels: usize, kind: usize, seed: usize) -> Case {
    Case {
        height,
        width,
        levels,
        kind,
        seed,
        n: times(height, width).min(1024),
        b: count_blocks(height, width, levels).min(512),
    }
}

// Case c of a group: every height with every width, levels from none to five, as many kinds as are told.
pub fn case_at(c: usize, kinds: usize) -> Case {
    case_of(
        side_of(c % 8),
        side_of(c / 8 % 8),
        c / 64 % 6,
        rest(c / 384, kinds),
        mixed(c),
    )
}

// Whether the second implementation is slow on a case: it has over 256 places and is not refused for its height or width.
fn is_slow(k: Case) -> bool {
    256 < k.n && k.height <= 128 && k.width <= 128
}

// The same case, at most 16 by 8 or 8 by 16 in place of most of those on which the second implementation is slow.
pub fn smaller(k: Case) -> Case {
    if !is_slow(k) {
        return k;
    }
    let random = k.seed / 8;
    if random % 8 == 0 {
        return k;
    }
    if random % 2 == 0 {
        return case_of(k.height.min(16), k.width.min(8), k.levels, k.kind, k.seed);
    }
    case_of(k.height.min(8), k.width.min(16), k.levels, k.kind, k.seed)
}

fn ramp(k: Case, row: usize, col: usize) -> usize {
    plus(times(row, k.seed % 97), times(col, k.seed % 89)) % 4096
}

// Fields of one to three cells, black and white.
fn board(k: Case, row: usize, col: usize) -> usize {
    let wide = plus(k.seed % 3, 1);
    times(plus(over(row, wide), over(col, wide)) % 2, 4095)
}

fn stripes(row: usize, random: usize) -> usize {
    plus(times(row / 3 % 2, 2000), random % 50)
}

// A sample of a picture, at place i: a flat picture, a ramp, noise, checker boards of the two ends, faint noise with many equal costs, stripes with
// noise, noise that is over 4,095 here and there, and a white picture with 4,096 at its last place.
fn sample(k: Case, i: usize, random: usize) -> usize {
    let row = rest(i, k.height);
    let col = over(i, k.height);
    match k.kind {
        0 => (k.seed % 5000).min(4095),
        1 => ramp(k, row, col),
        2 => random % 4096,
        3 => board(k, row, col),
        4 => random % 3,
        5 => stripes(row, random),
        6 => random % 4200,
        _ => plus(4095, over(plus(i, 1), k.n)),
    }
}

// Puts at each place what `cell` gives for its number and a random one.
fn fill<V, T: TryFrom<V> + Drop, F: Fn(usize, usize) -> V>(seed: usize, s: &mut [T], cell: F)
where
    T::Error: Drop,
    requires { F.IsAlwaysCallable cell }
{
    let mut x = next(seed);
    for i in 0..s.len() {
        x = next(x);
        store(s, i, cell(i, upper(x)));
    }
}

pub fn fill_picture(k: Case, samples: &mut [u16]) {
    fill(k.seed, samples, |i, random| sample(k, i, random));
}

// Numbers below 2^31 as signed ones.
fn signed(x: usize) -> i64 {
    if x < 2147483648 { x as i64 } else { 0 }
}

// The same below zero: -1 - x.
fn below(x: usize) -> i64 {
    !signed(x)
}

// Whether a place is in the upper left quarter, where the low-pass band is, and the levels above the first.
fn in_quarter(k: Case, i: usize) -> bool {
    times(2, rest(i, k.height)) < k.height && times(2, over(i, k.height)) < k.width
}

// A value that every place takes: at most 8,190 from zero, and not below it in the upper left quarter.
fn tame(k: Case, i: usize, random: usize) -> i64 {
    if in_quarter(k, i) {
        return signed(random % 4096);
    }
    if random % 2 == 0 {
        return signed(random % 8191);
    }
    below(random % 8190)
}

// A value of a plane, at place i: values that every place takes; few of them not zero; the greatest of the first level; those and one over it at
// the last place; values in the upper left quarter that only the deeper levels take; and values far out of range.
fn value(k: Case, i: usize, random: usize) -> i64 {
    match k.kind {
        8 => tame(k, i, random),
        9 => {
            if random % 5 == 0 {
                tame(k, i, random)
            } else {
                0
            }
        }
        10 => tame(k, i, 8190),
        11 => signed(plus(8190, over(plus(i, 1), k.n))),
        12 => {
            if in_quarter(k, i) {
                signed(times(random, 2))
            } else {
                0
            }
        }
        _ => below(times(random, 60000)),
    }
}

pub fn fill_plane(k: Case, plane: &mut [i64]) {
    fill(k.seed, plane, |i, random| value(k, i, random));
}

// A covering, 1 to 117; at every fourth seed 0 to 118, which an entry refuses where 0 or 118 is among them.
fn covering(k: Case, random: usize) -> usize {
    if k.seed % 4 == 3 {
        return random % 119;
    }
    plus(random % 117, 1)
}

pub fn fill_coverings(k: Case, coverings: &mut [u8]) {
    fill(plus(k.seed, 1), coverings, |_, random| covering(k, random));
}
