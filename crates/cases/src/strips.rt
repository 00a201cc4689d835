// Generated calls that join two strips, and their flaws. A call is told by a number, as a case is.
//
// The flaws of a strip: 0 none. Of what is told of it: 1 height 12, 2 height 2^63, 3 width 2^63, 4 no level, 5 nine levels, 6 twice its height, 7 twice its
// width, 8 one level less. Of its slices: 9 a plane one place too short, 10 one too long, 11 one covering too few, 12 one too many. Of what they hold: 13 the
// last covering is 0, 14 the first is 118, 15 the first value, which is of the low-pass, is -1, 16 the last, of level 1, is 8,191.
//
// The flaws of the joined slices: 0 none, 1 a plane one place too short, 2 one too long, 3 as long as that of one strip, 4 one covering too few, 5 one too
// many, 6 as many as those of one strip. 7 tells of both strips that they are 512 wide, so that the joined one would be too wide.
// Kept: the numbers of kinds and flaws, which the groups count through; an enum would be made of a number at each case and matched at once.
use crate::inputs::{Case, case_of, mixed};
use crate::safe::{plus, store, times};

// What is told of two strips, with the lengths of their slices, and the lengths of the joined ones: `n` for the plane, `b` for the coverings.
#[derive(Clone, Copy)]
pub struct Join {
    pub left: Case,
    pub right: Case,
    pub n: usize,
    pub b: usize,
}

// The joined slices hold as much as those of two strips like the left one.
fn join_of(left: Case, right: Case) -> Join {
    Join {
        left,
        right,
        n: times(2, left.n),
        b: times(2, left.b),
    }
}

// A height or a width of a strip: six that pictures have, and two that none has.
fn side_of(n: usize) -> usize {
    match n {
        0 => 4,
        1 => 8,
        2 => 16,
        3 => 32,
        4 => 256,
        5 => 512,
        6 => 12,
        _ => 9223372036854775808,
    }
}

// Every height with every width, levels from none to five, every kind of plane.
fn strip_at(c: usize, seed: usize) -> Case {
    case_of(
        side_of(c % 8),
        side_of(c / 8 % 8),
        c / 64 % 6,
        c / 384 % 14,
        seed,
    )
}

// A strip beside this one: most often like it but for its kind, else any.
fn beside(left: Case, seed: usize) -> Case {
    let random = seed / 16;
    if seed % 16 == 0 {
        return strip_at(random, seed);
    }
    case_of(left.height, left.width, left.levels, random % 14, seed)
}

// Call c of a group of joins.
pub fn join_at(c: usize) -> Join {
    let left = strip_at(c, mixed(c));
    join_of(left, beside(left, mixed(plus(c, 100000))))
}

// A call without a flaw: heights 4 and 8, widths 4, 8 and 16, as many levels as there can be, and values that every place takes. At such a seed every covering
// is one.
pub fn small_join_at(c: usize) -> Join {
    let height = times(4, c % 2 + 1);
    let width = side_of(c / 2 % 3);
    let levels = if width == 4 { 1 } else { c % 2 + 1 };
    let seed = times(4, mixed(c));
    join_of(
        case_of(height, width, levels, 8, seed),
        case_of(height, width, levels, 8, plus(seed, 4)),
    )
}

// Flaws of what is told of a strip.
fn told(mut k: Case, flaw: usize) -> Case {
    match flaw {
        1 => k.height = 12,
        2 => k.height = 9223372036854775808,
        3 => k.width = 9223372036854775808,
        4 => k.levels = 0,
        5 => k.levels = 9,
        6 => k.height = times(2, k.height),
        7 => k.width = times(2, k.width),
        8 => k.levels = k.levels.saturating_sub(1),
        _ => {}
    }
    k
}

// Flaws of its slices.
fn lent(mut k: Case, flaw: usize) -> Case {
    match flaw {
        9 => k.n = k.n.saturating_sub(1),
        10 => k.n = plus(k.n, 1),
        11 => k.b = k.b.saturating_sub(1),
        12 => k.b = plus(k.b, 1),
        _ => {}
    }
    k
}

// The strip with a flaw, but for what its slices hold.
pub fn flawed_strip(k: Case, flaw: usize) -> Case {
    lent(told(k, flaw), flaw)
}

// Flaws of what they hold.
pub fn spoil(k: Case, flaw: usize, plane: &mut [i64], coverings: &mut [u8]) {
    match flaw {
        13 => store(coverings, k.b.saturating_sub(1), 0),
        14 => store(coverings, 0, 118),
        15 => store(plane, 0, -1),
        16 => store(plane, k.n.saturating_sub(1), 8191),
        _ => {}
    }
}

// Flaws of the joined slices.
fn room(mut j: Join, flaw: usize) -> Join {
    match flaw {
        1 => j.n = j.n.saturating_sub(1),
        2 => j.n = plus(j.n, 1),
        3 => j.n = j.n / 2,
        4 => j.b = j.b.saturating_sub(1),
        5 => j.b = plus(j.b, 1),
        6 => j.b = j.b / 2,
        _ => {}
    }
    j
}

fn wide(mut k: Case, flaw: usize) -> Case {
    if flaw == 7 {
        k.width = 512;
    }
    k
}

// The call with a flaw of each strip and one of the joined slices, but for what the slices hold.
pub fn flawed(j: Join, left: usize, right: usize, whole: usize) -> Join {
    Join {
        left: wide(flawed_strip(j.left, left), whole),
        right: wide(flawed_strip(j.right, right), whole),
        ..room(j, whole)
    }
}
