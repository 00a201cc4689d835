// Generated calls that restore a master, and their flaws. A call is told by numbers, as a case is.
//
// The changes of a plane and its coverings: 0 none. An entry of level r out of R is 1 one more, 2 one less, 3 4^r more, 4 4^r less, 5 4^R more, 6 4^R less.
// 7 a block has another covering.
//
// The flaws: 0 to 16 are those of a strip. Of the numerators: 17 they are one place too short, 18 one too long. Of the samples: 19 and 20 the same. Of the
// scratch: 21 and 22 the same.
// Kept: the numbers of kinds and flaws, which the groups count through; an enum would be made of a number at each case and matched at once.
use crate::inputs::{Case, case_of, mixed, side_of};
use crate::safe::{load, plus, rest, store, times};
use crate::strips::flawed_strip;
use plain_frame::frame::{Frame, power};
use plain_frame::safe::{add, opposite, signed};

// What is told of a picture, with the lengths of its slices; and the lengths of those that restoring fills.
#[derive(Clone, Copy)]
pub struct Master {
    pub picture: Case,
    pub numerators: usize,
    pub samples: usize,
    pub scratch: usize,
}

// The call for a case, into slices as long as its plane.
pub fn master_of(k: Case) -> Master {
    Master {
        picture: k,
        numerators: k.n,
        samples: k.n,
        scratch: k.n,
    }
}

// Case c of a group of masters: heights and widths from 4 to 32, every number of levels that they have, every kind of plane.
pub fn good_case_at(c: usize) -> Case {
    let row = c % 4;
    let col = c / 4 % 4;
    let most = plus(row.min(col), 1);
    case_of(
        side_of(row),
        side_of(col),
        plus(rest(c / 16, most), 1),
        c / 64 % 14,
        mixed(c),
    )
}

// The call with a flaw, but for what the slices hold.
pub fn flawed(mut m: Master, flaw: usize) -> Master {
    m.picture = flawed_strip(m.picture, flaw);
    match flaw {
        17 => m.numerators = m.numerators.saturating_sub(1),
        18 => m.numerators = plus(m.numerators, 1),
        19 => m.samples = m.samples.saturating_sub(1),
        20 => m.samples = plus(m.samples, 1),
        21 => m.scratch = m.scratch.saturating_sub(1),
        22 => m.scratch = plus(m.scratch, 1),
        _ => {}
    }
    m
}

// 4^n.
fn unit(n: usize) -> i64 {
    signed(power(times(2, n)))
}

// By how much an entry of this level is changed.
fn added(which: usize, level: usize, levels: usize) -> i64 {
    match which {
        1 => 1,
        2 => -1,
        3 => unit(level),
        4 => opposite(unit(level)),
        5 => unit(levels),
        6 => opposite(unit(levels)),
        _ => 0,
    }
}

// An entry by the seed.
fn change_entry(k: Case, which: usize, plane: &mut [i64]) {
    let frame = Frame::new(k.height, k.width, k.levels);
    let p = frame.place(rest(mixed(k.seed), k.n));
    let i = frame.extent.index_of(p);
    let v = add(load(plane, i), added(which, p.level, k.levels));
    store(plane, i, v);
}

// Changes the plane of a case, or its coverings.
pub fn change(k: Case, which: usize, plane: &mut [i64], coverings: &mut [u8]) {
    if which == 7 {
        store(coverings, rest(k.seed, k.b), mixed(k.seed) % 117 + 1);
    } else {
        change_entry(k, which, plane);
    }
}
