// Generated calls of a smoothing step, and their flaws. A call is told by numbers, as a case is.
//
// The flaws: 0 to 16 are those of a strip. Of the result: 17 it is one place too short, 18 one too long. Of the scratch: 19 and 20 the same. The step is 21 256,
// 22 2^63, 23 the largest number.
// Kept: the numbers of kinds and flaws, which the groups count through; an enum would be made of a number at each case and matched at once.
use crate::inputs::{Case, next, upper};
use crate::safe::{plus, store};
use crate::strips::flawed_strip;
use plain_frame::frame::{Frame, reach};
use plain_frame::safe::{opposite, signed};

// What is told of a picture, with the lengths of its slices; the step; and the lengths of result and scratch.
#[derive(Clone, Copy)]
pub struct Smoothing {
    pub picture: Case,
    pub step: u64,
    pub result: usize,
    pub scratch: usize,
}

fn step_of(which: usize) -> u64 {
    match which {
        0 => 0,
        1 => 1,
        2 => 3,
        3 => 16,
        4 => 100,
        _ => 255,
    }
}

// The call for a case, with a step by its seed.
pub fn smoothing_of(k: Case) -> Smoothing {
    Smoothing {
        picture: k,
        step: step_of(k.seed / 32 % 6),
        result: k.n,
        scratch: k.n,
    }
}

// The call with a flaw, but for what the slices hold.
pub fn flawed(mut s: Smoothing, flaw: usize) -> Smoothing {
    s.picture = flawed_strip(s.picture, flaw);
    match flaw {
        17 => s.result = s.result.saturating_sub(1),
        18 => s.result = plus(s.result, 1),
        19 => s.scratch = s.scratch.saturating_sub(1),
        20 => s.scratch = plus(s.scratch, 1),
        21 => s.step = 256,
        22 => s.step = 9223372036854775808,
        23 => s.step = u64::MAX,
        _ => {}
    }
    s
}

// An end of the range of an entry, or 0, which is an end of band 0.
fn end_value(level: usize, band: usize, random: usize) -> i64 {
    let most = signed(reach(level, band));
    if random % 3 == 0 {
        return 0;
    }
    if random % 3 == 1 {
        return most;
    }
    if band == 0 { 0 } else { opposite(most) }
}

fn put_end(k: Case, plane: &mut [i64], n: usize, random: usize) {
    let frame = Frame::new(k.height, k.width, k.levels);
    let p = frame.place(n);
    store(
        plane,
        frame.extent.index_of(p),
        end_value(p.level, p.band, random),
    );
}

// Fills a plane with ends of the ranges and zeros.
pub fn fill_ends(k: Case, plane: &mut [i64]) {
    let mut x = next(k.seed);
    for n in 0..k.n {
        x = next(x);
        put_end(k, plane, n, upper(x));
    }
}
