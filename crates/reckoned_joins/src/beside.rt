// Document 02, wish 8: "The joined numerators must be the two sets of numerators side by side, for cut planes too." Strips of many kinds are joined by the
// coder and by the plain second implementation; the coder restores the joined one, the second implementation each of the two.
use crate::joins::{Strip, join_by_coder, join_by_plain};
use case_planes::fill;
use cases::answers::{Answer, compare};
use cases::inputs::{Case, case_of, mixed};
use cases::safe::{first, first_mut, plus, times};
use cases::tally::{Tally, Verdict, tell_list};
use pairs::answers::put;
use plain_frame::frame::Frame;
use std::io;

// Keeps the largest of a plane, cuts it, puts 0 everywhere, or leaves it as it is.
fn cut(k: Case, which: usize, plane: &mut [i64]) {
    match which {
        0 => {
            let _ = keeping::keep(k.height, k.width, k.levels, plane, 7);
        }
        1 => {
            let _ = keeping::threshold(k.height, k.width, k.levels, plane, 100);
        }
        2 => plane.fill(0),
        _ => {}
    }
}

// The plane and the coverings of one strip.
fn fill_strip(k: Case, which: usize, plane: &mut [i64], coverings: &mut [u8]) {
    fill(k, plane, coverings);
    cut(k, which, first_mut(plane, k.n));
}

// The slices of the joined strip. Room for 2,048 places, and 170 blocks.
#[derive(Clone, Copy, PartialEq)]
struct Room {
    plane: [i64; 2048],
    coverings: [u8; 170],
}

// Other values than a call leaves.
fn before() -> Room {
    Room {
        plane: [7; 2048],
        coverings: [9; 170],
    }
}

fn by_coder(k: Case, left: Strip, right: Strip, room: &mut Room) -> Answer<()> {
    join_by_coder(
        left,
        right,
        first_mut(&mut room.plane, times(2, k.n)),
        first_mut(&mut room.coverings, times(2, k.b)),
    )
}

fn by_plain(k: Case, left: Strip, right: Strip, room: &mut Room) -> Answer<()> {
    join_by_plain(
        left,
        right,
        first_mut(&mut room.plane, times(2, k.n)),
        first_mut(&mut room.coverings, times(2, k.b)),
    )
}

// What restoring leaves.
#[derive(Drop)]
struct Restored {
    numerators: [i64; 2048],
    samples: [u16; 2048],
}

// The joined strip, by the coder.
fn whole(k: Case, joined: &Room) -> Restored {
    let n = times(2, k.n);
    let mut numerators = [7; 2048];
    let mut samples = [9; 2048];
    let mut scratch = [0; 2048];
    let _ = coder::restore(
        k.height,
        times(2, k.width),
        k.levels,
        first(&joined.plane, n),
        first(&joined.coverings, times(2, k.b)),
        first_mut(&mut numerators, n),
        first_mut(&mut samples, n),
        first_mut(&mut scratch, n),
    );
    Restored {
        numerators,
        samples,
    }
}

// One strip, by the second implementation.
fn part(words: &[u8], k: Case, strip: Strip) -> Restored {
    let mut numerators = [3; 2048];
    let mut samples = [5; 2048];
    let mut scratch = [0; 2048];
    let _ = plain::pyramid::restore(
        words,
        k.height,
        k.width,
        k.levels,
        strip.plane,
        strip.coverings,
        first_mut(&mut scratch, k.n),
        first_mut(&mut numerators, k.n),
        first_mut(&mut samples, k.n),
    );
    Restored {
        numerators,
        samples,
    }
}

// Whether the first n places are those of the left strip, and the next n those of the right.
fn are_beside<T: PartialEq>(n: usize, whole: &[T], left: &[T], right: &[T]) -> bool {
    let end = times(2, n);
    whole.get(..n) == left.get(..n) && whole.get(n..end) == right.get(..n)
}

// Both join two strips; where they accept, the numerators and the samples are side by side.
fn verdict(words: &[u8], k: Case, left: Strip, right: Strip) -> Verdict {
    let p = compare(
        before(),
        |room| by_coder(k, left, right, room),
        |room| by_plain(k, left, right, room),
    );
    if p.coder.is_err() {
        return p.verdict();
    }
    let mut joined = before();
    let _ = by_coder(k, left, right, &mut joined);
    let w = whole(k, &joined);
    let l = part(words, k, left);
    let r = part(words, k, right);
    let beside = are_beside(k.n, &w.numerators, &l.numerators, &r.numerators)
        && are_beside(k.n, &w.samples, &l.samples, &r.samples);
    if beside {
        p.verdict()
    } else {
        Verdict::Differs
    }
}

// Four kinds of pictures: a ramp, noise, faint noise and stripes; and planes of any values, all of them or few.
fn kind_of(n: usize) -> usize {
    match n {
        0 => 1,
        1 => 2,
        2 => 4,
        3 => 5,
        4 => 8,
        _ => 9,
    }
}

// Two strips of these kinds, uncut or cut in one of three ways.
fn two_strips(words: &[u8], left: Case, right: Case, which: usize) -> Verdict {
    let mut left_plane = [0i64; 1024];
    let mut left_coverings = [1u8; 85];
    let mut right_plane = left_plane;
    let mut right_coverings = left_coverings;
    fill_strip(left, which, &mut left_plane, &mut left_coverings);
    fill_strip(right, which, &mut right_plane, &mut right_coverings);
    let frame = Frame::new(left.height, left.width, left.levels);
    verdict(
        words,
        left,
        Strip {
            frame,
            plane: first(&left_plane, left.n),
            coverings: first(&left_coverings, left.b),
        },
        Strip {
            frame,
            plane: first(&right_plane, left.n),
            coverings: first(&right_coverings, left.b),
        },
    )
}

// Call c: each kind beside each, in each way.
fn call(words: &[u8], height: usize, width: usize, levels: usize, c: usize) -> Verdict {
    let seed = mixed(c);
    let left = case_of(height, width, levels, kind_of(c % 6), seed);
    let right = case_of(height, width, levels, kind_of(c / 6 % 6), plus(seed, 1));
    two_strips(words, left, right, c / 36 % 4)
}

fn calls(words: &[u8], height: usize, width: usize, levels: usize) -> Tally {
    Tally::of_numbers(144, |c| call(words, height, width, levels, c))
}

// How many calls, and how many of them are accepted; some have a covering that is none.
fn strips(
    rt: &impl Print,
    words: &[u8],
    height: usize,
    width: usize,
    levels: usize,
) -> io::Result<()> {
    put(rt, b"height ", height)?;
    put(rt, b"width ", width)?;
    put(rt, b"levels ", levels)?;
    tell_list(rt, b"side by side", calls(words, height, width, levels))
}

// Squares, tall strips and wide ones. The widest are 4 by 256, and make one of 512.
pub fn side_by_side(rt: &impl Print, words: &[u8]) -> io::Result<()> {
    strips(rt, words, 4, 4, 1)?;
    strips(rt, words, 8, 4, 1)?;
    strips(rt, words, 4, 16, 1)?;
    strips(rt, words, 8, 8, 2)?;
    strips(rt, words, 16, 8, 2)?;
    strips(rt, words, 8, 32, 1)?;
    strips(rt, words, 16, 16, 3)?;
    long_strips(rt, words)
}

fn long_strips(rt: &impl Print, words: &[u8]) -> io::Result<()> {
    strips(rt, words, 32, 32, 4)?;
    strips(rt, words, 256, 4, 1)?;
    strips(rt, words, 4, 256, 1)
}
