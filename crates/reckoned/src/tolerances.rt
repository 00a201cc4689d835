// Decomposing with a tolerance, by the coder and by the plain second implementation: what it lets a block take at each level, and its limit.
use crate::pictures::{Choice, Picture, both, left_by};
use cases::safe::{first_mut, load, over, rest, store, times};
use pairs::answers::{end, put, tell, tell_one};
use std::io;

// Fills columns of this height: each `part` rows hold `step` more than those above them.
fn rows(height: usize, part: usize, step: usize, samples: &mut [u16]) {
    for i in 0..samples.len() {
        store(samples, i, times(step, over(rest(i, height), part)));
    }
}

// Both on a picture, and the covering of its last block.
fn last(rt: &impl Print, words: &[u8], k: Picture, tolerance: u64) -> io::Result<()> {
    put(rt, b"height ", k.height)?;
    put(rt, b"width ", k.width)?;
    put(rt, b"levels ", k.levels)?;
    put(rt, b"tolerance ", tolerance)?;
    let choice = Choice::Within(tolerance);
    let agreed = tell(rt, true, b"within", both(words, &k, choice))?;
    let left = left_by(&k, choice);
    let covering = load(&left.coverings, k.coverings.saturating_sub(1));
    put(rt, b"last covering ", covering)?;
    end(rt, agreed)
}

// Document 01's block with rows 0, 10, 20, 30. Covering 117 costs 0, 70 costs 40, 2 costs 220, 1 costs 240; a tolerance counts twice.
pub fn stairs() -> Picture {
    let mut picture = [0u16; 65];
    rows(4, 1, 10, &mut picture);
    Picture {
        height: 4,
        width: 4,
        levels: 1,
        samples: 16,
        plane: 16,
        coverings: 1,
        scratch: 16,
        picture,
    }
}

fn block(rt: &impl Print, words: &[u8], tolerance: u64) -> io::Result<()> {
    last(rt, words, stairs(), tolerance)
}

// The left block is the same, and takes covering 117 below a tolerance of 20. The right one is 0, but 9 in its upper left square: covering 48, which has that square,
// costs 0, and 117 costs 36, but has been chosen before.
fn strip(rt: &impl Print, words: &[u8], tolerance: u64) -> io::Result<()> {
    let mut picture = [0u16; 65];
    rows(4, 1, 10, first_mut(&mut picture, 16));
    store(&mut picture, 16, 9);
    store(&mut picture, 17, 9);
    store(&mut picture, 20, 9);
    store(&mut picture, 21, 9);
    let k = Picture {
        height: 4,
        width: 8,
        levels: 1,
        samples: 32,
        plane: 32,
        coverings: 2,
        scratch: 32,
        picture,
    };
    last(rt, words, k, tolerance)
}

// The upper half is 0 and the lower 9. The blocks of level 1 are flat and take covering 1. At level 2, where a tolerance counts four times, covering 50 costs 0,
// 3 costs 144 and 1 costs 288.
pub fn half() -> Picture {
    let mut picture = [0u16; 65];
    rows(8, 4, 9, &mut picture);
    Picture {
        height: 8,
        width: 8,
        levels: 2,
        samples: 64,
        plane: 64,
        coverings: 5,
        scratch: 64,
        picture,
    }
}

fn halves(rt: &impl Print, words: &[u8], tolerance: u64) -> io::Result<()> {
    last(rt, words, half(), tolerance)
}

// The last tolerance with which a covering is too dear, and the first with which it is not.
pub fn steps(rt: &impl Print, words: &[u8]) -> io::Result<()> {
    block(rt, words, 19)?;
    block(rt, words, 20)?;
    block(rt, words, 119)?;
    block(rt, words, 120)?;
    strip(rt, words, 17)?;
    strip(rt, words, 18)?;
    halves(rt, words, 35)?;
    halves(rt, words, 36)?;
    halves(rt, words, 71)?;
    halves(rt, words, 72)
}

// A flat picture of this height and of width 4, of which so many samples are lent; plane, coverings and scratch are those of 4 by 4 and 1 level.
fn flat(
    rt: &impl Print,
    words: &[u8],
    height: usize,
    levels: usize,
    samples: usize,
    sample: u16,
    tolerance: u64,
) -> io::Result<()> {
    put(rt, b"height ", height)?;
    put(rt, b"levels ", levels)?;
    put(rt, b"samples ", samples)?;
    put(rt, b"sample ", sample)?;
    put(rt, b"tolerance ", tolerance)?;
    let k = Picture {
        height,
        width: 4,
        levels,
        samples,
        plane: 16,
        coverings: 1,
        scratch: 16,
        picture: [sample; 65],
    };
    tell_one(rt, b"within", both(words, &k, Choice::Within(tolerance)))
}

// Tolerances up to the largest number; and one past the limit in calls that are refused before for another reason.
pub fn limits(rt: &impl Print, words: &[u8]) -> io::Result<()> {
    flat(rt, words, 4, 1, 16, 4095, 0)?;
    flat(rt, words, 4, 1, 16, 4095, 4095)?;
    flat(rt, words, 4, 1, 16, 4095, 4096)?;
    flat(rt, words, 4, 1, 16, 4095, 4294967296)?;
    flat(rt, words, 4, 1, 16, 4095, u64::MAX)?;
    flat(rt, words, 4, 1, 16, 4096, 4096)?;
    flat(rt, words, 4, 1, 15, 4096, 4096)?;
    flat(rt, words, 4, 2, 15, 4096, 4096)?;
    flat(rt, words, 6, 2, 15, 4096, 4096)
}
