// Decomposing and restoring with a list of coverings, by the coder and by the plain second implementation: what a list lets a block take, and its limits.
use crate::pictures::{Choice, List, Picture, both, left_by, numbers};
use crate::tolerances::{half, stairs};
use cases::answers::{Pair, compare, of_coder, of_plain};
use cases::safe::{first, first_mut, load};
use pairs::answers::{end, put, tell, tell_one};
use pairs::planes::{Plane, plane_of, zeros};
use pairs::rooms::Room;
use std::io;

fn put_list(rt: &impl Print, l: List) -> io::Result<()> {
    put(rt, b"listed ", l.length)?;
    if 0 < l.length {
        put(rt, b"first ", l.first)?;
    }
    if 1 < l.length {
        put(rt, b"second ", l.second)?;
    }
    Ok(())
}

// Both on a picture, and the covering of its last block.
fn last(rt: &impl Print, words: &[u8], k: Picture, tolerance: u64, l: List) -> io::Result<()> {
    put(rt, b"height ", k.height)?;
    put(rt, b"levels ", k.levels)?;
    put(rt, b"tolerance ", tolerance)?;
    put_list(rt, l)?;
    let choice = Choice::Listed(tolerance, l);
    let agreed = tell(rt, true, b"decompose", both(words, &k, choice))?;
    let left = left_by(&k, choice);
    let covering = load(&left.coverings, k.coverings.saturating_sub(1));
    put(rt, b"last covering ", covering)?;
    end(rt, agreed)
}

// Rows 0, 10, 20, 30. Of all coverings 117 costs 0, and 70 costs 40; of 2 and 3 the second costs 160, and the first 60 more.
fn block(
    rt: &impl Print,
    words: &[u8],
    tolerance: u64,
    length: usize,
    first: u8,
    second: u8,
) -> io::Result<()> {
    let l = List {
        length,
        first,
        second,
    };
    last(rt, words, stairs(), tolerance, l)
}

// Coverings 1 and 3. The blocks of level 1 are flat and take 1; at level 2 covering 3 costs 144 and 1 costs 288, and 50, which costs 0, is not listed.
fn halves(rt: &impl Print, words: &[u8], tolerance: u64) -> io::Result<()> {
    let l = List {
        length: 2,
        first: 1,
        second: 3,
    };
    last(rt, words, half(), tolerance, l)
}

// One covering; and the last tolerance with which a covering is too dear, which counts from the least of the list, and the first with which it is not.
pub fn steps(rt: &impl Print, words: &[u8]) -> io::Result<()> {
    block(rt, words, 0, 1, 117, 0)?;
    block(rt, words, 0, 1, 1, 0)?;
    block(rt, words, 29, 2, 2, 3)?;
    block(rt, words, 30, 2, 2, 3)?;
    block(rt, words, 19, 117, 1, 2)?;
    block(rt, words, 20, 117, 1, 2)?;
    halves(rt, words, 35)?;
    halves(rt, words, 36)
}

fn restore(words: &[u8], k: Plane, l: List) -> Pair<()> {
    let plane = plane_of(k);
    let coverings = [k.covering; 6];
    let list = numbers(l);
    compare(
        Room::new(),
        |room| {
            of_coder(listing::restore_listed(
                k.height,
                k.width,
                k.levels,
                first(&plane, k.plane),
                first(&coverings, k.coverings),
                first(&list, l.length),
                first_mut(&mut room.values, k.plane),
                first_mut(&mut room.samples, k.plane),
                first_mut(&mut room.scratch, k.plane),
            ))
        },
        |room| {
            of_plain(plain::pyramid::restore_listed(
                words,
                k.height,
                k.width,
                k.levels,
                first(&plane, k.plane),
                first(&coverings, k.coverings),
                first(&list, l.length),
                first_mut(&mut room.scratch, k.plane),
                first_mut(&mut room.values, k.plane),
                first_mut(&mut room.samples, k.plane),
            ))
        },
    )
}

// A flat picture of this height and of width 4, of which so many samples are lent; plane, coverings and scratch are those of 4 by 4 and 1 level.
fn flat(height: usize, levels: usize, samples: usize, sample: u16) -> Picture {
    Picture {
        height,
        width: 4,
        levels,
        samples,
        plane: 16,
        coverings: 1,
        scratch: 16,
        picture: [sample; 65],
    }
}

// Both entries with this list, where nothing else is refused: of a good list the first number is the block's covering.
fn lend(rt: &impl Print, words: &[u8], length: usize, first: u8, second: u8) -> io::Result<()> {
    let l = List {
        length,
        first,
        second,
    };
    put_list(rt, l)?;
    let p = both(words, &flat(4, 1, 16, 4095), Choice::Listed(4095, l));
    let d = tell(rt, true, b"decompose", p)?;
    let k = Plane {
        covering: first,
        ..zeros(4, 4, 1, 16, 1)
    };
    end(rt, tell(rt, d, b"restore", restore(words, k, l))?)
}

// Good lists of one number, of two and of all; and an empty one, a number twice, one that falls, 0, 118, 255, and more than 117 numbers.
pub fn limits(rt: &impl Print, words: &[u8]) -> io::Result<()> {
    lend(rt, words, 1, 1, 0)?;
    lend(rt, words, 1, 117, 0)?;
    lend(rt, words, 2, 1, 117)?;
    lend(rt, words, 117, 1, 2)?;
    lend(rt, words, 0, 0, 0)?;
    lend(rt, words, 2, 2, 2)?;
    lend(rt, words, 2, 3, 2)?;
    lend(rt, words, 2, 0, 1)?;
    lend(rt, words, 2, 117, 118)?;
    lend(rt, words, 1, 255, 0)?;
    lend(rt, words, 118, 1, 2)?;
    lend(rt, words, 300, 1, 2)
}

// A list that falls.
fn falling() -> List {
    List {
        length: 2,
        first: 2,
        second: 1,
    }
}

fn decompose_falling(
    rt: &impl Print,
    words: &[u8],
    height: usize,
    levels: usize,
    samples: usize,
    sample: u16,
    tolerance: u64,
) -> io::Result<()> {
    put(rt, b"height ", height)?;
    put(rt, b"levels ", levels)?;
    put(rt, b"samples ", samples)?;
    put(rt, b"sample ", sample)?;
    put(rt, b"tolerance ", tolerance)?;
    let l = falling();
    put_list(rt, l)?;
    let k = flat(height, levels, samples, sample);
    tell_one(
        rt,
        b"decompose",
        both(words, &k, Choice::Listed(tolerance, l)),
    )
}

// Decomposing looks at the list last.
pub fn decomposing(rt: &impl Print, words: &[u8]) -> io::Result<()> {
    decompose_falling(rt, words, 4, 1, 16, 4095, 4096)?;
    decompose_falling(rt, words, 4, 1, 16, 4096, 4096)?;
    decompose_falling(rt, words, 4, 1, 15, 4096, 4096)?;
    decompose_falling(rt, words, 4, 2, 15, 4096, 4096)?;
    decompose_falling(rt, words, 6, 2, 15, 4096, 4096)
}

// A plane of this height and of width 4 with one block, in slices of this length.
fn restore_plane(
    rt: &impl Print,
    words: &[u8],
    height: usize,
    levels: usize,
    plane: usize,
    covering: u8,
    value: i64,
    l: List,
) -> io::Result<()> {
    put(rt, b"height ", height)?;
    put(rt, b"levels ", levels)?;
    put(rt, b"plane ", plane)?;
    put(rt, b"covering ", covering)?;
    put(rt, b"value ", value)?;
    put_list(rt, l)?;
    let k = Plane {
        covering,
        value,
        ..zeros(height, 4, levels, plane, 1)
    };
    tell_one(rt, b"restore", restore(words, k, l))
}

// Restoring looks at the list before it looks at what plane and coverings hold. Of the list that falls covering 3 is missing.
pub fn restoring(rt: &impl Print, words: &[u8]) -> io::Result<()> {
    let l = falling();
    restore_plane(rt, words, 4, 1, 16, 3, 0, l)?;
    restore_plane(rt, words, 4, 1, 16, 0, 0, l)?;
    restore_plane(rt, words, 4, 1, 16, 1, -1, l)?;
    restore_plane(rt, words, 4, 1, 15, 0, -1, l)?;
    restore_plane(rt, words, 4, 2, 15, 0, -1, l)?;
    restore_plane(rt, words, 6, 2, 15, 0, -1, l)
}

// With a good list and a value out of its range: a covering that is none, one that is missing, and one that is not. With a value in its range: one that is
// missing, and the list's first and last.
pub fn missing(rt: &impl Print, words: &[u8]) -> io::Result<()> {
    let l = List {
        length: 2,
        first: 2,
        second: 116,
    };
    restore_plane(rt, words, 4, 1, 16, 0, -1, l)?;
    restore_plane(rt, words, 4, 1, 16, 118, -1, l)?;
    restore_plane(rt, words, 4, 1, 16, 1, -1, l)?;
    restore_plane(rt, words, 4, 1, 16, 117, -1, l)?;
    restore_plane(rt, words, 4, 1, 16, 2, -1, l)?;
    restore_plane(rt, words, 4, 1, 16, 117, 4095, l)?;
    restore_plane(rt, words, 4, 1, 16, 3, 4095, l)?;
    restore_plane(rt, words, 4, 1, 16, 2, 4095, l)?;
    restore_plane(rt, words, 4, 1, 16, 116, 4095, l)
}
