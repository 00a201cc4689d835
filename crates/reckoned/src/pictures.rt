// Decomposing a picture, without a tolerance, with one, and with one and a list, by the coder and by the plain second implementation: a flat one, and one of
// 8 by 8 whose second level has a tie.
use cases::answers::{Answer, Pair, compare, of_coder, of_plain};
use cases::lists::fill_list;
use cases::safe::{first, first_mut, store};
use pairs::answers::{end, put, tell, tell_one};
use pairs::rooms::Room;
use std::io;

// A call: height, width and levels, the lengths of its slices, and the samples, of which the first are lent.
#[derive(Clone, Copy)]
pub struct Picture {
    pub height: usize,
    pub width: usize,
    pub levels: usize,
    pub samples: usize,
    pub plane: usize,
    pub coverings: usize,
    pub scratch: usize,
    pub picture: [u16; 65],
}

// A list of so many coverings: these two, then 3, 4, 5 and so on.
#[derive(Clone, Copy)]
pub struct List {
    pub length: usize,
    pub first: u8,
    pub second: u8,
}

pub fn numbers(l: List) -> [u8; 300] {
    let mut list = [0; 300];
    fill_list(3, 0, &mut list);
    store(&mut list, 0, l.first);
    store(&mut list, 1, l.second);
    list
}

// How decomposing chooses: without a tolerance, with one, or with one and a list.
#[derive(Clone, Copy)]
pub enum Choice {
    Free,
    Within(u64),
    Listed(u64, List),
}

pub fn decompose(k: &Picture, choice: Choice, room: &mut Room) -> Answer<()> {
    let samples = first(&k.picture, k.samples);
    let plane = first_mut(&mut room.values, k.plane);
    let coverings = first_mut(&mut room.coverings, k.coverings);
    let scratch = first_mut(&mut room.scratch, k.scratch);
    of_coder(match choice {
        Choice::Free => coder::decompose(
            k.height, k.width, k.levels, samples, plane, coverings, scratch,
        ),
        Choice::Within(tolerance) => coder::decompose_within(
            k.height, k.width, k.levels, tolerance, samples, plane, coverings, scratch,
        ),
        Choice::Listed(tolerance, l) => listing::decompose_listed(
            k.height,
            k.width,
            k.levels,
            tolerance,
            samples,
            first(&numbers(l), l.length),
            plane,
            coverings,
            scratch,
        ),
    })
}

fn decompose_plain(words: &[u8], k: &Picture, choice: Choice, room: &mut Room) -> Answer<()> {
    let samples = first(&k.picture, k.samples);
    let plane = first_mut(&mut room.values, k.plane);
    let coverings = first_mut(&mut room.coverings, k.coverings);
    let scratch = first_mut(&mut room.scratch, k.scratch);
    of_plain(match choice {
        Choice::Free => plain::pyramid::decompose(
            words, k.height, k.width, k.levels, samples, plane, coverings, scratch,
        ),
        Choice::Within(tolerance) => plain::pyramid::decompose_within(
            words, k.height, k.width, k.levels, tolerance, samples, plane, coverings, scratch,
        ),
        Choice::Listed(tolerance, l) => plain::pyramid::decompose_listed(
            words,
            k.height,
            k.width,
            k.levels,
            tolerance,
            samples,
            first(&numbers(l), l.length),
            plane,
            coverings,
            scratch,
        ),
    })
}

pub fn both(words: &[u8], k: &Picture, choice: Choice) -> Pair<()> {
    compare(
        Room::new(),
        |room| decompose(k, choice, room),
        |room| decompose_plain(words, k, choice, room),
    )
}

// What the coder leaves.
pub fn left_by(k: &Picture, choice: Choice) -> Room {
    let mut room = Room::new();
    let _ = decompose(k, choice, &mut room);
    room
}

// A picture of 4 by 4 and 1 level, in slices of these lengths, without a tolerance and with the largest.
pub fn flat(
    rt: &impl Print,
    words: &[u8],
    samples: usize,
    plane: usize,
    coverings: usize,
    scratch: usize,
    sample: u16,
) -> io::Result<()> {
    put(rt, b"samples ", samples)?;
    put(rt, b"plane ", plane)?;
    put(rt, b"coverings ", coverings)?;
    put(rt, b"scratch ", scratch)?;
    put(rt, b"sample ", sample)?;
    let k = Picture {
        height: 4,
        width: 4,
        levels: 1,
        samples,
        plane,
        coverings,
        scratch,
        picture: [sample; 65],
    };
    let d = tell(rt, true, b"decompose", both(words, &k, Choice::Free))?;
    let t = tell(rt, d, b"within", both(words, &k, Choice::Within(4095)))?;
    end(rt, t)
}

// Document 02, wish 5: a tie is settled by "how often a covering was chosen in all earlier blocks of the picture, level 1 first". The first two samples of the
// first row are 1, all others 0. The first block takes covering 24; in the three others, which are flat, and at level 2, where one entry is not 0, all coverings
// tie, and 24 has been chosen before.
pub fn ties(rt: &impl Print, words: &[u8]) -> io::Result<()> {
    put(rt, b"height ", 8)?;
    put(rt, b"width ", 8)?;
    put(rt, b"levels ", 2)?;
    let mut picture = [0u16; 65];
    store(&mut picture, 0, 1);
    store(&mut picture, 8, 1);
    let k = Picture {
        height: 8,
        width: 8,
        levels: 2,
        samples: 64,
        plane: 64,
        coverings: 5,
        scratch: 64,
        picture,
    };
    tell_one(rt, b"decompose", both(words, &k, Choice::Free))?;
    let left = left_by(&k, Choice::Free);
    let mut buffer = [b'?'; 64];
    let end = of_coder(sheet::usage(first(&left.coverings, 5), &mut buffer)).unwrap_or(0);
    rt.write_all(first(&buffer, end))
}

// Every slice of its exact length, and each with one place less and one more.
pub fn frames(rt: &impl Print, words: &[u8]) -> io::Result<()> {
    flat(rt, words, 16, 16, 1, 16, 0)?;
    flat(rt, words, 15, 16, 1, 16, 0)?;
    flat(rt, words, 17, 16, 1, 16, 0)?;
    flat(rt, words, 16, 15, 1, 16, 0)?;
    flat(rt, words, 16, 17, 1, 16, 0)?;
    flat(rt, words, 16, 16, 0, 16, 0)?;
    flat(rt, words, 16, 16, 2, 16, 0)?;
    flat(rt, words, 16, 16, 1, 15, 0)?;
    flat(rt, words, 16, 16, 1, 17, 0)
}

pub fn samples(rt: &impl Print, words: &[u8]) -> io::Result<()> {
    flat(rt, words, 16, 16, 1, 16, 4095)?;
    flat(rt, words, 16, 16, 1, 16, 4096)?;
    flat(rt, words, 16, 16, 1, 16, 65535)
}
