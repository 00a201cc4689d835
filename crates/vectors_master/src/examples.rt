// Planes reckoned by hand, and both sides of 20. Their first low-pass entry and one tetrolet entry are told, all others are 0, and each block has the same covering.
// With covering 1, whose piece 0 is column 0, the first four numerators of a block are low-pass + W1 twice, then low-pass - W1 twice.
use crate::calls::{Room, both, restore};
use cases::inputs::{Case, case_of};
use cases::masters::master_of;
use cases::safe::{load, store};
use cases::strips::flawed_strip;
use pairs::answers::{end, put, tell};
use std::io;

fn put_frame(rt: &impl Print, k: Case, covering: u8) -> io::Result<()> {
    put(rt, b"height ", k.height)?;
    put(rt, b"levels ", k.levels)?;
    put(rt, b"plane ", k.n)?;
    put(rt, b"covering ", covering)
}

// Both on a plane, and the first numerator and the first sample that the coder leaves; before they were 7 and 9.
fn tell_both(
    rt: &impl Print,
    words: &[u8],
    k: Case,
    plane: &[i64],
    coverings: &[u8],
) -> io::Result<()> {
    let m = master_of(k);
    let agreed = tell(rt, true, b"master", both(words, m, plane, coverings))?;
    let mut room = Room::new();
    let _ = restore(m, plane, coverings, &mut room);
    put(rt, b"numerator ", load(&room.numerators, 0))?;
    put(rt, b"sample ", load(&room.samples, 0))?;
    end(rt, agreed)
}

fn example(
    rt: &impl Print,
    words: &[u8],
    k: Case,
    covering: u8,
    low: i64,
    at: usize,
    value: i64,
) -> io::Result<()> {
    put_frame(rt, k, covering)?;
    put(rt, b"low-pass ", low)?;
    put(rt, b"place ", at)?;
    put(rt, b"value ", value)?;
    let mut plane = [0i64; 65];
    store(&mut plane, at, value);
    store(&mut plane, 0, low);
    let coverings = [covering; 6];
    tell_both(rt, words, k, &plane, &coverings)
}

// 4 by 4 and 1 level: 4 times 0 to 4,095. The entry is the first of band 1.
fn shallow(rt: &impl Print, words: &[u8], low: i64, value: i64) -> io::Result<()> {
    example(rt, words, case_of(4, 4, 1, 0, 0), 1, low, 8, value)
}

// Document 02, wish 13: "20 when some numerator is not 4^R times a whole number from 0 to 4,095". Zeros; a column of 1; 1, which is not 4 times a number; one
// sample 1 of which Keep left one coefficient, numerators 2 2 0 0; and 4 4 0 0, though no picture has this plane.
pub fn whole(rt: &impl Print, words: &[u8]) -> io::Result<()> {
    shallow(rt, words, 0, 0)?;
    shallow(rt, words, 4, 0)?;
    shallow(rt, words, 1, 0)?;
    shallow(rt, words, 1, 1)?;
    shallow(rt, words, 2, 2)
}

// Samples 4,095, one of them 4,096, and 4,095 again; -1 among them, and 0 again.
pub fn ends(rt: &impl Print, words: &[u8]) -> io::Result<()> {
    shallow(rt, words, 16380, 0)?;
    shallow(rt, words, 16380, 4)?;
    shallow(rt, words, 16376, 4)?;
    shallow(rt, words, 0, 4)?;
    shallow(rt, words, 4, 4)
}

// 8 by 8 and 2 levels: 16 times 0 to 4,095. The entry is the first of band 1 at level 2, place 16, or at level 1, place 32, where it counts four times.
fn deep(rt: &impl Print, words: &[u8], low: i64, at: usize, value: i64) -> io::Result<()> {
    example(rt, words, case_of(8, 8, 2, 0, 0), 1, low, at, value)
}

pub fn levels(rt: &impl Print, words: &[u8]) -> io::Result<()> {
    deep(rt, words, 16, 16, 0)?;
    deep(rt, words, 4, 16, 0)?;
    deep(rt, words, 8, 16, 8)?;
    deep(rt, words, 16, 32, 4)?;
    deep(rt, words, 16, 32, 2)?;
    deep(rt, words, 65520, 16, 0)?;
    deep(rt, words, 65520, 16, 16)
}

// A plane that would be refused by 20, in calls that are refused before for another reason: -1 in the low-pass, a covering that is none, a plane one place too
// short, no level, height 12.
pub fn order(rt: &impl Print, words: &[u8]) -> io::Result<()> {
    let k = case_of(4, 4, 1, 0, 0);
    example(rt, words, k, 1, -1, 8, 1)?;
    example(rt, words, k, 118, -1, 8, 1)?;
    let short = flawed_strip(k, 9);
    example(rt, words, short, 118, -1, 8, 1)?;
    let flat = flawed_strip(short, 4);
    example(rt, words, flat, 118, -1, 8, 1)?;
    example(rt, words, flawed_strip(flat, 1), 118, -1, 8, 1)
}
