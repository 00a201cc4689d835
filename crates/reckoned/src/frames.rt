// The limits of heights, widths, levels and the lengths of slices, each with what lies past it.
use crate::pictures::{Choice, Picture, both};
use crate::smoothed;
use pairs::answers::{end, put, tell, tell_one};
use pairs::planes;
use pairs::planes::{Lengths, Plane, zeros};
use std::io;

fn put_frame(rt: &impl Print, k: Plane) -> io::Result<()> {
    put(rt, b"height ", k.height)?;
    put(rt, b"width ", k.width)?;
    put(rt, b"levels ", k.levels)?;
    put(rt, b"plane ", k.plane)?;
    put(rt, b"coverings ", k.coverings)
}

// Every entry that is lent a plane.
fn tell_plane(rt: &impl Print, before: bool, words: &[u8], k: Plane) -> io::Result<bool> {
    let r = tell(rt, before, b"restore", planes::restore(words, k))?;
    let s = tell(rt, r, b"smooth", smoothed::smooth(words, k, 1))?;
    let q = tell(rt, s, b"keep", planes::keep(k, 1))?;
    let t = tell(rt, q, b"threshold", planes::threshold(k, 1))?;
    tell(rt, t, b"write", planes::write(k, 256))
}

// The same after decomposing, without a tolerance and with 1.
fn tell_frame(rt: &impl Print, words: &[u8], k: Plane) -> io::Result<()> {
    let p = Picture {
        height: k.height,
        width: k.width,
        levels: k.levels,
        samples: k.plane,
        plane: k.plane,
        coverings: k.coverings,
        scratch: k.plane,
        picture: [0; 65],
    };
    let d = tell(rt, true, b"decompose", both(words, &p, Choice::Free))?;
    let t = tell(rt, d, b"within", both(words, &p, Choice::Within(1)))?;
    end(rt, tell_plane(rt, t, words, k)?)
}

pub fn frame(
    rt: &impl Print,
    words: &[u8],
    height: usize,
    width: usize,
    levels: usize,
    plane: usize,
    coverings: usize,
) -> io::Result<()> {
    let k = zeros(height, width, levels, plane, coverings);
    put_frame(rt, k)?;
    tell_frame(rt, words, k)
}

// Heights and widths from 0 to past 2^32. 512 by 512 with short slices is 3, so that it has passed 1 and 2.
pub fn sides(rt: &impl Print, words: &[u8]) -> io::Result<()> {
    frame(rt, words, 0, 0, 1, 0, 0)?;
    frame(rt, words, 2, 2, 1, 4, 0)?;
    frame(rt, words, 4, 4, 1, 16, 1)?;
    frame(rt, words, 6, 6, 1, 36, 1)?;
    frame(rt, words, 8, 8, 1, 64, 4)?;
    frame(rt, words, 512, 512, 1, 16, 1)?;
    frame(rt, words, 513, 513, 1, 16, 1)?;
    frame(rt, words, 1024, 1024, 1, 16, 1)?;
    frame(rt, words, 4294967300, 4294967300, 1, 16, 1)
}

// The same for a height alone and a width alone.
pub fn strips(rt: &impl Print, words: &[u8]) -> io::Result<()> {
    frame(rt, words, 4, 8, 1, 32, 2)?;
    frame(rt, words, 8, 4, 1, 32, 2)?;
    frame(rt, words, 6, 8, 1, 48, 2)?;
    frame(rt, words, 8, 6, 1, 48, 2)?;
    frame(rt, words, 0, 4, 1, 0, 0)?;
    frame(rt, words, 4, 0, 1, 0, 0)?;
    frame(rt, words, 1024, 4, 1, 16, 1)?;
    frame(rt, words, 4, 1024, 1, 16, 1)?;
    frame(rt, words, 4294967300, 4, 1, 16, 1)?;
    frame(rt, words, 4, 4294967300, 1, 16, 1)
}

// Levels from 0 to the largest number, on squares of 4, 8 and 512.
pub fn depths(rt: &impl Print, words: &[u8]) -> io::Result<()> {
    frame(rt, words, 4, 4, 0, 16, 0)?;
    frame(rt, words, 4, 4, 2, 16, 1)?;
    frame(rt, words, 8, 8, 2, 64, 5)?;
    frame(rt, words, 8, 8, 3, 64, 5)?;
    frame(rt, words, 512, 512, 8, 16, 1)?;
    frame(rt, words, 512, 512, 9, 16, 1)?;
    frame(rt, words, 4, 4, 4294967297, 16, 1)?;
    frame(rt, words, 4, 4, usize::MAX, 16, 1)
}

// Levels up to the logarithm of the smaller of height and width, less 1. With short slices a good depth is 3.
pub fn strip_depths(rt: &impl Print, words: &[u8]) -> io::Result<()> {
    frame(rt, words, 4, 8, 2, 32, 2)?;
    frame(rt, words, 8, 4, 2, 32, 2)?;
    frame(rt, words, 4, 16, 1, 64, 4)?;
    frame(rt, words, 16, 4, 1, 64, 4)?;
    frame(rt, words, 8, 512, 2, 16, 1)?;
    frame(rt, words, 8, 512, 3, 16, 1)?;
    frame(rt, words, 512, 8, 2, 16, 1)?;
    frame(rt, words, 512, 8, 3, 16, 1)
}

// The same before reading the plane's sheet.
pub fn tell_sheet(rt: &impl Print, words: &[u8], k: Plane) -> io::Result<()> {
    let v = tell_plane(rt, true, words, k)?;
    end(rt, tell(rt, v, b"read", planes::read(k))?)
}

pub fn lengths(
    rt: &impl Print,
    words: &[u8],
    height: usize,
    width: usize,
    levels: usize,
    plane: usize,
    coverings: usize,
) -> io::Result<()> {
    let k = zeros(height, width, levels, plane, coverings);
    put_frame(rt, k)?;
    tell_sheet(rt, words, k)
}

// A plane of its exact length, one place less and one more.
pub fn planes(rt: &impl Print, words: &[u8]) -> io::Result<()> {
    lengths(rt, words, 4, 4, 1, 15, 1)?;
    lengths(rt, words, 4, 4, 1, 16, 1)?;
    lengths(rt, words, 4, 4, 1, 17, 1)?;
    lengths(rt, words, 8, 8, 2, 63, 5)?;
    lengths(rt, words, 8, 8, 2, 64, 5)?;
    lengths(rt, words, 8, 8, 2, 65, 5)
}

// The same for strips, and the areas of the squares of their height and of their width.
pub fn strip_planes(rt: &impl Print, words: &[u8]) -> io::Result<()> {
    lengths(rt, words, 4, 8, 1, 31, 2)?;
    lengths(rt, words, 4, 8, 1, 32, 2)?;
    lengths(rt, words, 4, 8, 1, 33, 2)?;
    lengths(rt, words, 4, 8, 1, 16, 2)?;
    lengths(rt, words, 4, 8, 1, 64, 2)?;
    lengths(rt, words, 8, 4, 1, 31, 2)?;
    lengths(rt, words, 8, 4, 1, 32, 2)?;
    lengths(rt, words, 8, 4, 1, 33, 2)?;
    lengths(rt, words, 8, 4, 1, 16, 2)?;
    lengths(rt, words, 8, 4, 1, 64, 2)
}

// Coverings as many as the blocks, one less and one more. Keep and threshold are lent none.
pub fn blocks(rt: &impl Print, words: &[u8]) -> io::Result<()> {
    lengths(rt, words, 4, 4, 1, 16, 0)?;
    lengths(rt, words, 4, 4, 1, 16, 1)?;
    lengths(rt, words, 4, 4, 1, 16, 2)?;
    lengths(rt, words, 8, 8, 2, 64, 4)?;
    lengths(rt, words, 8, 8, 2, 64, 5)?;
    lengths(rt, words, 8, 8, 2, 64, 6)
}

// The same for strips.
pub fn strip_blocks(rt: &impl Print, words: &[u8]) -> io::Result<()> {
    lengths(rt, words, 4, 8, 1, 32, 1)?;
    lengths(rt, words, 4, 8, 1, 32, 2)?;
    lengths(rt, words, 4, 8, 1, 32, 3)?;
    lengths(rt, words, 16, 4, 1, 64, 3)?;
    lengths(rt, words, 16, 4, 1, 64, 4)?;
    lengths(rt, words, 16, 4, 1, 64, 5)
}

fn filled(
    rt: &impl Print,
    words: &[u8],
    numerators: usize,
    samples: usize,
    scratch: usize,
) -> io::Result<()> {
    put(rt, b"numerators ", numerators)?;
    put(rt, b"samples ", samples)?;
    put(rt, b"scratch ", scratch)?;
    let l = Lengths {
        numerators,
        samples,
        scratch,
    };
    tell_one(
        rt,
        b"restore",
        planes::restore_into(words, zeros(4, 4, 1, 16, 1), l),
    )
}

// The slices that restoring fills, at 4 by 4: each of its exact length, one place less and one more.
pub fn restored(rt: &impl Print, words: &[u8]) -> io::Result<()> {
    filled(rt, words, 16, 16, 16)?;
    filled(rt, words, 15, 16, 16)?;
    filled(rt, words, 17, 16, 16)?;
    filled(rt, words, 16, 15, 16)?;
    filled(rt, words, 16, 17, 16)?;
    filled(rt, words, 16, 16, 15)?;
    filled(rt, words, 16, 16, 17)
}
