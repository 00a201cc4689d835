// The longest strips, 4 by 512 and 512 by 4: one level of 128 blocks. Their pictures are noise.
use cases::answers::{Pair, compare, of_coder, of_plain};
use cases::inputs::{case_of, fill_picture};
use pairs::answers::{end, put, tell, tell_one};
use std::io;

fn picture(height: usize, width: usize) -> [u16; 2048] {
    let mut samples = [0; 2048];
    fill_picture(case_of(height, width, 1, 2, 5), &mut samples);
    samples
}

// The plane and the coverings of the picture, by the coder.
fn fill(height: usize, width: usize, plane: &mut [i64], coverings: &mut [u8]) {
    let samples = picture(height, width);
    let mut scratch = [0; 2048];
    let _ = coder::decompose(height, width, 1, &samples, plane, coverings, &mut scratch);
}

// The slices that a call fills: plane, numerators or result; samples, coverings and scratch.
#[derive(Clone, Copy, PartialEq)]
struct Room {
    values: [i64; 2048],
    samples: [u16; 2048],
    coverings: [u8; 128],
    scratch: [i64; 2048],
}

// Other values than a call leaves.
fn before() -> Room {
    Room {
        values: [7; 2048],
        samples: [9; 2048],
        coverings: [9; 128],
        scratch: [-3; 2048],
    }
}

fn decompose(words: &[u8], height: usize, width: usize) -> Pair<()> {
    let samples = picture(height, width);
    compare(
        before(),
        |room| {
            of_coder(coder::decompose(
                height,
                width,
                1,
                &samples,
                &mut room.values,
                &mut room.coverings,
                &mut room.scratch,
            ))
        },
        |room| {
            of_plain(plain::pyramid::decompose(
                words,
                height,
                width,
                1,
                &samples,
                &mut room.values,
                &mut room.coverings,
                &mut room.scratch,
            ))
        },
    )
}

fn restore(words: &[u8], height: usize, width: usize, plane: &[i64], coverings: &[u8]) -> Pair<()> {
    compare(
        before(),
        |room| {
            of_coder(coder::restore(
                height,
                width,
                1,
                plane,
                coverings,
                &mut room.values,
                &mut room.samples,
                &mut room.scratch,
            ))
        },
        |room| {
            of_plain(plain::pyramid::restore(
                words,
                height,
                width,
                1,
                plane,
                coverings,
                &mut room.scratch,
                &mut room.values,
                &mut room.samples,
            ))
        },
    )
}

fn write(height: usize, width: usize, plane: &[i64], coverings: &[u8]) -> Pair<usize> {
    compare(
        [b'?'; 36864],
        |buffer| of_coder(sheet::write(height, width, 1, plane, coverings, buffer)),
        |buffer| {
            of_plain(plain_text::writing::write(height, width, 1, plane, coverings, buffer))
        },
    )
}

fn smooth(words: &[u8], height: usize, width: usize, plane: &[i64], coverings: &[u8]) -> Pair<()> {
    let mut gradient = [7; 2048];
    let mut decomposed = gradient;
    let mut projected = gradient;
    compare(
        before(),
        |room| {
            of_coder(smoothing::smooth(
                height,
                width,
                1,
                plane,
                coverings,
                255,
                &mut room.values,
                &mut room.scratch,
            ))
        },
        |room| {
            of_plain(plain::smoothing::smooth(
                words,
                height,
                width,
                1,
                plane,
                coverings,
                255,
                &mut room.values,
                &mut room.scratch,
                &mut gradient,
                &mut decomposed,
                &mut projected,
            ))
        },
    )
}

fn strip(rt: &impl Print, words: &[u8], height: usize, width: usize) -> io::Result<()> {
    put(rt, b"height ", height)?;
    put(rt, b"width ", width)?;
    put(rt, b"levels ", 1)?;
    let mut plane = [0i64; 2048];
    let mut coverings = [0u8; 128];
    fill(height, width, &mut plane, &mut coverings);
    let d = tell(rt, true, b"decompose", decompose(words, height, width))?;
    let r = tell(
        rt,
        d,
        b"restore",
        restore(words, height, width, &plane, &coverings),
    )?;
    end(
        rt,
        tell(rt, r, b"write", write(height, width, &plane, &coverings))?,
    )
}

pub fn strips(rt: &impl Print, words: &[u8]) -> io::Result<()> {
    strip(rt, words, 4, 512)?;
    strip(rt, words, 512, 4)
}

// The largest step, of a picture of which 100 entries were kept.
fn step(rt: &impl Print, words: &[u8], height: usize, width: usize) -> io::Result<()> {
    put(rt, b"height ", height)?;
    put(rt, b"width ", width)?;
    put(rt, b"kept ", 100)?;
    put(rt, b"step ", 255)?;
    let mut plane = [0i64; 2048];
    let mut coverings = [0u8; 128];
    fill(height, width, &mut plane, &mut coverings);
    let _ = keeping::keep(height, width, 1, &mut plane, 100);
    tell_one(
        rt,
        b"smooth",
        smooth(words, height, width, &plane, &coverings),
    )
}

pub fn steps(rt: &impl Print, words: &[u8]) -> io::Result<()> {
    step(rt, words, 4, 512)?;
    step(rt, words, 512, 4)
}
