// The plain second implementation for callers in C, so that the harness of random calls (tests/fuzz.c) can hold the library to it. Proved safe only, as what
// it calls. A slice passes as a pointer and a count of its elements; `words` are those that `plain_words` finds.
#![tactic(auto)]

use plain_frame::refusal::{Refusal, code};

mod shown;

// The number of an answer; what was asked for goes to `place`, which a refused call leaves as it was.
fn told<T: Copy>(answer: Result<T, Refusal>, place: &mut T) -> u32 {
    match answer {
        Ok(value) => {
            *place = value;
            0
        }
        Err(refusal) => u32::from(refusal),
    }
}

// Fills 1,872 places with the words of the 117 coverings.
#[unsafe(no_mangle)]
pub extern "C" fn plain_words(words: &mut [u8]) {
    plain::tiles::list_words(words);
}

#[unsafe(no_mangle)]
pub extern "C" fn plain_word(words: &[u8], covering: u8, word: &mut [u8]) -> u32 {
    code(plain::tiles::pieces(words, covering, word))
}

#[unsafe(no_mangle)]
pub extern "C" fn plain_decompose(
    words: &[u8],
    height: usize,
    width: usize,
    levels: usize,
    samples: &[u16],
    plane: &mut [i64],
    coverings: &mut [u8],
    scratch: &mut [i64],
) -> u32 {
    code(plain::pyramid::decompose(
        words, height, width, levels, samples, plane, coverings, scratch,
    ))
}

#[unsafe(no_mangle)]
pub extern "C" fn plain_decompose_within(
    words: &[u8],
    height: usize,
    width: usize,
    levels: usize,
    tolerance: u64,
    samples: &[u16],
    plane: &mut [i64],
    coverings: &mut [u8],
    scratch: &mut [i64],
) -> u32 {
    code(plain::pyramid::decompose_within(
        words, height, width, levels, tolerance, samples, plane, coverings, scratch,
    ))
}

#[unsafe(no_mangle)]
pub extern "C" fn plain_decompose_listed(
    words: &[u8],
    height: usize,
    width: usize,
    levels: usize,
    tolerance: u64,
    samples: &[u16],
    list: &[u8],
    plane: &mut [i64],
    coverings: &mut [u8],
    scratch: &mut [i64],
) -> u32 {
    code(plain::pyramid::decompose_listed(
        words, height, width, levels, tolerance, samples, list, plane, coverings, scratch,
    ))
}

#[unsafe(no_mangle)]
pub extern "C" fn plain_restore(
    words: &[u8],
    height: usize,
    width: usize,
    levels: usize,
    plane: &[i64],
    coverings: &[u8],
    numerators: &mut [i64],
    samples: &mut [u16],
    scratch: &mut [i64],
) -> u32 {
    code(plain::pyramid::restore(
        words, height, width, levels, plane, coverings, scratch, numerators, samples,
    ))
}

#[unsafe(no_mangle)]
pub extern "C" fn plain_restore_listed(
    words: &[u8],
    height: usize,
    width: usize,
    levels: usize,
    plane: &[i64],
    coverings: &[u8],
    list: &[u8],
    numerators: &mut [i64],
    samples: &mut [u16],
    scratch: &mut [i64],
) -> u32 {
    code(plain::pyramid::restore_listed(
        words, height, width, levels, plane, coverings, list, scratch, numerators, samples,
    ))
}

// For areas up to 1,024: a larger picture is refused by 3, after 1, 2, 3, 5 and 6.
#[unsafe(no_mangle)]
pub extern "C" fn plain_restore_master(
    words: &[u8],
    height: usize,
    width: usize,
    levels: usize,
    plane: &[i64],
    coverings: &[u8],
    numerators: &mut [i64],
    samples: &mut [u16],
    scratch: &mut [i64],
) -> u32 {
    code(plain::masters::restore_master(
        words, height, width, levels, plane, coverings, scratch, numerators, samples,
    ))
}

// The last three slices are room: of each the front part, as long as the picture, is used.
#[unsafe(no_mangle)]
pub extern "C" fn plain_window(
    words: &[u8],
    height: usize,
    width: usize,
    levels: usize,
    plane: &[i64],
    coverings: &[u8],
    top: usize,
    left: usize,
    tall: usize,
    wide: usize,
    samples: &mut [u16],
    numerators: &mut [i64],
    picture: &mut [u16],
    scratch: &mut [i64],
) -> u32 {
    code(plain::windows::window(
        words, height, width, levels, plane, coverings, top, left, tall, wide, samples, numerators,
        picture, scratch,
    ))
}

// The last three slices are room: of each the front part, as long as the picture, is used.
#[unsafe(no_mangle)]
pub extern "C" fn plain_smooth(
    words: &[u8],
    height: usize,
    width: usize,
    levels: usize,
    plane: &[i64],
    coverings: &[u8],
    step: u64,
    res: &mut [i64],
    scratch: &mut [i64],
    gradient: &mut [i64],
    decomposed: &mut [i64],
    projected: &mut [i64],
) -> u32 {
    code(plain::smoothing::smooth(
        words, height, width, levels, plane, coverings, step, res, scratch, gradient, decomposed,
        projected,
    ))
}

#[unsafe(no_mangle)]
pub extern "C" fn plain_keep(
    height: usize,
    width: usize,
    levels: usize,
    plane: &mut [i64],
    quota: u64,
    left: &mut usize,
) -> u32 {
    told(plain::cut::keep(height, width, levels, plane, quota), left)
}

#[unsafe(no_mangle)]
pub extern "C" fn plain_threshold(
    height: usize,
    width: usize,
    levels: usize,
    plane: &mut [i64],
    limit: u64,
    left: &mut usize,
) -> u32 {
    told(plain::cut::cut(height, width, levels, plane, limit), left)
}

#[unsafe(no_mangle)]
pub extern "C" fn plain_join(
    left_height: usize,
    left_width: usize,
    left_levels: usize,
    left_plane: &[i64],
    left_coverings: &[u8],
    right_height: usize,
    right_width: usize,
    right_levels: usize,
    right_plane: &[i64],
    right_coverings: &[u8],
    plane: &mut [i64],
    coverings: &mut [u8],
) -> u32 {
    code(plain::strips::join(
        left_height,
        left_width,
        left_levels,
        left_plane,
        left_coverings,
        right_height,
        right_width,
        right_levels,
        right_plane,
        right_coverings,
        plane,
        coverings,
    ))
}

#[unsafe(no_mangle)]
pub extern "C" fn plain_write(
    height: usize,
    width: usize,
    levels: usize,
    plane: &[i64],
    coverings: &[u8],
    buffer: &mut [u8],
    length: &mut usize,
) -> u32 {
    told(
        plain_text::writing::write(height, width, levels, plane, coverings, buffer),
        length,
    )
}

#[unsafe(no_mangle)]
pub extern "C" fn plain_read(
    text: &[u8],
    plane: &mut [i64],
    coverings: &mut [u8],
    height: &mut usize,
    width: &mut usize,
    levels: &mut usize,
) -> u32 {
    let answer = plain_text::reading::read(text, plane, coverings);
    if let Ok(frame) = answer {
        *height = frame.extent.height;
        *width = frame.extent.width;
        *levels = frame.levels;
    }
    code(answer)
}

#[unsafe(no_mangle)]
pub extern "C" fn plain_usage(coverings: &[u8], buffer: &mut [u8], length: &mut usize) -> u32 {
    told(plain_text::writing::usage(coverings, buffer), length)
}

#[unsafe(no_mangle)]
pub extern "C" fn plain_test_image(
    height: usize,
    width: usize,
    start: u32,
    samples: &mut [u16],
) -> u32 {
    code(plain::generated::test_image(height, width, start, samples))
}

#[unsafe(no_mangle)]
pub extern "C" fn plain_show(
    words: &[u8],
    covering: u8,
    steps: &[u16],
    samples: &mut [u16],
    found: &mut u8,
) -> u32 {
    let answer = shown::show(words, covering, steps, samples);
    told(answer.map(u8::from), found)
}
