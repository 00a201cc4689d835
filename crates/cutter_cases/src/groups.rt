// Groups of generated inputs: mixtures of heights, widths, levels, quotas, samples and ends; and inputs of about the length that is too long.
use crate::answers::answer;
use crate::seen::Seen;
use crate::texts::Ask;
use cases::safe::{first, plus, store, times};
use std::io;

// A height or a width: of pictures, and such as are 1, 12, or both at once.
fn side_of(n: usize) -> usize {
    match n {
        0 => 4,
        1 => 8,
        2 => 32,
        3 => 0,
        4 => 6,
        5 => 48,
        6 => 64,
        _ => 1024,
    }
}

fn levels_of(n: usize) -> usize {
    match n {
        0 => 1,
        1 => 2,
        2 => 0,
        _ => 9,
    }
}

// A picture of 4 by 4 has 12 tetrolet entries; the last number is too large for a text.
fn quota_of(n: usize) -> usize {
    match n {
        0 => 0,
        1 => 12,
        2 => 13,
        3 => 2147483647,
        _ => 2147483648,
    }
}

fn sample_of(n: usize) -> usize {
    match n {
        0 => 7,
        1 => 4095,
        2 => 4096,
        _ => 2147483648,
    }
}

fn rows_of(side: usize) -> usize {
    if side <= 64 { side } else { 4 }
}

fn ask_of(c: usize) -> Ask {
    let height = side_of(c % 8);
    let width = side_of(c / 8 % 8);
    Ask {
        height,
        width,
        levels: levels_of(c / 64 % 4),
        quota: quota_of(c / 256 % 5),
        rows: rows_of(height),
        columns: rows_of(width),
        last: sample_of(c / 1280 % 4),
    }
}

// The end of an input: as it is, without its last LF, or with a byte after it.
fn end_of(text: &mut [u8], end: usize, way: usize) -> usize {
    match way {
        0 => end,
        1 => end.saturating_sub(1),
        _ => {
            store(text, end, 10);
            plus(end, 1)
        }
    }
}

fn mixed(k: Ask, way: usize) -> Option<usize> {
    let mut text = [0; 32768];
    let whole = crate::texts::put_input(&mut text, k);
    let end = end_of(&mut text, whole, way);
    answer(first(&text, end))
}

// Half of the 15,360 mixtures: seven steps at a time, and so every height, width, number of levels, quota, sample and end.
fn mixture_group() -> Seen {
    let mut seen = Seen::default();
    for c in 0..7680 {
        let n = times(c, 7);
        let k = ask_of(n);
        seen.count(k, mixed(k, n / 5120 % 3));
    }
    seen
}

// A header before spaces, in inputs of 65,535 to 65,538 bytes.
fn long_input(k: Ask, c: usize) -> Option<usize> {
    let mut text = [b' '; 65538];
    crate::texts::put_header(&mut text, k);
    answer(first(&text, 65535 + c % 4))
}

// A quarter of the headers of the mixtures, in the same steps.
fn length_group() -> Seen {
    let mut seen = Seen::default();
    for c in 0..1280 {
        let k = ask_of(times(c / 4, 7));
        seen.count(k, long_input(k, c));
    }
    seen
}

pub fn tell_all(rt: &impl Print) -> io::Result<()> {
    crate::seen::tell(rt, b"mixtures:", mixture_group())?;
    crate::seen::tell(rt, b"lengths:", length_group())
}
