// The texts of generated inputs.
use cases::safe::{plus, rest, times};
use plain_text::writing::{put_number, put_text};

// A header; how many rows and columns follow it; and the last sample.
#[derive(Clone, Copy)]
pub struct Ask {
    pub height: usize,
    pub width: usize,
    pub levels: usize,
    pub quota: usize,
    pub rows: usize,
    pub columns: usize,
    pub last: usize,
}

pub fn put_header(text: &mut [u8], k: Ask) -> usize {
    let a = put_text(text, 0, b"height width levels quota\n");
    let b = put_number(text, a, k.height, b' ');
    let c = put_number(text, b, k.width, b' ');
    let d = put_number(text, c, k.levels, b' ');
    put_number(text, d, k.quota, b'\n')
}

// Value i of the picture: numbers of one digit to three, and at the end the last sample.
fn value(k: Ask, i: usize) -> usize {
    if plus(i, 1) == times(k.rows, k.columns) {
        return k.last;
    }
    rest(times(i, 137), 251)
}

fn put_value(text: &mut [u8], at: usize, k: Ask, i: usize) -> usize {
    put_number(
        text,
        at,
        value(k, i),
        plain_text::lines::byte_after(rest(i, k.columns), k.columns),
    )
}

fn put_rows(text: &mut [u8], at: usize, k: Ask) -> usize {
    let mut end = at;
    for i in 0..times(k.rows, k.columns) {
        end = put_value(text, end, k, i);
    }
    end
}

// The whole input; gives its length.
pub fn put_input(text: &mut [u8], k: Ask) -> usize {
    let a = put_header(text, k);
    let b = put_text(text, a, b"samples\n");
    put_rows(text, b, k)
}
