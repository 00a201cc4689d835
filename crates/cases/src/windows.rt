// Generated windows of pictures, and their flaws. A window is told by numbers, as a case is.
//
// The kinds of its rows, and those of its columns: 0 all of the picture, 1 the first, 2 the last, 3 any one, 4 the middle two of a block, 5 all but three at the
// ends, 6 any number from any one on.
//
// The flaws of a window: 0 none. It has 1 no row, 2 no column, 3 one row too many, 4 one column too many; 5 its first row, 6 its first column is behind the
// picture; the largest number is 7 its first row, 8 its first column, 9 its height, 10 its width. As sums and products of 64 bits wrap, these are 0: 11 first row
// and height, 12 first column and width, 13 height times width. Its slice is 14 one place too short, 15 one too long.
// Kept: the numbers of kinds and flaws, which the groups count through; an enum would be made of a number at each case and matched at once.
use crate::inputs::{Case, mixed};
use crate::safe::{plus, rest, times};
use crate::strips::flawed_strip;

// What is told of a picture, with the lengths of its slices, and of a window of it: its first row and column, its height and width, and the length `n` of its
// slice.
#[derive(Clone, Copy)]
pub struct Window {
    pub picture: Case,
    pub top: usize,
    pub left: usize,
    pub tall: usize,
    pub wide: usize,
    pub n: usize,
}

// Rows or columns: the first, and how many.
#[derive(Drop)]
struct Span {
    first: usize,
    count: usize,
}

fn span_from(first: usize, count: usize) -> Span {
    Span { first, count }
}

// Any number from any one on.
fn any(side: usize, random: usize) -> Span {
    let first = rest(random, side);
    span_from(
        first,
        plus(rest(random / 32, side.saturating_sub(first)), 1),
    )
}

// Rows or columns of a picture that has so many.
fn span_of(side: usize, kind: usize, random: usize) -> Span {
    match kind {
        0 => span_from(0, side),
        1 => span_from(0, 1),
        2 => span_from(side.saturating_sub(1), 1),
        3 => span_from(rest(random, side), 1),
        4 => span_from(plus(times(4, rest(random, side / 4)), 1), 2),
        5 => span_from(random % 2 + 1, side.saturating_sub(3)),
        _ => any(side, random),
    }
}

// A slice of as many places as the window has cells, at most 1,024.
fn measured(mut w: Window) -> Window {
    w.n = times(w.tall, w.wide).min(1024);
    w
}

// The window of these kinds of rows and columns.
pub fn window_of(k: Case, rows: usize, columns: usize) -> Window {
    let r = span_of(k.height, rows, k.seed);
    let c = span_of(k.width, columns, mixed(k.seed));
    measured(Window {
        picture: k,
        top: r.first,
        left: c.first,
        tall: r.count,
        wide: c.count,
        n: 0,
    })
}

// Flaws of what is told of a window.
fn told(mut w: Window, flaw: usize) -> Window {
    match flaw {
        1 => w.tall = 0,
        2 => w.wide = 0,
        3 => w.tall = plus(w.picture.height.saturating_sub(w.top), 1),
        4 => w.wide = plus(w.picture.width.saturating_sub(w.left), 1),
        5 => w.top = w.picture.height,
        6 => w.left = w.picture.width,
        7 => w.top = usize::MAX,
        8 => w.left = usize::MAX,
        9 => w.tall = usize::MAX,
        10 => w.wide = usize::MAX,
        11 => {
            w.top = 9223372036854775808;
            w.tall = 9223372036854775808;
        }
        12 => {
            w.left = 9223372036854775808;
            w.wide = 9223372036854775808;
        }
        13 => {
            w.tall = 4294967296;
            w.wide = 4294967296;
        }
        _ => {}
    }
    w
}

// Flaws of its slice.
fn lent(mut w: Window, flaw: usize) -> Window {
    match flaw {
        14 => w.n = w.n.saturating_sub(1),
        15 => w.n = plus(w.n, 1),
        _ => {}
    }
    w
}

// The call with two flaws of the picture and one of the window, but for what the slices hold.
pub fn flawed(w: Window, flaw: usize, flaw2: usize, own: usize) -> Window {
    Window {
        picture: flawed_strip(flawed_strip(w.picture, flaw), flaw2),
        ..lent(measured(told(w, own)), own)
    }
}
