// Windows of pictures, restored by the viewer and by the plain second implementation: of planes of pictures, whole, kept and cut by a threshold, and of planes of
// any values; and windows of small pictures with flaws.
use case_planes::{fill_cut, sparse_case_at};
use cases::answers::{Answer, compare, of_coder, of_plain};
use cases::inputs::{Case, smaller};
use cases::safe::{first, first_mut};
use cases::strips::{small_join_at, spoil};
use cases::tally::{Tally, Verdict};
use cases::windows::{Window, flawed, window_of};

// The second implementation, with room for the largest picture of a group.
fn restore_plain(
    words: &[u8],
    w: Window,
    plane: &[i64],
    coverings: &[u8],
    samples: &mut [u16],
) -> Answer<()> {
    let mut numerators = [7; 1024];
    let mut picture = [9; 1024];
    let mut scratch = [-3; 1024];
    let k = w.picture;
    of_plain(plain::windows::window(
        words,
        k.height,
        k.width,
        k.levels,
        plane,
        coverings,
        w.top,
        w.left,
        w.tall,
        w.wide,
        samples,
        &mut numerators,
        &mut picture,
        &mut scratch,
    ))
}

fn restore(w: Window, plane: &[i64], coverings: &[u8], samples: &mut [u16]) -> Answer<()> {
    let k = w.picture;
    of_coder(viewer::window(
        k.height, k.width, k.levels, plane, coverings, w.top, w.left, w.tall, w.wide, samples,
    ))
}

// A window of the picture of a case, with two flaws of what its plane and its coverings hold: both, into slices that hold other values before, and with one place
// behind them or more. A refused call leaves them.
fn one_window(words: &[u8], k: Case, w: Window, flaw: usize, flaw2: usize) -> Verdict {
    let mut plane = [0; 1025];
    let mut coverings = [1; 513];
    fill_cut(k, &mut plane, &mut coverings);
    spoil(k, flaw, &mut plane, &mut coverings);
    spoil(k, flaw2, &mut plane, &mut coverings);
    let plane = first(&plane, w.picture.n);
    let coverings = first(&coverings, w.picture.b);
    compare(
        [9; 1026],
        |samples| restore(w, plane, coverings, first_mut(samples, w.n)),
        |samples| restore_plain(words, w, plane, coverings, first_mut(samples, w.n)),
    )
    .strict()
    .verdict()
}

// Some planes of the group `restore`, each with every kind of rows and every kind of columns.
pub fn group(words: &[u8]) -> Tally {
    Tally::of_cases(75264, |c| {
        let k = smaller(sparse_case_at(c / 49));
        (
            k,
            one_window(words, k, window_of(k, c % 7, c / 7 % 7), 0, 0),
        )
    })
}

// One cell in a corner of a small picture, another for another picture, with two flaws of the picture and one of the window.
fn one_flawed(
    words: &[u8],
    k: Case,
    which: usize,
    flaw: usize,
    flaw2: usize,
    own: usize,
) -> Verdict {
    let w = window_of(k, which % 2 + 1, which / 2 % 2 + 1);
    one_window(words, k, flawed(w, flaw, flaw2, own), flaw, flaw2)
}

// Small pictures of six heights and widths, each with every two flaws of the picture and every flaw of the window.
pub fn flawed_group(words: &[u8]) -> Tally {
    Tally::of_cases(27744, |c| {
        let k = small_join_at(c / 4624).left;
        let v = one_flawed(words, k, c / 4624, c % 17, c / 17 % 17, c / 289 % 16);
        (k, v)
    })
}
