// Test images, by the generator and by the plain second implementation.
use cases::answers::{compare, of_coder, of_plain};
use cases::inputs::{Case, case_of, next, side_of};
use cases::safe::{first_mut, plus};
use cases::tally::{Tally, Verdict};

// The starts: the two ends, one, the middle, and two of any size.
fn start(which: usize, seed: usize) -> u32 {
    match which {
        0 => 0,
        1 => 1,
        2 => 2147483648,
        3 => u32::MAX,
        4 => (next(seed) % 2147483648 * 2) as u32,
        _ => (next(seed) % 2147483648 * 2 + 1) as u32,
    }
}

// The lengths: that of the picture, most often, one less, one more, and none.
fn length(k: Case) -> usize {
    match k.kind {
        5 => k.n.saturating_sub(1),
        6 => plus(k.n, 1),
        7 => 0,
        _ => k.n,
    }
}

// Both, into slices of n places that hold other values before.
fn one_image(k: Case, start: u32, n: usize) -> Verdict {
    compare(
        [9u16; 1025],
        |s| of_coder(generator::test_image(k.height, k.width, start, first_mut(s, n))),
        |s| of_plain(plain::generated::test_image(k.height, k.width, start, first_mut(s, n))),
    )
    .verdict()
}

// Every height with every width, every start, every length.
pub fn group() -> Tally {
    Tally::of_cases(3072, |c| {
        let k = case_of(side_of(c % 8), side_of(c / 8 % 8), 1, c / 384 % 8, c);
        (k, one_image(k, start(c / 64 % 6, c), length(k)))
    })
}
