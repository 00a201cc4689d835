// Smoothing steps, by the coder and by the plain second implementation: of planes of pictures, whole, kept and cut by a threshold, of planes of any values and of
// planes whose entries are ends of their ranges; and steps of small pictures with flaws.
use case_planes::{case_at, fill_cut};
use cases::answers::{Answer, compare, of_coder, of_plain};
use cases::inputs::{Case, fill_coverings};
use cases::safe::{first, first_mut};
use cases::smoothings::{Smoothing, fill_ends, flawed, smoothing_of};
use cases::strips::{small_join_at, spoil};
use cases::tally::{Tally, Verdict};

// What a picture holds: room for the largest of a group, and one place more.
#[derive(Clone, Copy)]
struct Held {
    plane: [i64; 1025],
    coverings: [u8; 513],
}

impl Held {
    fn new() -> Held {
        Held {
            plane: [0; 1025],
            coverings: [1; 513],
        }
    }
}

// The slices that a step fills.
#[derive(Clone, Copy, PartialEq)]
struct Room {
    result: [i64; 1026],
    scratch: [i64; 1026],
}

fn smooth(s: Smoothing, held: &Held, room: &mut Room) -> Answer<()> {
    let k = s.picture;
    of_coder(smoothing::smooth(
        k.height,
        k.width,
        k.levels,
        first(&held.plane, k.n),
        first(&held.coverings, k.b),
        s.step,
        first_mut(&mut room.result, s.result),
        first_mut(&mut room.scratch, s.scratch),
    ))
}

// The second implementation, with room for the largest picture of a group.
fn smooth_plain(words: &[u8], s: Smoothing, held: &Held, room: &mut Room) -> Answer<()> {
    let mut gradient = [5; 1024];
    let mut decomposed = gradient;
    let mut projected = gradient;
    let k = s.picture;
    of_plain(plain::smoothing::smooth(
        words,
        k.height,
        k.width,
        k.levels,
        first(&held.plane, k.n),
        first(&held.coverings, k.b),
        s.step,
        first_mut(&mut room.result, s.result),
        first_mut(&mut room.scratch, s.scratch),
        &mut gradient,
        &mut decomposed,
        &mut projected,
    ))
}

// Both, into slices that hold other values before, and with one place behind them or more. A refused call leaves them.
fn both(words: &[u8], s: Smoothing, held: &Held) -> Verdict {
    let before = Room {
        result: [7; 1026],
        scratch: [7; 1026],
    };
    compare(
        before,
        |room| smooth(s, held, room),
        |room| smooth_plain(words, s, held, room),
    )
    .strict()
    .verdict()
}

// A step of the plane of a case, with two flaws of what its plane and its coverings hold.
fn one_step(words: &[u8], k: Case, s: Smoothing, flaw: usize, flaw2: usize) -> Verdict {
    let mut held = Held::new();
    fill_cut(k, &mut held.plane, &mut held.coverings);
    spoil(k, flaw, &mut held.plane, &mut held.coverings);
    spoil(k, flaw2, &mut held.plane, &mut held.coverings);
    both(words, s, &held)
}

// The planes of the group `restore` of `vectors`, each whole, kept or cut.
pub fn group(words: &[u8]) -> Tally {
    Tally::of_cases(16128, |c| {
        let k = case_at(c);
        (k, one_step(words, k, smoothing_of(k), 0, 0))
    })
}

fn one_end(words: &[u8], k: Case) -> Verdict {
    let mut held = Held::new();
    fill_ends(k, &mut held.plane);
    fill_coverings(k, &mut held.coverings);
    both(words, smoothing_of(k), &held)
}

// Planes of every height, width and number of levels whose entries are ends of their ranges, or 0.
pub fn end_group(words: &[u8]) -> Tally {
    Tally::of_cases(3072, |c| {
        let k = case_at(c);
        (k, one_end(words, k))
    })
}

fn one_flawed(words: &[u8], k: Case, flaw: usize, flaw2: usize) -> Verdict {
    let s = flawed(flawed(smoothing_of(k), flaw), flaw2);
    one_step(words, k, s, flaw, flaw2)
}

// Small pictures of six heights and widths, each with every two flaws.
pub fn flawed_group(words: &[u8]) -> Tally {
    Tally::of_cases(3456, |c| {
        let k = small_join_at(c / 576).left;
        (k, one_flawed(words, k, c % 24, c / 24 % 24))
    })
}
