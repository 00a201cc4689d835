// Two strips, joined by the coder and by the plain second implementation: planes of pictures, whole, kept and cut by a threshold, and planes of any values; and
// small strips with flaws.
use case_planes::{fill, fill_cut};
use cases::answers::{compare, of_coder, of_plain};
use cases::inputs::Case;
use cases::safe::{first, first_mut};
use cases::strips::{Join, flawed, join_at, small_join_at, spoil};
use cases::tally::{Tally, Verdict};

// What a strip holds: room for the largest of a group, and one place more.
#[derive(Clone, Copy)]
struct Held {
    plane: [i64; 1025],
    coverings: [u8; 513],
}

impl Held {
    fn new() -> Held {
        Held {
            plane: [0; 1025],
            coverings: [1; 513],
        }
    }

    // A strip, kept, cut or left as it is.
    fn cut(k: Case) -> Held {
        let mut held = Held::new();
        fill_cut(k, &mut held.plane, &mut held.coverings);
        held
    }

    fn flawed(k: Case, flaw: usize) -> Held {
        let mut held = Held::new();
        fill(k, &mut held.plane, &mut held.coverings);
        spoil(k, flaw, &mut held.plane, &mut held.coverings);
        held
    }
}

// The slices of the joined strip.
#[derive(Clone, Copy, PartialEq)]
struct Room {
    plane: [i64; 2049],
    coverings: [u8; 1025],
}

// Both, into slices that hold other values before. A refused call leaves them.
fn one_join(j: Join, left: &Held, right: &Held) -> Verdict {
    let l = j.left;
    let r = j.right;
    let before = Room {
        plane: [7; 2049],
        coverings: [9; 1025],
    };
    compare(
        before,
        |room| {
            of_coder(joining::join(
                l.height,
                l.width,
                l.levels,
                first(&left.plane, l.n),
                first(&left.coverings, l.b),
                r.height,
                r.width,
                r.levels,
                first(&right.plane, r.n),
                first(&right.coverings, r.b),
                first_mut(&mut room.plane, j.n),
                first_mut(&mut room.coverings, j.b),
            ))
        },
        |room| {
            of_plain(plain::strips::join(
                l.height,
                l.width,
                l.levels,
                first(&left.plane, l.n),
                first(&left.coverings, l.b),
                r.height,
                r.width,
                r.levels,
                first(&right.plane, r.n),
                first(&right.coverings, r.b),
                first_mut(&mut room.plane, j.n),
                first_mut(&mut room.coverings, j.b),
            ))
        },
    )
    .strict()
    .verdict()
}

pub fn group() -> Tally {
    Tally::of_cases(16128, |c| {
        let j = join_at(c);
        (j.left, one_join(j, &Held::cut(j.left), &Held::cut(j.right)))
    })
}

// A call with a flaw of each strip and one of the joined slices.
fn one_flawed(j: Join, left: usize, right: usize, whole: usize) -> Verdict {
    one_join(
        flawed(j, left, right, whole),
        &Held::flawed(j.left, left),
        &Held::flawed(j.right, right),
    )
}

// Small strips of six heights and widths, each with every flaw of the left strip, every flaw of the right one and every flaw of the joined slices.
pub fn flawed_group() -> Tally {
    Tally::of_cases(13872, |c| {
        let j = small_join_at(c / 2312);
        (j.left, one_flawed(j, c % 17, c / 17 % 17, c / 289 % 8))
    })
}
