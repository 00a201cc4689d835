// Planes, restored without a list and with one, by the coder and by the plain second implementation: those of the pictures, and planes of any values.
use case_planes::{case_at, fill};
use cases::answers::{compare, of_coder, of_plain};
use cases::inputs::Case;
use cases::lists::{fill_list, fill_used, lent};
use cases::safe::{first, first_mut};
use cases::tally::{Tally, Verdict};

// What a picture holds.
#[derive(Clone, Copy)]
struct Held {
    plane: [i64; 1024],
    coverings: [u8; 512],
}

impl Held {
    fn of(k: Case) -> Held {
        let mut held = Held {
            plane: [0; 1024],
            coverings: [1; 512],
        };
        fill(k, &mut held.plane, &mut held.coverings);
        held
    }
}

// The slices that restoring fills.
#[derive(Clone, Copy, PartialEq)]
struct Room {
    numerators: [i64; 1024],
    samples: [u16; 1024],
    scratch: [i64; 1024],
}

// Other values than a call leaves.
fn before() -> Room {
    Room {
        numerators: [7; 1024],
        samples: [9; 1024],
        scratch: [-3; 1024],
    }
}

fn one_plane(words: &[u8], k: Case) -> Verdict {
    let h = Held::of(k);
    compare(
        before(),
        |room| {
            of_coder(coder::restore(
                k.height,
                k.width,
                k.levels,
                first(&h.plane, k.n),
                first(&h.coverings, k.b),
                first_mut(&mut room.numerators, k.n),
                first_mut(&mut room.samples, k.n),
                first_mut(&mut room.scratch, k.n),
            ))
        },
        |room| {
            of_plain(plain::pyramid::restore(
                words,
                k.height,
                k.width,
                k.levels,
                first(&h.plane, k.n),
                first(&h.coverings, k.b),
                first_mut(&mut room.scratch, k.n),
                first_mut(&mut room.numerators, k.n),
                first_mut(&mut room.samples, k.n),
            ))
        },
    )
    .verdict()
}

pub fn group(words: &[u8]) -> Tally {
    Tally::of_cases(16128, |c| {
        let k = case_at(c);
        (k, one_plane(words, k))
    })
}

// Fills a slice with a list of a kind, and gives its length.
fn fill_kind(kind: usize, k: Case, coverings: &[u8], list: &mut [u8]) -> usize {
    if 11 < kind {
        return fill_used(kind, coverings, list);
    }
    fill_list(kind, k.seed, list);
    lent(kind, list).len()
}

fn one_listed(words: &[u8], k: Case, kind: usize) -> Verdict {
    let h = Held::of(k);
    let mut list = [0; 300];
    let length = fill_kind(kind, k, first(&h.coverings, k.b), &mut list);
    compare(
        before(),
        |room| {
            of_coder(listing::restore_listed(
                k.height,
                k.width,
                k.levels,
                first(&h.plane, k.n),
                first(&h.coverings, k.b),
                first(&list, length),
                first_mut(&mut room.numerators, k.n),
                first_mut(&mut room.samples, k.n),
                first_mut(&mut room.scratch, k.n),
            ))
        },
        |room| {
            of_plain(plain::pyramid::restore_listed(
                words,
                k.height,
                k.width,
                k.levels,
                first(&h.plane, k.n),
                first(&h.coverings, k.b),
                first(&list, length),
                first_mut(&mut room.scratch, k.n),
                first_mut(&mut room.numerators, k.n),
                first_mut(&mut room.samples, k.n),
            ))
        },
    )
    .verdict()
}

// The same planes, each with a list, of a kind by its seed.
pub fn listed_group(words: &[u8]) -> Tally {
    Tally::of_cases(16128, |c| {
        let k = case_at(c);
        (k, one_listed(words, k, k.seed / 4 % 16))
    })
}
