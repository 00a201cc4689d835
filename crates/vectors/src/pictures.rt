// Pictures, decomposed without a tolerance, with one, and with a tolerance and a list, by the coder and by the plain second implementation.
use cases::answers::{Answer, compare, of_coder, of_plain};
use cases::inputs::{Case, case_at, fill_picture, smaller};
use cases::lists::{fill_list, lent};
use cases::safe::{first, first_mut};
use cases::tally::{Tally, Verdict};

// How decomposing chooses: without a tolerance, with one, or with one and a list.
#[derive(Clone, Copy)]
enum Choice<'a> {
    Free,
    Within(u64),
    Listed(u64, &'a [u8]),
}

// The slices that decomposing fills.
#[derive(Clone, Copy, PartialEq)]
struct Room {
    plane: [i64; 1024],
    coverings: [u8; 512],
    scratch: [i64; 1024],
}

// Other values than a call leaves.
fn before() -> Room {
    Room {
        plane: [7; 1024],
        coverings: [9; 512],
        scratch: [-3; 1024],
    }
}

fn picture(k: Case) -> [u16; 1024] {
    let mut samples = [0; 1024];
    fill_picture(k, &mut samples);
    samples
}

fn decompose(k: Case, choice: Choice, samples: &[u16], room: &mut Room) -> Answer<()> {
    let samples = first(samples, k.n);
    let plane = first_mut(&mut room.plane, k.n);
    let coverings = first_mut(&mut room.coverings, k.b);
    let scratch = first_mut(&mut room.scratch, k.n);
    of_coder(match choice {
        Choice::Free => coder::decompose(
            k.height, k.width, k.levels, samples, plane, coverings, scratch,
        ),
        Choice::Within(tolerance) => coder::decompose_within(
            k.height, k.width, k.levels, tolerance, samples, plane, coverings, scratch,
        ),
        Choice::Listed(tolerance, list) => listing::decompose_listed(
            k.height, k.width, k.levels, tolerance, samples, list, plane, coverings, scratch,
        ),
    })
}

fn decompose_plain(
    words: &[u8],
    k: Case,
    choice: Choice,
    samples: &[u16],
    room: &mut Room,
) -> Answer<()> {
    let samples = first(samples, k.n);
    let plane = first_mut(&mut room.plane, k.n);
    let coverings = first_mut(&mut room.coverings, k.b);
    let scratch = first_mut(&mut room.scratch, k.n);
    of_plain(match choice {
        Choice::Free => plain::pyramid::decompose(
            words, k.height, k.width, k.levels, samples, plane, coverings, scratch,
        ),
        Choice::Within(tolerance) => plain::pyramid::decompose_within(
            words, k.height, k.width, k.levels, tolerance, samples, plane, coverings, scratch,
        ),
        Choice::Listed(tolerance, list) => plain::pyramid::decompose_listed(
            words, k.height, k.width, k.levels, tolerance, samples, list, plane, coverings, scratch,
        ),
    })
}

// The coder and the second implementation on the picture of a case.
fn both(words: &[u8], k: Case, choice: Choice) -> Verdict {
    let samples = picture(k);
    compare(
        before(),
        |room| decompose(k, choice, &samples, room),
        |room| decompose_plain(words, k, choice, &samples, room),
    )
    .verdict()
}

// The coder twice.
fn twice(k: Case, choice: Choice, choice2: Choice) -> Verdict {
    let samples = picture(k);
    compare(
        before(),
        |room| decompose(k, choice, &samples, room),
        |room| decompose(k, choice2, &samples, room),
    )
    .verdict()
}

// Without a tolerance: every height with every width, levels from none to five, every kind of picture.
pub fn group(words: &[u8]) -> Tally {
    Tally::of_cases(15360, |c| {
        let k = case_at(c, 8);
        (k, both(words, k, Choice::Free))
    })
}

// The tolerances: none, one, two of some size, the largest; one more, and the largest number.
fn tolerance(which: usize, seed: usize) -> u64 {
    match which {
        0 => 0,
        1 => 1,
        2 => (seed % 32) as u64,
        3 => (seed % 1024) as u64,
        4 => 4095,
        5 => 4096,
        _ => u64::MAX,
    }
}

// The same pictures, each with every tolerance, smaller ones in place of the slow.
pub fn within_group(words: &[u8]) -> Tally {
    Tally::of_cases(21504, |c| {
        let k = smaller(case_at(c / 7, 8));
        (k, both(words, k, Choice::Within(tolerance(c % 7, k.seed))))
    })
}

// The coder with tolerance 0 beside the coder without one.
pub fn zero_group() -> Tally {
    Tally::of_cases(15360, |c| {
        let k = case_at(c, 8);
        (k, twice(k, Choice::Within(0), Choice::Free))
    })
}

fn list_of(k: Case, kind: usize) -> [u8; 300] {
    let mut list = [0; 300];
    fill_list(kind, k.seed, &mut list);
    list
}

// The same pictures, each with every kind of list, and with the tolerances in turn.
pub fn listed_group(words: &[u8]) -> Tally {
    Tally::of_cases(36864, |c| {
        let k = smaller(case_at(c / 12, 8));
        let list = list_of(k, c % 12);
        let some = tolerance(c % 7, k.seed);
        (k, both(words, k, Choice::Listed(some, lent(c % 12, &list))))
    })
}

// The coder with all 117 listed beside the coder without a list.
pub fn full_group() -> Tally {
    Tally::of_cases(21504, |c| {
        let k = case_at(c / 7, 8);
        let list = list_of(k, 3);
        let some = tolerance(c % 7, k.seed);
        (
            k,
            twice(
                k,
                Choice::Listed(some, lent(3, &list)),
                Choice::Within(some),
            ),
        )
    })
}
