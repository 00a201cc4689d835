// Generated planes, restored as masters: uncut planes of pictures, decomposed without a tolerance, with one and with a list of coverings, kept and cut planes and
// planes of any values, each as it is and with a change; and planes of small pictures with flaws.
use crate::calls::both;
use case_planes::fill_cut;
use cases::inputs::{Case, fill_picture};
use cases::lists::{fill_list, lent};
use cases::masters::{Master, change, flawed, good_case_at, master_of};
use cases::safe::{first, first_mut};
use cases::strips::{small_join_at, spoil};
use cases::tally::{Tally, Verdict};

// The uncut plane and the coverings of a picture of a kind that is not refused, by the coder, with a tolerance and a list by the seed: one covering, the last,
// sixteen, or all.
fn fill_uncut(k: Case, plane: &mut [i64], coverings: &mut [u8]) {
    let picture = Case {
        kind: k.kind % 6,
        ..k
    };
    let mut samples = [0; 1024];
    fill_picture(picture, &mut samples);
    let which = k.seed / 128 % 4;
    let mut list = [0u8; 300];
    fill_list(which, k.seed, &mut list);
    let mut scratch = [0i64; 1024];
    let _ = listing::decompose_listed(
        k.height,
        k.width,
        k.levels,
        (k.seed % 1024) as u64,
        first(&samples, k.n),
        lent(which, &list),
        first_mut(plane, k.n),
        first_mut(coverings, k.b),
        first_mut(&mut scratch, k.n),
    );
}

// The plane and the coverings of a case: of half of them uncut, of the others by no tolerance or of any values, and kept, cut or left as it is.
fn fill(k: Case, plane: &mut [i64], coverings: &mut [u8]) {
    if k.seed / 32 % 2 == 0 {
        fill_uncut(k, plane, coverings);
    } else {
        fill_cut(k, plane, coverings);
    }
}

// Both on the plane of a case, with a change, and with two flaws of what its plane and its coverings hold.
fn one_master(
    words: &[u8],
    k: Case,
    m: Master,
    which: usize,
    flaw: usize,
    flaw2: usize,
) -> Verdict {
    let mut plane = [0i64; 1025];
    let mut coverings = [1u8; 513];
    fill(k, &mut plane, &mut coverings);
    change(k, which, &mut plane, &mut coverings);
    spoil(k, flaw, &mut plane, &mut coverings);
    spoil(k, flaw2, &mut plane, &mut coverings);
    both(words, m, &plane, &coverings).verdict()
}

// Each plane with every change.
pub fn group(words: &[u8]) -> Tally {
    Tally::of_cases(14336, |c| {
        let k = good_case_at(c / 8);
        (k, one_master(words, k, master_of(k), c % 8, 0, 0))
    })
}

fn one_flawed(words: &[u8], k: Case, flaw: usize, flaw2: usize) -> Verdict {
    let m = flawed(flawed(master_of(k), flaw), flaw2);
    one_master(words, k, m, 0, flaw, flaw2)
}

// Small pictures of six heights and widths, twice, each with every two flaws.
pub fn flawed_group(words: &[u8]) -> Tally {
    Tally::of_cases(6348, |c| {
        let j = small_join_at(c / 529);
        (j.left, one_flawed(words, j.left, c % 23, c / 23 % 23))
    })
}
