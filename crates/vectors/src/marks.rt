// Planes, of which the largest entries are kept or which are cut by a threshold, by the coder and by the plain second implementation; and planes that the
// coder cuts twice and the second implementation once.
use case_planes::{fill, sparse_case_at};
use cases::answers::{Answer, compare, of_coder, of_plain};
use cases::inputs::{Case, smaller};
use cases::safe::{first_mut, plus};
use cases::tally::Tally;

fn plane_of(k: Case) -> [i64; 1024] {
    let mut plane = [0; 1024];
    let mut coverings = [1; 512];
    fill(k, &mut plane, &mut coverings);
    plane
}

fn keep(k: Case, quota: u64, plane: &mut [i64]) -> Answer<usize> {
    of_coder(keeping::keep(k.height, k.width, k.levels, first_mut(plane, k.n), quota))
}

fn keep_plain(k: Case, quota: u64, plane: &mut [i64]) -> Answer<usize> {
    of_plain(plain::cut::keep(k.height, k.width, k.levels, first_mut(plane, k.n), quota))
}

fn cut(k: Case, limit: u64, plane: &mut [i64]) -> Answer<usize> {
    of_coder(keeping::threshold(k.height, k.width, k.levels, first_mut(plane, k.n), limit))
}

fn cut_plain(k: Case, limit: u64, plane: &mut [i64]) -> Answer<usize> {
    of_plain(plain::cut::cut(k.height, k.width, k.levels, first_mut(plane, k.n), limit))
}

// How many tetrolet entries a plane has: all but those of its low-pass band.
fn entries(k: Case) -> usize {
    let mut low = k.n;
    for _ in 0..k.levels {
        low /= 4;
    }
    k.n.saturating_sub(low)
}

// The quotas: none, one, three, half, all, and one more than all.
fn quota(k: Case, which: usize) -> u64 {
    let all = entries(k);
    match which {
        0 => 0,
        1 => 1,
        2 => 3,
        3 => (all / 2) as u64,
        4 => all as u64,
        _ => plus(all, 1) as u64,
    }
}

fn limit(which: usize) -> u64 {
    match which {
        0 => 0,
        1 => 1,
        2 => 7,
        3 => 900,
        4 => 1000000,
        _ => 1000001,
    }
}

// Some planes of the group `restore`, each with every quota.
pub fn keep_group() -> Tally {
    Tally::of_cases(9216, |c| {
        let k = smaller(sparse_case_at(c / 6));
        let n = quota(k, c % 6);
        let p = compare(
            plane_of(k),
            |plane| keep(k, n, plane),
            |plane| keep_plain(k, n, plane),
        );
        (k, p.verdict())
    })
}

// Some planes of the group `restore`, each with every threshold.
pub fn threshold_group() -> Tally {
    Tally::of_cases(9216, |c| {
        let k = sparse_case_at(c / 6);
        let n = limit(c % 6);
        let p = compare(
            plane_of(k),
            |plane| cut(k, n, plane),
            |plane| cut_plain(k, n, plane),
        );
        (k, p.verdict())
    })
}

// Fewer planes, each with every two quotas that are accepted: the coder keeps twice, the second implementation once, by the smaller quota.
pub fn keep_again_group() -> Tally {
    Tally::of_cases(15000, |c| {
        let k = smaller(sparse_case_at(c / 25));
        let n = quota(k, c / 5 % 5);
        let m = quota(k, c % 5);
        let p = compare(
            plane_of(k),
            |plane| {
                let _ = keep(k, n, plane);
                keep(k, m, plane)
            },
            |plane| keep_plain(k, n.min(m), plane),
        );
        (k, p.verdict())
    })
}

// Fewer planes, each with every two thresholds that are accepted: the coder cuts twice, the second implementation once, by the larger threshold.
pub fn cut_again_group() -> Tally {
    Tally::of_cases(15000, |c| {
        let k = sparse_case_at(c / 25);
        let n = limit(c / 5 % 5);
        let m = limit(c % 5);
        let p = compare(
            plane_of(k),
            |plane| {
                let _ = cut(k, n, plane);
                cut(k, m, plane)
            },
            |plane| cut_plain(k, n.max(m), plane),
        );
        (k, p.verdict())
    })
}
