// Generated lists of coverings, told by a kind and a seed. Good ones: kind 0 one covering, 1 the last, 2 sixteen, 3 all 117. Those that an entry refuses:
// 4 an empty one; sixteen of which 5 two have changed places, 6 one stands twice, 7 the first is 0, 8 the last is 118, 9 the last is 255; 10 the numbers 1 to
// 118; 11 as many as 300 numbers. Those made for coverings: 12 the coverings used, 13 those and covering 1, 14 those used but the last block's, 15 all 117 but
// the first block's.
// Kept: the numbers of kinds and flaws, which the groups count through; an enum would be made of a number at each case and matched at once.
use crate::inputs::mixed;
use crate::safe::{first, load, plus, store, times};

fn length_of(kind: usize) -> usize {
    match kind {
        0 => 1,
        1 => 1,
        3 => 117,
        4 => 0,
        6 => 17,
        10 => 118,
        11 => 300,
        _ => 16,
    }
}

// Number i of sixteen, which rise, from 0: one of seven numbers, all of them over those of number i - 1. None is over 117.
fn sixteen(seed: usize, i: usize) -> usize {
    let random = mixed(plus(seed, i)) % 7;
    plus(times(7, i), plus(seed % 6 + 1, random))
}

// A place and the next one changed.
fn exchanged(seed: usize, i: usize) -> usize {
    let place = seed / 8 % 15;
    if i == place {
        return sixteen(seed, plus(i, 1));
    }
    if i == plus(place, 1) {
        return sixteen(seed, place);
    }
    sixteen(seed, i)
}

// A place and the next one the same.
fn doubled(seed: usize, i: usize) -> usize {
    if seed / 8 % 16 < i {
        return sixteen(seed, i.saturating_sub(1));
    }
    sixteen(seed, i)
}

// This number at this place.
fn changed(seed: usize, i: usize, place: usize, number: usize) -> usize {
    if i == place {
        return number;
    }
    sixteen(seed, i)
}

// What stands at place i.
fn entry(kind: usize, seed: usize, i: usize) -> usize {
    match kind {
        0 => seed % 117 + 1,
        1 => 117,
        2 => sixteen(seed, i),
        5 => exchanged(seed, i),
        6 => doubled(seed, i),
        7 => changed(seed, i, 0, 0),
        8 => changed(seed, i, 15, 118),
        9 => changed(seed, i, 15, 255),
        11 => i % 117 + 1,
        _ => plus(i, 1),
    }
}

// Fills a slice of 300 places, of which `lent` gives the list.
pub fn fill_list(kind: usize, seed: usize, list: &mut [u8]) {
    for i in 0..list.len() {
        store(list, i, entry(kind, seed, i));
    }
}

// The list of this kind, where a slice was filled with it.
pub fn lent(kind: usize, list: &[u8]) -> &[u8] {
    first(list, length_of(kind))
}

fn is_used(coverings: &[u8], n: usize) -> bool {
    coverings.iter().any(|c| *c as usize == n)
}

// Whether the list of a kind from 12 on holds this number.
fn is_wanted(kind: usize, coverings: &[u8], n: usize) -> bool {
    match kind {
        12 => is_used(coverings, n),
        13 => n == 1 || is_used(coverings, n),
        14 => coverings.last().is_none_or(|c| *c as usize != n) && is_used(coverings, n),
        _ => coverings.first().is_none_or(|c| *c as usize != n),
    }
}

// Fills the front of a slice with a list for these coverings, of a kind from 12 on, and gives its length. The next number goes over one that is not wanted.
pub fn fill_used(kind: usize, coverings: &[u8], list: &mut [u8]) -> usize {
    let mut length: usize = 0;
    for n in 1..118 {
        store(list, length, n);
        if is_wanted(kind, coverings, n) {
            length = plus(length, 1);
        }
    }
    length
}
