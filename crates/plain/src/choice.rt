// The choice of a block's covering among those of a list, with a tolerance or without one.
use crate::block::{Corner, cost};
use plain_frame::frame::{power, times_chosen};
use plain_frame::safe::{plus, times};
use std::cmp::Reverse;

// How the covering of a block is chosen: with a tolerance, or without one.
#[derive(Clone, Copy)]
pub enum Rule {
    Least,
    Within(usize),
}

// The list of all coverings, for a choice that is not limited.
pub fn every_covering() -> [u8; 117] {
    let mut list = [0u8; 117];
    for (covering, n) in list.iter_mut().zip(1u8..118) {
        *covering = n;
    }
    list
}

// Without a tolerance: the least cost; then the most often chosen in the blocks before, those of the earlier levels too; then the lowest number.
fn choose(words: &[u8], list: &[u8], image: &[i64], corner: Corner, before: &[u8]) -> u8 {
    list.iter()
        .copied()
        .min_by_key(|covering| {
            let cost = cost(words, *covering, image, corner);
            (cost, Reverse(times_chosen(before, *covering)))
        })
        .unwrap_or(0)
}

// With a tolerance: at this level a covering may cost the tolerance times 2^level more than the least of the list. Of those that do not cost more the most often
// chosen in the blocks before, then the lowest number.
fn choose_within(
    words: &[u8],
    list: &[u8],
    image: &[i64],
    corner: Corner,
    before: &[u8],
    tolerance: usize,
    level: usize,
) -> u8 {
    let least = list
        .iter()
        .map(|covering| cost(words, *covering, image, corner))
        .min()
        .unwrap_or(0);
    let limit = plus(least, times(tolerance, power(level)));
    list.iter()
        .copied()
        .filter(|covering| cost(words, *covering, image, corner) <= limit)
        .min_by_key(|covering| Reverse(times_chosen(before, *covering)))
        .unwrap_or(0)
}

// A tolerance of 0 is not sent to `choose`: that the two then give the same is seen by running both.
pub fn choose_by(
    words: &[u8],
    list: &[u8],
    rule: Rule,
    image: &[i64],
    corner: Corner,
    before: &[u8],
    level: usize,
) -> u8 {
    match rule {
        Rule::Least => choose(words, list, image, corner, before),
        Rule::Within(tolerance) => {
            choose_within(words, list, image, corner, before, tolerance, level)
        }
    }
}
