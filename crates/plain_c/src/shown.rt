// A block that shows a covering: each piece of the covering has one of the steps in all of its cells, and no other covering has equal samples on each of its
// pieces. The first such block is given, by the step of piece 0, then by those of pieces 1, 2 and 3.
use plain::tiles::piece_at;
use plain_frame::refusal::Refusal;
use plain_frame::safe::{at, over, rest, times};

// Whether a block has equal samples on each piece of a covering.
fn is_flat(words: &[u8], covering: u8, block: &[u16]) -> bool {
    for cell in 0..16 {
        for other in 0..cell {
            let same = piece_at(words, covering, cell) == piece_at(words, covering, other);
            if same && at(block, cell, 0) != at(block, other, 0) {
                return false;
            }
        }
    }
    true
}

// Whether a covering is the only one for which it has.
fn is_only(words: &[u8], covering: u8, block: &[u16]) -> bool {
    (1u8..118).all(|n| is_flat(words, n, block) == (n == covering))
}

// Written with four digits to the base `count`, the number of a choice has the place of the step of piece 0 first.
fn digit(choice: usize, count: usize, piece: u8) -> usize {
    let square = times(count, count);
    let below = match piece {
        0 => times(square, count),
        1 => square,
        2 => count,
        _ => 1,
    };
    rest(over(choice, below), count)
}

// The block of a choice of steps.
fn fill(words: &[u8], covering: u8, steps: &[u16], choice: usize, block: &mut [u16]) {
    for (cell, sample) in block.iter_mut().enumerate() {
        let place = digit(choice, steps.len(), piece_at(words, covering, cell));
        *sample = at(steps, place, 0);
    }
}

// One to four steps, each larger than the one before it, and at most 4,095.
fn are_steps(steps: &[u16]) -> bool {
    matches!(steps.len(), 1..=4)
        && steps.is_sorted_by(|one, next| one < next)
        && steps.iter().all(|step| *step <= 4095)
}

// Whether there is such a block; it is put into the samples.
pub fn show(
    words: &[u8],
    covering: u8,
    steps: &[u16],
    samples: &mut [u16],
) -> Result<bool, Refusal> {
    Refusal::Length.unless(samples.len() == 16)?;
    Refusal::Covering.unless(matches!(covering, 1..=117))?;
    Refusal::Steps.unless(are_steps(steps))?;
    let square = times(steps.len(), steps.len());
    for choice in 0..times(square, square) {
        let mut block = [0u16; 16];
        fill(words, covering, steps, choice, &mut block);
        if is_only(words, covering, &block) {
            fill(words, covering, steps, choice, samples);
            return Ok(true);
        }
    }
    Ok(false)
}
