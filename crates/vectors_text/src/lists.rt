// Usage lists, and the words of the coverings, by the coder and by the plain second implementation.
use cases::answers::{compare, of_coder, of_plain};
use cases::inputs::{Case, case_of, fill_coverings, mixed};
use cases::safe::{first, first_mut, times};
use cases::tally::{Tally, Verdict};

// Both, for the first b coverings of a case, into buffers of this room that hold other bytes before.
fn listed_alike(k: Case, b: usize, room: usize) -> Verdict {
    let mut coverings = [1; 512];
    fill_coverings(k, &mut coverings);
    let coverings = first(&coverings, b);
    compare(
        [b'?'; 4096],
        |buffer| of_coder(sheet::usage(coverings, first_mut(buffer, room))),
        |buffer| of_plain(plain_text::writing::usage(coverings, first_mut(buffer, room))),
    )
    .verdict()
}

// Rooms from far too short to long.
fn room_of(c: usize) -> usize {
    match c % 3 {
        0 => 4096,
        1 => times(c, 7) % 800,
        _ => c % 40,
    }
}

pub fn usage_group() -> Tally {
    Tally::of_numbers(1536, |c| {
        let k = case_of(32, 32, 4, 8, mixed(c));
        listed_alike(k, times(c, 5) % 513, room_of(c))
    })
}

// The word of a covering, by both.
fn word_alike(words: &[u8], covering: u8) -> Verdict {
    compare(
        [9; 16],
        |word| of_coder(coverings::word_of(covering, word)),
        |word| of_plain(plain::tiles::pieces(words, covering, word)),
    )
    .verdict()
}

// Every number of a covering, from 0 to 255.
pub fn word_group(words: &[u8]) -> Tally {
    let mut t = Tally::default();
    for covering in 0..=255 {
        t.count(word_alike(words, covering));
    }
    t
}
