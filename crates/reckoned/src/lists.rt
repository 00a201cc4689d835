// The limits of words and of usage lists, each with what lies past it; and a usage list as it is written.
use cases::answers::{Pair, compare, of_coder, of_plain};
use cases::safe::{first, first_mut, store};
use pairs::answers::{put, tell_one};
use std::io;

fn pieces(words: &[u8], covering: u8, n: usize) -> Pair<()> {
    compare(
        [9; 17],
        |word| of_coder(coverings::word_of(covering, first_mut(word, n))),
        |word| of_plain(plain::tiles::pieces(words, covering, first_mut(word, n))),
    )
}

pub fn word(rt: &impl Print, words: &[u8], covering: u8, n: usize) -> io::Result<()> {
    put(rt, b"covering ", covering)?;
    put(rt, b"places ", n)?;
    tell_one(rt, b"word", pieces(words, covering, n))
}

pub fn places(rt: &impl Print, words: &[u8]) -> io::Result<()> {
    word(rt, words, 1, 15)?;
    word(rt, words, 1, 16)?;
    word(rt, words, 1, 17)
}

// Both write the list into buffers of this length.
fn both_usage(coverings: &[u8], room: usize) -> Pair<usize> {
    compare(
        [b'?'; 64],
        |buffer| of_coder(sheet::usage(coverings, first_mut(buffer, room))),
        |buffer| of_plain(plain_text::writing::usage(coverings, first_mut(buffer, room))),
    )
}

// The first n of many coverings, of which the first is the one named and the others are 1.
fn usage(rt: &impl Print, covering: u8, n: usize, room: usize) -> io::Result<()> {
    put(rt, b"first ", covering)?;
    put(rt, b"coverings ", n)?;
    put(rt, b"room ", room)?;
    let mut coverings = [1u8; 21846];
    store(&mut coverings, 0, covering);
    tell_one(rt, b"usage", both_usage(first(&coverings, n), room))
}

// Falling counts, as numbers: 10 before 9; and of equal counts the lower number first. The bytes A, B, C and p are the coverings 65, 66, 67 and 112.
pub fn usage_order(rt: &impl Print) -> io::Result<()> {
    let coverings = b"BACBACBACBACBACBACBACBACBACCp";
    put(rt, b"coverings ", 29)?;
    tell_one(rt, b"usage", both_usage(coverings, 64))?;
    let mut buffer = [b'?'; 64];
    let end = of_coder(sheet::usage(coverings, &mut buffer)).unwrap_or(0);
    rt.write_all(first(&buffer, end))
}

// At most 21,845 coverings, whatever they are.
pub fn usage_lengths(rt: &impl Print) -> io::Result<()> {
    usage(rt, 1, 0, 64)?;
    usage(rt, 1, 21845, 64)?;
    usage(rt, 1, 21846, 64)?;
    usage(rt, 0, 21846, 64)
}

// Coverings 1 to 117.
pub fn coverings(rt: &impl Print, words: &[u8]) -> io::Result<()> {
    word(rt, words, 0, 16)?;
    word(rt, words, 117, 16)?;
    word(rt, words, 118, 16)?;
    word(rt, words, 255, 16)?;
    usage(rt, 0, 21845, 64)?;
    usage(rt, 117, 21845, 64)?;
    usage(rt, 118, 21845, 64)?;
    usage(rt, 255, 1, 64)
}

// The line of names has 12 bytes, `1 21845` 8 with its end, `117 1` 6.
pub fn usage_rooms(rt: &impl Print) -> io::Result<()> {
    usage(rt, 1, 0, 11)?;
    usage(rt, 1, 0, 12)?;
    usage(rt, 1, 21845, 19)?;
    usage(rt, 1, 21845, 20)?;
    usage(rt, 117, 1, 17)?;
    usage(rt, 117, 1, 18)
}
