// Compares the proved coder with the plain second implementation, which shares nothing with it, on many generated sheets, usage lists and words. A line
// for each group: its name, how many cases, how many of them both accept, for sheets how many of each are strips, and whether the two agree everywhere, in
// the answer and in all that stands in the slices after. Pictures and planes are compared by `vectors`.
#![tactic(auto)]

mod lists;
mod sheets;

use cases::tally::{tell, tell_list};
use std::io;

// All groups. `words` are those that the second implementation finds by its own search.
fn tell_all(rt: &impl Print, words: &[u8]) -> io::Result<()> {
    tell(rt, b"write", sheets::write_group())?;
    tell(rt, b"read", sheets::read_group())?;
    tell_list(rt, b"usage", lists::usage_group())?;
    tell_list(rt, b"word", lists::word_group(words))
}

fn main(rt: HostRuntime) -> io::Result<()> {
    let mut words = [0u8; 1872];
    plain::tiles::list_words(&mut words);
    tell_all(&rt, &words)
}
