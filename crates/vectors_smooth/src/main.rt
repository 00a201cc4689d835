// Compares the smoothing step of the proved coder with that of the plain second implementation, which shares nothing with it, on many generated planes. A line for
// each group: its name, how many cases, how many of them both accept, how many of each are strips, whose height is not their width, and whether the two agree
// everywhere, in the answer and in all that stands in the slices after. `smooth ends` has planes whose entries are ends of their ranges, and `smooth flaws` calls
// of which most are refused. The other entries are compared by `vectors`, `vectors_master` and `vectors_text`.
#![tactic(auto)]

mod steps;

use cases::tally::tell;
use std::io;

// All groups. `words` are those that the second implementation finds by its own search.
fn tell_all(rt: &impl Print, words: &[u8]) -> io::Result<()> {
    tell(rt, b"smooth", steps::group(words))?;
    tell(rt, b"smooth ends", steps::end_group(words))?;
    tell(rt, b"smooth flaws", steps::flawed_group(words))
}

fn main(rt: HostRuntime) -> io::Result<()> {
    let mut words = [0u8; 1872];
    plain::tiles::list_words(&mut words);
    tell_all(&rt, &words)
}
