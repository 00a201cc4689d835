// Compares restoring as a master with that of the plain second implementation, which shares nothing with it. First come planes reckoned by hand, on both sides of 20:
// a line has what was asked, the number of the entry's answer and that of the second implementation's, 0 where the call is accepted, the first numerator and the
// first sample after the entry's call, and whether the two agree in the answer and in all that stands in the slices after. Then comes a line for each group of generated
// planes: its name, how many cases, how many of them both accept, how many of each are strips, whose height is not their width, and whether the two agree everywhere.
// `master` has planes that were never cut, and others, each as it is and with a change of one entry or one covering; most that are refused there are refused by 20.
// `master flaws` has calls of which most are refused by another number. The other entries are compared by `vectors`, `vectors_smooth` and `vectors_text`.
#![tactic(auto)]

mod calls;
mod examples;
mod groups;

use cases::tally::tell;
use pairs::answers::heading;
use std::io;

// The examples and all groups. `words` are those that the second implementation finds by its own search.
fn tell_all(rt: &impl Print, words: &[u8]) -> io::Result<()> {
    heading(rt, b"20 master")?;
    examples::whole(rt, words)?;
    examples::ends(rt, words)?;
    examples::levels(rt, words)?;
    examples::order(rt, words)?;
    heading(rt, b"groups")?;
    tell(rt, b"master", groups::group(words))?;
    tell(rt, b"master flaws", groups::flawed_group(words))
}

fn main(rt: HostRuntime) -> io::Result<()> {
    let mut words = [0u8; 1872];
    plain::tiles::list_words(&mut words);
    tell_all(&rt, &words)
}
