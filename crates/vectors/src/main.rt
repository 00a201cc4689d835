// Compares the proved coder with the plain second implementation, which shares nothing with it, on many generated pictures and planes, and the test images
// of both. A line for each group: its name, how many cases, how many of them both accept, how many of each are strips, whose height is not their width,
// and whether the two agree everywhere, in the answer and in all that stands in the slices after. `within` decomposes with a tolerance; `within 0` has the
// coder with tolerance 0 beside the coder without one. `listed` and `restore listed` have a list of coverings; `listed 117` has the coder with all 117 listed
// beside the coder without a list. `join` joins two strips, and counts by the left one; `window` restores a window of a picture. `join flaws` and `window flaws`
// have calls of which most are refused. `keep again` and `cut again` have planes that the coder cuts twice and the second implementation once. Texts and words
// are compared by `vectors_text`, the smoothing step by `vectors_smooth`, masters by `vectors_master`.
#![tactic(auto)]

mod generated;
mod joins;
mod marks;
mod pictures;
mod planes;
mod views;

use cases::tally::tell;
use std::io;

// All groups. `words` are those that the second implementation finds by its own search.
fn tell_all(rt: &impl Print, words: &[u8]) -> io::Result<()> {
    tell(rt, b"decompose", pictures::group(words))?;
    tell(rt, b"within", pictures::within_group(words))?;
    tell(rt, b"within 0", pictures::zero_group())?;
    tell(rt, b"listed", pictures::listed_group(words))?;
    tell(rt, b"listed 117", pictures::full_group())?;
    tell(rt, b"restore", planes::group(words))?;
    tell(rt, b"restore listed", planes::listed_group(words))?;
    tell(rt, b"keep", marks::keep_group())?;
    tell(rt, b"threshold", marks::threshold_group())?;
    tell(rt, b"keep again", marks::keep_again_group())?;
    tell(rt, b"cut again", marks::cut_again_group())?;
    tell(rt, b"test image", generated::group())?;
    tell(rt, b"join", joins::group())?;
    tell(rt, b"join flaws", joins::flawed_group())?;
    tell(rt, b"window", views::group(words))?;
    tell(rt, b"window flaws", views::flawed_group(words))
}

fn main(rt: HostRuntime) -> io::Result<()> {
    let mut words = [0u8; 1872];
    plain::tiles::list_words(&mut words);
    tell_all(&rt, &words)
}
