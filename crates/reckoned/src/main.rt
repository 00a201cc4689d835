// Runs the entries beside the plain second implementation, which shares nothing with them: first the examples of document 01's "Reckoned by hand" that
// are not in the proved table, a usage list, a tie, a test image, tolerances, lists of coverings and a smoothing step, then both sides of every limit of its
// table of refusals, by number. A line has what was asked, for each entry its name, the number of its answer and that of the second implementation, 0 where the call is accepted,
// and whether the two agree in all that they answer and leave in the slices. What is proved says that code and definition have the same limits; the stored
// output of this program says which. Texts that are read are the part of `reckoned_text`, joined strips that of `reckoned_joins`, and masters, refusal 20, that
// of `vectors_master`.
#![tactic(auto)]

use pairs::answers::heading;
use std::io;

mod frames;
mod generated;
mod large;
mod listed;
mod lists;
mod long;
mod pictures;
mod smoothed;
mod tolerances;
mod values;

// The blocks of a picture are told by the number of coverings that its plane takes.
fn examples(rt: &impl Print, words: &[u8]) -> io::Result<()> {
    heading(rt, b"examples")?;
    frames::blocks(rt, words)?;
    large::blocks(rt)?;
    frames::frame(rt, words, 6, 6, 1, 36, 1)?;
    frames::frame(rt, words, 1024, 1024, 1, 16, 1)?;
    frames::frame(rt, words, 4, 4, 2, 16, 1)?;
    pictures::flat(rt, words, 16, 16, 1, 16, 4096)?;
    lists::word(rt, words, 118, 16)?;
    values::quota(rt, 4, 4, 1, 16, 12)?;
    values::quota(rt, 4, 4, 1, 16, 13)?;
    lists::usage_order(rt)?;
    pictures::ties(rt, words)?;
    generated::first(rt)?;
    tolerances::steps(rt, words)?;
    listed::steps(rt, words)?;
    smoothed::example(rt, words)
}

fn frame(rt: &impl Print, words: &[u8]) -> io::Result<()> {
    heading(rt, b"1 side")?;
    frames::sides(rt, words)?;
    frames::strips(rt, words)?;
    generated::sides(rt)?;
    heading(rt, b"2 depth")?;
    frames::depths(rt, words)?;
    frames::strip_depths(rt, words)?;
    long::strips(rt, words)
}

fn lengths(rt: &impl Print, words: &[u8]) -> io::Result<()> {
    heading(rt, b"3 frame")?;
    pictures::frames(rt, words)?;
    frames::planes(rt, words)?;
    frames::strip_planes(rt, words)?;
    frames::strip_blocks(rt, words)?;
    frames::restored(rt, words)?;
    lists::places(rt, words)?;
    lists::usage_lengths(rt)?;
    generated::lengths(rt)?;
    smoothed::lengths(rt, words)
}

fn contents(rt: &impl Print, words: &[u8]) -> io::Result<()> {
    heading(rt, b"4 sample")?;
    pictures::samples(rt, words)?;
    heading(rt, b"5 tile")?;
    values::coverings(rt, words)?;
    lists::coverings(rt, words)?;
    heading(rt, b"6 coefficient")?;
    values::shallow(rt, words)?;
    values::deep(rt, words)?;
    values::strips(rt, words)?;
    large::ranges(rt)
}

fn numbers(rt: &impl Print) -> io::Result<()> {
    heading(rt, b"7 quota")?;
    values::quotas(rt)?;
    values::strip_quotas(rt)?;
    heading(rt, b"8 threshold")?;
    values::limits(rt)
}

fn rooms(rt: &impl Print) -> io::Result<()> {
    heading(rt, b"10 tray")?;
    values::rooms(rt)?;
    values::strip_rooms(rt)?;
    lists::usage_rooms(rt)
}

fn limits(rt: &impl Print, words: &[u8]) -> io::Result<()> {
    heading(rt, b"13 tolerance")?;
    tolerances::limits(rt, words)?;
    heading(rt, b"14 list")?;
    listed::limits(rt, words)?;
    listed::decomposing(rt, words)?;
    listed::restoring(rt, words)?;
    heading(rt, b"18 unlisted")?;
    listed::missing(rt, words)?;
    heading(rt, b"19 step")?;
    smoothed::limits(rt, words)?;
    long::steps(rt, words)
}

fn main(rt: HostRuntime) -> io::Result<()> {
    let mut words = [0u8; 1872];
    plain::tiles::list_words(&mut words);
    examples(&rt, &words)?;
    frame(&rt, &words)?;
    lengths(&rt, &words)?;
    contents(&rt, &words)?;
    numbers(&rt)?;
    rooms(&rt)?;
    limits(&rt, &words)
}
