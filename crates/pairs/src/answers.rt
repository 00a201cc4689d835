// The line that tells what the coder and the plain second implementation answer to one call: what was asked, then for each entry its name, the number of the
// coder's answer and that of the other, 0 where a call is accepted, and at the end whether the two agree.
use cases::answers::{Answer, Pair};
use cases::tally::Verdict;
use std::fmt::Display;
use std::io;

fn number<T: Drop>(a: Answer<T>) -> u32 {
    a.err().unwrap_or(0)
}

// A part of what was asked: a name and its number.
pub fn put<N: Display + Drop>(rt: &impl Print, name: &[u8], n: N) -> io::Result<()> {
    rt.write_all(name)?;
    print!(rt; "{n} ")
}

// Tells the answers of an entry; gives whether they agree, and those before them in the line did.
pub fn tell<T: Copy + PartialEq>(
    rt: &impl Print,
    before: bool,
    entry: &[u8],
    p: Pair<T>,
) -> io::Result<bool> {
    rt.write_all(entry)?;
    let coder = number(p.coder);
    let plain = number(p.plain);
    print!(rt; ": {coder} {plain} ")?;
    Ok(before && p.verdict() != Verdict::Differs)
}

pub fn end(rt: &impl Print, agreed: bool) -> io::Result<()> {
    println!(rt; "{}", if agreed { "agree" } else { "differ" })
}

// The end of a line with one entry.
pub fn tell_one<T: Copy + PartialEq>(rt: &impl Print, entry: &[u8], p: Pair<T>) -> io::Result<()> {
    end(rt, tell(rt, true, entry, p)?)
}

// The line above those of one refusal.
pub fn heading(rt: &impl Print, name: &[u8]) -> io::Result<()> {
    rt.write_all(name)?;
    println!(rt)
}
