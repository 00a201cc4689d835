// Both sides of the limits of a text that is read: the entry beside the plain second implementation, as `reckoned` does for the others.
#![tactic(auto)]

use pairs::answers::heading;
use std::io;

mod texts;

fn main(rt: HostRuntime) -> io::Result<()> {
    heading(&rt, b"1 side")?;
    texts::sides(&rt)?;
    texts::strips(&rt)?;
    heading(&rt, b"2 depth")?;
    texts::depths(&rt)?;
    texts::strip_depths(&rt)?;
    heading(&rt, b"9 text")?;
    texts::names(&rt)?;
    texts::counts(&rt)?;
    texts::sizes(&rt)?;
    texts::signs(&rt)?;
    heading(&rt, b"11 sequence")?;
    texts::blocks(&rt)?;
    texts::places(&rt)?;
    texts::order(&rt)?;
    texts::deep(&rt)?;
    texts::strip_sheets(&rt)?;
    texts::strip_places(&rt)
}
