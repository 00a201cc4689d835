// Strips that are joined: the entry beside the plain second implementation, as `reckoned` does for the others. First an example and the law of the numerators
// on strips of many kinds, then both sides of the limits of its checks.
#![tactic(auto)]

use pairs::answers::heading;
use std::io;

mod beside;
mod joins;

fn main(rt: HostRuntime) -> io::Result<()> {
    let mut words = [0u8; 1872];
    plain::tiles::list_words(&mut words);
    heading(&rt, b"examples")?;
    joins::example(&rt)?;
    beside::side_by_side(&rt, &words)?;
    heading(&rt, b"1 side")?;
    joins::sides(&rt)?;
    heading(&rt, b"2 depth")?;
    joins::depths(&rt)?;
    heading(&rt, b"3 frame")?;
    joins::frames(&rt)?;
    joins::joined_frames(&rt)?;
    heading(&rt, b"5 tile")?;
    joins::coverings(&rt)?;
    heading(&rt, b"6 coefficient")?;
    joins::values(&rt)?;
    heading(&rt, b"15 mismatch")?;
    joins::unlike(&rt)?;
    heading(&rt, b"16 joined width")?;
    joins::wide(&rt)
}
