// Runs the proved cutter beside the plain one, which shares nothing with it, on a table of inputs: named inputs with the number that each of the two gave
// (0 where a sheet was printed), and groups with how many inputs got which number. `ok` says that the two printed the same bytes.
#![tactic(auto)]

use std::io;

mod answers;
mod damage;
mod groups;
mod named;
mod seen;
mod texts;

fn main(rt: HostRuntime) -> io::Result<()> {
    named::tell_all(&rt)?;
    groups::tell_all(&rt)?;
    damage::tell_all(&rt)
}
