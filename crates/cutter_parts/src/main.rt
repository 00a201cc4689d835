// The cutter once more, run on a picture of 32 by 32 whose text has 5,165 bytes and so comes in two parts: the first has to stay where the second is read.
#![tactic(auto)]

use std::io;

fn main(rt: HostRuntime) -> io::Result<()> {
    intake::run(&mut rt.stdin(), &mut rt.stdout())
}
