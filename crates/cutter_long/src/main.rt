// The cutter once more, run on an input of 65,537 bytes with the header `6 6 1 0`: 9 for its length, where a buffer that is a byte too short gives 1.
#![tactic(auto)]

use std::io;

fn main(rt: HostRuntime) -> io::Result<()> {
    intake::run(&mut rt.stdin(), &mut rt.stdout())
}
