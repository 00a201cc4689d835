// The cutter: reads standard input and prints its answer. All of it is `intake::run`.
#![tactic(auto)]

use std::io;

fn main(rt: HostRuntime) -> io::Result<()> {
    intake::run(&mut rt.stdin(), &mut rt.stdout())
}
