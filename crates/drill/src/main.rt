// Makes a device and reads lines of a word and hex numbers; each line makes one call and prints its answer.
#![tactic(auto)]

use std::io;

fn main(rt: HostRuntime) -> io::Result<()> {
    session::run(&mut rt.stdin(), &mut rt.stdout())
}
