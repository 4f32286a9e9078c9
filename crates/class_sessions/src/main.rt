// Runs the sessions of docs/class, a new device for each, and prints the answers under the session's name.
#![tactic(auto)]

use std::rt::Files;
use std::{fs, io};

// A session whose file cannot be opened is named on standard error, and the others are run.
fn run_file<R: Files + Print + Eprint>(rt: &R, name: &str) -> io::Result<()> {
    println!(rt; "{name}")?;
    match fs::open(rt, name) {
        Ok(mut file) => session::run(&mut file, &mut io::writer(rt)),
        Err(e) => eprintln!(rt; "{name}: {e}"),
    }
}

// The sessions of docs/class, in order.
const SESSIONS: [&str; 9] = [
    "first.session",
    "set-up.session",
    "pending-first.session",
    "pending-spare.session",
    "enables-first.session",
    "enables-spare.session",
    "lines-first.session",
    "lines-spare.session",
    "lines-in-order.session",
];

fn main(rt: HostRuntime) -> io::Result<()> {
    for name in SESSIONS {
        run_file(&rt, name)?;
    }
    Ok(())
}
