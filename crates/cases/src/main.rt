// Runs sessions of calls, each line with the answer that it must give, and prints every difference. docs/TESTING.md has the language.
#![tactic(auto)]

mod answer;
mod command;
mod parse;
mod room;
mod run;
mod session;
mod text;

ghost use Rattle.std.specs.Prelude.{◌≤◌, IfOk};

use session::run_session;
use std::io::Read;
use std::rt::{Env, Files};
use std::{env, fs, io};

// A session has fewer bytes.
const MOST_BYTES: usize = 0x10_0000;

// The bytes of a file, as many as there is room for. A proved loop has to end, so its turns are counted, up to a number that no run uses up.
fn read_text(file: &mut impl Read, text: &mut [u8; MOST_BYTES]) -> io::Result<usize>
    ensures { IfOk result (λ n. n ≤ 1048576) }
{
    let mut done: usize = 0;
    for _ in 0..u64::MAX {
        let n = file.read(&mut text[done..])?;
        if n == 0 {
            break;
        }
        done += n;
    }
    Ok(done)
}

// Runs the session of a file.
fn run_file<R: Files + Print>(rt: &R, name: &str) -> io::Result<()> {
    let Ok(mut file) = fs::open(rt, name) else {
        return println!(rt; "{name}: cannot be opened");
    };
    let mut text = [0; MOST_BYTES];
    let n = read_text(&mut file, &mut text)?;
    if n == MOST_BYTES {
        return println!(rt; "{name}: too long");
    }
    run_session(&mut io::writer(rt), name, &text[..n])
}

// Runs the sessions that the arguments name.
fn run_arguments<R: Files + Env + Print + Alloc>(rt: &R) -> io::Result<()> {
    for name in env::args(rt)?.skip(1) {
        run_file(rt, name.as_str())?;
    }
    Ok(())
}

fn main(rt: HostRuntime) -> io::Result<()> {
    run_arguments(&rt)
}
