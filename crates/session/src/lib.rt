// A session of `drill`: lines read from one stream, their answers written to another. Where a reader's and a writer's bytes are known, what is written is what `drill` says of what is read; of a file or a terminal no contract can say them.
#![tactic(auto)]

ghost use Rattle.std.specs.Prelude.{◌-◌, ◌^◌, ◌<◌, ◌≤◌, length, take, IfOk, IfSome, OnOk};
ghost use Rattle.std.specs.Io.{ReadsAtMost};
ghost use Rattle.std.specs.Io.KnownBytes.{Appends, IsAtEnd, ReadConsumes};
ghost use Rattle.console.specs.Sessions.{drill};
ghost use Rattle.session.specs.Inputs.{begins, ReadOn, Answered, Turns};

use std::io;
use std::io::{ErrorKind, Read, Write};

// One read, made again where a signal interrupts it.
fn read_block<R: Read>(from: &mut R, block: &mut [u8]) -> io::Result<usize>
    ensures bound { ReadsAtMost result block.new }
    ensures bytes { ReadConsumes (R.remaining from.old) (R.remaining from.new) result block.new }
{
    for _ in 0..u64::MAX {
        match from.read(block) {
            Err(e) if e.kind() == ErrorKind::Interrupted => {}
            answer => return answer,
        }
    }
    from.read(block)
}

// Reads once, runs the lines that end in what came, and writes their answers; gives whether there may be more to read. The first `kept` bytes of `line` are those of the line begun.
fn read_some<R: Read, W: Write>(
    from: &mut R,
    to: &mut W,
    state: &mut [u32],
    line: &mut [u8; 81],
    kept: &mut usize,
) -> io::Result<bool>
    requires { kept.old ≤ 81 }
    ensures kept_bound { kept.new ≤ 81 }
    ensures read_on { ReadOn (begins state.old (take kept.old line.old)) state.new (take kept.new line.new) }
    ensures answered { OnOk result (Answered (begins state.old (take kept.old line.old)) (R.remaining from.old) (R.remaining from.new) (W.contents to.old) (W.contents to.new) state.new (take kept.new line.new)) }
    ensures turns { IfOk result (λ goes_on. Turns goes_on (R.remaining from.old) (R.remaining from.new)) }
{
    let mut block = [0u8; 4096];
    let n = read_block(from, &mut block)?;
    if n == 0 {
        return Ok(false);
    }
    let mut out = [0u8; 98304];
    let progress = console::run_block(state, line, *kept, &block[..n], &mut out);
    *kept = progress.kept;
    to.write_all(&out[..progress.printed])?;
    Ok(true)
}

// Reads to the end of the input; a last line without its end is kept. A proved loop has to end, so its turns are counted, up to a number that no run uses up.
fn read_all<R: Read, W: Write>(
    from: &mut R,
    to: &mut W,
    state: &mut [u32],
    line: &mut [u8; 81],
    kept: &mut usize,
) -> io::Result<()>
    requires { kept.old ≤ 81 }
    ensures kept_bound { kept.new ≤ 81 }
    ensures read_on { ReadOn (begins state.old (take kept.old line.old)) state.new (take kept.new line.new) }
    ensures answered { OnOk result (Answered (begins state.old (take kept.old line.old)) (R.remaining from.old) (R.remaining from.new) (W.contents to.old) (W.contents to.new) state.new (take kept.new line.new)) }
    ensures ends { OnOk result (IfSome (R.remaining from.old) (λ input. length input < 2 ^ 64 - 1 → IsAtEnd (R.remaining from.new))) }
{
    for _ in 0..u64::MAX {
        if !read_some(from, to, state, line, kept)? {
            break;
        }
    }
    Ok(())
}

// Makes a device and runs the lines of the input on it. Where a read or a write fails, the device is gone, and nothing is said of what was written.
pub fn run<R: Read, W: Write>(from: &mut R, to: &mut W) -> io::Result<()>
    ensures { OnOk result (IfSome (R.remaining from.old) (λ input. length input < 2 ^ 64 - 1 → Appends (W.contents to.old) (W.contents to.new) (drill input))) }
{
    let mut state = [0u32; 1760];
    let _ = calls::make(&mut state);
    let mut line = [0u8; 81];
    let mut kept: usize = 0;
    read_all(from, to, &mut state, &mut line, &mut kept)?;
    let mut out = [0u8; 24];
    let n = console::run_last(&mut state, &line, kept, &mut out);
    to.write_all(&out[..n])
}
