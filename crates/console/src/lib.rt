// The language of `drill`: a line of bytes is parsed, makes one call on the lent state, and its answer is printed into a lent buffer.
#![tactic(auto)]

pub mod parse;
pub mod print;

ghost use Rattle.std.specs.Prelude.{◌≡◌, [], ◌++◌, ◌+◌, ◌*◌, ◌≤◌, length, take};
ghost use Rattle.model.specs.Refusals.{number};
ghost use Rattle.model.specs.Calls.{Does, call};
ghost use Rattle.console.specs.Commands.{call_of, is_read};
ghost use Rattle.console.specs.Text.{parsed};
ghost use Rattle.console.specs.Sessions.{printed, left, kept, session_at, byte_read, block_read, input_ended, Ends};

use calls::number_of;
use model::Errno;
use parse::parse_line;
use print::{append, put_answer};
use state::{Mpidr, VcpuIndex};

// A word with its numbers.
#[derive(Clone, Copy)]
pub enum Command {
    Irqs(u64),
    Vcpu(u32),
    Init,
    Run(usize, bool),
    Dr(usize, u64),
    Dw(usize, u64, u64),
    Rr(usize, usize, u64),
    Rw(usize, usize, u64, u64),
    Sr(usize, u64),
    Sw(usize, u64, u64),
    Line(usize, usize, bool),
    Sig(usize),
}

// How many bytes of the line begun are kept, and how many bytes are printed.
#[derive(Clone, Copy)]
pub struct Progress {
    pub kept: usize,
    pub printed: usize,
}

// Makes the call of a command.
#[tactic(auto, unfolding(crate::specs::Commands::call_of))]
fn run(state: &mut [u32], command: Command) -> Result<u32, Errno>
    ensures { Does (call (call_of command) state.old) (number result) state.new [] }
{
    match command {
        Command::Irqs(n) => calls::set_attribute(state, 3, 0, n),
        Command::Vcpu(a) => calls::add_vcpu(state, Mpidr(a)),
        Command::Init => calls::set_attribute(state, 4, 0, 0),
        Command::Run(v, on) => calls::set_running(state, VcpuIndex(v), on),
        Command::Dr(v, offset) => calls::read_distributor(state, VcpuIndex(v), offset, 4),
        Command::Dw(v, offset, x) => calls::write_distributor(state, VcpuIndex(v), offset, 4, x),
        Command::Rr(v, f, offset) => calls::read_frame(
            state,
            VcpuIndex(v),
            VcpuIndex(f),
            offset,
            4,
        ),
        Command::Rw(v, f, offset, x) => calls::write_frame(
            state,
            VcpuIndex(v),
            VcpuIndex(f),
            offset,
            4,
            x,
        ),
        Command::Sr(v, encoding) => calls::read_system(state, VcpuIndex(v), encoding),
        Command::Sw(v, encoding, x) => calls::write_system(state, VcpuIndex(v), encoding, x),
        Command::Line(v, id, level) => calls::change_line(state, VcpuIndex(v), id, level),
        Command::Sig(v) => calls::query_signal(state, VcpuIndex(v)),
    }
}

// Whether a command prints a number.
#[tactic(auto, unfolding(crate::specs::Commands::is_read))]
fn reads(command: Command) -> bool
    ensures { result ≡ is_read command }
{
    matches!(
        command,
        Command::Dr(_, _) | Command::Rr(_, _, _) | Command::Sr(_, _) | Command::Sig(_)
    )
}

// Runs a line and prints its answer from `at` on; gives where the next is to begin.
#[tactic(auto, unfolding(crate::specs::Sessions::printed, crate::specs::Sessions::left, crate::specs::Answers::bad_line))]
pub fn run_line(state: &mut [u32], line: &[u8], out: &mut [u8], at: usize) -> usize
    requires { at + 24 ≤ length out.old }
    ensures state_after { state.new ≡ left (parsed line.now) state.old }
    ensures out_after { take result out.new ≡ take at out.old ++ printed (parsed line.now) state.old }
    ensures upper_bound { result ≤ at + 24 }
{
    let Some(command) = parse_line(line) else {
        return append(out, at, b"?\n");
    };
    let answer = run(state, command);
    put_answer(out, at, reads(command), number_of(answer))
}

// ---- the input, in blocks

// The bytes that are kept of a line: one more than a line may have.
const MOST_KEPT: usize = 81;

// Keeps a byte of the line begun; gives how many are kept.
#[tactic(auto, using(std::proofs::lemmas::Bool::Decides::nat_tests), unfolding(crate::specs::Sessions::kept))]
fn keep(line: &mut [u8], n: usize, b: u8) -> usize
    requires { (length line.old ≡ 81) × (n ≤ 81) }
    ensures { (take result line.new ≡ kept (take n line.old) b) × (result ≤ 81) }
{
    if n >= MOST_KEPT {
        return n;
    }
    line[n] = b;
    n + 1
}

// Reads a byte of the input: it ends the line begun, or is kept.
#[tactic(auto, using(std::proofs::lemmas::Bool::Decides::nat_tests), unfolding(crate::specs::Sessions::byte_read, crate::specs::Sessions::line_ended, crate::specs::Sessions::byte_kept))]
fn read_byte(
    state: &mut [u32],
    line: &mut [u8],
    n: usize,
    b: u8,
    out: &mut [u8],
    at: usize,
) -> Progress
    requires { (length line.old ≡ 81) × (n ≤ 81) × (at + 24 ≤ length out.old) }
    ensures printed_after { session_at state.new line.new result.kept out.new result.printed ≡ byte_read (session_at state.old line.old n out.old at) b }
    ensures kept_bound { (result.kept ≤ 81) × (result.printed ≤ at + 24) }
{
    if b == b'\n' {
        let printed = run_line(state, &line[..n], out, at);
        return Progress { kept: 0, printed };
    }
    let kept = keep(line, n, b);
    Progress { kept, printed: at }
}

// Reads a block of the input, of whose first line `n` bytes are kept already, and prints the answers of the lines that end in it.
#[tactic(auto, using(crate::proofs::Blocks::each_byte))]
pub fn run_block(
    state: &mut [u32],
    line: &mut [u8],
    n: usize,
    block: &[u8],
    out: &mut [u8],
) -> Progress
    requires { (length line.old ≡ 81) × (n ≤ 81) × (24 * length block.now ≤ length out.old) }
    ensures printed_after { session_at state.new line.new result.kept out.new result.printed ≡ block_read (session_at state.old line.old n out.old 0) block.now }
    ensures kept_bound { (result.kept ≤ 81) × (result.printed ≤ length out.new) }
{
    let mut kept = n;
    let mut at: usize = 0;
    for b in block {
        let progress = read_byte(state, line, kept, *b, out, at);
        kept = progress.kept;
        at = progress.printed;
    }
    Progress { kept, printed: at }
}

// At the end of the input: prints the answer of a last line that lacks its end.
#[tactic(auto, using(std::proofs::lemmas::Bool::Decides::nat_tests), unfolding(crate::specs::Sessions::input_ended, crate::specs::Sessions::line_ended))]
pub fn run_last(state: &mut [u32], line: &[u8], n: usize, out: &mut [u8]) -> usize
    requires { (n ≤ length line.now) × (24 ≤ length out.old) }
    ensures ends { Ends (input_ended (session_at state.old line.now n out.old 0)) state.new (take result out.new) }
    ensures upper_bound { result ≤ length out.new }
{
    if n == 0 {
        return 0;
    }
    run_line(state, &line[..n], out, 0)
}
