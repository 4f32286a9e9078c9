// The words of a session with their numbers.
use state::{Mpidr, VcpuIndex};

// A call on the device.
#[derive(Clone, Copy)]
pub enum Call {
    Make,
    AddVcpu(Mpidr),
    SetRunning(VcpuIndex, bool),
    ReadDistributor(VcpuIndex, u64, u64),
    WriteDistributor(VcpuIndex, u64, u64, u64),
    ReadFrame(VcpuIndex, VcpuIndex, u64, u64),
    WriteFrame(VcpuIndex, VcpuIndex, u64, u64, u64),
    ReadSystem(VcpuIndex, u64),
    WriteSystem(VcpuIndex, u64, u64),
    ChangeLine(VcpuIndex, usize, bool),
    QuerySignal(VcpuIndex),
    GetAttribute(u64, u64),
    SetAttribute(u64, u64, u64),
}

// A call that saves into the first bytes of the buffer, or restores them.
#[derive(Clone, Copy)]
pub enum Transfer {
    Save,
    // The same as C calls it, which answers the length only.
    Record,
    Load,
}

// What only a test wants done.
#[derive(Clone, Copy)]
pub enum Act {
    Length(usize),
    Words(u32),
    Poke(usize, u32),
    Mark,
    Back,
    Swap,
    Bytes(u8),
}

// What only a test wants to know.
#[derive(Clone, Copy)]
pub enum Question {
    Peek(usize),
    Changed,
    Differs,
    Show(usize, usize),
    Touched,
}

// What a line is: a call that answers 0, one that answers a number, one with the first bytes of the buffer, or a word of a test.
#[derive(Clone, Copy)]
pub enum Command {
    Does(Call),
    Reads(Call),
    Transfers(Transfer, usize),
    Acts(Act),
    Asks(Question),
}

// The vCPU of a number.
fn vcpu(v: u64) -> VcpuIndex {
    VcpuIndex(v as usize)
}

// A level, or whether a vCPU is running.
fn flag(x: u64) -> Option<bool> {
    match x {
        0 => Some(false),
        1 => Some(true),
        _ => None,
    }
}

// A call that answers 0.
fn does(word: &[u8], numbers: &[u64]) -> Option<Call> {
    let call = match (word, numbers) {
        (b"new", []) => Call::Make,
        (b"irqs", &[n]) => Call::SetAttribute(3, 0, n),
        (b"vcpu", &[affinity]) => Call::AddVcpu(Mpidr(u32::try_from(affinity).ok()?)),
        (b"init", []) => Call::SetAttribute(4, 0, 0),
        (b"run", &[v, on]) => Call::SetRunning(vcpu(v), flag(on)?),
        (b"dw", &[v, offset, x]) => Call::WriteDistributor(vcpu(v), offset, 4, x),
        (b"wdb", &[v, offset, x]) => Call::WriteDistributor(vcpu(v), offset, 1, x),
        (b"wdw", &[v, offset, size, x]) => Call::WriteDistributor(vcpu(v), offset, size, x),
        (b"rw", &[v, f, offset, x]) => Call::WriteFrame(vcpu(v), vcpu(f), offset, 4, x),
        (b"wrb", &[v, f, offset, x]) => Call::WriteFrame(vcpu(v), vcpu(f), offset, 1, x),
        (b"wrw", &[v, f, offset, size, x]) => Call::WriteFrame(vcpu(v), vcpu(f), offset, size, x),
        (b"sw", &[v, encoding, x]) => Call::WriteSystem(vcpu(v), encoding, x),
        (b"line", &[v, id, level]) => Call::ChangeLine(vcpu(v), id as usize, flag(level)?),
        (b"set", &[group, attribute, x]) => Call::SetAttribute(group, attribute, x),
        _ => return None,
    };
    Some(call)
}

// A call that answers a number.
fn reads(word: &[u8], numbers: &[u64]) -> Option<Call> {
    let call = match (word, numbers) {
        (b"dr", &[v, offset]) => Call::ReadDistributor(vcpu(v), offset, 4),
        (b"rdb", &[v, offset]) => Call::ReadDistributor(vcpu(v), offset, 1),
        (b"rdw", &[v, offset, size]) => Call::ReadDistributor(vcpu(v), offset, size),
        (b"rr", &[v, f, offset]) => Call::ReadFrame(vcpu(v), vcpu(f), offset, 4),
        (b"rrb", &[v, f, offset]) => Call::ReadFrame(vcpu(v), vcpu(f), offset, 1),
        (b"rrw", &[v, f, offset, size]) => Call::ReadFrame(vcpu(v), vcpu(f), offset, size),
        (b"sr", &[v, encoding]) => Call::ReadSystem(vcpu(v), encoding),
        (b"sig", &[v]) => Call::QuerySignal(vcpu(v)),
        (b"get", &[group, attribute]) => Call::GetAttribute(group, attribute),
        _ => return None,
    };
    Some(call)
}

// A call with the buffer.
fn transfers(word: &[u8], numbers: &[u64]) -> Option<Command> {
    match (word, numbers) {
        (b"save", &[n]) => Some(Command::Transfers(Transfer::Save, n as usize)),
        (b"record", &[n]) => Some(Command::Transfers(Transfer::Record, n as usize)),
        (b"load", &[n]) => Some(Command::Transfers(Transfer::Load, n as usize)),
        _ => None,
    }
}

// What a test wants done.
fn acts(word: &[u8], numbers: &[u64]) -> Option<Act> {
    let act = match (word, numbers) {
        (b"length", &[n]) => Act::Length(n as usize),
        (b"words", &[x]) => Act::Words(u32::try_from(x).ok()?),
        (b"poke", &[at, x]) => Act::Poke(at as usize, u32::try_from(x).ok()?),
        (b"mark", []) => Act::Mark,
        (b"back", []) => Act::Back,
        (b"swap", []) => Act::Swap,
        (b"bytes", &[x]) => Act::Bytes(u8::try_from(x).ok()?),
        _ => return None,
    };
    Some(act)
}

// What a test wants to know.
fn asks(word: &[u8], numbers: &[u64]) -> Option<Question> {
    match (word, numbers) {
        (b"peek", &[at]) => Some(Question::Peek(at as usize)),
        (b"changed", []) => Some(Question::Changed),
        (b"differs", []) => Some(Question::Differs),
        (b"show", &[at, n]) => Some(Question::Show(at as usize, n as usize)),
        (b"touched", []) => Some(Question::Touched),
        _ => None,
    }
}

// A word with its numbers.
pub(crate) fn command_of(word: &[u8], numbers: &[u64]) -> Option<Command> {
    does(word, numbers)
        .map(Command::Does)
        .or_else(|| reads(word, numbers).map(Command::Reads))
        .or_else(|| transfers(word, numbers))
        .or_else(|| acts(word, numbers).map(Command::Acts))
        .or_else(|| asks(word, numbers).map(Command::Asks))
}
