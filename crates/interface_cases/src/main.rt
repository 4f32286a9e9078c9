// Runs the system registers, acknowledge and end of interrupt, SGIs and the signal query, and prints their answers and the words that they change. The file stdout holds what document 01 gives for each.
#![tactic(auto)]

use model::Errno;
use report::{say, say_changed, say_hex, say_read};
use state::{Mpidr, VcpuIndex};
use std::io;
use std::io::Write;

// ---- steps

// What is done. The first number is the vCPU that does it.
#[derive(Clone, Copy)]
enum Step {
    // A system register is read: its encoding.
    Read(usize, u64),
    // One is written: its encoding, a value.
    Write(usize, u64, u64),
    // The signal query.
    Signal(usize),
    // A line change: an ID, a level.
    Line(usize, usize, bool),
    // A word of the distributor is written: an offset, a value.
    Distributor(usize, u64, u64),
    // A word of the vCPU's own frame is written: an offset, a value.
    Frame(usize, u64, u64),
    // The priority of an SPI is written, as a byte: 400 + ID, a priority.
    SpiPriority(usize, u64, u64),
    // The priority of its own SGI or PPI: 10400 + ID, a priority.
    OwnPriority(usize, u64, u64),
    // The vCPU runs, or is stopped.
    Run(usize, bool),
}

// Encodings of document 01.
const PMR: u64 = 0xc230;

const IAR0: u64 = 0xc640;

const EOIR0: u64 = 0xc641;

const HPPIR0: u64 = 0xc642;

const BPR0: u64 = 0xc643;

const AP0R: u64 = 0xc644;

const AP1R: u64 = 0xc648;

const DIR: u64 = 0xc659;

const RPR: u64 = 0xc65b;

const SGI1R: u64 = 0xc65d;

const SGI0R: u64 = 0xc65f;

const IAR1: u64 = 0xc660;

const EOIR1: u64 = 0xc661;

const HPPIR1: u64 = 0xc662;

const BPR1: u64 = 0xc663;

const CTLR: u64 = 0xc664;

const SRE: u64 = 0xc665;

const IGRPEN0: u64 = 0xc666;

const IGRPEN1: u64 = 0xc667;

fn call(s: &mut [u32; 1760], step: Step) -> Result<u32, Errno> {
    match step {
        Step::Read(v, encoding) => calls::read_system(s, VcpuIndex(v), encoding),
        Step::Write(v, encoding, value) => calls::write_system(s, VcpuIndex(v), encoding, value),
        Step::Signal(v) => calls::query_signal(s, VcpuIndex(v)),
        Step::Line(v, id, level) => calls::change_line(s, VcpuIndex(v), id, level),
        Step::Distributor(v, offset, value) => {
            calls::write_distributor(s, VcpuIndex(v), offset, 4, value)
        }
        Step::Frame(v, offset, value) => {
            calls::write_frame(s, VcpuIndex(v), VcpuIndex(v), offset, 4, value)
        }
        Step::SpiPriority(v, offset, value) => {
            calls::write_distributor(s, VcpuIndex(v), offset, 1, value)
        }
        Step::OwnPriority(v, offset, value) => {
            calls::write_frame(s, VcpuIndex(v), VcpuIndex(v), offset, 1, value)
        }
        Step::Run(v, on) => calls::set_running(s, VcpuIndex(v), on),
    }
}

// Steps that print nothing.
fn quiet(s: &mut [u32; 1760], table: &[Step]) {
    for step in table {
        let _ = call(s, *step);
    }
}

// A step's answer, and the words that it changed.
fn say_step(out: &mut impl Write, s: &mut [u32; 1760], step: Step) -> io::Result<()> {
    let before = *s;
    say_read(out, call(s, step))?;
    say_changed(out, s, &before)?;
    say(out, b";")
}

fn each_step(out: &mut impl Write, s: &mut [u32; 1760], table: &[Step]) -> io::Result<()> {
    for step in table {
        say_step(out, s, *step)?;
    }
    Ok(())
}

// A line of steps.
fn steps(out: &mut impl Write, name: &[u8], s: &mut [u32; 1760], table: &[Step]) -> io::Result<()> {
    say(out, name)?;
    say(out, b":")?;
    each_step(out, s, table)?;
    say(out, b"\n")
}

// ---- devices

// A device before initialising: the vCPUs 0 to 3 have the affinities 1, 0, abcd0f and abcd00.
fn added(count: u64) -> [u32; 1760] {
    let mut s = [0u32; 1760];
    let _ = calls::make(&mut s);
    let _ = calls::set_attribute(&mut s, 3, 0, count);
    let _ = calls::add_vcpu(&mut s, Mpidr(1));
    let _ = calls::add_vcpu(&mut s, Mpidr(0));
    let _ = calls::add_vcpu(&mut s, Mpidr(0x00ab_cd0f));
    let _ = calls::add_vcpu(&mut s, Mpidr(0x00ab_cd00));
    s
}

// The vCPUs 0, 1 and 2 run. At vCPU 1 both groups are on, PMR is f8 and every interrupt is enabled; in group 1 are the SGIs 0-7, the PPIs 10-17 and the SPIs 20-2f and 40-4f. SPIs are routed to affinity 0, which is vCPU 1.
const READY: [Step; 13] = [
    Step::Run(0, true),
    Step::Run(1, true),
    Step::Run(2, true),
    Step::Distributor(1, 0x0, 0x3),
    Step::Write(1, PMR, 0xf8),
    Step::Write(1, IGRPEN0, 1),
    Step::Write(1, IGRPEN1, 1),
    Step::Frame(1, 0x1_0100, 0xffff_ffff),
    Step::Distributor(1, 0x104, 0xffff_ffff),
    Step::Distributor(1, 0x108, 0xffff_ffff),
    Step::Frame(1, 0x1_0080, 0x00ff_00ff),
    Step::Distributor(1, 0x84, 0xffff),
    Step::Distributor(1, 0x88, 0xffff),
];

fn device(count: u64) -> [u32; 1760] {
    let mut s = added(count);
    let _ = calls::set_attribute(&mut s, 4, 0, 0);
    quiet(&mut s, &READY);
    s
}

// ---- cases

// SPI 2a of group 1 at a0, its line high.
const AT_A0: [Step; 2] = [Step::SpiPriority(1, 0x42a, 0xa0), Step::Line(1, 0x2a, true)];

// SPI 2a at a0 is acknowledged. Active are SGI 9 and PPI 14 of vCPU 1, PPI 14 of vCPU 0, and SPI 42, routed to vCPU 0.
const ACTIVE: [Step; 7] = [
    Step::SpiPriority(1, 0x42a, 0xa0),
    Step::Line(1, 0x2a, true),
    Step::Read(1, IAR1),
    Step::Frame(1, 0x1_0300, 0x10_0200),
    Step::Frame(0, 0x1_0300, 0x10_0000),
    Step::Distributor(1, 0x308, 0x4),
    Step::Distributor(1, 0x6210, 0x1),
];

// SPI 28 of group 1 and SPI 32 of group 0, both at 60.
const HIDING: [Step; 4] = [
    Step::SpiPriority(1, 0x428, 0x60),
    Step::SpiPriority(1, 0x432, 0x60),
    Step::Line(1, 0x28, true),
    Step::Line(1, 0x32, true),
];

// SPI 2a of group 1 at a0, SPI 32 of group 0 at b0.
const TWO: [Step; 4] = [
    Step::SpiPriority(1, 0x42a, 0xa0),
    Step::SpiPriority(1, 0x432, 0xb0),
    Step::Line(1, 0x2a, true),
    Step::Line(1, 0x32, true),
];

// Steps on a device of its own, after those of `before`, which print nothing.
fn case(out: &mut impl Write, name: &[u8], before: &[Step], table: &[Step]) -> io::Result<()> {
    let mut s = device(96);
    quiet(&mut s, before);
    steps(out, name, &mut s, table)
}

// A system register is written on a device of its own: the vCPU, the encoding and the value, and the step.
fn alone(out: &mut impl Write, name: &[u8], row: (usize, u64, u64)) -> io::Result<()> {
    let mut s = device(96);
    let (v, encoding, value) = row;
    say(out, name)?;
    say_hex(out, v as u64)?;
    say_hex(out, encoding)?;
    say_hex(out, value)?;
    say(out, b":")?;
    say_step(out, &mut s, Step::Write(v, encoding, value))?;
    say(out, b"\n")
}

fn rows(out: &mut impl Write, name: &[u8], table: &[(usize, u64, u64)]) -> io::Result<()> {
    for row in table {
        alone(out, name, *row)?;
    }
    Ok(())
}

// ---- worked on paper

const P4: [Step; 7] = [
    Step::Write(1, PMR, 0xa0),
    Step::Signal(1),
    Step::Read(1, IAR1),
    Step::Write(1, PMR, 0xa8),
    Step::Signal(1),
    Step::Read(1, IAR1),
    Step::Read(1, AP1R),
];

const P5: [Step; 6] = [
    Step::Read(1, IAR1),
    Step::SpiPriority(1, 0x42b, 0x98),
    Step::Line(1, 0x2b, true),
    Step::Signal(1),
    Step::Read(1, IAR1),
    Step::Read(1, RPR),
];

const P6: [Step; 3] = [
    Step::Read(1, IAR1),
    Step::Write(1, EOIR0, 0x2a),
    Step::Read(1, RPR),
];

const P8: [(usize, u64, u64); 2] = [(1, SGI1R, 0x0300_0003), (1, SGI1R, 0x100_0300_0000)];

fn p5(out: &mut impl Write, name: &[u8], value: u64) -> io::Result<()> {
    let mut s = device(96);
    quiet(&mut s, &AT_A0);
    let _ = call(&mut s, Step::Write(1, BPR1, value));
    steps(out, name, &mut s, &P5)
}

fn paper(out: &mut impl Write) -> io::Result<()> {
    say(
        out,
        b"worked on paper: of each step the answer and the words changed\n",
    )?;
    case(out, b"P4", &AT_A0, &P4)?;
    p5(out, b"P5, BPR1 3", 3)?;
    p5(out, b"P5, BPR1 5", 5)?;
    p5(out, b"P5, BPR1 6", 6)?;
    p5(out, b"P5, BPR1 7", 7)?;
    case(out, b"P6", &AT_A0, &P6)?;
    rows(out, b"P8", &P8)
}

// ---- preemption

// Priorities: SPI 21 of group 1 c0, PPI 19 of group 0 a0, SGI 2 of group 1 80, SPI 51 of group 0 40.
const CHAIN: [Step; 5] = [
    Step::Write(1, CTLR, 0),
    Step::SpiPriority(1, 0x421, 0xc0),
    Step::OwnPriority(1, 0x1_0419, 0xa0),
    Step::OwnPriority(1, 0x1_0402, 0x80),
    Step::SpiPriority(1, 0x451, 0x40),
];

const INWARD: [Step; 12] = [
    Step::Line(1, 0x21, true),
    Step::Read(1, IAR1),
    Step::Read(1, RPR),
    Step::Line(1, 0x19, true),
    Step::Read(1, IAR0),
    Step::Read(1, RPR),
    Step::Frame(1, 0x1_0200, 0x4),
    Step::Read(1, IAR1),
    Step::Read(1, RPR),
    Step::Line(1, 0x51, true),
    Step::Read(1, IAR0),
    Step::Read(1, RPR),
];

const OUTWARD: [Step; 9] = [
    Step::Write(1, EOIR0, 0x51),
    Step::Read(1, RPR),
    Step::Write(1, EOIR1, 0x2),
    Step::Read(1, RPR),
    Step::Write(1, EOIR0, 0x19),
    Step::Read(1, RPR),
    Step::Write(1, EOIR1, 0x21),
    Step::Read(1, RPR),
    Step::Signal(1),
];

const DEACTIVATED: [Step; 5] = [
    Step::Write(1, DIR, 0x51),
    Step::Write(1, DIR, 0x2),
    Step::Write(1, DIR, 0x19),
    Step::Write(1, DIR, 0x21),
    Step::Signal(1),
];

// Four deep, and out again: in EOImode 1 each stays active until DIR.
fn chain(out: &mut impl Write, name: &[u8], mode: u64) -> io::Result<()> {
    let mut s = device(96);
    quiet(&mut s, &CHAIN);
    let _ = call(&mut s, Step::Write(1, CTLR, mode));
    steps(out, name, &mut s, &INWARD)?;
    steps(out, b"end of each", &mut s, &OUTWARD)?;
    steps(out, b"DIR of each", &mut s, &DEACTIVATED)
}

// ---- the best

// Priority 50: SGI 5, PPI 14, SPIs 22, 23 and 42. In EOImode 1 what is ended stays active.
const TIED: [Step; 11] = [
    Step::Write(1, CTLR, 2),
    Step::OwnPriority(1, 0x1_0405, 0x50),
    Step::OwnPriority(1, 0x1_0414, 0x50),
    Step::SpiPriority(1, 0x422, 0x50),
    Step::SpiPriority(1, 0x423, 0x50),
    Step::SpiPriority(1, 0x442, 0x50),
    Step::Line(1, 0x42, true),
    Step::Line(1, 0x23, true),
    Step::Line(1, 0x22, true),
    Step::Line(1, 0x14, true),
    Step::Frame(1, 0x1_0200, 0x20),
];

// The later SPIs 42 and 43 at 48, before PPI 14 and SPI 22 at 50.
const LATER: [Step; 9] = [
    Step::Write(1, CTLR, 2),
    Step::OwnPriority(1, 0x1_0414, 0x50),
    Step::SpiPriority(1, 0x422, 0x50),
    Step::SpiPriority(1, 0x442, 0x48),
    Step::SpiPriority(1, 0x443, 0x48),
    Step::Line(1, 0x14, true),
    Step::Line(1, 0x22, true),
    Step::Line(1, 0x42, true),
    Step::Line(1, 0x43, true),
];

// Priority 0: SGI 3, PPI 10, SPIs 20 and 40.
const FIRST: [Step; 5] = [
    Step::Write(1, CTLR, 2),
    Step::Line(1, 0x40, true),
    Step::Line(1, 0x20, true),
    Step::Line(1, 0x10, true),
    Step::Frame(1, 0x1_0200, 0x8),
];

const TAKEN: [Step; 11] = [
    Step::Read(1, IAR1),
    Step::Write(1, EOIR1, 0x20),
    Step::Read(1, IAR1),
    Step::Write(1, EOIR1, 0x20),
    Step::Read(1, IAR1),
    Step::Write(1, EOIR1, 0x20),
    Step::Read(1, IAR1),
    Step::Write(1, EOIR1, 0x20),
    Step::Read(1, IAR1),
    Step::Write(1, EOIR1, 0x20),
    Step::Read(1, IAR1),
];

// Each is acknowledged, and its priority dropped.
fn taken(out: &mut impl Write, name: &[u8], first: &[Step]) -> io::Result<()> {
    let mut s = device(96);
    quiet(&mut s, first);
    steps(out, name, &mut s, &TAKEN)
}

fn ties(out: &mut impl Write) -> io::Result<()> {
    taken(out, b"ties at 50", &TIED)?;
    taken(out, b"a later word at 48", &LATER)?;
    taken(out, b"ties at 0", &FIRST)
}

const HIDDEN: [Step; 14] = [
    Step::Read(1, HPPIR0),
    Step::Read(1, HPPIR1),
    Step::Read(1, IAR0),
    Step::Signal(1),
    Step::SpiPriority(1, 0x432, 0x58),
    Step::Signal(1),
    Step::Read(1, HPPIR1),
    Step::Read(1, IAR1),
    Step::Read(1, HPPIR0),
    Step::Read(1, IAR0),
    Step::Signal(1),
    Step::Read(1, HPPIR1),
    Step::Write(1, EOIR0, 0x32),
    Step::Signal(1),
];

// At running priority 40 the best, SPI 32 at 58, is not given; SPI 28 would be, its group priority is 0.
const HIDDEN_STILL: [Step; 13] = [
    Step::Write(1, BPR1, 7),
    Step::Write(1, AP1R, 0x100),
    Step::SpiPriority(1, 0x432, 0x58),
    Step::Signal(1),
    Step::Read(1, IAR1),
    Step::Read(1, IAR0),
    Step::Read(1, HPPIR1),
    Step::Read(1, HPPIR0),
    Step::Line(1, 0x32, false),
    Step::Signal(1),
    Step::Read(1, HPPIR1),
    Step::Read(1, IAR1),
    Step::Read(1, RPR),
];

fn hiding(out: &mut impl Write) -> io::Result<()> {
    case(out, b"group 0 hides group 1", &HIDING, &HIDDEN)?;
    case(out, b"not given, it hides still", &HIDING, &HIDDEN_STILL)
}

// ---- PMR

const EDGES: [Step; 12] = [
    Step::Write(1, PMR, 0x98),
    Step::Signal(1),
    Step::Read(1, IAR1),
    Step::Read(1, HPPIR1),
    Step::Write(1, PMR, 0xa0),
    Step::Signal(1),
    Step::Read(1, IAR1),
    Step::Write(1, PMR, 0xa7),
    Step::Read(1, IAR1),
    Step::Write(1, PMR, 0xa8),
    Step::Signal(1),
    Step::Read(1, IAR1),
];

const LAST: [Step; 8] = [
    Step::SpiPriority(1, 0x42a, 0xf8),
    Step::Write(1, PMR, 0xff),
    Step::Signal(1),
    Step::Read(1, IAR1),
    Step::Read(1, HPPIR1),
    Step::SpiPriority(1, 0x42a, 0xf7),
    Step::Signal(1),
    Step::Read(1, IAR1),
];

const LEAST: [Step; 7] = [
    Step::SpiPriority(1, 0x42a, 0x0),
    Step::Write(1, PMR, 0x7),
    Step::Signal(1),
    Step::Read(1, IAR1),
    Step::Write(1, PMR, 0xf),
    Step::Signal(1),
    Step::Read(1, IAR1),
];

fn masks(out: &mut impl Write) -> io::Result<()> {
    case(out, b"PMR around a0", &AT_A0, &EDGES)?;
    case(out, b"priority f8, then f0", &AT_A0, &LAST)?;
    case(out, b"priority 0", &AT_A0, &LEAST)
}

// ---- binary points

// The encodings of a group's registers, and an SGI of that group: its ID, the offset of its priority and its bit.
#[derive(Clone, Copy)]
struct Group {
    bpr: u64,
    iar: u64,
    ap: u64,
    eoir: u64,
    sgi: u64,
    priority: u64,
    bit: u64,
}

const GROUP0: Group = Group {
    bpr: BPR0,
    iar: IAR0,
    ap: AP0R,
    eoir: EOIR0,
    sgi: 0x9,
    priority: 0x1_0409,
    bit: 0x200,
};

const GROUP1: Group = Group {
    bpr: BPR1,
    iar: IAR1,
    ap: AP1R,
    eoir: EOIR1,
    sgi: 0x1,
    priority: 0x1_0401,
    bit: 0x2,
};

// The AP register after that SGI is acknowledged at priority 8 x level; then it is ended.
fn level_case(out: &mut impl Write, s: &mut [u32; 1760], g: Group, level: u64) -> io::Result<()> {
    let _ = call(s, Step::OwnPriority(1, g.priority, level << 3));
    let _ = call(s, Step::Frame(1, 0x1_0200, g.bit));
    let _ = call(s, Step::Read(1, g.iar));
    say_read(out, call(s, Step::Read(1, g.ap)))?;
    let _ = call(s, Step::Write(1, g.eoir, g.sgi));
    Ok(())
}

fn each_level(out: &mut impl Write, s: &mut [u32; 1760], g: Group) -> io::Result<()> {
    for level in 0..32 {
        level_case(out, s, g, level)?;
    }
    Ok(())
}

// A line: the value written to BPR, what it reads, and the AP register at each level.
fn levels(out: &mut impl Write, name: &[u8], g: Group, value: u64) -> io::Result<()> {
    let mut s = device(96);
    let _ = call(&mut s, Step::Write(1, g.bpr, value));
    say(out, name)?;
    say_hex(out, value)?;
    say_read(out, call(&mut s, Step::Read(1, g.bpr)))?;
    say(out, b":")?;
    each_level(out, &mut s, g)?;
    say(out, b"\n")
}

fn both_groups(out: &mut impl Write, value: u64) -> io::Result<()> {
    levels(out, b"BPR0", GROUP0, value)?;
    levels(out, b"BPR1", GROUP1, value)
}

fn binary_points(out: &mut impl Write) -> io::Result<()> {
    for value in 0..8 {
        both_groups(out, value)?;
    }
    Ok(())
}

// ---- end of interrupt

const ABSENT: [Step; 10] = [
    Step::Write(1, EOIR1, 0x60),
    Step::Write(1, EOIR1, 0x3fb),
    Step::Write(1, EOIR1, 0x3fc),
    Step::Write(1, EOIR1, 0x3ff),
    Step::Write(1, EOIR1, 0x42a),
    Step::Write(1, EOIR1, 0x80_002a),
    Step::Write(1, EOIR1, 0xffff_ffff_ffff_ffff),
    Step::Read(1, RPR),
    Step::Write(1, EOIR1, 0xffff_ffff_ff00_002a),
    Step::Read(1, RPR),
];

const INACTIVE: [Step; 4] = [
    Step::Write(1, EOIR1, 0x2b),
    Step::Read(1, RPR),
    Step::Write(1, EOIR1, 0x2a),
    Step::Write(1, EOIR0, 0x2a),
];

const FOREIGN: [Step; 7] = [
    Step::Write(1, EOIR1, 0x14),
    Step::Write(1, AP1R, 0x10_0000),
    Step::Write(1, EOIR1, 0x42),
    Step::Write(1, AP1R, 0x10_0000),
    Step::Write(1, EOIR1, 0x9),
    Step::Write(0, AP0R, 0x1),
    Step::Write(0, EOIR0, 0x2a),
];

const BOTH: [Step; 16] = [
    Step::Write(1, AP0R, 0x8000_0100),
    Step::Write(1, AP1R, 0x300),
    Step::Read(1, RPR),
    Step::Write(1, EOIR1, 0x2a),
    Step::Read(1, RPR),
    Step::Write(1, EOIR1, 0x14),
    Step::Write(1, EOIR0, 0x14),
    Step::Read(1, RPR),
    Step::Write(1, EOIR0, 0x9),
    Step::Write(1, EOIR1, 0x9),
    Step::Read(1, RPR),
    Step::Write(1, EOIR1, 0x20),
    Step::Write(1, EOIR0, 0x20),
    Step::Read(1, RPR),
    Step::Write(1, EOIR0, 0x42),
    Step::Write(1, EOIR1, 0x42),
];

fn ends(out: &mut impl Write) -> io::Result<()> {
    say(out, b"end of interrupt and deactivate\n")?;
    case(out, b"absent IDs", &ACTIVE, &ABSENT)?;
    case(out, b"an inactive ID, idle", &ACTIVE, &INACTIVE)?;
    case(out, b"foreign IDs", &ACTIVE, &FOREIGN)?;
    case(out, b"both AP registers", &ACTIVE, &BOTH)
}

const DIRS: [Step; 17] = [
    Step::Write(1, DIR, 0x2a),
    Step::Write(1, CTLR, 0x2),
    Step::Write(0, DIR, 0x2a),
    Step::Write(1, DIR, 0x60),
    Step::Write(1, DIR, 0x3fc),
    Step::Write(1, DIR, 0x3ff),
    Step::Write(1, DIR, 0x42a),
    Step::Write(1, DIR, 0x80_002a),
    Step::Write(1, DIR, 0xffff_ffff_ff00_002a),
    Step::Write(1, DIR, 0x2a),
    Step::Read(1, RPR),
    Step::Write(1, DIR, 0x14),
    Step::Write(1, DIR, 0x42),
    Step::Write(1, DIR, 0x9),
    Step::Read(1, IAR1),
    Step::Write(1, EOIR1, 0x2a),
    Step::Read(1, IAR1),
];

// At count 400 the last SPI is 3fb: it has no group 1 bit and is not enabled.
const LAST_SPI: [Step; 8] = [
    Step::Distributor(1, 0x17c, 0xffff_ffff),
    Step::Line(1, 0x3fb, true),
    Step::Read(1, IAR0),
    Step::Write(1, EOIR0, 0x3fc),
    Step::Write(1, EOIR0, 0x3ff),
    Step::Write(1, EOIR0, 0x400),
    Step::Write(1, EOIR0, 0x3fb),
    Step::Signal(1),
];

fn deactivates(out: &mut impl Write) -> io::Result<()> {
    case(out, b"DIR", &ACTIVE, &DIRS)?;
    let mut s = device(1024);
    steps(out, b"count 400", &mut s, &LAST_SPI)
}

// ---- HPPIR and the signal

// PMR 0 and a running priority of 0 hold back IAR and the signal alone.
const HELD: [Step; 8] = [
    Step::Write(1, PMR, 0),
    Step::Read(1, HPPIR1),
    Step::Read(1, IAR1),
    Step::Write(1, PMR, 0xf8),
    Step::Write(1, AP0R, 1),
    Step::Read(1, HPPIR1),
    Step::Read(1, IAR1),
    Step::Signal(1),
];

// The signal and both HPPIRs with each of the four group enables off in turn.
const ENABLES: [Step; 28] = [
    Step::Signal(1),
    Step::Distributor(1, 0x0, 0x1),
    Step::Signal(1),
    Step::Read(1, HPPIR0),
    Step::Read(1, HPPIR1),
    Step::Read(1, IAR1),
    Step::Distributor(1, 0x0, 0x3),
    Step::Write(1, IGRPEN1, 0),
    Step::Signal(1),
    Step::Read(1, HPPIR0),
    Step::Read(1, HPPIR1),
    Step::Read(1, IAR1),
    Step::Write(1, IGRPEN1, 1),
    Step::SpiPriority(1, 0x432, 0x90),
    Step::Signal(1),
    Step::Distributor(1, 0x0, 0x2),
    Step::Signal(1),
    Step::Read(1, HPPIR0),
    Step::Read(1, HPPIR1),
    Step::Read(1, IAR0),
    Step::Distributor(1, 0x0, 0x3),
    Step::Write(1, IGRPEN0, 0),
    Step::Signal(1),
    Step::Read(1, HPPIR0),
    Step::Read(1, HPPIR1),
    Step::Read(1, IAR0),
    Step::Distributor(1, 0x0, 0x1),
    Step::Signal(1),
];

// SPI 2a is disabled, enabled, active, inactive, routed to the vCPUs 0 and 3 and back; its line falls.
const CANDIDATE: [Step; 21] = [
    Step::Distributor(1, 0x184, 0x400),
    Step::Read(1, HPPIR1),
    Step::Distributor(1, 0x104, 0x400),
    Step::Read(1, HPPIR1),
    Step::Distributor(1, 0x304, 0x400),
    Step::Read(1, HPPIR1),
    Step::Distributor(1, 0x384, 0x400),
    Step::Read(1, HPPIR1),
    Step::Distributor(1, 0x6150, 0x1),
    Step::Read(1, HPPIR1),
    Step::Read(1, HPPIR0),
    Step::Write(0, IGRPEN1, 1),
    Step::Read(0, HPPIR1),
    Step::Distributor(1, 0x6150, 0xab_cd00),
    Step::Read(0, HPPIR1),
    Step::Read(1, HPPIR1),
    Step::Distributor(1, 0x6150, 0xff00_0000),
    Step::Read(0, HPPIR1),
    Step::Read(1, HPPIR1),
    Step::Line(1, 0x2a, false),
    Step::Read(1, HPPIR1),
];

fn pending(out: &mut impl Write) -> io::Result<()> {
    say(out, b"HPPIR and the signal\n")?;
    case(out, b"PMR and running priority", &TWO, &HELD)?;
    case(out, b"group enables", &TWO, &ENABLES)
}

// SPI 2a is latched and its line high.
const LEVEL: [Step; 12] = [
    Step::SpiPriority(1, 0x42a, 0xa0),
    Step::Distributor(1, 0x204, 0x400),
    Step::Line(1, 0x2a, true),
    Step::Read(1, IAR1),
    Step::Read(1, HPPIR1),
    Step::Write(1, EOIR1, 0x2a),
    Step::Signal(1),
    Step::Read(1, IAR1),
    Step::Line(1, 0x2a, false),
    Step::Write(1, EOIR1, 0x2a),
    Step::Signal(1),
    Step::Read(1, IAR1),
];

const EDGE: [Step; 13] = [
    Step::SpiPriority(1, 0x42a, 0xa0),
    Step::Distributor(1, 0xc08, 0x20_0000),
    Step::Line(1, 0x2a, true),
    Step::Read(1, IAR1),
    Step::Line(1, 0x2a, false),
    Step::Line(1, 0x2a, true),
    Step::Read(1, HPPIR1),
    Step::Write(1, EOIR1, 0x2a),
    Step::Signal(1),
    Step::Read(1, IAR1),
    Step::Write(1, EOIR1, 0x2a),
    Step::Signal(1),
    Step::Read(1, IAR1),
];

fn candidates(out: &mut impl Write) -> io::Result<()> {
    case(out, b"a candidate", &TWO, &CANDIDATE)?;
    case(out, b"level, line high", &[], &LEVEL)?;
    case(out, b"edge, line high", &[], &EDGE)
}

// ---- SGIs

// SGI 5 to vCPUs by Aff2, Aff1 and a list.
const LISTS: [(usize, u64, u64); 12] = [
    (1, SGI1R, 0x0500_0001),
    (1, SGI1R, 0x0500_0002),
    (2, SGI1R, 0x0500_ffff),
    (1, SGI1R, 0x0500_fffc),
    (1, SGI1R, 0x0500_0000),
    (1, SGI1R, 0xab_05cd_8001),
    (2, SGI1R, 0xab_05cd_8000),
    (1, SGI1R, 0xab_05cd_0001),
    (1, SGI1R, 0xab_05cd_7ffe),
    (1, SGI1R, 0xab_05cc_ffff),
    (1, SGI1R, 0xaa_05cd_ffff),
    (1, SGI1R, 0x05cd_ffff),
];

// All others; Aff3; bits that are ignored.
const OTHERS: [(usize, u64, u64); 13] = [
    (1, SGI1R, 0x100_0500_0000),
    (2, SGI1R, 0x100_0500_0003),
    (0, SGI1R, 0x1ab_05cd_8001),
    (1, SGI1R, 0x1_0000_0500_0003),
    (1, SGI1R, 0x80_0000_0500_0003),
    (1, SGI1R, 0xff_00ab_05cd_8001),
    (1, SGI1R, 0x1_0100_0500_0003),
    (1, SGI1R, 0xf000_0500_0003),
    (1, SGI1R, 0x0e00_0500_0003),
    (1, SGI1R, 0xff00_0000_0500_0003),
    (1, SGI1R, 0xf500_0003),
    (1, SGI1R, 0xff00_feab_f5cd_8001),
    (1, SGI1R, 0xff00_ff00_f500_0000),
];

// In group 1 are the SGIs 0-7 of vCPU 1 alone.
const GROUPS: [(usize, u64, u64); 8] = [
    (1, SGI0R, 0x0500_0003),
    (1, SGI0R, 0x0900_0003),
    (1, SGI1R, 0x0900_0003),
    (0, SGI0R, 0x100_0700_0000),
    (0, SGI0R, 0x100_0800_0000),
    (0, SGI0R, 0xab_05cd_8001),
    (0, SGI0R, 0x1_0000_0900_0003),
    (1, SGI0R, 0xff01_f100_f900_0000),
];

const EVERY_ID: [Step; 16] = [
    Step::Write(1, SGI1R, 0x0000_0002),
    Step::Write(1, SGI1R, 0x0100_0002),
    Step::Write(1, SGI1R, 0x0200_0002),
    Step::Write(1, SGI1R, 0x0300_0002),
    Step::Write(1, SGI1R, 0x0400_0002),
    Step::Write(1, SGI1R, 0x0500_0002),
    Step::Write(1, SGI1R, 0x0600_0002),
    Step::Write(1, SGI1R, 0x0700_0002),
    Step::Write(1, SGI1R, 0x0800_0002),
    Step::Write(1, SGI1R, 0x0900_0002),
    Step::Write(1, SGI1R, 0x0a00_0002),
    Step::Write(1, SGI1R, 0x0b00_0002),
    Step::Write(1, SGI1R, 0x0c00_0002),
    Step::Write(1, SGI1R, 0x0d00_0002),
    Step::Write(1, SGI1R, 0x0e00_0002),
    Step::Write(1, SGI1R, 0x0f00_0002),
];

// SGI 3 to the writer itself, and again while it is active.
const ITSELF: [Step; 7] = [
    Step::Write(1, SGI1R, 0x0300_0001),
    Step::Signal(1),
    Step::Read(1, IAR1),
    Step::Write(1, SGI1R, 0x0300_0001),
    Step::Signal(1),
    Step::Write(1, EOIR1, 0x3),
    Step::Signal(1),
];

fn sgis(out: &mut impl Write) -> io::Result<()> {
    say(out, b"SGIs: the writer, SGI1R or SGI0R, and the value\n")?;
    rows(out, b"SGI", &LISTS)?;
    rows(out, b"SGI", &OTHERS)?;
    rows(out, b"SGI", &GROUPS)
}

// vCPU 3 gets group 0, PMR 80 and SGI 3 enabled, and is stopped again; then SGI 3 is sent to it.
const SENT: [Step; 11] = [
    Step::Run(3, true),
    Step::Write(3, PMR, 0x80),
    Step::Write(3, IGRPEN0, 1),
    Step::Frame(3, 0x1_0100, 0x8),
    Step::Run(3, false),
    Step::Signal(3),
    Step::Write(1, SGI0R, 0x100_0300_0000),
    Step::Signal(3),
    Step::Read(3, IAR0),
    Step::Run(3, true),
    Step::Read(3, IAR0),
];

fn latched(out: &mut impl Write) -> io::Result<()> {
    case(out, b"each ID to affinity 1", &[], &EVERY_ID)?;
    case(out, b"to itself", &[], &ITSELF)?;
    case(out, b"to a stopped vCPU", &[], &SENT)
}

// ---- plain registers

const MASKED: [Step; 18] = [
    Step::Read(1, PMR),
    Step::Write(1, PMR, 0xffff_ffff_ffff_ff07),
    Step::Read(1, PMR),
    Step::Write(1, PMR, 0x1_0000_015f),
    Step::Read(1, PMR),
    Step::Read(1, BPR0),
    Step::Write(1, BPR0, 0xffff_ffff_ffff_fffc),
    Step::Read(1, BPR0),
    Step::Write(1, BPR0, 0x1_0000_0009),
    Step::Read(1, BPR0),
    Step::Read(1, BPR1),
    Step::Write(1, BPR1, 0xf),
    Step::Read(1, BPR1),
    Step::Write(1, BPR1, 0x1_0000_000a),
    Step::Read(1, BPR1),
    Step::Read(1, SRE),
    Step::Write(1, SRE, 0),
    Step::Read(1, SRE),
];

const WHOLE: [Step; 22] = [
    Step::Write(1, AP0R, 0xffff_ffff_1234_5678),
    Step::Read(1, AP0R),
    Step::Write(1, AP1R, 0x1_8000_0001),
    Step::Read(1, AP1R),
    Step::Read(1, AP0R),
    Step::Read(1, CTLR),
    Step::Write(1, CTLR, 0xffff_ffff_ffff_ffff),
    Step::Read(1, CTLR),
    Step::Write(1, CTLR, 0xffff_ffff_ffff_fffd),
    Step::Read(1, CTLR),
    Step::Write(1, CTLR, 0x402),
    Step::Read(1, CTLR),
    Step::Write(1, IGRPEN0, 0xffff_ffff_ffff_fffe),
    Step::Read(1, IGRPEN0),
    Step::Read(1, IGRPEN1),
    Step::Write(1, IGRPEN1, 0x1_0000_0000),
    Step::Read(1, IGRPEN1),
    Step::Write(1, IGRPEN0, 0x1_0000_0001),
    Step::Read(1, IGRPEN0),
    Step::Read(1, IGRPEN1),
    Step::Write(1, IGRPEN1, 0x3),
    Step::Read(1, IGRPEN1),
];

fn plain(out: &mut impl Write) -> io::Result<()> {
    say(out, b"plain registers\n")?;
    case(out, b"PMR, BPRs, SRE", &[], &MASKED)?;
    case(out, b"APs, CTLR, IGRPENs", &[], &WHOLE)
}

// ---- refusals

// Encodings: those that are read and written, read alone, written alone.
const LISTED: [u64; 19] = [
    PMR, BPR0, AP0R, AP1R, BPR1, CTLR, SRE, IGRPEN0, IGRPEN1, IAR0, HPPIR0, RPR, IAR1, HPPIR1,
    EOIR0, DIR, SGI1R, SGI0R, EOIR1,
];

const UNLISTED: [u64; 17] = [
    0x0,
    0xc22f,
    0xc231,
    0xc63f,
    0xc645,
    0xc647,
    0xc649,
    0xc658,
    0xc65a,
    0xc65c,
    0xc65e,
    0xc668,
    0x4660,
    0x1_c660,
    0x1_0000_c660,
    0x8000_0000_0000_c230,
    0xffff_ffff_ffff_ffff,
];

// SPI 2a is pending, and both AP registers have the running level.
const BUSY: [Step; 3] = [
    Step::Line(1, 0x2a, true),
    Step::Write(1, AP0R, 0x10_0000),
    Step::Write(1, AP1R, 0x10_0000),
];

// A read, and a write of a value that changes each register that is written, but SRE and DIR.
fn both_ways(out: &mut impl Write, s: &mut [u32; 1760], v: usize, encoding: u64) -> io::Result<()> {
    say_step(out, s, Step::Read(v, encoding))?;
    say_step(out, s, Step::Write(v, encoding, 0x0500_0006))
}

// By vCPU 1 of a device that is not sound, and of one that is not initialised; by the missing vCPU 4, by vCPU 3, which is stopped, and by vCPU 1.
fn encoding_case(out: &mut impl Write, encoding: u64) -> io::Result<()> {
    let mut s = device(96);
    quiet(&mut s, &BUSY);
    say_hex(out, encoding)?;
    say(out, b":")?;
    s[15] = 1;
    both_ways(out, &mut s, 1, encoding)?;
    let mut t = added(96);
    both_ways(out, &mut t, 1, encoding)?;
    s[15] = 0;
    both_ways(out, &mut s, 4, encoding)?;
    both_ways(out, &mut s, 3, encoding)?;
    both_ways(out, &mut s, 1, encoding)?;
    say(out, b"\n")
}

fn encodings(out: &mut impl Write, name: &[u8], table: &[u64]) -> io::Result<()> {
    for encoding in table {
        say(out, name)?;
        encoding_case(out, *encoding)?;
    }
    Ok(())
}

// Indexes that are missing and the order of refusals: of the signal query, and of accesses.
const REFUSED: [Step; 10] = [
    Step::Signal(1),
    Step::Signal(3),
    Step::Signal(4),
    Step::Signal(0x1_0000_0001),
    Step::Signal(0xffff_ffff_ffff_ffff),
    Step::Read(4, 0xc231),
    Step::Read(0x1_0000_0001, IAR1),
    Step::Write(0xffff_ffff_ffff_ffff, PMR, 0),
    Step::Read(3, 0xc231),
    Step::Write(3, IAR1, 0),
];

fn refused(out: &mut impl Write, name: &[u8], s: &mut [u32; 1760]) -> io::Result<()> {
    steps(out, name, s, &REFUSED)
}

fn refusals(out: &mut impl Write) -> io::Result<()> {
    say(
        out,
        b"read and written: not sound; not initialised; vCPU 4, missing; vCPU 3, stopped; vCPU 1\n",
    )?;
    encodings(out, b"listed", &LISTED)?;
    encodings(out, b"unlisted", &UNLISTED)?;
    let mut s = device(96);
    quiet(&mut s, &BUSY);
    refused(out, b"device", &mut s)?;
    s[15] = 1;
    refused(out, b"not sound", &mut s)?;
    let mut t = added(96);
    refused(out, b"not initialised", &mut t)
}

fn main(rt: HostRuntime) -> io::Result<()> {
    let mut out = rt.stdout();
    paper(&mut out)?;
    say(&mut out, b"preemption\n")?;
    chain(&mut out, b"EOImode 0", 0)?;
    chain(&mut out, b"EOImode 1", 2)?;
    say(&mut out, b"the best\n")?;
    ties(&mut out)?;
    hiding(&mut out)?;
    masks(&mut out)?;
    say(
        &mut out,
        b"binary points: as written, as read, and the AP register that an acknowledge at each of the priorities 0, 8, .. f8 sets\n",
    )?;
    binary_points(&mut out)?;
    ends(&mut out)?;
    deactivates(&mut out)?;
    pending(&mut out)?;
    candidates(&mut out)?;
    sgis(&mut out)?;
    latched(&mut out)?;
    plain(&mut out)?;
    refusals(&mut out)
}
