// Runs the guest's accesses to memory-mapped registers, line changes and attributes of every group that names registers, and prints their answers and the words that they change. The file stdout holds what document 01 gives for each.
#![tactic(auto)]

use model::Errno;
use report::{say, say_changed, say_hex, say_read};
use state::{Mpidr, VcpuIndex};
use std::io;
use std::io::Write;

// ---- printing

// A refusal, where a write or a set has one.
fn say_refusal(out: &mut impl Write, answer: Result<u32, Errno>) -> io::Result<()> {
    match answer {
        Ok(0) => Ok(()),
        _ => say_read(out, answer),
    }
}

// A row's numbers.
fn say_row(out: &mut impl Write, row: [u64; 4]) -> io::Result<()> {
    for number in row {
        say_hex(out, number)?;
    }
    say(out, b":")
}

// ---- devices

// A device before initialising: the vCPUs 0, 1 and 2 have the affinities 1, 0 and abcd0f.
fn added(count: u64) -> [u32; 1760] {
    let mut s = [0u32; 1760];
    let _ = calls::make(&mut s);
    let _ = calls::set_attribute(&mut s, 3, 0, count);
    let _ = calls::add_vcpu(&mut s, Mpidr(1));
    let _ = calls::add_vcpu(&mut s, Mpidr(0));
    let _ = calls::add_vcpu(&mut s, Mpidr(0x00ab_cd0f));
    s
}

// That device initialised, with f in each STATUSR.
fn device(count: u64) -> [u32; 1760] {
    let mut s = added(count);
    let _ = calls::set_attribute(&mut s, 4, 0, 0);
    let _ = calls::set_attribute(&mut s, 1, 0x10, 0xf);
    let _ = calls::set_attribute(&mut s, 5, 0x1_0000_0010, 0xf);
    let _ = calls::set_attribute(&mut s, 5, 0x10, 0xf);
    let _ = calls::set_attribute(&mut s, 5, 0x00ab_cd0f_0000_0010, 0xf);
    s
}

// vCPU 1 runs, or stops. It makes every access but those of the table of refusals.
fn run(s: &mut [u32], on: bool) {
    let _ = calls::set_running(s, VcpuIndex(1), on);
}

// ---- calls

// Where an access goes.
#[derive(Clone, Copy)]
enum Place {
    Distributor,
    Frame(usize),
}

fn read(s: &[u32], at: Place, offset: u64, size: u64) -> Result<u32, Errno> {
    match at {
        Place::Distributor => calls::read_distributor(s, VcpuIndex(1), offset, size),
        Place::Frame(f) => calls::read_frame(s, VcpuIndex(1), VcpuIndex(f), offset, size),
    }
}

fn write(s: &mut [u32], at: Place, offset: u64, size: u64, value: u64) -> Result<u32, Errno> {
    match at {
        Place::Distributor => calls::write_distributor(s, VcpuIndex(1), offset, size, value),
        Place::Frame(f) => calls::write_frame(s, VcpuIndex(1), VcpuIndex(f), offset, size, value),
    }
}

// ---- registers written and read back

// Rows of the distributor: an offset and the word written there; then an offset, and the word written there, which is read back.
const CTLR: [[u64; 4]; 2] = [[0x0, 0x1, 0x0, 0xffff_fffe], [0x0, 0x0, 0x0, 0x3]];

const TYPER: [[u64; 4]; 1] = [[0x4, 0xffff_ffff, 0x4, 0x0]];

const IIDR: [[u64; 4]; 2] = [
    [0x8, 0x0, 0x8, 0x0100_1000],
    [0x8, 0x0100_1000, 0x8, 0x0100_1001],
];

const STATUSR: [[u64; 4]; 2] = [[0x10, 0x1, 0x10, 0x4], [0x10, 0x0, 0x10, 0xffff_fff0]];

const IGROUPR: [[u64; 4]; 6] = [
    [0x80, 0xffff_0000, 0x80, 0xff00_ff00],
    [0x84, 0xffff_0000, 0x84, 0xff00_ff00],
    [0x88, 0xffff_0000, 0x88, 0xff00_ff00],
    [0xc0, 0xffff_0000, 0xc0, 0xff00_ff00],
    [0xf8, 0xffff_0000, 0xf8, 0xff00_ff00],
    [0xfc, 0xffff_0000, 0xfc, 0xff00_ff00],
];

const ISENABLER: [[u64; 4]; 4] = [
    [0x100, 0xffff_0000, 0x100, 0xff00_ff00],
    [0x104, 0xffff_0000, 0x104, 0xff00_ff00],
    [0x140, 0xffff_0000, 0x140, 0xff00_ff00],
    [0x17c, 0xffff_0000, 0x17c, 0xff00_ff00],
];

const ICENABLER: [[u64; 4]; 4] = [
    [0x100, 0xffff_0000, 0x180, 0x00ff_00ff],
    [0x104, 0xffff_0000, 0x184, 0x00ff_00ff],
    [0x140, 0xffff_0000, 0x1c0, 0x00ff_00ff],
    [0x17c, 0xffff_0000, 0x1fc, 0x00ff_00ff],
];

const ISPENDR: [[u64; 4]; 4] = [
    [0x200, 0xffff_0000, 0x200, 0xff00_ff00],
    [0x204, 0xffff_0000, 0x204, 0xff00_ff00],
    [0x240, 0xffff_0000, 0x240, 0xff00_ff00],
    [0x27c, 0xffff_0000, 0x27c, 0xff00_ff00],
];

const ICPENDR: [[u64; 4]; 4] = [
    [0x200, 0xffff_0000, 0x280, 0x00ff_00ff],
    [0x204, 0xffff_0000, 0x284, 0x00ff_00ff],
    [0x240, 0xffff_0000, 0x2c0, 0x00ff_00ff],
    [0x27c, 0xffff_0000, 0x2fc, 0x00ff_00ff],
];

const ISACTIVER: [[u64; 4]; 4] = [
    [0x300, 0xffff_0000, 0x300, 0xff00_ff00],
    [0x304, 0xffff_0000, 0x304, 0xff00_ff00],
    [0x340, 0xffff_0000, 0x340, 0xff00_ff00],
    [0x37c, 0xffff_0000, 0x37c, 0xff00_ff00],
];

const ICACTIVER: [[u64; 4]; 4] = [
    [0x300, 0xffff_0000, 0x380, 0x00ff_00ff],
    [0x304, 0xffff_0000, 0x384, 0x00ff_00ff],
    [0x340, 0xffff_0000, 0x3c0, 0x00ff_00ff],
    [0x37c, 0xffff_0000, 0x3fc, 0x00ff_00ff],
];

const IPRIORITYR: [[u64; 4]; 10] = [
    [0x400, 0x1234_5678, 0x400, 0xfedc_ba98],
    [0x41c, 0x1234_5678, 0x41c, 0xfedc_ba98],
    [0x420, 0x1234_5678, 0x420, 0xfedc_ba98],
    [0x43c, 0x1234_5678, 0x43c, 0xfedc_ba98],
    [0x440, 0x1234_5678, 0x440, 0xfedc_ba98],
    [0x600, 0x1234_5678, 0x600, 0xfedc_ba98],
    [0x7dc, 0x1234_5678, 0x7dc, 0xfedc_ba98],
    [0x7e0, 0x1234_5678, 0x7e0, 0xfedc_ba98],
    [0x7f8, 0x1234_5678, 0x7f8, 0xfedc_ba98],
    [0x7fc, 0x1234_5678, 0x7fc, 0xfedc_ba98],
];

const ICFGR: [[u64; 4]; 9] = [
    [0xc00, 0x1b1b_1b1b, 0xc00, 0xe4e4_e4e4],
    [0xc04, 0x1b1b_1b1b, 0xc04, 0xe4e4_e4e4],
    [0xc08, 0x1b1b_1b1b, 0xc08, 0xe4e4_e4e4],
    [0xc0c, 0x1b1b_1b1b, 0xc0c, 0xe4e4_e4e4],
    [0xc10, 0x1b1b_1b1b, 0xc10, 0xe4e4_e4e4],
    [0xc80, 0x1b1b_1b1b, 0xc80, 0xe4e4_e4e4],
    [0xcf4, 0x1b1b_1b1b, 0xcf4, 0xe4e4_e4e4],
    [0xcf8, 0x1b1b_1b1b, 0xcf8, 0xe4e4_e4e4],
    [0xcfc, 0x1b1b_1b1b, 0xcfc, 0xe4e4_e4e4],
];

// A row of a high word writes the low word first.
const IROUTER: [[u64; 4]; 10] = [
    [0x6100, 0xffff_ffff, 0x6100, 0xa987_6543],
    [0x6100, 0xffff_ffff, 0x6104, 0xa987_6543],
    [0x61f8, 0xffff_ffff, 0x61f8, 0xa987_6543],
    [0x6200, 0xffff_ffff, 0x6200, 0xa987_6543],
    [0x7000, 0xffff_ffff, 0x7000, 0xa987_6543],
    [0x7000, 0xffff_ffff, 0x7004, 0xa987_6543],
    [0x7ef8, 0xffff_ffff, 0x7ef8, 0xa987_6543],
    [0x7f00, 0xffff_ffff, 0x7f00, 0xa987_6543],
    [0x7fd8, 0xffff_ffff, 0x7fd8, 0xa987_6543],
    [0x7fd8, 0xffff_ffff, 0x7fdc, 0xa987_6543],
];

// The same of group 7: numbers and words set.
const LINES: [[u64; 4]; 6] = [
    [0x0, 0x00ff_ff00, 0x0, 0xffff_ffff],
    [0x20, 0x00ff_ff00, 0x20, 0xffff_0000],
    [0x40, 0x00ff_ff00, 0x40, 0xffff_0000],
    [0x200, 0x00ff_ff00, 0x200, 0xffff_0000],
    [0x3c0, 0x00ff_ff00, 0x3c0, 0xffff_0000],
    [0x3e0, 0x00ff_ff00, 0x3e0, 0xffff_0000],
];

// A guest writes the row's words, and reads.
fn guest_case(
    out: &mut impl Write,
    count: u64,
    at: Place,
    row: [u64; 4],
) -> io::Result<[u32; 1760]> {
    let mut s = device(count);
    let [first, word, offset, value] = row;
    run(&mut s, true);
    let _ = write(&mut s, at, first, 4, word);
    say_refusal(out, write(&mut s, at, offset, 4, value))?;
    say_read(out, read(&s, at, offset, 4))?;
    run(&mut s, false);
    Ok(s)
}

// Attributes are set to the row's words, and got. `high` is an affinity in bits 63-32.
fn attribute_case(
    out: &mut impl Write,
    count: u64,
    group: u64,
    high: u64,
    row: [u64; 4],
) -> io::Result<[u32; 1760]> {
    let mut s = device(count);
    let [first, word, offset, value] = row;
    let _ = calls::set_attribute(&mut s, group, high | first, word);
    say_refusal(
        out,
        calls::set_attribute(&mut s, group, high | offset, value),
    )?;
    say_read(out, calls::get_attribute(&s, group, high | offset))?;
    Ok(s)
}

// By a guest at counts 64, 96, 992 and 1024, with the words changed at 1024.
fn guest_counts(out: &mut impl Write, row: [u64; 4]) -> io::Result<()> {
    guest_case(out, 64, Place::Distributor, row)?;
    guest_case(out, 96, Place::Distributor, row)?;
    guest_case(out, 992, Place::Distributor, row)?;
    let s = guest_case(out, 1024, Place::Distributor, row)?;
    say_changed(out, &s, &device(1024))
}

// The same by attribute.
fn attribute_counts(out: &mut impl Write, group: u64, row: [u64; 4]) -> io::Result<()> {
    attribute_case(out, 64, group, 0, row)?;
    attribute_case(out, 96, group, 0, row)?;
    attribute_case(out, 992, group, 0, row)?;
    let s = attribute_case(out, 1024, group, 0, row)?;
    say_changed(out, &s, &device(1024))
}

// A row by a guest, and then by attribute.
fn distributor_row(out: &mut impl Write, row: [u64; 4]) -> io::Result<()> {
    guest_counts(out, row)?;
    say(out, b";")?;
    attribute_counts(out, 1, row)
}

// In the frames 0, 1 and 2, by a guest and by attribute, with the words changed.
fn frame_row(out: &mut impl Write, name: &[u8], row: [u64; 4]) -> io::Result<()> {
    let before = device(64);
    say(out, name)?;
    say_row(out, row)?;
    let g0 = guest_case(out, 64, Place::Frame(0), row)?;
    say_changed(out, &g0, &before)?;
    say(out, b",")?;
    let a0 = attribute_case(out, 64, 5, 0x1_0000_0000, row)?;
    say_changed(out, &a0, &before)?;
    say(out, b";")?;
    let g1 = guest_case(out, 64, Place::Frame(1), row)?;
    say_changed(out, &g1, &before)?;
    say(out, b",")?;
    let a1 = attribute_case(out, 64, 5, 0, row)?;
    say_changed(out, &a1, &before)?;
    say(out, b";")?;
    let g2 = guest_case(out, 64, Place::Frame(2), row)?;
    say_changed(out, &g2, &before)?;
    say(out, b",")?;
    let a2 = attribute_case(out, 64, 5, 0x00ab_cd0f_0000_0000, row)?;
    say_changed(out, &a2, &before)?;
    say(out, b"\n")
}

fn frames(out: &mut impl Write) -> io::Result<()> {
    say(
        out,
        b"a frame's words: by a guest and by attribute, in the frames 0, 1 and 2, with the words changed\n",
    )?;
    frame_row(out, b"CTLR", [0x0, 0x0, 0x0, 0xffff_ffff])?;
    frame_row(out, b"IIDR", [0x4, 0x0, 0x4, 0x0100_1000])?;
    frame_row(out, b"IIDR", [0x4, 0x0100_1000, 0x4, 0x0100_1001])?;
    frame_row(out, b"TYPER low", [0x8, 0xffff_ffff, 0x8, 0x0])?;
    frame_row(out, b"TYPER high", [0xc, 0xffff_ffff, 0xc, 0x0])?;
    frame_row(out, b"STATUSR", [0x10, 0x1, 0x10, 0x4])?;
    frame_row(out, b"WAKER", [0x14, 0x0, 0x14, 0xffff_ffff])?;
    frame_flags(out)?;
    frame_fields(out)
}

// The words with one bit for each interrupt.
fn frame_flags(out: &mut impl Write) -> io::Result<()> {
    frame_row(
        out,
        b"IGROUPR",
        [0x1_0080, 0xffff_0000, 0x1_0080, 0xff00_ff00],
    )?;
    frame_row(
        out,
        b"ISENABLER",
        [0x1_0100, 0xffff_0000, 0x1_0100, 0xff00_ff00],
    )?;
    frame_row(
        out,
        b"ICENABLER",
        [0x1_0100, 0xffff_0000, 0x1_0180, 0x00ff_00ff],
    )?;
    frame_row(
        out,
        b"ISPENDR",
        [0x1_0200, 0xffff_0000, 0x1_0200, 0xff00_ff00],
    )?;
    frame_row(
        out,
        b"ICPENDR",
        [0x1_0200, 0xffff_0000, 0x1_0280, 0x00ff_00ff],
    )?;
    frame_row(
        out,
        b"ISACTIVER",
        [0x1_0300, 0xffff_0000, 0x1_0300, 0xff00_ff00],
    )?;
    frame_row(
        out,
        b"ICACTIVER",
        [0x1_0300, 0xffff_0000, 0x1_0380, 0x00ff_00ff],
    )
}

// Priorities and edge flags.
fn frame_fields(out: &mut impl Write) -> io::Result<()> {
    frame_row(
        out,
        b"IPRIORITYR",
        [0x1_0400, 0x1234_5678, 0x1_0400, 0xfedc_ba98],
    )?;
    frame_row(
        out,
        b"IPRIORITYR",
        [0x1_0410, 0x1234_5678, 0x1_0410, 0xfedc_ba98],
    )?;
    frame_row(
        out,
        b"IPRIORITYR",
        [0x1_041c, 0x1234_5678, 0x1_041c, 0xfedc_ba98],
    )?;
    frame_row(out, b"ICFGR", [0x1_0c00, 0xffff_ffff, 0x1_0c00, 0x0])?;
    frame_row(out, b"ICFGR", [0x1_0c04, 0x0, 0x1_0c04, 0xffff_ffff])
}

// ---- other sizes and offsets

// Rows of the distributor at count 1024: the word 10203043 is written to the first offset; then to the second, of a size, a value.
const BYTES: [[u64; 4]; 12] = [
    [0x420, 0x420, 1, 0xff],
    [0x420, 0x421, 1, 0x1a7],
    [0x420, 0x422, 1, 0xffff_ffff_ffff_ff08],
    [0x420, 0x423, 1, 0x7],
    [0x43c, 0x43f, 1, 0xff],
    [0x600, 0x602, 1, 0xff],
    [0x7f8, 0x7fb, 1, 0xff],
    [0x7fc, 0x7fc, 1, 0xff],
    [0x7fc, 0x7ff, 1, 0xff],
    [0x41c, 0x41f, 1, 0xff],
    [0x420, 0x420, 4, 0xffff_ffff_0000_0008],
    [0x84, 0x84, 4, 0x1_0000_0001],
];

const SIZES: [[u64; 4]; 16] = [
    [0x0, 0x0, 2, 0],
    [0x0, 0x0, 8, 0],
    [0x0, 0x4, 8, 0],
    [0x84, 0x84, 0, 0],
    [0x84, 0x84, 1, 0],
    [0x84, 0x84, 2, 0],
    [0x84, 0x84, 8, 0],
    [0x84, 0x84, 0x1_0000_0004, 0],
    [0x84, 0x82, 4, 0],
    [0x84, 0x85, 4, 0],
    [0x420, 0x420, 0, 0],
    [0x420, 0x422, 2, 0],
    [0x420, 0x420, 8, 0],
    [0x420, 0x421, 4, 0],
    [0xc08, 0xc0a, 1, 0],
    [0x6100, 0x6100, 8, 0],
];

const UNLISTED: [[u64; 4]; 13] = [
    [0x84, 0xc, 4, 0xffff_ffff],
    [0x84, 0x7c, 4, 0xffff_ffff],
    [0x420, 0x800, 1, 0xffff_ffff],
    [0x420, 0x800, 4, 0xffff_ffff],
    [0xc08, 0xd00, 4, 0xffff_ffff],
    [0x6100, 0x6000, 4, 0xffff_ffff],
    [0x6100, 0x60fc, 4, 0xffff_ffff],
    [0x7fd8, 0x7fe0, 4, 0xffff_ffff],
    [0x84, 0x1_0084, 4, 0xffff_ffff],
    [0x84, 0x2_0000, 4, 0xffff_ffff],
    [0x0, 0x1_0000_0000, 4, 0xffff_ffff],
    [0x84, 0x1_0000_0084, 4, 0xffff_ffff],
    [0x84, 0xffff_ffff_ffff_ffff, 1, 0xffff_ffff],
];

// The same of the frame of the last vCPU.
const FRAME_BYTES: [[u64; 4]; 3] = [
    [0x1_0400, 0x1_0400, 1, 0xff],
    [0x1_040c, 0x1_040e, 1, 0x1ff],
    [0x1_041c, 0x1_041f, 1, 0xff],
];

const FRAME_SIZES: [[u64; 4]; 8] = [
    [0x1_0080, 0x8, 8, 0],
    [0x1_0080, 0x9, 4, 0],
    [0x1_0080, 0x1_0080, 0, 0],
    [0x1_0080, 0x1_0080, 1, 0],
    [0x1_0080, 0x1_0080, 2, 0],
    [0x1_0080, 0x1_0080, 8, 0],
    [0x1_0080, 0x1_0081, 4, 0],
    [0x1_0080, 0x1_0c00, 1, 0],
];

const FRAME_UNLISTED: [[u64; 4]; 11] = [
    [0x1_0080, 0x18, 4, 0xffff_ffff],
    [0x1_0080, 0x80, 4, 0xffff_ffff],
    [0x1_0080, 0x1_0000, 4, 0xffff_ffff],
    [0x1_0080, 0x1_0084, 4, 0xffff_ffff],
    [0x1_0400, 0x1_03ff, 1, 0xffff_ffff],
    [0x1_0400, 0x1_0420, 1, 0xffff_ffff],
    [0x1_0400, 0x1_0420, 4, 0xffff_ffff],
    [0x1_0400, 0x1_0c08, 4, 0xffff_ffff],
    [0x1_0080, 0x2_0000, 4, 0xffff_ffff],
    [0x1_0080, 0x1_0001_0080, 4, 0xffff_ffff],
    [0x1_0080, 0xffff_ffff_ffff_ffff, 4, 0xffff_ffff],
];

// What the second write reads back as, the first word after it, and the words that the second changed; then, where it is a word, its attribute got, and set to that value.
fn access_row(
    out: &mut impl Write,
    count: u64,
    at: Place,
    group: u64,
    high: u64,
    row: [u64; 4],
) -> io::Result<()> {
    let mut s = device(count);
    let [first, offset, size, value] = row;
    run(&mut s, true);
    let _ = write(&mut s, at, first, 4, 0x1020_3043);
    let before = s;
    say_refusal(out, write(&mut s, at, offset, size, value))?;
    say_read(out, read(&s, at, offset, size))?;
    say_read(out, read(&s, at, first, 4))?;
    say_changed(out, &s, &before)?;
    run(&mut s, false);
    if size == 4 && offset < 0x1_0000_0000 {
        let after = s;
        let number = high | offset;
        say(out, b";")?;
        say_read(out, calls::get_attribute(&s, group, number))?;
        say_read(out, calls::set_attribute(&mut s, group, number, value))?;
        say_changed(out, &s, &after)?;
    }
    Ok(())
}

// Such an access of the distributor at count 1024.
fn distributor_access(out: &mut impl Write, row: [u64; 4]) -> io::Result<()> {
    access_row(out, 1024, Place::Distributor, 1, 0, row)
}

// The same of the frame of the last vCPU.
fn frame_access(out: &mut impl Write, row: [u64; 4]) -> io::Result<()> {
    access_row(out, 64, Place::Frame(2), 5, 0x00ab_cd0f_0000_0000, row)
}

// ---- system registers by attribute

// Bits 63-32 and 31-0 of an attribute of group 6, and two values that it is set to.
const SYSTEM: [[u64; 4]; 19] = [
    [0x1, 0xc230, 0xff, 0xffff_ffff_ffff_ff07],
    [0x0, 0xc230, 0x7, 0x1a8],
    [0xab_cd0f, 0xc643, 0x7, 0x0],
    [0x1, 0xc643, 0x1, 0xffff_fffd],
    [0x0, 0xc663, 0x2, 0x1_0000_000c],
    [0x1, 0xc663, 0x7, 0x8],
    [0x0, 0xc644, 0xffff_ffff, 0x5_8000_0001],
    [0xab_cd0f, 0xc648, 0x10_0000, 0x1_0000_0000],
    [0x1, 0xc664, 0x402, 0x400],
    [0x0, 0xc664, 0x400, 0x402],
    [0x1, 0xc664, 0x402, 0x2],
    [0x1, 0xc664, 0x0, 0x401],
    [0x1, 0xc664, 0x1_0000_0402, 0x403],
    [0x0, 0xc665, 0x7, 0x0],
    [0x1, 0xc665, 0xf, 0x1_0000_0007],
    [0x1, 0xc666, 0x1, 0xfffe],
    [0xab_cd0f, 0xc666, 0x2, 0xffff_ffff_ffff_ffff],
    [0x0, 0xc667, 0x1, 0x1_0000_0000],
    [0x1, 0xc667, 0x0, 0x3],
];

// What the first value reads back as; the answer to the second, what is read then, and the words that it changed.
fn system_row(out: &mut impl Write, row: [u64; 4]) -> io::Result<()> {
    let mut s = device(64);
    let [high, low, first, second] = row;
    let number = (high << 32) | low;
    say_refusal(out, calls::set_attribute(&mut s, 6, number, first))?;
    let before = s;
    say_read(out, calls::get_attribute(&s, 6, number))?;
    say_read(out, calls::set_attribute(&mut s, 6, number, second))?;
    say_read(out, calls::get_attribute(&s, 6, number))?;
    say_changed(out, &s, &before)
}

// ---- refusals

// Guest accesses: the vCPU, the frame, and an offset and a value for both distributor and frame.
const GUEST: [[u64; 4]; 9] = [
    [0x3, 0x3, 0xc, 0xff],
    [0x0, 0x3, 0x4, 0xff],
    [0x0, 0x1, 0x4, 0xff],
    [0x2, 0x1, 0xc, 0xff],
    [0x1, 0x3, 0x4, 0xff],
    [0x1, 0x0, 0x4, 0xff],
    [0x1, 0x2, 0xc, 0xff],
    [0x1, 0x1_0000_0000, 0x2_0000, 0xff],
    [0x1_0000_0001, 0x0, 0x0, 0xff],
];

// Attributes: the group, bits 63-32 and 31-0 of the number, and the value of the set.
const ATTRIBUTES: [[u64; 4]; 34] = [
    [7, 0x0, 0x1, 0x0],
    [7, 0x2, 0x10, 0x1_0000_0000],
    [7, 0x0, 0x3f0, 0x0],
    [7, 0x0, 0x400, 0x0],
    [7, 0x0, 0x8000_0000, 0x0],
    [7, 0x2, 0x0, 0x0],
    [7, 0x0, 0x0, 0x1_0000_0000],
    [7, 0x1, 0x0, 0xffff_ffff],
    [7, 0x2, 0x20, 0xf],
    [7, 0x2, 0x3e0, 0xf],
    [7, 0x2, 0x3e0, 0x1_0000_0000],
    [5, 0x2, 0x18, 0x1_0000_0000],
    [5, 0xab_cd0e, 0x4, 0x0100_1000],
    [5, 0x100_0000, 0x4, 0x0100_1000],
    [5, 0x0, 0x18, 0x1_0000_0000],
    [5, 0x1, 0x0, 0x1_0000_0000],
    [5, 0x1, 0x4, 0x1_0100_1000],
    [5, 0x1, 0x8, 0x1_0000_0000],
    [5, 0xab_cd0f, 0xc, 0x1_0000_0000],
    [5, 0xab_cd0f, 0x1_0080, 0x1_0000_0000],
    [5, 0xab_cd0f, 0x1_0280, 0xffff_ffff_ffff_ffff],
    [5, 0xab_cd0f, 0x1_0c00, 0x1_0000_0000],
    [1, 0x2, 0xc, 0x1_0000_0000],
    [1, 0x2, 0x4, 0x0],
    [1, 0x0, 0x4, 0x1_0000_0000],
    [1, 0x0, 0x8, 0x0],
    [1, 0x0, 0x8, 0x1_0100_1000],
    [1, 0x0, 0x80, 0x1_0000_0000],
    [1, 0x0, 0x84, 0x1_0000_0000],
    [1, 0x2, 0x84, 0xffff_ffff],
    [1, 0x0, 0xfc, 0x1_0000_0000],
    [1, 0x0, 0x284, 0x1_0000_0000],
    [1, 0x0, 0x6104, 0x1_0000_0000],
    [1, 0x0, 0xffff_ffff, 0x1_0000_0000],
];

// Group 6: the same for registers that guests only read or only write, and for what names none.
const GROUP_6: [[u64; 4]; 22] = [
    [6, 0x1, 0xc230, 0xf8],
    [6, 0x2, 0xc230, 0xf8],
    [6, 0x100_0000, 0xffff_ffff, 0x0],
    [6, 0x1, 0x1_c230, 0xf8],
    [6, 0x0, 0x8000_c664, 0x0],
    [6, 0x2, 0x1_c230, 0xf8],
    [6, 0x1, 0xc640, 0x0],
    [6, 0x1, 0xc642, 0x0],
    [6, 0x1, 0xc65b, 0x0],
    [6, 0x1, 0xc660, 0x0],
    [6, 0x1, 0xc662, 0x0],
    [6, 0x1, 0xc641, 0x0],
    [6, 0x1, 0xc659, 0x0],
    [6, 0x1, 0xc65d, 0x0],
    [6, 0x1, 0xc65f, 0x0],
    [6, 0x1, 0xc661, 0x0],
    [6, 0x1, 0x0, 0x0],
    [6, 0x1, 0xc231, 0xf8],
    [6, 0x1, 0xc668, 0x1],
    [6, 0xab_cd0f, 0xc664, 0x403],
    [6, 0xab_cd0f, 0xc665, 0x5],
    [6, 0xab_cd0f, 0xc665, 0x7],
];

// Groups that are none.
const UNKNOWN_GROUPS: [[u64; 4]; 6] = [
    [0x0, 0x0, 0x4, 0x0],
    [0x2, 0x2, 0x0, 0x1_0000_0000],
    [0x8, 0x1, 0xc230, 0xf8],
    [0x1_0000_0001, 0x0, 0x4, 0x0],
    [0x1_0000_0003, 0x0, 0x0, 0x40],
    [0xffff_ffff_ffff_ffff, 0x0, 0x0, 0x0],
];

// Two lines changed to 1: a vCPU and an ID, and again.
const CHANGES: [[u64; 4]; 9] = [
    [0x0, 0x0, 0x9, 0x0],
    [0x0, 0xf, 0x9, 0x3ff],
    [0x0, 0x10, 0x2, 0x1f],
    [0x3, 0x10, 0xffff_ffff_ffff_ffff, 0x1f],
    [0x0, 0x20, 0x9, 0x3f],
    [0xffff_ffff_ffff_ffff, 0x20, 0x1, 0x1_0000_0010],
    [0x0, 0x40, 0x9, 0x40],
    [0x0, 0x3fb, 0x0, 0x3fc],
    [0x0, 0x400, 0x0, 0xffff_ffff_ffff_ffff],
];

// What one device answers to a row, and the words changed.
fn request_case<W: Write, F: Fn(&mut W, &mut [u32; 1760], [u64; 4]) -> io::Result<()>>(
    out: &mut W,
    state: [u32; 1760],
    row: [u64; 4],
    answers: &F,
) -> io::Result<()>
    requires { F.IsAlwaysCallable answers.now }
{
    let mut s = state;
    answers(out, &mut s, row)?;
    say_changed(out, &s, &state)
}

fn guest_answers(out: &mut impl Write, s: &mut [u32; 1760], row: [u64; 4]) -> io::Result<()> {
    let [vcpu, frame, offset, value] = row;
    let v = VcpuIndex(vcpu as usize);
    let frame = VcpuIndex(frame as usize);
    say_read(out, calls::read_distributor(s, v, offset, 4))?;
    say_read(out, calls::write_distributor(s, v, offset, 4, value))?;
    say_read(out, calls::read_frame(s, v, frame, offset, 4))?;
    say_read(out, calls::write_frame(s, v, frame, offset, 4, value))
}

fn attribute_answers(out: &mut impl Write, s: &mut [u32; 1760], row: [u64; 4]) -> io::Result<()> {
    let [group, high, low, value] = row;
    let number = (high << 32) | low;
    say_read(out, calls::get_attribute(s, group, number))?;
    say_read(out, calls::set_attribute(s, group, number, value))
}

fn change_answers(out: &mut impl Write, s: &mut [u32; 1760], row: [u64; 4]) -> io::Result<()> {
    let [v, id, w, other] = row.map(|number| number as usize);
    say_read(out, calls::change_line(s, VcpuIndex(v), id, true))?;
    say_read(out, calls::change_line(s, VcpuIndex(w), other, true))
}

// The answers of four devices: not sound; not initialised; of count 1024, and vCPU 1 runs; stopped.
fn request_row<W: Write, F: Fn(&mut W, &mut [u32; 1760], [u64; 4]) -> io::Result<()>>(
    out: &mut W,
    row: [u64; 4],
    answers: F,
) -> io::Result<()>
    requires { F.IsAlwaysCallable answers }
{
    let mut unsound = device(64);
    unsound[15] = 1;
    request_case(out, unsound, row, &answers)?;
    say(out, b";")?;
    request_case(out, added(64), row, &answers)?;
    say(out, b";")?;
    let mut running = device(1024);
    run(&mut running, true);
    request_case(out, running, row, &answers)?;
    say(out, b";")?;
    request_case(out, device(64), row, &answers)
}

// ---- the rows of a table

// A line for each row: the name, the row, and its answers.
fn rows<W: Write, F: Fn(&mut W, [u64; 4]) -> io::Result<()>>(
    out: &mut W,
    name: &[u8],
    table: &[[u64; 4]],
    answers: F,
) -> io::Result<()>
    requires { F.IsAlwaysCallable answers }
{
    for row in table {
        say(out, name)?;
        say_row(out, *row)?;
        answers(out, *row)?;
        say(out, b"\n")?;
    }
    Ok(())
}

// ---- lines

// A change of the line of an SPI; a word of the distributor written by a guest; an attribute set.
#[derive(Clone, Copy)]
enum Call {
    Line(usize, bool),
    Write(u64, u64),
    Set(u64, u64, u64),
}

// The call's answer; then of the SPIs 32 to 63 the lines, the latches, and what a guest reads of ISPENDR and of ICPENDR.
fn step(out: &mut impl Write, s: &mut [u32; 1760], name: &[u8], call: Call) -> io::Result<()> {
    run(s, true);
    let r = match call {
        Call::Line(id, level) => calls::change_line(s, VcpuIndex(0), id, level),
        Call::Write(offset, value) => write(s, Place::Distributor, offset, 4, value),
        Call::Set(group, number, value) => {
            run(s, false);
            calls::set_attribute(s, group, number, value)
        }
    };
    run(s, false);
    say(out, name)?;
    say(out, b":")?;
    say_read(out, r)?;
    say_read(out, calls::get_attribute(s, 7, 0x20))?;
    say_read(out, calls::get_attribute(s, 1, 0x204))?;
    run(s, true);
    say_read(out, read(s, Place::Distributor, 0x204, 4))?;
    say_read(out, read(s, Place::Distributor, 0x284, 4))?;
    run(s, false);
    say(out, b"\n")
}

// SPI 40, which is bit 8 of these words.
fn level_and_edge(out: &mut impl Write, s: &mut [u32; 1760]) -> io::Result<()> {
    step(out, s, b"P3: a level SPI's line up", Call::Line(40, true))?;
    step(
        out,
        s,
        b"P3: pending after ICPENDR",
        Call::Write(0x284, 0x100),
    )?;
    step(
        out,
        s,
        b"level: ISPENDR latches it",
        Call::Write(0x204, 0x100),
    )?;
    step(out, s, b"level: line down, latched", Call::Line(40, false))?;
    step(out, s, b"level: ICPENDR", Call::Write(0x284, 0x100))?;
    step(out, s, b"level: line up", Call::Line(40, true))?;
    step(out, s, b"level: line down", Call::Line(40, false))?;
    step(out, s, b"made edge", Call::Write(0xc08, 0x20000))?;
    step(out, s, b"edge: line up latches", Call::Line(40, true))?;
    step(
        out,
        s,
        b"edge: ICPENDR, line high",
        Call::Write(0x284, 0x100),
    )?;
    step(out, s, b"edge: line up again", Call::Line(40, true))?;
    step(out, s, b"edge: line down", Call::Line(40, false))?;
    step(out, s, b"edge: line down again", Call::Line(40, false))?;
    step(out, s, b"edge: line up", Call::Line(40, true))?;
    step(out, s, b"edge: line down, latched", Call::Line(40, false))
}

// SPI 57, which is bit 25: its edge flag changes while the line is high.
fn flags_by_line(out: &mut impl Write, s: &mut [u32; 1760]) -> io::Result<()> {
    step(out, s, b"level: line up", Call::Line(57, true))?;
    step(out, s, b"line high: made edge", Call::Write(0xc0c, 0x80000))?;
    step(out, s, b"edge: line up again", Call::Line(57, true))?;
    step(
        out,
        s,
        b"line high: made level",
        Call::Write(0xc0c, 0x40000),
    )?;
    step(
        out,
        s,
        b"made edge by attribute",
        Call::Set(1, 0xc0c, 0xc0000),
    )?;
    step(out, s, b"edge: line down", Call::Line(57, false))?;
    step(out, s, b"edge: line up latches", Call::Line(57, true))?;
    step(
        out,
        s,
        b"level by attribute, latched",
        Call::Set(1, 0xc0c, 0x0),
    )?;
    step(out, s, b"level: line down, latched", Call::Line(57, false))?;
    step(
        out,
        s,
        b"latch cleared by attribute",
        Call::Set(1, 0x204, 0x0),
    )
}

// SPI 57 is edge again, and group 7 sets its line.
fn lines_by_attribute(out: &mut impl Write, s: &mut [u32; 1760]) -> io::Result<()> {
    step(out, s, b"made edge again", Call::Write(0xc0c, 0x80000))?;
    step(
        out,
        s,
        b"group 7: all, no latch",
        Call::Set(7, 0x20, 0xffffffff),
    )?;
    step(out, s, b"group 7: others", Call::Set(7, 0x20, 0xf00000f))?;
    step(out, s, b"edge: line down", Call::Line(57, false))?;
    step(out, s, b"group 7: that line", Call::Set(7, 0x20, 0x2000000))?;
    step(
        out,
        s,
        b"latch by attribute",
        Call::Set(1, 0x204, 0x2000000),
    )?;
    step(
        out,
        s,
        b"group 7: no line, latch kept",
        Call::Set(7, 0x20, 0x0),
    )
}

// The answer of a call; then of the three vCPUs the lines, the latches, and what a guest reads as pending.
fn say_private(
    out: &mut impl Write,
    s: &mut [u32],
    name: &[u8],
    r: Result<u32, Errno>,
) -> io::Result<()> {
    say(out, name)?;
    say(out, b":")?;
    say_read(out, r)?;
    say_read(out, calls::get_attribute(s, 7, 0x1_0000_0000))?;
    say_read(out, calls::get_attribute(s, 7, 0x0))?;
    say_read(out, calls::get_attribute(s, 7, 0x00ab_cd0f_0000_0000))?;
    say(out, b";")?;
    say_read(out, calls::get_attribute(s, 5, 0x1_0001_0200))?;
    say_read(out, calls::get_attribute(s, 5, 0x1_0200))?;
    say_read(out, calls::get_attribute(s, 5, 0x00ab_cd0f_0001_0200))?;
    say(out, b";")?;
    run(s, true);
    say_read(out, read(s, Place::Frame(0), 0x1_0200, 4))?;
    say_read(out, read(s, Place::Frame(1), 0x1_0200, 4))?;
    say_read(out, read(s, Place::Frame(2), 0x1_0200, 4))?;
    run(s, false);
    say(out, b"\n")
}

fn private_lines(out: &mut impl Write) -> io::Result<()> {
    let mut s = device(64);
    let up = calls::change_line(&mut s, VcpuIndex(1), 20, true);
    say_private(out, &mut s, b"PPI 20 of vCPU 1, line up", up)?;
    run(&mut s, true);
    let clear = write(&mut s, Place::Frame(1), 0x1_0280, 4, 0xffff_ffff);
    run(&mut s, false);
    say_private(out, &mut s, b"ICPENDR leaves it pending", clear)?;
    let lines = calls::set_attribute(&mut s, 7, 0x00ab_cd0f_0000_0000, 0xffff_ffff);
    say_private(out, &mut s, b"group 7 of vCPU 2, SGIs have no line", lines)?;
    let latch = calls::set_attribute(&mut s, 5, 0x1_0001_0200, 0xff00_00ff);
    say_private(out, &mut s, b"latches of vCPU 0 by attribute", latch)?;
    let down = calls::change_line(&mut s, VcpuIndex(1), 20, false);
    say_private(out, &mut s, b"PPI 20 of vCPU 1, line down", down)?;
    let last = calls::set_running(&mut s, VcpuIndex(2), true);
    say_private(out, &mut s, b"vCPU 2 runs, attributes are refused", last)?;
    let _ = calls::set_running(&mut s, VcpuIndex(2), false);
    let first = calls::set_running(&mut s, VcpuIndex(0), true);
    say_private(out, &mut s, b"vCPU 0 runs, attributes are refused", first)
}

// ---- the program

fn words(out: &mut impl Write) -> io::Result<()> {
    say(
        out,
        b"words of the distributor: by a guest at counts 64, 96, 992 and 1024, and the words changed at 1024; the same by attribute\n",
    )?;
    rows(out, b"CTLR", &CTLR, distributor_row)?;
    rows(out, b"P2: TYPER", &TYPER, distributor_row)?;
    rows(out, b"IIDR", &IIDR, distributor_row)?;
    rows(out, b"STATUSR", &STATUSR, distributor_row)?;
    rows(out, b"IGROUPR", &IGROUPR, distributor_row)?;
    rows(out, b"ISENABLER", &ISENABLER, distributor_row)?;
    rows(out, b"ICENABLER", &ICENABLER, distributor_row)?;
    rows(out, b"ISPENDR", &ISPENDR, distributor_row)?;
    rows(out, b"ICPENDR", &ICPENDR, distributor_row)?;
    rows(out, b"ISACTIVER", &ISACTIVER, distributor_row)?;
    rows(out, b"ICACTIVER", &ICACTIVER, distributor_row)
}

fn fields(out: &mut impl Write) -> io::Result<()> {
    rows(out, b"IPRIORITYR", &IPRIORITYR, distributor_row)?;
    rows(out, b"ICFGR", &ICFGR, distributor_row)?;
    rows(out, b"IROUTER", &IROUTER, distributor_row)?;
    say(out, b"group 7, by attribute alone\n")?;
    rows(
        out,
        b"lines",
        &LINES,
        |out, row| attribute_counts(out, 7, row),
    )
}

fn accesses(out: &mut impl Write) -> io::Result<()> {
    say(
        out,
        b"other accesses, the word 10203043 written first: read back, that word, words changed; the attribute got and set\n",
    )?;
    rows(out, b"bytes", &BYTES, distributor_access)?;
    rows(out, b"sizes", &SIZES, distributor_access)?;
    rows(out, b"unlisted", &UNLISTED, distributor_access)?;
    rows(out, b"frame bytes", &FRAME_BYTES, frame_access)?;
    rows(out, b"frame sizes", &FRAME_SIZES, frame_access)?;
    rows(out, b"frame unlisted", &FRAME_UNLISTED, frame_access)
}

fn refusals(out: &mut impl Write) -> io::Result<()> {
    say(
        out,
        b"refusals, each device not sound; not initialised; running; stopped\n",
    )?;
    rows(
        out,
        b"guest",
        &GUEST,
        |out, row| request_row(out, row, guest_answers),
    )?;
    rows(
        out,
        b"attribute",
        &ATTRIBUTES,
        |out, row| request_row(out, row, attribute_answers),
    )?;
    rows(
        out,
        b"line changes",
        &CHANGES,
        |out, row| request_row(out, row, change_answers),
    )
}

fn system_registers(out: &mut impl Write) -> io::Result<()> {
    say(
        out,
        b"group 6: the first value read back; the second set, read back, words changed\n",
    )?;
    rows(out, b"system", &SYSTEM, system_row)?;
    say(
        out,
        b"group 6 and unknown groups, each device not sound; not initialised; running; stopped\n",
    )?;
    rows(
        out,
        b"attribute",
        &GROUP_6,
        |out, row| request_row(out, row, attribute_answers),
    )?;
    rows(
        out,
        b"attribute",
        &UNKNOWN_GROUPS,
        |out, row| request_row(out, row, attribute_answers),
    )
}

fn main(rt: HostRuntime) -> io::Result<()> {
    let mut out = rt.stdout();
    words(&mut out)?;
    fields(&mut out)?;
    frames(&mut out)?;
    accesses(&mut out)?;
    refusals(&mut out)?;
    say(
        &mut out,
        b"SPIs 40 and 57: answer, lines, latches, what a guest reads of ISPENDR and of ICPENDR\n",
    )?;
    let mut s = device(64);
    level_and_edge(&mut out, &mut s)?;
    let mut t = device(64);
    flags_by_line(&mut out, &mut t)?;
    lines_by_attribute(&mut out, &mut t)?;
    say(
        &mut out,
        b"PPIs: answer and lines, latches, pending of the three vCPUs\n",
    )?;
    private_lines(&mut out)?;
    system_registers(&mut out)
}
