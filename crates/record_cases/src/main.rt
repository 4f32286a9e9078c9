// Runs save and restore, and prints their answers, the bytes that save fills and the words that restore changes. The file stdout holds what document 01 gives for each.
#![tactic(auto)]

use report::{say, say_changed, say_decimal, say_read, say_signed, say_written};
use state::{Mpidr, VcpuIndex};
use std::io;
use std::io::Write;

// ---- printing

// The bytes from one place to before another, each as two hex digits.
fn say_bytes(out: &mut impl Write, bytes: &[u8], from: usize, to: usize) -> io::Result<()> {
    for byte in bytes.iter().take(to).skip(from) {
        write!(out, " {byte:02x}")?;
    }
    Ok(())
}

// How many bytes are not a5. A buffer holds nothing else before it is lent, and no record here has one.
fn filled(buf: &[u8]) -> usize {
    buf.iter().filter(|x| **x != 0xa5).count()
}

// ---- devices

// A device before initialising: vCPU 0 has affinity 0.
fn added(count: u64) -> [u32; 1760] {
    let mut s = [0u32; 1760];
    let _ = calls::make(&mut s);
    let _ = calls::set_attribute(&mut s, 3, 0, count);
    let _ = calls::add_vcpu(&mut s, Mpidr(0));
    s
}

fn initialise(s: &mut [u32; 1760]) {
    let _ = calls::set_attribute(s, 4, 0, 0);
}

fn fresh(count: u64) -> [u32; 1760] {
    let mut s = added(count);
    initialise(&mut s);
    s
}

fn run(s: &mut [u32; 1760], on: bool) {
    let _ = calls::set_running(s, VcpuIndex(0), on);
}

// The level of SPI 2a.
fn line(s: &mut [u32; 1760], level: bool) {
    let _ = calls::change_line(s, VcpuIndex(0), 0x2a, level);
}

// ---- save

// A save: the answer, how many bytes of the buffer are filled, and those from 66 on.
fn fill(out: &mut impl Write, s: &[u32; 1760], buf: &mut [u8]) -> io::Result<()> {
    say_written(out, calls::fill(s, buf))?;
    say(out, b", filled ")?;
    say_decimal(out, filled(buf) as u64)?;
    say(out, b":")?;
    say_bytes(out, buf, 66, 80)?;
    say(out, b"\n")
}

// A save that hands the front part back: the result, the part's length, the part, and how many bytes of the buffer are filled.
fn hand_back(out: &mut impl Write, s: &[u32; 1760], buf: &mut [u8]) -> io::Result<()> {
    let mut result = 1;
    let front = calls::save(s, buf, &mut result);
    say_signed(out, result)?;
    write!(out, ", front {}:", front.len())?;
    say_bytes(out, front, 0, 80)?;
    say(out, b"; filled ")?;
    say_decimal(out, filled(buf) as u64)?;
    say(out, b"\n")
}

fn save(out: &mut impl Write, name: &[u8], s: &[u32; 1760]) -> io::Result<()> {
    say(out, name)?;
    say(out, b"\n")?;
    let mut none = [0xa5u8; 0];
    fill(out, s, &mut none)?;
    let mut short = [0xa5u8; 75];
    fill(out, s, &mut short)?;
    hand_back(out, s, &mut short)?;
    let mut exact = [0xa5u8; 76];
    fill(out, s, &mut exact)?;
    let mut long = [0xa5u8; 80];
    fill(out, s, &mut long)?;
    let mut again = [0xa5u8; 80];
    hand_back(out, s, &mut again)?;
    let mut longest = [0xa5u8; 9000];
    hand_back(out, s, &mut longest)
}

fn saves(out: &mut impl Write) -> io::Result<()> {
    say(
        out,
        b"save into 0, 75, 76 and 80 bytes of a5; of 75, 80 and 9000 the front part handed back\n",
    )?;
    let mut s = added(64);
    save(out, b"not initialised", &s)?;
    initialise(&mut s);
    save(out, b"fresh", &s)?;
    run(&mut s, true);
    save(out, b"running", &s)?;
    run(&mut s, false);
    s[15] = 1;
    save(out, b"not sound", &s)
}

// ---- restore

// The fresh record of count 64 and vCPU 0, of 76 bytes, and eight zeros.
fn fresh_record() -> [u8; 84] {
    let mut b = [0u8; 84];
    b[0] = 0x01;
    b[1] = 0x40;
    b[2] = 0x01;
    b[4] = 0x50;
    b[68] = 0x80;
    b[69] = 0x08;
    b[70] = 0x02;
    b[71] = 0x03;
    b
}

// The answer, and the words that changed.
fn restore(out: &mut impl Write, s: &mut [u32; 1760], bytes: &[u8]) -> io::Result<()> {
    let before = *s;
    say_written(out, calls::restore(s, bytes))?;
    say_changed(out, s, &before)?;
    say(out, b";")
}

// A change to a record: how many bytes are restored, a place, and the six bytes to put there.
type Edit = (u8, u8, [u8; 6]);

// The fresh record with six bytes replaced.
fn edited(at: u8, bytes: [u8; 6]) -> [u8; 84] {
    let mut b = fresh_record();
    let at = usize::from(at);
    if let Some(place) = b.get_mut(at..at + 6) {
        place.copy_from_slice(&bytes);
    }
    b
}

// A restore of the first `length` bytes.
fn restore_front(
    out: &mut impl Write,
    s: &mut [u32; 1760],
    b: &[u8],
    length: usize,
) -> io::Result<()> {
    match b.get(..length) {
        Some(front) => restore(out, s, front),
        None => Ok(()),
    }
}

// A restore of an edit of the fresh record into a fresh device.
fn restore_edit(out: &mut impl Write, edit: Edit) -> io::Result<()> {
    let mut s = fresh(64);
    let (length, at, bytes) = edit;
    let b = edited(at, bytes);
    restore_front(out, &mut s, &b, usize::from(length))
}

fn each_edit(out: &mut impl Write, table: &[Edit]) -> io::Result<()> {
    for edit in table {
        restore_edit(out, *edit)?;
    }
    Ok(())
}

// A line of edits.
fn edits(out: &mut impl Write, name: &[u8], table: &[Edit]) -> io::Result<()> {
    say(out, name)?;
    say(out, b":")?;
    each_edit(out, table)?;
    say(out, b"\n")
}

const WHOLE: [Edit; 5] = [
    (76, 0, [0x01, 0x40, 0x01, 0x00, 0x50, 0x00]),
    (76, 0, [0x01, 0x40, 0x01, 0x00, 0x53, 0x0f]),
    (76, 67, [0x78, 0x82, 0x08, 0x02, 0x03, 0x00]),
    (80, 71, [0x03, 0xff, 0xff, 0xff, 0xff, 0x0f]),
    (77, 72, [0x80, 0x08, 0x00, 0x00, 0x00, 0x00]),
];

const CUT: [Edit; 4] = [
    (0, 0, [0x01, 0x40, 0x01, 0x00, 0x50, 0x00]),
    (75, 0, [0x01, 0x40, 0x01, 0x00, 0x50, 0x00]),
    (69, 0, [0x01, 0x40, 0x01, 0x00, 0x50, 0x00]),
    (77, 0, [0x01, 0x40, 0x01, 0x00, 0x50, 0x00]),
];

const ILL_FORMED: [Edit; 5] = [
    (77, 0, [0x80, 0x00, 0x40, 0x01, 0x00, 0x50]),
    (77, 0, [0x81, 0x00, 0x40, 0x01, 0x00, 0x50]),
    (77, 72, [0x80, 0x00, 0x00, 0x00, 0x00, 0x00]),
    (80, 72, [0xff, 0xff, 0xff, 0xff, 0x10, 0x00]),
    (81, 72, [0x80, 0x80, 0x80, 0x80, 0x80, 0x01]),
];

const HEADER: [Edit; 5] = [
    (76, 0, [0x00, 0x40, 0x01, 0x00, 0x50, 0x00]),
    (76, 0, [0x02, 0x40, 0x01, 0x00, 0x50, 0x00]),
    (76, 0, [0x01, 0x60, 0x01, 0x00, 0x50, 0x00]),
    (76, 0, [0x01, 0x40, 0x02, 0x00, 0x50, 0x00]),
    (76, 0, [0x01, 0x40, 0x01, 0x01, 0x50, 0x00]),
];

// In the distributor's part.
const SHARED: [Edit; 5] = [
    (76, 0, [0x01, 0x40, 0x01, 0x00, 0x54, 0x00]),
    (76, 5, [0x10, 0x00, 0x00, 0x00, 0x00, 0x00]),
    (76, 11, [0x04, 0x00, 0x00, 0x00, 0x00, 0x00]),
    (76, 19, [0x01, 0x00, 0x00, 0x00, 0x00, 0x00]),
    (79, 21, [0x80, 0x80, 0x80, 0x08, 0x00, 0x00]),
];

// In the vCPU's part.
const OWN: [Edit; 6] = [
    (76, 58, [0x01, 0x00, 0x00, 0x00, 0x00, 0x00]),
    (76, 67, [0x04, 0x80, 0x08, 0x02, 0x03, 0x00]),
    (76, 67, [0x00, 0x81, 0x08, 0x02, 0x03, 0x00]),
    (76, 67, [0x00, 0x80, 0x08, 0x01, 0x03, 0x00]),
    (76, 67, [0x00, 0x80, 0x08, 0x02, 0x02, 0x00]),
    (76, 70, [0x02, 0x03, 0x00, 0x00, 0x00, 0x02]),
];

// Two faults: that of the earlier number counts.
const ORDERS: [Edit; 7] = [
    (75, 0, [0x02, 0x40, 0x01, 0x00, 0x50, 0x00]),
    (77, 0, [0x02, 0x40, 0x01, 0x00, 0x50, 0x00]),
    (77, 0, [0x02, 0x80, 0x00, 0x01, 0x00, 0x50]),
    (77, 0, [0x80, 0x00, 0x40, 0x02, 0x00, 0x50]),
    (77, 70, [0x01, 0x80, 0x00, 0x00, 0x00, 0x00]),
    (77, 72, [0x80, 0x00, 0x00, 0x02, 0x00, 0x00]),
    (77, 70, [0x02, 0x03, 0x00, 0x00, 0x00, 0x02]),
];

fn whole(out: &mut impl Write) -> io::Result<()> {
    say(
        out,
        b"restore into a fresh device: the answer and the words changed\n",
    )?;
    edits(
        out,
        b"fresh; GICD CTLR 53 and STATUSR f; PMR 78 and CTLR 402; AP0R ffffffff; AP0R 400",
        &WHOLE,
    )
}

fn broken(out: &mut impl Write) -> io::Result<()> {
    edits(
        out,
        b"empty; a byte short; cut within CTLR; a byte follows",
        &CUT,
    )?;
    edits(
        out,
        b"version 80 00; 81 00; AP0R 80 00; ff ff ff ff 10; 80 80 80 80 80 01",
        &ILL_FORMED,
    )
}

fn unread(out: &mut impl Write) -> io::Result<()> {
    edits(out, b"version 0; 2; count 60; 2 vCPUs; affinity 1", &HEADER)?;
    edits(
        out,
        b"GICD CTLR 54; STATUSR 10; IPRIORITYR 4; ICFGR 1; route 1000000",
        &SHARED,
    )?;
    edits(
        out,
        b"the line of SGI 0; PMR 4; CTLR 401; BPR0 1; BPR1 2; IGRPEN1 2",
        &OWN,
    )
}

fn orders(out: &mut impl Write) -> io::Result<()> {
    edits(
        out,
        b"version 2, a byte short; a byte follows; count 80 00; version 80 00, 2 vCPUs; BPR0 1, BPR1 80 00; AP0R 80 00, IGRPEN0 2; IGRPEN1 2, a byte follows",
        &ORDERS,
    )
}

// No bytes, and the fresh record.
fn restore_both(out: &mut impl Write, name: &[u8], s: &mut [u32; 1760]) -> io::Result<()> {
    say(out, name)?;
    say(out, b":")?;
    let b = fresh_record();
    restore_front(out, s, &b, 0)?;
    restore_front(out, s, &b, 76)?;
    say(out, b"\n")
}

fn targets(out: &mut impl Write) -> io::Result<()> {
    say(out, b"restore of no bytes, and of the fresh record\n")?;
    let mut s = added(64);
    restore_both(out, b"not initialised", &mut s)?;
    initialise(&mut s);
    run(&mut s, true);
    restore_both(out, b"running", &mut s)?;
    run(&mut s, false);
    line(&mut s, true);
    restore_both(out, b"a line is high", &mut s)?;
    line(&mut s, false);
    restore_both(out, b"it is low again", &mut s)?;
    s[15] = 1;
    restore_both(out, b"not sound", &mut s)?;
    s[15] = 0;
    restore_both(out, b"sound again", &mut s)?;
    let mut t = fresh(96);
    restore_both(out, b"count 60", &mut t)
}

// ---- round trips

// A save's answer and a restore's, the words in which the second device differs from the first, and the record's bytes 6 to 27: the bank of SPI 2a.
fn round_trip(out: &mut impl Write, name: &[u8], s: &[u32; 1760]) -> io::Result<()> {
    let mut buf = [0u8; 96];
    let mut t = fresh(64);
    let mut result = 1;
    let front = calls::save(s, &mut buf, &mut result);
    say(out, name)?;
    say(out, b":")?;
    say_signed(out, result)?;
    say_written(out, calls::restore(&mut t, front))?;
    say_changed(out, &t, s)?;
    say(out, b"; record")?;
    say_bytes(out, &buf, 6, 28)?;
    pending(out, &mut t)
}

// ISPENDR of the SPIs 20-3f by attribute, and as the guest reads it.
fn pending(out: &mut impl Write, s: &mut [u32; 1760]) -> io::Result<()> {
    say(out, b"; ISPENDR")?;
    say_read(out, calls::get_attribute(s, 1, 0x204))?;
    run(s, true);
    say_read(out, calls::read_distributor(s, VcpuIndex(0), 0x204, 4))?;
    say(out, b"\n")
}

// A word of the distributor by attribute.
fn put(s: &mut [u32; 1760], offset: u64, value: u64) {
    let _ = calls::set_attribute(s, 1, offset, value);
}

// Count 64: SPI 2a is enabled and of group 1, and edge where its ICFGR says so. Its line is high.
fn raised(config: u64) -> [u32; 1760] {
    let mut s = fresh(64);
    put(&mut s, 0x84, 0x400);
    put(&mut s, 0x104, 0x400);
    put(&mut s, 0xc08, config);
    line(&mut s, true);
    s
}

// The line of a level SPI makes it pending and sets no latch: the latch saved is 0. That of an edge SPI latched it; the latch once cleared, restoring the line latches nothing.
fn lines(out: &mut impl Write) -> io::Result<()> {
    say(
        out,
        b"SPI 2a, its line high: saved, restored, the words that differ; its bank in the record; ISPENDR by attribute and by the guest\n",
    )?;
    let mut s = raised(0);
    round_trip(out, b"level, latch clear", &s)?;
    put(&mut s, 0x204, 0x400);
    round_trip(out, b"level, latch set", &s)?;
    let mut e = raised(0x20_0000);
    round_trip(out, b"edge, latch set", &e)?;
    put(&mut e, 0x204, 0);
    round_trip(out, b"edge, latch clear", &e)
}

// Count 1024: how long the fresh record is, and its first bytes.
fn large(out: &mut impl Write) -> io::Result<()> {
    let s = fresh(1024);
    let mut buf = [0u8; 1500];
    say(out, b"count 400:")?;
    say_written(out, calls::fill(&s, &mut buf))?;
    say(out, b";")?;
    say_bytes(out, &buf, 0, 7)?;
    say(out, b"\n")
}

fn main(rt: HostRuntime) -> io::Result<()> {
    let mut out = rt.stdout();
    saves(&mut out)?;
    whole(&mut out)?;
    broken(&mut out)?;
    unread(&mut out)?;
    orders(&mut out)?;
    targets(&mut out)?;
    lines(&mut out)?;
    large(&mut out)
}
