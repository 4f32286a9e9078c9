// Runs the set-up calls and prints their answers and the words that they leave. The file stdout holds what document 01 gives for each.
#![tactic(auto)]

use report::{say, say_decimal, say_hex, say_word, say_written};
use state::{Mpidr, Vcpu, VcpuIndex};
use std::io;
use std::io::Write;

// ---- printing

// The words that are not zero, and the end of the line.
fn say_words(out: &mut impl Write, s: &[u32]) -> io::Result<()> {
    for (i, word) in s.iter().enumerate() {
        say_word(out, i, *word, 0)?;
    }
    say(out, b"\n")
}

// ---- P1

// A new device, its count set to `value`, and the count that it then gives.
fn count_case(out: &mut impl Write, value: u64) -> io::Result<()> {
    let mut s = [0u32; 1760];
    say(out, b"count ")?;
    say_decimal(out, value)?;
    say(out, b":")?;
    say_written(out, calls::make(&mut s))?;
    say_written(out, calls::set_attribute(&mut s, 3, 0, value))?;
    say_written(out, calls::get_attribute(&s, 3, 0))?;
    say(out, b"\n")
}

fn counts(out: &mut impl Write) -> io::Result<()> {
    say(out, b"P1: make, set count, get count\n")?;
    count_case(out, 32)?;
    count_case(out, 100)?;
    count_case(out, 1056)?;
    count_case(out, 64)?;
    count_case(out, 1024)?;
    say(out, b"other counts\n")?;
    count_case(out, 0)?;
    count_case(out, 65)?;
    count_case(out, 96)?;
    count_case(out, 992)?;
    count_case(out, 0x1_0000_0040)?;
    count_case(out, 0xffff_ffff_ffff_ffff)
}

// ---- the order of count and vCPUs

fn count_first(out: &mut impl Write) -> io::Result<()> {
    let mut s = [0xffff_ffffu32; 1760];
    say(out, b"count first:")?;
    say_written(out, calls::make(&mut s))?;
    say_written(out, calls::set_attribute(&mut s, 3, 7, 96))?;
    say_add(out, &mut s, 0)?;
    say_add(out, &mut s, 0x0012_340f)?;
    say_written(out, calls::set_attribute(&mut s, 4, 0, 5))?;
    say_words(out, &s)
}

fn vcpus_first(out: &mut impl Write) -> io::Result<()> {
    let mut s = [0u32; 1760];
    say(out, b"vCPUs first:")?;
    say_written(out, calls::make(&mut s))?;
    say_add(out, &mut s, 0)?;
    say_add(out, &mut s, 0x0012_340f)?;
    say_written(
        out,
        calls::set_attribute(&mut s, 3, 0xffff_ffff_ffff_ffff, 96),
    )?;
    say_words(out, &s)?;
    say(out, b"initialised:")?;
    say_written(out, calls::set_attribute(&mut s, 4, 0, 0))?;
    say_words(out, &s)
}

fn no_count(out: &mut impl Write) -> io::Result<()> {
    let mut s = [0u32; 1760];
    say(out, b"no count:")?;
    say_written(out, calls::make(&mut s))?;
    say_add(out, &mut s, 1)?;
    say_written(out, calls::get_attribute(&s, 3, 0))?;
    say_written(out, calls::set_attribute(&mut s, 4, 0, 0))?;
    say_written(out, calls::get_attribute(&s, 3, 0xffff_ffff))?;
    say_words(out, &s)?;
    say(out, b"again:")?;
    say_written(out, calls::set_attribute(&mut s, 4, 0, 0))?;
    say_words(out, &s)
}

// ---- refusals of each call, in their order

// The answer to adding a vCPU.
fn say_add(out: &mut impl Write, s: &mut [u32], mpidr: u32) -> io::Result<()> {
    say_written(out, calls::add_vcpu(s, Mpidr(mpidr)))
}

// The answer to marking a vCPU as running.
fn say_run(out: &mut impl Write, s: &mut [u32], v: usize) -> io::Result<()> {
    say_written(out, calls::set_running(s, VcpuIndex(v), true))
}

fn nine_vcpus(out: &mut impl Write) -> io::Result<()> {
    let mut s = [0u32; 1760];
    say(out, b"nine vCPUs:")?;
    say_written(out, calls::make(&mut s))?;
    for mpidr in (0..9).map(|n| n << 8) {
        say_add(out, &mut s, mpidr)?;
    }
    say(out, b"\nwith eight: bad, used, free:")?;
    say_add(out, &mut s, 0x10)?;
    say_add(out, &mut s, 0x700)?;
    say_add(out, &mut s, 0x0f)?;
    say_words(out, &s)?;
    say(out, b"initialised, all running:")?;
    say_written(out, calls::set_attribute(&mut s, 4, 0, 0))?;
    for v in 0..9 {
        say_run(out, &mut s, v)?;
    }
    say_words(out, &s)
}

// The index of the vCPU that has the affinity.
fn say_index(out: &mut impl Write, s: &[u32], mpidr: Mpidr) -> io::Result<()> {
    let Some(s) = s.as_array() else {
        return Ok(());
    };
    if s[2] > 8 {
        return Ok(());
    }
    match state::index_of(s, mpidr) {
        Some(v) => write!(out, " {}", v.0),
        None => say(out, b" none"),
    }
}

// The affinity of a vCPU.
fn say_affinity(out: &mut impl Write, s: &[u32], v: usize) -> io::Result<()> {
    match s.as_array() {
        Some(s) if v < 8 => {
            let mpidr = state::affinity_of(s, Vcpu { index: v });
            say_hex(out, u64::from(mpidr.0))
        }
        _ => Ok(()),
    }
}

fn lookups(out: &mut impl Write) -> io::Result<()> {
    let mut s = [0u32; 1760];
    let _ = calls::make(&mut s);
    let _ = calls::add_vcpu(&mut s, Mpidr(0x10f));
    let _ = calls::add_vcpu(&mut s, Mpidr(0x3));
    let _ = calls::add_vcpu(&mut s, Mpidr(0x20000));
    say(out, b"lookup of 3, 10f, 20000, 4:")?;
    say_index(out, &s, Mpidr(0x3))?;
    say_index(out, &s, Mpidr(0x10f))?;
    say_index(out, &s, Mpidr(0x20000))?;
    say_index(out, &s, Mpidr(0x4))?;
    say(out, b"\naffinities of 0, 1, 2:")?;
    say_affinity(out, &s, 0)?;
    say_affinity(out, &s, 1)?;
    say_affinity(out, &s, 2)?;
    say(out, b"\n")
}

fn refused_adds(out: &mut impl Write) -> io::Result<()> {
    let mut s = [0u32; 1760];
    say(out, b"add: 10, ff, 1000000, ffffffff, ffff0f, again, 10:")?;
    let _ = calls::make(&mut s);
    say_add(out, &mut s, 0x10)?;
    say_add(out, &mut s, 0xff)?;
    say_add(out, &mut s, 0x0100_0000)?;
    say_add(out, &mut s, 0xffff_ffff)?;
    say_add(out, &mut s, 0x00ff_ff0f)?;
    say_add(out, &mut s, 0x00ff_ff0f)?;
    say_add(out, &mut s, 0x10)?;
    say_words(out, &s)?;
    say(out, b"initialised: bad, used, free:")?;
    let _ = calls::set_attribute(&mut s, 4, 0, 0);
    say_add(out, &mut s, 0x10)?;
    say_add(out, &mut s, 0x00ff_ff0f)?;
    say_add(out, &mut s, 1)?;
    say_words(out, &s)
}

fn refused_counts(out: &mut impl Write) -> io::Result<()> {
    let mut s = [0u32; 1760];
    say(out, b"count set: 32, 64, 128:")?;
    let _ = calls::make(&mut s);
    let _ = calls::set_attribute(&mut s, 3, 0, 64);
    say_written(out, calls::set_attribute(&mut s, 3, 0, 32))?;
    say_written(out, calls::set_attribute(&mut s, 3, 0, 64))?;
    say_written(out, calls::set_attribute(&mut s, 3, 0, 128))?;
    say_words(out, &s)?;
    say(out, b"initialised: 32, 64, 128:")?;
    let _ = calls::add_vcpu(&mut s, Mpidr(0));
    let _ = calls::set_attribute(&mut s, 4, 0, 0);
    say_written(out, calls::set_attribute(&mut s, 3, 0, 32))?;
    say_written(out, calls::set_attribute(&mut s, 3, 0, 64))?;
    say_written(out, calls::set_attribute(&mut s, 3, 0, 128))?;
    say_words(out, &s)
}

fn refused_initialise(out: &mut impl Write) -> io::Result<()> {
    let mut s = [0u32; 1760];
    say(out, b"no vCPU: get 0, set 1, set 100000000, set 0:")?;
    let _ = calls::make(&mut s);
    say_written(out, calls::get_attribute(&s, 4, 0))?;
    say_written(out, calls::set_attribute(&mut s, 4, 1, 0))?;
    say_written(out, calls::set_attribute(&mut s, 4, 0x1_0000_0000, 0))?;
    say_written(out, calls::set_attribute(&mut s, 4, 0, 0))?;
    say_words(out, &s)?;
    say(out, b"initialised: get 0, set 1, set 0:")?;
    let _ = calls::add_vcpu(&mut s, Mpidr(0));
    let _ = calls::set_attribute(&mut s, 4, 0, 0);
    say_written(out, calls::get_attribute(&s, 4, 0))?;
    say_written(out, calls::set_attribute(&mut s, 4, 1, 0))?;
    say_written(out, calls::set_attribute(&mut s, 4, 0, 0))?;
    say_words(out, &s)
}

fn running_flags(out: &mut impl Write) -> io::Result<()> {
    let mut s = [0u32; 1760];
    say(out, b"not initialised: run 0, run 5:")?;
    let _ = calls::make(&mut s);
    let _ = calls::set_attribute(&mut s, 3, 0, 64);
    let _ = calls::add_vcpu(&mut s, Mpidr(3));
    say_run(out, &mut s, 0)?;
    say_run(out, &mut s, 5)?;
    say_words(out, &s)?;
    say(
        out,
        b"initialised: run 0, run 1, run 3, run ffffffffffffffff:",
    )?;
    let _ = calls::set_attribute(&mut s, 4, 0, 0);
    say_run(out, &mut s, 0)?;
    say_run(out, &mut s, 1)?;
    say_run(out, &mut s, 3)?;
    say_run(out, &mut s, 0xffff_ffff_ffff_ffff)?;
    say_words(out, &s)?;
    say(out, b"run again, stop, stop again:")?;
    say_run(out, &mut s, 0)?;
    say_written(out, calls::set_running(&mut s, VcpuIndex(0), false))?;
    say_written(out, calls::set_running(&mut s, VcpuIndex(0), false))?;
    say_words(out, &s)
}

fn run_one_of_three(out: &mut impl Write) -> io::Result<()> {
    let mut s = [0u32; 1760];
    say(out, b"three vCPUs: run 1, run 2, stop 1, stop 0:")?;
    let _ = calls::make(&mut s);
    let _ = calls::set_attribute(&mut s, 3, 0, 64);
    let _ = calls::add_vcpu(&mut s, Mpidr(0));
    let _ = calls::add_vcpu(&mut s, Mpidr(1));
    let _ = calls::add_vcpu(&mut s, Mpidr(2));
    let _ = calls::set_attribute(&mut s, 4, 0, 0);
    say_run(out, &mut s, 1)?;
    say_run(out, &mut s, 2)?;
    say_written(out, calls::set_running(&mut s, VcpuIndex(1), false))?;
    say_written(out, calls::set_running(&mut s, VcpuIndex(0), false))?;
    say_words(out, &s)
}

fn eight_initialised(out: &mut impl Write) -> io::Result<()> {
    let mut s = eight_vcpus();
    let _ = calls::set_attribute(&mut s, 4, 0, 0);
    say(out, b"eight, initialised: bad, used, free, get 7:")?;
    say_add(out, &mut s, 0x10)?;
    say_add(out, &mut s, 0x700)?;
    say_add(out, &mut s, 0x0f)?;
    say_written(out, calls::get_attribute(&s, 4, 7))?;
    say(out, b"\n")
}

// Calls that would be refused otherwise too, on a state that is not sound.
fn fault_first(out: &mut impl Write) -> io::Result<()> {
    let mut s = one_vcpu();
    store(&mut s, 15, 1);
    say(
        out,
        b"not sound: add 10, add 0, run 9, count 32, initialise 1, get 7:",
    )?;
    say_add(out, &mut s, 0x10)?;
    say_add(out, &mut s, 0)?;
    say_run(out, &mut s, 9)?;
    say_written(out, calls::set_attribute(&mut s, 3, 0, 32))?;
    say_written(out, calls::set_attribute(&mut s, 4, 1, 0))?;
    say_written(out, calls::get_attribute(&s, 4, 7))?;
    say_words(out, &s)
}

// ---- states that are not sound

// Count 64, one vCPU, initialised: a place, a value that it may hold, and one that it may not.
const USED: [[u32; 3]; 52] = [
    [0, 1, 2],
    [1, 0x40, 0x41],
    [1, 0x40, 0x20],
    [1, 0x40, 0x420],
    [1, 0x40, 0],
    [2, 1, 9],
    [2, 1, 0],
    [3, 3, 4],
    [4, 0xf, 0x10],
    [5, 0, 1],
    [15, 0, 1],
    [20, 0xffff0000, 1],
    [21, 0xf8f8f8f8, 1],
    [28, 0xf8f8f8f8, 0x4000000],
    [29, 0xffff, 0xfffe],
    [29, 0xffff, 0x1ffff],
    [30, 0, 1],
    [31, 0, 1],
    [32, 0xffff0f, 0x10],
    [32, 0xffff0f, 0x1000000],
    [33, 1, 2],
    [34, 0xf, 0x10],
    [35, 0xf8, 1],
    [35, 0xf8, 0x100],
    [36, 2, 1],
    [36, 2, 4],
    [37, 7, 1],
    [37, 2, 8],
    [38, 7, 2],
    [38, 3, 8],
    [41, 1, 2],
    [42, 1, 2],
    [43, 0, 1],
    [47, 0, 1],
    [48, 0, 1],
    [64, 0, 1],
    [271, 0, 1],
    [277, 0xf8f8f8f8, 1],
    [284, 0xf8f8f8f8, 0x400],
    [285, 0xffff, 0x10000],
    [286, 0xffff, 0x10000],
    [287, 0, 1],
    [288, 0, 1],
    [751, 0, 1],
    [752, 0, 1],
    [767, 0, 1],
    [768, 0xffffff, 0x1000000],
    [799, 0xffffff, 0x1000000],
    [800, 0, 1],
    [1755, 0, 1],
    [1756, 0, 1],
    [1759, 0, 1],
];

// The same of count 1024 and eight vCPUs.
const FULL: [[u32; 3]; 42] = [
    [52, 0xffff0000, 1],
    [53, 0xf8f8f8f8, 2],
    [61, 0xffff, 0x7fff],
    [62, 0, 1],
    [64, 0x100, 0],
    [65, 1, 2],
    [66, 0xf, 0x10],
    [67, 0xf8, 4],
    [68, 2, 8],
    [69, 7, 1],
    [70, 7, 2],
    [73, 1, 2],
    [75, 0, 1],
    [245, 0xf8f8f8f8, 0x100],
    [253, 0xffff, 0xfffe],
    [256, 0x700, 0x600],
    [257, 1, 2],
    [261, 7, 8],
    [262, 7, 2],
    [271, 0, 1],
    [293, 0xf8f8f8f8, 7],
    [301, 0xffff, 0x10000],
    [303, 0, 1],
    [501, 0xf8f8f8f8, 0x7000000],
    [510, 0xffff, 0x80000000],
    [511, 0, 1],
    [741, 0xf8f8f8f8, 1],
    [749, 0xffff, 0x10000],
    [751, 0, 1],
    [752, 0xfffffff, 0x10000000],
    [753, 0xfffffff, 0x20000000],
    [754, 0xfffffff, 0x40000000],
    [755, 0xfffffff, 0x80000000],
    [756, 0xfffffff, 0x10000000],
    [763, 0xf8f8f8f8, 1],
    [764, 0, 8],
    [765, 0xffff, 0x10000],
    [766, 0xfff, 0x1000],
    [767, 0, 1],
    [1755, 0xffffff, 0x1000000],
    [1756, 0, 1],
    [1759, 0, 1],
];

// The same of count 64 and one vCPU before initialising.
const STARTED: [[u32; 3]; 18] = [
    [0, 0, 2],
    [1, 0, 0x41],
    [2, 1, 2],
    [3, 0, 1],
    [4, 0, 1],
    [16, 0, 1],
    [18, 0, 1],
    [29, 0xffff, 0],
    [32, 0xffff0f, 0x10],
    [33, 0, 1],
    [35, 0, 8],
    [37, 2, 3],
    [38, 3, 7],
    [39, 0, 1],
    [48, 0, 1],
    [272, 0, 1],
    [768, 0, 1],
    [1759, 0, 1],
];

// The same of a device just made.
const EMPTY: [[u32; 3]; 5] = [
    [0, 0, 1],
    [1, 0x400, 0x420],
    [2, 0, 1],
    [16, 0, 1],
    [37, 0, 2],
];

// The same of count 1024 and eight vCPUs before initialising: two may not have one affinity.
const ADDED: [[u32; 3]; 2] = [[64, 0x100, 0], [256, 0x70f, 0x600]];

// Places of the first where every bit is allowed: two values that it may hold.
const WHOLE: [[u32; 3]; 11] = [
    [16, 0, 0xffffffff],
    [17, 0, 0xffffffff],
    [18, 0, 0xffffffff],
    [19, 0, 0xffffffff],
    [39, 0, 0xffffffff],
    [40, 0, 0xffffffff],
    [272, 0, 0xffffffff],
    [273, 0, 0xffffffff],
    [274, 0, 0xffffffff],
    [275, 0, 0xffffffff],
    [276, 0, 0xffffffff],
];

// The answers of every call but make, and whether the words are those of `before`.
fn say_calls(out: &mut impl Write, s: &mut [u32], before: &[u32]) -> io::Result<()> {
    say_written(out, calls::add_vcpu(s, Mpidr(2)))?;
    say_written(out, calls::set_running(s, VcpuIndex(0), true))?;
    say_written(out, calls::set_attribute(s, 3, 0, 64))?;
    say_written(out, calls::get_attribute(s, 3, 0))?;
    say_written(out, calls::set_attribute(s, 4, 0, 0))?;
    say_written(out, calls::get_attribute(s, 4, 0))?;
    if &*s == before {
        say(out, b" kept\n")
    } else {
        say(out, b" changed\n")
    }
}

fn store(s: &mut [u32], at: usize, word: u32) {
    if let Some(place) = s.get_mut(at) {
        *place = word;
    }
}

// One place of a sound state: the count that it gives with the row's first value there, and every call's answer with its second there.
fn place_case(out: &mut impl Write, state: [u32; 1760], row: [u32; 3]) -> io::Result<()> {
    let mut s = state;
    let [at, first, second] = row;
    store(&mut s, at as usize, first);
    say_decimal(out, u64::from(at))?;
    say_hex(out, u64::from(first))?;
    say(out, b":")?;
    say_written(out, calls::get_attribute(&s, 3, 0))?;
    store(&mut s, at as usize, second);
    let before = s;
    say_hex(out, u64::from(second))?;
    say(out, b":")?;
    say_calls(out, &mut s, &before)
}

fn place_cases(out: &mut impl Write, state: [u32; 1760], rows: &[[u32; 3]]) -> io::Result<()> {
    for row in rows {
        place_case(out, state, *row)?;
    }
    Ok(())
}

// A device of count 64 and one vCPU.
fn one_vcpu() -> [u32; 1760] {
    let mut s = [0u32; 1760];
    let _ = calls::make(&mut s);
    let _ = calls::set_attribute(&mut s, 3, 0, 64);
    let _ = calls::add_vcpu(&mut s, Mpidr(0));
    s
}

// A device of count 1024 and eight vCPUs.
fn eight_vcpus() -> [u32; 1760] {
    let mut s = [0u32; 1760];
    let _ = calls::make(&mut s);
    let _ = calls::set_attribute(&mut s, 3, 0, 1024);
    for mpidr in (0..8).map(|n| Mpidr(n << 8)) {
        let _ = calls::add_vcpu(&mut s, mpidr);
    }
    s
}

fn used_words(out: &mut impl Write) -> io::Result<()> {
    let mut s = one_vcpu();
    let _ = calls::set_attribute(&mut s, 4, 0, 0);
    say(out, b"count 64, one vCPU, initialised\n")?;
    place_cases(out, s, &USED)
}

fn whole_words(out: &mut impl Write) -> io::Result<()> {
    let mut s = one_vcpu();
    let _ = calls::set_attribute(&mut s, 4, 0, 0);
    say(out, b"words that may have every bit\n")?;
    place_cases(out, s, &WHOLE)
}

fn full_words(out: &mut impl Write) -> io::Result<()> {
    let mut s = eight_vcpus();
    let _ = calls::set_attribute(&mut s, 4, 0, 0);
    say(out, b"count 1024, eight vCPUs, initialised\n")?;
    place_cases(out, s, &FULL)
}

fn started_words(out: &mut impl Write) -> io::Result<()> {
    say(out, b"count 64, one vCPU, before initialising\n")?;
    place_cases(out, one_vcpu(), &STARTED)
}

fn added_words(out: &mut impl Write) -> io::Result<()> {
    say(out, b"count 1024, eight vCPUs, before initialising\n")?;
    place_cases(out, eight_vcpus(), &ADDED)
}

fn empty_words(out: &mut impl Write) -> io::Result<()> {
    let mut s = [0u32; 1760];
    let _ = calls::make(&mut s);
    say(out, b"just made\n")?;
    place_cases(out, s, &EMPTY)
}

// ---- states of another length

// The answers of every call, and whether the words are those of `before`.
fn length_case(out: &mut impl Write, s: &mut [u32], before: &[u32]) -> io::Result<()> {
    say(out, b"length ")?;
    say_decimal(out, s.len() as u64)?;
    say(out, b":")?;
    say_written(out, calls::make(s))?;
    say_calls(out, s, before)
}

// The words of a device just made, and one more.
fn longer_device(out: &mut impl Write) -> io::Result<()> {
    let mut s = [0u32; 1761];
    length_case(out, &mut s, &[0u32; 1761])
}

fn lengths(out: &mut impl Write) -> io::Result<()> {
    let mut none = [7u32; 0];
    let mut one = [7u32; 1];
    let mut less = [7u32; 1759];
    let mut more = [7u32; 1761];
    say(out, b"wrong lengths: make, then the others\n")?;
    length_case(out, &mut none, &[7u32; 0])?;
    length_case(out, &mut one, &[7u32; 1])?;
    length_case(out, &mut less, &[7u32; 1759])?;
    length_case(out, &mut more, &[7u32; 1761])?;
    longer_device(out)
}

fn main(rt: HostRuntime) -> io::Result<()> {
    let mut out = rt.stdout();
    counts(&mut out)?;
    count_first(&mut out)?;
    vcpus_first(&mut out)?;
    no_count(&mut out)?;
    nine_vcpus(&mut out)?;
    lookups(&mut out)?;
    refused_adds(&mut out)?;
    refused_counts(&mut out)?;
    refused_initialise(&mut out)?;
    running_flags(&mut out)?;
    run_one_of_three(&mut out)?;
    eight_initialised(&mut out)?;
    fault_first(&mut out)?;
    used_words(&mut out)?;
    whole_words(&mut out)?;
    full_words(&mut out)?;
    started_words(&mut out)?;
    added_words(&mut out)?;
    empty_words(&mut out)?;
    lengths(&mut out)
}
