// The numbers that a call is given, and what the state says of them: which vCPU has an affinity, whether it runs, which SPIs exist.
ghost use Rattle.std.specs.Prelude.{◌≡◌, ◌≤◌, ◌<◌, eqb};
ghost use Rattle.model.specs.Words.{all_below};
ghost use Rattle.model.specs.Layout.{most_vcpus, vcpus, affinity, running};
ghost use Rattle.model.specs.Interrupts.{ids_below, is_spi};
ghost use Rattle.model.specs.Sound.{is_count, is_affinity, unused, stopped};
ghost use Rattle.state.specs.Lookup.{first_with, found};

use crate::parts::block_at;
use model::layout::{AFFINITY, COUNT, INITIALISED, RUNNING, State, VCPUS};

// The index of a vCPU, from 0 up in the order added.
#[derive(Clone, Copy, Debug, PartialEq, Eq)]
pub struct VcpuIndex(pub usize);

// A vCPU that the state has a block for, by its index.
#[derive(Clone, Copy)]
pub struct Vcpu {
    pub index: usize,
    ghost has_block: { index < most_vcpus },
}

impl Vcpu {
    pub fn at(v: VcpuIndex) -> Vcpu
        requires { v.0 < most_vcpus }
        ensures { result.index ≡ v.0 }
    {
        Vcpu { index: v.0 }
    }
}

// An affinity Aff3.Aff2.Aff1.Aff0 as one number.
#[derive(Clone, Copy, Debug, PartialEq, Eq)]
pub struct Mpidr(pub u32);

// ---- numbers that a call is given

// Aff3 is 0 and Aff0 at most 15.
pub fn is_affinity(a: Mpidr) -> bool
    ensures { result ≡ is_affinity a.0 }
{
    (a.0 < 0x0100_0000) & (a.0 % 256 <= 15)
}

// 64 to 1024 in steps of 32.
pub fn is_count(c: u64) -> bool
    ensures { result ≡ is_count c }
{
    (64 <= c) & (c <= 1024) & (c % 32 == 0)
}

// ---- which SPIs exist

// The SPIs of a count are from 32 to below this.
pub fn ids_below(count: u32) -> usize
    ensures { result ≡ ids_below count }
{
    (count as usize).min(1020)
}

// Whether the ID is an SPI that exists.
pub fn is_spi(s: &State, id: usize) -> bool
    ensures { result ≡ is_spi s.now id }
{
    (32 <= id) & (id < ids_below(s[COUNT]))
}

// ---- lookup

// The first of `n` vCPUs that has the affinity.
fn first_with(s: &State, mpidr: Mpidr, n: usize) -> Option<VcpuIndex>
    requires { n ≤ most_vcpus }
    ensures { result ≡ first_with s.now mpidr.0 n }
{
    for v in 0..n {
        if affinity_of(s, Vcpu { index: v }) == mpidr {
            return Some(VcpuIndex(v));
        }
    }
    None
}

// None of the first `n` vCPUs has the affinity.
pub fn is_unused(s: &State, mpidr: Mpidr, n: usize) -> bool
    requires { n ≤ most_vcpus }
    ensures { result ≡ unused s.now mpidr.0 n }
{
    first_with(s, mpidr, n).is_none()
}

// The vCPU that has an affinity.
pub fn index_of(s: &State, mpidr: Mpidr) -> Option<VcpuIndex>
    requires { vcpus s.now ≤ most_vcpus }
    ensures { result ≡ found s.now mpidr.0 }
{
    first_with(s, mpidr, s[VCPUS] as usize)
}

// The affinity of vCPU `v`.
pub fn affinity_of(s: &State, v: Vcpu) -> Mpidr
    ensures { result.0 ≡ affinity s.now v.index }
{
    Mpidr(s[block_at(v) + AFFINITY])
}

// Whether vCPU `v` runs: 1, or 0.
pub fn running_of(s: &State, v: Vcpu) -> u32
    ensures { result ≡ running s.now v.index }
{
    s[block_at(v) + RUNNING]
}

// ---- a stopped device

// Whether none of `n` vCPUs runs.
fn none_runs(s: &State, n: usize) -> bool
    requires { n ≤ most_vcpus }
    ensures { result ≡ all_below (λ v. eqb (running s.now v) 0) n }
{
    let mut none = true;
    for v in 0..n {
        none &= running_of(s, Vcpu { index: v }) == 0;
    }
    none
}

// Whether the device is initialised and no vCPU runs.
pub fn is_stopped(s: &State) -> bool
    requires { vcpus s.now ≤ most_vcpus }
    ensures { result ≡ stopped s.now }
{
    let none = none_runs(s, s[VCPUS] as usize);
    (s[INITIALISED] == 1) & none
}

// ---- words as numbers

// A word as a number of the machine's width. Where nothing bounds the word yet, `s[i] as usize` asks for a proof that it fits, and this asks for none.
pub fn wide(x: u32) -> usize
    ensures { result ≡ x }
{
    x as usize
}
