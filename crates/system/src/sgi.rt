// SGIs: whom a write of SGI1R or SGI0R reaches, and latching them.
ghost use Rattle.std.specs.Prelude.{◌≡◌, ◌%◌, ◌^◌, ◌<◌, ◌≤◌};
ghost use Rattle.model.specs.Words.{bit};
ghost use Rattle.model.specs.Layout.{most_vcpus, vcpus};
ghost use Rattle.model.specs.Interface.{byte_at, named, targets, sgi_id, reaches, sgi_sent};
ghost use Rattle.system.specs.Steps.{latched_at};

use model::layout::{LATCH, State, VCPUS};
use priority::acknowledge::in_group1;
use state::{Mpidr, Vcpu, affinity_of, put_flag};
use words::has_bit;

// ID bits 27-24.
fn sgi_id(x: u64) -> usize
    ensures id { result ≡ sgi_id x }
    ensures below { result < 16 }
{
    ((x >> 24) % 16) as usize
}

// Eight bits of `x` from bit `k` on.
fn byte_from(x: u64, k: u32) -> u32
    requires { k < 64 }
    ensures value { result ≡ byte_at x k }
    ensures below { result < 256 }
{
    ((x >> k) % 256) as u32
}

// Bit Aff0 of bits 15-0: an Aff0 above 15 has none.
#[tactic(auto, using(crate::proofs::Sgis::unlisted))]
fn is_listed(x: u64, aff0: u32) -> bool
    ensures { result ≡ bit (x % 2 ^ 16) aff0 }
{
    aff0 < 16 && has_bit((x % 0x1_0000) as u32, aff0)
}

// Whether Aff3.Aff2.Aff1 are bits 55-48, 39-32 and 23-16, and bit Aff0 of 15-0 is set.
#[tactic(auto, unfolding(model::specs::Interface::named))]
fn is_named(x: u64, mpidr: Mpidr) -> bool
    ensures { result ≡ named x mpidr.0 }
{
    let a = u64::from(mpidr.0);
    byte_from(a, 24) == byte_from(x, 48)
        && byte_from(a, 16) == byte_from(x, 32)
        && byte_from(a, 8) == byte_from(x, 16)
        && is_listed(x, byte_from(a, 0))
}

// With bit 40, all vCPUs but the writer `v`; else those that are named.
#[tactic(auto, unfolding(model::specs::Interface::targets, model::specs::Words::bit))]
fn is_target(s: &State, v: Vcpu, x: u64, t: Vcpu) -> bool
    ensures { result ≡ targets s.now v.index x t.index }
{
    if (x >> 40) % 2 == 1 {
        t.index != v.index
    } else {
        is_named(x, affinity_of(s, t))
    }
}

// Whether the SGI reaches vCPU `t`; `only0` is SGI0R, which reaches those of group 0 alone.
#[tactic(auto, unfolding(model::specs::Interface::reaches))]
fn is_reached(s: &State, only0: bool, v: Vcpu, x: u64, t: Vcpu) -> bool
    ensures { result ≡ reaches only0 s.now v.index x t.index }
{
    is_target(s, v, x, t) && !(only0 && in_group1(s, t, sgi_id(x)))
}

// Latches the SGI of vCPU `t` if it is reached.
#[tactic(auto, unfolding(crate::specs::Steps::latched_at))]
fn latch_target(s: &mut State, only0: bool, v: Vcpu, x: u64, t: Vcpu)
    ensures { s.new ≡ latched_at t.index only0 v.index x s.old }
{
    if is_reached(s, only0, v, x, t) {
        put_flag(s, LATCH, true, t, sgi_id(x));
    }
}

// Latches the SGI of each vCPU that is reached, one after the other.
#[tactic(auto, using(crate::proofs::Sgis::sent_more), unfolding(model::specs::Interface::sgi_sent))]
pub fn send(s: &mut State, only0: bool, v: Vcpu, x: u64)
    requires { vcpus s.old ≤ most_vcpus }
    ensures { s.new ≡ sgi_sent (vcpus s.old) only0 v.index x s.old }
{
    for t in 0..s[VCPUS] as usize {
        latch_target(s, only0, v, x, Vcpu { index: t });
    }
}
