// A view of the interrupts, the distributor's or a frame's: whose they are, which it has, and their banks.
ghost use Rattle.std.specs.Prelude.{◌≡◌, ◌+◌, ◌%◌, ◌≤◌, ◌<◌, set};
ghost use Rattle.model.specs.Layout.{most_vcpus, count, bank};
ghost use Rattle.model.specs.Registers.{banks, has, seen_by};
ghost use Rattle.model.specs.declared.View.TheVariants.{Frame};
ghost use Rattle.registers.specs.Words.{flags_meant};

use model::View;
use model::layout::State;
use model::values::{FLAG_BITS, LAST_FLAG_BITS};
use state::{Vcpu, VcpuIndex, bank_at, is_spi, put_in_bank};

// The view of a vCPU's frame; here and in `seen_by` alone an index and a view are turned into each other.
pub fn frame_view(v: VcpuIndex) -> View
    ensures { result ≡ Frame v.0 }
{
    View::Frame(v.0)
}

// The vCPU whose private interrupts a view has.
#[tactic(auto, unfolding(model::specs::Registers::seen_by))]
pub fn seen_by(view: View) -> VcpuIndex
    ensures { result.0 ≡ seen_by view }
{
    match view {
        View::Distributor => VcpuIndex(0),
        View::Frame(v) => VcpuIndex(v),
    }
}

// The same, where the state has a block for it.
pub fn vcpu_of(view: View) -> Vcpu
    requires { seen_by view < most_vcpus }
    ensures { result.index ≡ seen_by view }
{
    Vcpu::at(seen_by(view))
}

// Whether a view has the interrupt.
#[tactic(auto, unfolding(model::specs::Registers::has, model::specs::Interrupts::is_private))]
pub fn has_id(s: &State, view: View, id: usize) -> bool
    ensures { result ≡ has s.now view id }
{
    match view {
        View::Distributor => is_spi(s, id),
        View::Frame(_) => id < 32,
    }
}

// ---- its banks

// The bank of the interrupts 32k to 32k + 31 of a view.
#[derive(Clone, Copy)]
pub struct Bank {
    pub view: View,
    pub k: usize,
    ghost seen: { seen_by view < most_vcpus },
    ghost within: { k < banks view },
}

impl Bank {
    // Where it starts.
    #[tactic(auto, using(crate::proofs::Banks::within))]
    pub fn start(self) -> usize
        ensures place { result ≡ bank (seen_by self.view) self.k }
        ensures inside { result + 16 ≤ 768 }
    {
        bank_at(vcpu_of(self.view), self.k)
    }

    // Stores its word `j`.
    #[tactic(auto, using(crate::proofs::Banks::within))]
    pub fn put(self, s: &mut State, j: usize, x: u32)
        requires { j < 16 }
        ensures { s.new ≡ set s.old (bank (seen_by self.view) self.k + j) x }
    {
        put_in_bank(s, vcpu_of(self.view), self.k, j, x);
    }

    // The mask of those of its interrupts that the view has: all, none, or the 28 before ID 1020.
    #[tactic(auto, using(crate::proofs::Meant::thirty_two))]
    pub fn interrupts(self, s: &State) -> u32
        requires { count s.now % 32 ≡ 0 }
        ensures { result ≡ flags_meant s.now self.view 0 self.k }
    {
        if !has_id(s, self.view, 32 * self.k) {
            return 0;
        }
        if self.k == 31 {
            LAST_FLAG_BITS
        } else {
            FLAG_BITS
        }
    }
}
