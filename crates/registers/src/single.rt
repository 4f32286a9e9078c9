// The registers of a single word: STATUSR, and the low word of a frame's TYPER.
ghost use Rattle.std.specs.Prelude.{◌≡◌, ◌<◌, set};
ghost use Rattle.model.specs.Layout.{state_length, most_vcpus, word};
ghost use Rattle.model.specs.Registers.{seen_by, status_at, frame_typer, written_status};

use crate::views::vcpu_of;
use model::layout::{FRAME_STATUS, STATUS, State, VCPUS};
use model::values::STATUSR_BITS;
use model::{By, View};
use state::{Vcpu, block_at, put_in_block};

// Where a view's STATUSR stands.
#[tactic(auto, unfolding(model::specs::Registers::status_at, model::specs::Registers::seen_by))]
pub fn status_at(view: View) -> usize
    requires { seen_by view < most_vcpus }
    ensures place { result ≡ status_at view }
    ensures inside { result < state_length }
{
    match view {
        View::Distributor => STATUS,
        View::Frame(_) => block_at(vcpu_of(view)) + FRAME_STATUS,
    }
}

// STATUSR after x is written to it: a guest's ones clear, an attribute stores bits 3-0.
#[tactic(auto, unfolding(model::specs::Registers::written_status))]
fn written_status(by: By, old: u32, x: u32) -> u32
    ensures { result ≡ written_status by old x }
{
    match by {
        By::Guest => (old & !x) & STATUSR_BITS,
        By::Attribute => x & STATUSR_BITS,
    }
}

// Writes STATUSR: the distributor's, or that in a vCPU's block.
#[tactic(auto, unfolding(model::specs::Registers::status_at, model::specs::Registers::seen_by))]
pub fn write_status(s: &mut State, by: By, view: View, x: u32)
    requires { seen_by view < most_vcpus }
    ensures { s.new ≡ set s.old (status_at view) (written_status by (word s.old (status_at view)) x) }
{
    let w = written_status(by, s[status_at(view)], x);
    match view {
        View::Distributor => {
            s[STATUS] = w;
        }
        View::Frame(_) => put_in_block(s, vcpu_of(view), FRAME_STATUS, w),
    }
}

// The low word of a frame's TYPER: index x 256, + 16 for the last vCPU.
#[tactic(auto, unfolding(model::specs::Registers::frame_typer))]
pub fn frame_typer(s: &State, v: Vcpu) -> u32
    ensures { result ≡ frame_typer s.now v.index }
{
    let index = v.index as u32;
    if index + 1 == s[VCPUS] {
        index * 256 + 16
    } else {
        index * 256
    }
}
