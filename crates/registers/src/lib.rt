// The memory-mapped registers: decode of an offset, and reading and writing one word of a register, guest's and attribute's.
#![tactic(auto)]

pub mod decode;
mod edges;
mod flags;
mod priorities;
mod routes;
mod single;
mod views;

ghost use Rattle.std.specs.Prelude.{◌≡◌, true, ◌<◌};
ghost use Rattle.model.specs.Layout.{most_vcpus};
ghost use Rattle.model.specs.Sound.{sound};
ghost use Rattle.model.specs.Registers.{words_of, seen_by, read, write};

use edges::{read_config, write_config};
use flags::{read_flags, write_flags};
use model::layout::{COUNT, ENABLES, State};
use model::values::{GICD_CTLR_BITS, GICD_CTLR_FIXED, GICD_TYPER_FIXED, IIDR};
use model::{By, Register, View};
use priorities::read_priority;
pub use priorities::{Bytes, write_priority};
use routes::{read_route, write_route};
use single::{frame_typer, status_at, write_status};
use state::affinity_of;
use views::{Bank, vcpu_of};
pub use views::{frame_view, seen_by};

// Reads word `k` of a register.
#[tactic(auto, using(crate::proofs::Requests::asked), unfolding(model::specs::Registers::read, model::specs::Registers::words_of))]
pub fn read_word(s: &State, by: By, view: View, register: Register, k: usize) -> u32
    requires is_sound { sound s.now ≡ true }
    requires has_block { seen_by view < most_vcpus }
    requires has_word { k < words_of view register }
    ensures { result ≡ read by s.now view register k }
{
    match register {
        Register::Fixed(c) => c,
        Register::Control => GICD_CTLR_FIXED + s[ENABLES],
        Register::Typer => GICD_TYPER_FIXED + s[COUNT] / 32 - 1,
        Register::Iidr => IIDR,
        Register::Status => s[status_at(view)],
        Register::Bits(f) => read_flags(s, by, Bank { view, k }, f),
        Register::Priority => read_priority(s, view, k),
        Register::Config => read_config(s, view, k),
        Register::Route => read_route(s, view, k),
        Register::FrameTyper => frame_typer(s, vcpu_of(view)),
        Register::FrameAffinity => affinity_of(s, vcpu_of(view)).0,
    }
}

// Writes word `k` of a register. The words that never change ignore it.
#[tactic(auto, using(crate::proofs::Requests::asked), unfolding(model::specs::Registers::write, model::specs::Registers::words_of, crate::specs::Words::names))]
pub fn write_word(s: &mut State, by: By, view: View, register: Register, k: usize, x: u32)
    requires is_sound { sound s.old ≡ true }
    requires has_block { seen_by view < most_vcpus }
    requires has_word { k < words_of view register }
    ensures { s.new ≡ write by s.old view register k x }
{
    match register {
        Register::Control => {
            s[ENABLES] = x & GICD_CTLR_BITS;
        }
        Register::Status => write_status(s, by, view, x),
        Register::Bits(f) => write_flags(s, by, Bank { view, k }, f, x),
        Register::Priority => write_priority(s, view, Bytes::All, k, x),
        Register::Config => write_config(s, view, k, x),
        Register::Route => write_route(s, view, k, x),
        Register::Fixed(_) => {}
        Register::Typer => {}
        Register::Iidr => {}
        Register::FrameTyper => {}
        Register::FrameAffinity => {}
    }
}
