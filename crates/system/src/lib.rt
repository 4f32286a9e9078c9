// The system registers of a vCPU: a guest's read and write of one.
#![tactic(auto)]

pub mod decode;
pub mod plain;
mod sgi;

ghost use Rattle.std.specs.Prelude.{◌≡◌, ◌≤◌};
ghost use Rattle.model.specs.Layout.{most_vcpus, vcpus};
ghost use Rattle.model.specs.Interface.{system_write};
ghost use Rattle.model.specs.declared.SystemRegister.TheVariants.{Read};
ghost use Rattle.priority.specs.Asked.{Usable};
ghost use Rattle.system.specs.Answers.{Reads, Writes};

use model::layout::State;
use model::{By, Errno, Readable, SystemRegister, Writable};
use plain::{read_plain, write_plain};
use priority::acknowledge::{acknowledge, highest_pending, running_priority};
use priority::end::{deactivate, end};
use sgi::send;
use state::Vcpu;

// Reads a register that a guest only reads.
#[tactic(auto, unfolding(model::specs::Calls::read_checks, model::specs::Refusals::first_failing, model::specs::Calls::system_value, model::specs::Calls::system_read_state, model::specs::Interface::system_read, model::specs::Interface::system_read_next, model::specs::Interface::system_read_clear))]
fn read_only(s: &mut State, v: Vcpu, register: Readable) -> Result<u32, Errno>
    requires { Usable s.old v.index }
    ensures { Reads (Read register) v.index s.old result s.new }
{
    match register {
        Readable::Iar(g) => acknowledge(s, v, g),
        Readable::Hppir(g) => Ok(highest_pending(s, v, g.index())),
        Readable::Rpr => Ok(running_priority(s, v)),
    }
}

// Writes a register that a guest only writes: the ID is in bits 23-0.
#[tactic(auto, unfolding(model::specs::Interface::system_write))]
fn write_only(s: &mut State, v: Vcpu, register: Writable, x: u64)
    requires { vcpus s.old ≤ most_vcpus }
    ensures { s.new ≡ system_write s.old v.index register x }
{
    match register {
        Writable::Eoir(g) => end(s, v, g, (x % 0x0100_0000) as usize),
        Writable::Dir => deactivate(s, v, (x % 0x0100_0000) as usize),
        Writable::Sgi1r => send(s, false, v, x),
        Writable::Sgi0r => send(s, true, v, x),
    }
}

// A guest's read of a system register: refused where it is not listed for reading, or where an acknowledge finds its active-priority bit set.
#[tactic(auto, unfolding(model::specs::Calls::read_checks, model::specs::Refusals::first_failing, model::specs::Calls::system_value, model::specs::Calls::system_read_state))]
pub fn read_register(s: &mut State, v: Vcpu, register: SystemRegister) -> Result<u32, Errno>
    requires { Usable s.old v.index }
    ensures { Reads register v.index s.old result s.new }
{
    match register {
        SystemRegister::Both(p) => Ok(read_plain(s, By::Guest, v, p)),
        SystemRegister::Read(r) => read_only(s, v, r),
        SystemRegister::Write(_) => Err(Errno::Enxio),
        SystemRegister::Unnamed => Err(Errno::Enxio),
    }
}

// A guest's write of a system register: refused where it is not listed for writing.
#[tactic(auto, unfolding(model::specs::Calls::write_checks, model::specs::Refusals::first_failing, model::specs::Calls::system_write_state))]
pub fn write_register(
    s: &mut State,
    v: Vcpu,
    register: SystemRegister,
    x: u64,
) -> Result<u32, Errno>
    requires { vcpus s.old ≤ most_vcpus }
    ensures { Writes register v.index x s.old result s.new }
{
    match register {
        SystemRegister::Both(p) => {
            write_plain(s, By::Guest, v, p, x);
            Ok(0)
        }
        SystemRegister::Write(w) => {
            write_only(s, v, w, x);
            Ok(0)
        }
        SystemRegister::Read(_) => Err(Errno::Enxio),
        SystemRegister::Unnamed => Err(Errno::Enxio),
    }
}
