// What an attribute of the groups 1, 5, 6 and 7 names.
ghost use Rattle.std.specs.Prelude.{◌≡◌, ◌≤◌};
ghost use Rattle.model.specs.Layout.{most_vcpus, vcpus};
ghost use Rattle.model.specs.Interface.{system};
ghost use Rattle.model.specs.Attributes.{high, low, number_ok, mapped, system_item};
ghost use Rattle.model.specs.declared.RegisterGroup.TheVariants.{Lines};
ghost use Rattle.attributes.specs.Names.{frame_with, place_of, item_at, item_named};

use model::layout::State;
use model::{Errno, Flags, Item, Phase, Register, RegisterGroup, SystemRegister, View};
use registers::decode::register_at;
use registers::frame_view;
use state::{Mpidr, in_phase, index_of, is_sound};
use system::decode::register_of;

// ---- the parts of an attribute's number

// Bits 63-32, an affinity.
fn high_part(attribute: u64) -> Mpidr
    ensures { result.0 ≡ high attribute }
{
    Mpidr((attribute >> 32) as u32)
}

// Bits 31-0.
fn low_part(attribute: u64) -> u64
    ensures { result ≡ low attribute }
{
    attribute % 0x1_0000_0000
}

// Group 7: bits 31-10 are 0 and bits 9-0 a multiple of 32.
#[tactic(auto, unfolding(model::specs::Attributes::number_ok))]
fn number_ok(q: RegisterGroup, attribute: u64) -> bool
    ensures { result ≡ number_ok q attribute }
{
    let number = low_part(attribute);
    match q {
        RegisterGroup::Distributor | RegisterGroup::Redistributor | RegisterGroup::Interface => {
            true
        }
        RegisterGroup::Lines => (number / 1024 == 0) & (number % 1024 % 32 == 0),
    }
}

// ---- the view that a register is in

// The frame of the vCPU that has an affinity.
#[tactic(auto, unfolding(crate::specs::Names::frame_with, state::specs::Lookup::first_with, model::specs::Attributes::index_of))]
fn frame_with(s: &State, mpidr: Mpidr) -> Option<View>
    requires { vcpus s.now ≤ most_vcpus }
    ensures { result ≡ frame_with s.now mpidr.0 }
{
    index_of(s, mpidr).map(|v| frame_view(v))
}

// Group 7: the lines of private interrupts stand in a frame, those of SPIs in the distributor.
#[tactic(auto, unfolding(crate::specs::Names::place_of))]
fn lines_at(s: &State, attribute: u64) -> Option<View>
    requires { vcpus s.now ≤ most_vcpus }
    ensures { result ≡ place_of Lines attribute s.now }
{
    if low_part(attribute) < 32 {
        frame_with(s, high_part(attribute))
    } else {
        Some(View::Distributor)
    }
}

// The view that an attribute's register is in.
#[tactic(auto, unfolding(crate::specs::Names::place_of))]
fn place_of(s: &State, q: RegisterGroup, attribute: u64) -> Option<View>
    requires { vcpus s.now ≤ most_vcpus }
    ensures { result ≡ place_of q attribute s.now }
{
    match q {
        RegisterGroup::Distributor => Some(View::Distributor),
        RegisterGroup::Redistributor | RegisterGroup::Interface => {
            frame_with(s, high_part(attribute))
        }
        RegisterGroup::Lines => lines_at(s, attribute),
    }
}

// ---- what a number names there

// Only the listed aligned words exist.
#[tactic(auto, unfolding(model::specs::Attributes::mapped, model::specs::Attributes::mapped_item))]
fn mapped_at(view: View, number: u64) -> Option<Item>
    ensures { result ≡ mapped view number }
{
    if number % 4 != 0 {
        return None;
    }
    let (register, k) = register_at(view, number)?;
    Some(Item::Mapped(view, register, k))
}

// Group 6: a register that guests read and write, of a vCPU.
#[tactic(auto, unfolding(model::specs::Attributes::system_item))]
fn system_at(view: View, number: u64) -> Option<Item>
    ensures { result ≡ system_item view (system number) }
{
    match register_of(number) {
        SystemRegister::Both(register) => Some(Item::System(view, register)),
        SystemRegister::Read(_) | SystemRegister::Write(_) | SystemRegister::Unnamed => None,
    }
}

// What a number names in a view, by its group; group 7 has 32 lines a word.
#[tactic(auto, unfolding(crate::specs::Names::item_at))]
fn item_at(q: RegisterGroup, view: View, number: u64) -> Option<Item>
    ensures { result ≡ item_at q view number }
{
    match q {
        RegisterGroup::Distributor | RegisterGroup::Redistributor => mapped_at(view, number),
        RegisterGroup::Interface => system_at(view, number),
        RegisterGroup::Lines => Some(Item::Mapped(
            view,
            Register::Bits(Flags::Lines),
            (number / 32) as usize,
        )),
    }
}

// ---- what an attribute names

// 14 not sound; 22 bad number; 22 no such affinity; 16 another phase; 6 unknown register.
#[tactic(auto, using(state::proofs::Admitted::inside, crate::proofs::Placing::naming), unfolding(crate::specs::Names::item_named, crate::specs::Names::named_by, model::specs::Calls::register_checks, model::specs::Refusals::first_failing))]
pub fn item_named(s: &State, q: RegisterGroup, attribute: u64) -> Result<Item, Errno>
    ensures { result ≡ item_named q attribute s.now }
{
    if !is_sound(s) {
        return Err(Errno::Efault);
    }
    if !number_ok(q, attribute) {
        return Err(Errno::Einval);
    }
    let view = place_of(s, q, attribute).ok_or(Errno::Einval)?;
    if !in_phase(s, Phase::Stopped) {
        return Err(Errno::Ebusy);
    }
    item_at(q, view, low_part(attribute)).ok_or(Errno::Enxio)
}
