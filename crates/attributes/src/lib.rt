// The attribute calls, of any group: get and set.
#![tactic(auto)]

mod item;
mod lookup;

ghost use Rattle.std.specs.Prelude.{◌≡◌, [], ◌∷◌, false, Err};
ghost use Rattle.model.specs.Sound.{sound};
ghost use Rattle.model.specs.Refusals.{first_failing, number};
ghost use Rattle.model.specs.Attributes.{group_of};
ghost use Rattle.model.specs.Calls.{Does, call, get_attribute, set_attribute};
ghost use Rattle.model.specs.declared.Errno.TheVariants.{Efault, Enxio};
ghost use Rattle.attributes.specs.Names.{group_number};

use item::{read_item, takes_value, write_item};
use lookup::item_named;
use model::layout::STATE_LENGTH;
use model::{AttributeGroup, Errno, RegisterGroup};
use state::is_sound;

// ---- groups

// The group that a number means.
#[tactic(auto, unfolding(model::specs::Attributes::group_of))]
fn group_of(group: u64) -> AttributeGroup
    ensures { result ≡ group_of group }
{
    match group {
        1 => AttributeGroup::Registers(RegisterGroup::Distributor),
        3 => AttributeGroup::Count,
        4 => AttributeGroup::Initialise,
        5 => AttributeGroup::Registers(RegisterGroup::Redistributor),
        6 => AttributeGroup::Registers(RegisterGroup::Interface),
        7 => AttributeGroup::Registers(RegisterGroup::Lines),
        _ => AttributeGroup::Unknown,
    }
}

// 14 not sound; 6 unknown group.
#[tactic(auto, unfolding(model::specs::Refusals::first_failing))]
fn unknown_group(s: &[u32]) -> Errno
    ensures { Err result ≡ first_failing ((sound s.now, Efault) ∷ (false, Enxio) ∷ []) }
{
    if !is_sound(s) {
        return Errno::Efault;
    }
    Errno::Enxio
}

// ---- the groups that name registers

// Gets a register.
fn get_register(s: &[u32], q: RegisterGroup, attribute: u64) -> Result<u32, Errno>
    ensures { Does (call (get_attribute (group_number q) attribute) s.now) (number result) s.now [] }
{
    let Some(s) = s.as_array::<STATE_LENGTH>() else {
        return Err(Errno::Efault);
    };
    Ok(read_item(s, item_named(s, q, attribute)?))
}

// Sets a register: 22 a bad value, after what a get is refused for.
fn set_register(s: &mut [u32], q: RegisterGroup, attribute: u64, value: u64) -> Result<u32, Errno>
    ensures { Does (call (set_attribute (group_number q) attribute value) s.old) (number result) s.new [] }
{
    let Some(s) = s.as_mut_array::<STATE_LENGTH>() else {
        return Err(Errno::Efault);
    };
    let item = item_named(s, q, attribute)?;
    if !takes_value(item, value) {
        return Err(Errno::Einval);
    }
    write_item(s, item, value);
    Ok(0)
}

// ---- the calls

// Gets an attribute.
#[tactic(auto, using(crate::proofs::Groups::grouped), unfolding(model::specs::Calls::settle, model::specs::Calls::describe))]
pub fn get(s: &[u32], group: u64, attribute: u64) -> Result<u32, Errno>
    ensures { Does (call (get_attribute group attribute) s.now) (number result) s.now [] }
{
    match group_of(group) {
        AttributeGroup::Registers(q) => get_register(s, q, attribute),
        AttributeGroup::Count => setup::get_count(s, attribute),
        AttributeGroup::Initialise => setup::get_initialise(s, attribute),
        AttributeGroup::Unknown => Err(unknown_group(s)),
    }
}

// Sets an attribute.
#[tactic(auto, using(crate::proofs::Groups::grouped), unfolding(model::specs::Calls::settle, model::specs::Calls::describe))]
pub fn set(s: &mut [u32], group: u64, attribute: u64, value: u64) -> Result<u32, Errno>
    ensures { Does (call (set_attribute group attribute value) s.old) (number result) s.new [] }
{
    match group_of(group) {
        AttributeGroup::Registers(q) => set_register(s, q, attribute, value),
        AttributeGroup::Count => setup::set_count(s, attribute, value),
        AttributeGroup::Initialise => setup::initialise(s, attribute, value),
        AttributeGroup::Unknown => Err(unknown_group(s)),
    }
}
