// What an attribute names, read and written: a word of a memory-mapped register, or a system register of a vCPU.
ghost use Rattle.std.specs.Prelude.{◌≡◌, true, ◌&&◌, ◌^◌, ltb, Some};
ghost use Rattle.model.specs.Interface.{plain_takes};
ghost use Rattle.model.specs.Attributes.{register_takes, takes, item_read, item_write};
ghost use Rattle.model.specs.declared.Plain.TheVariants.{Ctlr};
ghost use Rattle.attributes.specs.Names.{Within};

use model::layout::State;
use model::values::{ICC_CTLR_BITS, ICC_CTLR_FIXED, ICC_SRE, IIDR};
use model::{By, Item, Plain, Register};
use registers::{read_word, seen_by, write_word};
use state::Vcpu;
use system::plain::{read_plain, write_plain};
use words::is_within;

// ---- values

// An IIDR takes its own value only.
#[tactic(auto, unfolding(model::specs::Attributes::register_takes))]
fn register_takes(register: Register, value: u64) -> bool
    ensures { result ≡ register_takes register value }
{
    match register {
        Register::Iidr => value == u64::from(IIDR),
        _ => true,
    }
}

// CTLR takes its fixed bits with any of those that it keeps.
#[tactic(auto, using(model::proofs::Within::fits_le), unfolding(model::specs::Interface::plain_takes))]
fn control_takes(value: u64) -> bool
    ensures { result ≡ plain_takes Ctlr value }
{
    let fixed = u64::from(ICC_CTLR_FIXED);
    if !(fixed..0x1_0000_0000).contains(&value) {
        return false;
    }
    is_within((value - fixed) as u32, ICC_CTLR_BITS)
}

// CTLR and SRE take a value that they may read.
#[tactic(auto, unfolding(model::specs::Interface::plain_takes))]
fn plain_takes(register: Plain, value: u64) -> bool
    ensures { result ≡ plain_takes register value }
{
    match register {
        Plain::Ctlr => control_takes(value),
        Plain::Sre => value == u64::from(ICC_SRE),
        _ => true,
    }
}

// A word's value is not above 2^32 - 1, and no other IIDR.
fn word_takes(register: Register, value: u64) -> bool
    ensures { result ≡ (ltb value (2 ^ 32) && register_takes register value) }
{
    (value < 0x1_0000_0000) & register_takes(register, value)
}

// Whether a set may have the value.
#[tactic(auto, unfolding(model::specs::Attributes::takes))]
pub fn takes_value(item: Item, value: u64) -> bool
    ensures { result ≡ takes (Some item) value }
{
    match item {
        Item::Mapped(_, register, _) => word_takes(register, value),
        Item::System(_, register) => plain_takes(register, value),
    }
}

// ---- reading and writing

// What a get gives.
#[tactic(auto, unfolding(model::specs::Attributes::item_read))]
pub fn read_item(s: &State, item: Item) -> u32
    requires { Within s.now item }
    ensures { result ≡ item_read s.now (Some item) }
{
    match item {
        Item::Mapped(view, register, k) => read_word(s, By::Attribute, view, register, k),
        Item::System(view, register) => {
            read_plain(s, By::Attribute, Vcpu::at(seen_by(view)), register)
        }
    }
}

// Writes a value that the item takes.
#[tactic(auto, using(crate::proofs::Items::value_fits), unfolding(model::specs::Attributes::item_write))]
pub fn write_item(s: &mut State, item: Item, value: u64)
    requires { Within s.old item × (takes (Some item) value ≡ true) }
    ensures { s.new ≡ item_write s.old (Some item) value }
{
    match item {
        Item::Mapped(view, register, k) => {
            write_word(s, By::Attribute, view, register, k, value as u32)
        }
        Item::System(view, register) => {
            write_plain(s, By::Attribute, Vcpu::at(seen_by(view)), register, value)
        }
    }
}
