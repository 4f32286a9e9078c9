// The registers with a bit for each of 32 interrupts.
ghost use Rattle.std.specs.Prelude.{◌≡◌, ◌%◌, ◌<◌, length};
ghost use Rattle.model.specs.Layout.{count};
ghost use Rattle.model.specs.Registers.{FlagRow, flag_row, flags, shown_to, rule_for, read_flags, write_flags};
ghost use Rattle.registers.specs.Words.{flags_meant, shown_in};

use crate::views::Bank;
use model::Rule::{self, Clears, Ignores, Replaces, Sets};
use model::Shown::{self, Flag, Nothing, Pending};
use model::layout::{ACTIVE, BANK_LENGTH, ENABLED, GROUP, LATCH, LINE, State};
use model::values::FLAG_BITS;
use model::{By, Flags};
use std::marker::Model;
use words::{pending_of, written_under};

// ---- their table

// A row: the place of the flag in a bank, the least ID that has it, and how the guest and an attribute read and write it.
#[derive(Drop)]
struct Row {
    field: usize,
    from: usize,
    guest_shows: Shown,
    guest_rule: Rule,
    attribute_shows: Shown,
    attribute_rule: Rule,
}

// Contracts see it as the definitions' row.
impl Model for Row {
    ghost Value = { FlagRow };

    ghost view = { λ r. flag_row r.field r.from r.guest_shows r.guest_rule r.attribute_shows r.attribute_rule };

    ghost invariant = { λ r. (r.field < 16) × (r.from < 32) };
}

impl Row {
    fn new(field: usize, from: usize, guest: (Shown, Rule), attribute: (Shown, Rule)) -> Self
        requires field_in { field < 16 }
        requires from_in { from < 32 }
        ensures { result ≡ flag_row field from guest.0 guest.1 attribute.0 attribute.1 }
    {
        let (guest_shows, guest_rule) = guest;
        let (attribute_shows, attribute_rule) = attribute;
        Row {
            field,
            from,
            guest_shows,
            guest_rule,
            attribute_shows,
            attribute_rule,
        }
    }

    // What a register shows of it, to a guest or by attribute.
    #[tactic(auto, unfolding(model::specs::Registers::shown_to))]
    fn shown_to(&self, by: By) -> Shown
        ensures { result ≡ shown_to by self.now }
    {
        match by {
            By::Guest => self.guest_shows,
            By::Attribute => self.attribute_shows,
        }
    }

    // What a bit written to a register does to it, by a guest or by attribute.
    #[tactic(auto, unfolding(model::specs::Registers::rule_for))]
    fn rule_for(&self, by: By) -> Rule
        ensures { result ≡ rule_for by self.now }
    {
        match by {
            By::Guest => self.guest_rule,
            By::Attribute => self.attribute_rule,
        }
    }
}

// The row of a register: what it shows the guest and how the guest writes it, then the same for an attribute.
#[tactic(auto, unfolding(model::specs::Registers::flags))]
fn row_of(f: Flags) -> Row
    ensures { result ≡ flags f }
{
    match f {
        Flags::Group => Row::new(GROUP, 0, (Flag, Replaces), (Flag, Replaces)),
        Flags::SetEnable => Row::new(ENABLED, 0, (Flag, Sets), (Flag, Sets)),
        Flags::ClearEnable => Row::new(ENABLED, 0, (Flag, Clears), (Flag, Clears)),
        Flags::SetPending => Row::new(LATCH, 0, (Pending, Sets), (Flag, Replaces)),
        Flags::ClearPending => Row::new(LATCH, 0, (Pending, Clears), (Nothing, Ignores)),
        Flags::SetActive => Row::new(ACTIVE, 0, (Flag, Sets), (Flag, Sets)),
        Flags::ClearActive => Row::new(ACTIVE, 0, (Flag, Clears), (Flag, Clears)),
        Flags::Lines => Row::new(LINE, 16, (Nothing, Ignores), (Flag, Replaces)),
    }
}

// ---- reading and writing

// Of the interrupts of a bank that the view has, the mask of those from `from` on: 0, or 16 for lines, which SGIs do not have.
#[tactic(auto, using(crate::proofs::Meant::least))]
fn flags_meant(s: &State, bank: Bank, from: usize) -> u32
    requires in_steps { count s.now % 32 ≡ 0 }
    requires from_in { from < 32 }
    ensures { result ≡ flags_meant s.now bank.view from bank.k }
{
    let all = bank.interrupts(s);
    if bank.k == 0 {
        all & (FLAG_BITS << (from as u32))
    } else {
        all
    }
}

// What is shown of the flags in word `k` of a bank.
#[tactic(auto, unfolding(crate::specs::Words::shown_in))]
fn shown_in(words: &[u32], shown: Shown, k: usize) -> u32
    requires whole { length words.now ≡ 16 }
    requires word_in { k < 16 }
    ensures { result ≡ shown_in shown k words.now }
{
    match shown {
        Shown::Nothing => 0,
        Shown::Flag => words[k],
        Shown::Pending => pending_of(words),
    }
}

// The word of a register of flags for the interrupts of a bank.
#[tactic(auto, using(crate::proofs::Banks::reads))]
pub fn read_flags(s: &State, by: By, bank: Bank, f: Flags) -> u32
    requires { count s.now % 32 ≡ 0 }
    ensures { result ≡ read_flags s.now bank.view (flags f).field (flags f).from (shown_to by (flags f)) bank.k }
{
    let row = row_of(f);
    let at = bank.start();
    let shown = shown_in(&s[at..at + BANK_LENGTH], row.shown_to(by), row.field);
    shown & flags_meant(s, bank, row.from)
}

// Writes that word.
#[tactic(auto, using(crate::proofs::Banks::writes))]
pub fn write_flags(s: &mut State, by: By, bank: Bank, f: Flags, x: u32)
    requires { count s.old % 32 ≡ 0 }
    ensures { s.new ≡ write_flags s.old bank.view (flags f).field (flags f).from (rule_for by (flags f)) bank.k x }
{
    let row = row_of(f);
    let m = flags_meant(s, bank, row.from);
    let old = s[bank.start() + row.field];
    let new = written_under(row.rule_for(by), old, x, m);
    bank.put(s, row.field, new);
}
