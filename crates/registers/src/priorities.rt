// IPRIORITYR: four priorities to a word.
ghost use Rattle.std.specs.Prelude.{◌≡◌, ◌*◌, ◌/◌, ◌%◌, ◌<◌};
ghost use Rattle.model.specs.Words.{gather};
ghost use Rattle.model.specs.Layout.{most_vcpus, count};
ghost use Rattle.model.specs.Registers.{banks, seen_by, read_priority, write_priority};
ghost use Rattle.registers.specs.Words.{priorities_meant, names, Byte};

use crate::views::{Bank, has_id};
use model::View;
use model::layout::{PRIORITIES, State};
use words::{byte_mask, priority_under};

// The bytes of a word that an access names.
#[derive(Clone, Copy)]
pub enum Bytes {
    All,
    One(u32),
}

// The mask of the priorities of the interrupts 4k to 4k + 3 that a view has: all or none.
#[tactic(auto, using(crate::proofs::Meant::four))]
fn priorities_meant(s: &State, view: View, k: usize) -> u32
    requires in_steps { count s.now % 32 ≡ 0 }
    requires has_word { k < 8 * banks view }
    ensures { result ≡ priorities_meant s.now view k }
{
    if has_id(s, view, 4 * k) {
        0xffff_ffff
    } else {
        0
    }
}

// The mask of the bytes that an access names.
#[tactic(auto, unfolding(crate::specs::Words::names, model::specs::Words::gather, words::specs::Words::byte_mask))]
fn bytes_named(bytes: Bytes) -> u32
    requires { Byte bytes }
    ensures { result ≡ gather 32 (λ i. names bytes (i / 8)) }
{
    match bytes {
        Bytes::All => 0xffff_ffff,
        Bytes::One(b) => byte_mask(b),
    }
}

// Word `k` of IPRIORITYR.
#[tactic(auto, using(crate::proofs::Banks::reads))]
pub fn read_priority(s: &State, view: View, k: usize) -> u32
    requires in_steps { count s.now % 32 ≡ 0 }
    requires has_block { seen_by view < most_vcpus }
    requires has_word { k < 8 * banks view }
    ensures { result ≡ read_priority s.now view k }
{
    let bank = Bank { view, k: k / 8 };
    s[bank.start() + PRIORITIES + k % 8] & priorities_meant(s, view, k)
}

// Writes bytes of word `k` of IPRIORITYR.
#[tactic(auto, using(crate::proofs::Banks::writes))]
pub fn write_priority(s: &mut State, view: View, bytes: Bytes, k: usize, x: u32)
    requires in_steps { count s.old % 32 ≡ 0 }
    requires has_block { seen_by view < most_vcpus }
    requires has_word { k < 8 * banks view }
    requires one_of_four { Byte bytes }
    ensures { s.new ≡ write_priority s.old view (names bytes) k x }
{
    let bank = Bank { view, k: k / 8 };
    let m = bytes_named(bytes) & priorities_meant(s, view, k);
    let old = s[bank.start() + PRIORITIES + k % 8];
    let new = priority_under(old, x, m);
    bank.put(s, PRIORITIES + k % 8, new);
}
