// ICFGR: the edge flags of sixteen interrupts to a word.
ghost use Rattle.std.specs.Prelude.{◌≡◌, ◌+◌, ◌*◌, ◌%◌, ◌<◌};
ghost use Rattle.model.specs.Layout.{most_vcpus, count};
ghost use Rattle.model.specs.Registers.{banks, seen_by, read_config, write_config};
ghost use Rattle.registers.specs.Words.{edges_meant, edges_under};

use crate::views::Bank;
use model::View;
use model::layout::{EDGES, State};
use model::values::EDGE_BITS;
use words::{config_of, edges_of, replace_under};

// The mask of those of the interrupts of half a bank that the view has: the first sixteen, or the last.
#[tactic(auto, using(crate::proofs::Meant::half_of))]
fn edges_meant(s: &State, bank: Bank, half: usize) -> u32
    requires in_steps { count s.now % 32 ≡ 0 }
    requires half_in { half < 2 }
    ensures { result ≡ edges_meant s.now bank.view (2 * bank.k + half) }
{
    let all = bank.interrupts(s);
    if half == 0 {
        all & EDGE_BITS
    } else {
        all >> 16
    }
}

// Word `k` of ICFGR.
#[tactic(auto, using(crate::proofs::Banks::reads))]
pub fn read_config(s: &State, view: View, k: usize) -> u32
    requires in_steps { count s.now % 32 ≡ 0 }
    requires has_block { seen_by view < most_vcpus }
    requires has_word { k < 2 * banks view }
    ensures { result ≡ read_config s.now view k }
{
    let bank = Bank { view, k: k / 2 };
    let half = k % 2;
    config_of(s[bank.start() + EDGES + half] & edges_meant(s, bank, half))
}

// Sixteen edge flags `w`, after the bits `e` are written to those that the mask `m` names.
fn edges_under(w: u32, e: u32, m: u32) -> u32
    ensures { result ≡ edges_under w e m }
{
    replace_under(w, e, m) & EDGE_BITS
}

// Writes word `k` of ICFGR; latch and line are kept.
#[tactic(auto, using(crate::proofs::Banks::writes))]
pub fn write_config(s: &mut State, view: View, k: usize, x: u32)
    requires in_steps { count s.old % 32 ≡ 0 }
    requires has_block { seen_by view < most_vcpus }
    requires has_word { k < 2 * banks view }
    ensures { s.new ≡ write_config s.old view k x }
{
    let bank = Bank { view, k: k / 2 };
    let half = k % 2;
    let m = edges_meant(s, bank, half);
    let old = s[bank.start() + EDGES + half];
    let new = edges_under(old, edges_of(x), m);
    bank.put(s, EDGES + half, new);
}
