// The candidates at a vCPU, and the best of them.
ghost use Rattle.std.specs.Prelude.{◌≡◌, ◌<◌, length};
ghost use Rattle.model.specs.Interface.{group_index, own_or_routed, group_on, rank, best};
ghost use Rattle.priority.specs.Asked.{Usable};
ghost use Rattle.priority.specs.Search.{ready_in, ready_mask, all_bits, routed};

use model::InterruptGroup;
use model::layout::{
    ACTIVE, BANK_LENGTH, COUNT, ENABLED, ENABLES, GROUP, IGRPEN0, PRIORITIES, ROUTES, State,
};
use model::values::{ID_SPAN, SPURIOUS};
use state::{Vcpu, affinity_of, bank_at, block_at, is_spi, wide};
use words::{byte_of, has_bit, pending_of, without_lowest};

// A rank is priority x ID_SPAN + ID; the rank of an interrupt is below RANKS.
pub const RANKS: u32 = 256 * ID_SPAN;

// It comes after every interrupt: its priority is 256, and its ID that of none.
const NOTHING: u32 = RANKS + SPURIOUS;

// Whether group `g` is enabled in distributor and CPU interface.
fn group_on(s: &State, v: Vcpu, g: InterruptGroup) -> bool
    ensures { result ≡ group_on s.now v.index (group_index g) }
{
    has_bit(s[ENABLES], g.index() as u32) & has_bit(s[block_at(v) + (IGRPEN0 + g.index())], 0)
}

// All 32 bits, or none.
fn all_bits(on: bool) -> u32
    ensures { result ≡ all_bits on }
{
    if on { 0xffff_ffff } else { 0 }
}

// Which interrupts of a bank are pending, enabled, not active and of an enabled group: `on0` and `on1` have all bits where group 0 or 1 is.
fn ready_in(bank: &[u32], on0: u32, on1: u32) -> u32
    requires { length bank.now ≡ 16 }
    ensures { result ≡ ready_in bank.now on0 on1 }
{
    let group = bank[GROUP];
    pending_of(bank) & bank[ENABLED] & !bank[ACTIVE] & ((group & on1) | (!group & on0))
}

// The same of the interrupts 32w to 32w + 31, as vCPU `v` sees them.
fn ready_mask(s: &State, v: Vcpu, w: usize, on0: u32, on1: u32) -> u32
    requires { w < 32 }
    ensures { result ≡ ready_mask s.now v.index w on0 on1 }
{
    let at = bank_at(v, w);
    ready_in(&s[at..at + BANK_LENGTH], on0, on1)
}

// Whether vCPU `v` is the one to take interrupt `id`: its own private, or an SPI routed to its affinity.
fn own_or_routed(s: &State, v: Vcpu, id: usize) -> bool
    requires { id < 1024 }
    ensures { result ≡ own_or_routed s.now v.index id }
{
    (id < 32) | (is_spi(s, id) & (s[ROUTES + id - 32] == affinity_of(s, v).0))
}

// The rank of an interrupt: the least is the best.
fn rank_of(s: &State, v: Vcpu, id: usize) -> u32
    requires { id < 1024 }
    ensures { result ≡ rank s.now v.index id }
{
    let word = s[bank_at(v, id / 32) + PRIORITIES + id % 32 / 4];
    byte_of(word, (id % 4) as u32) * ID_SPAN + id as u32
}

// The better of `best` and the ready interrupt `id`, where vCPU `v` is the one to take it. Its rank is looked at first: most are no better, whoever takes them.
fn better(s: &State, v: Vcpu, id: usize, best: u32) -> u32
    requires { id < 1024 }
    ensures { result ≡ routed s.now v.index id best }
{
    let found = rank_of(s, v, id);
    if found >= best {
        return best;
    }
    if own_or_routed(s, v, id) { found } else { best }
}

// The best candidate at vCPU `v` as its rank, or NOTHING: over the words, and in a word over the ready interrupts from the lowest.
// No later interrupt is better than one of priority 0: the search is left there.
pub fn find_best(s: &State, v: Vcpu) -> u32
    requires { Usable s.now v.index }
    ensures { result ≡ best s.now v.index }
{
    let words = wide(s[COUNT]) / 32;
    let on0 = all_bits(group_on(s, v, InterruptGroup::Group0));
    let on1 = all_bits(group_on(s, v, InterruptGroup::Group1));
    let mut best = NOTHING;
    'search: for w in 0..words {
        let mut ready = ready_mask(s, v, w, on0, on1);
        while ready != 0 {
            let id = 32 * w + u32::trailing_zeros(ready) as usize;
            best = better(s, v, id, best);
            if best < ID_SPAN {
                break 'search;
            }
            ready = without_lowest(ready);
        }
    }
    best
}
