// Group priority, the running level, the signal, and acknowledge.
ghost use Rattle.std.specs.Prelude.{◌≡◌, true, false, ◌/◌, ◌<◌, ◌≤◌};
ghost use Rattle.model.specs.Words.{bit};
ghost use Rattle.model.specs.Layout.{word, apr_at, latch_field, active_field};
ghost use Rattle.model.specs.Interrupts.{group, set_flag};
ghost use Rattle.model.specs.Interface.{group_index, cleared_bits, group_priority, running_level, running_priority, of_group, gives, set_level, highest_pending, signal};
ghost use Rattle.priority.specs.Asked.{Usable};
ghost use Rattle.priority.specs.Settled.{Acknowledges};

use crate::search::{RANKS, find_best};
use model::layout::{ACTIVE, AP0R, AP1R, BPR0, BPR1, GROUP, LATCH, PMR, State};
use model::values::{ID_SPAN, SPURIOUS};
use model::{Errno, InterruptGroup};
use state::{Vcpu, bank_at, block_at, put_flag, put_in_block};
use words::{clear_low, has_bit, lowest_of, with_bit};

// ---- group priority and running level

// How many low bits group `g`'s binary point clears: BPR0 + 1, or BPR1.
fn cleared_bits(s: &State, v: Vcpu, g: InterruptGroup) -> u32
    requires { Usable s.now v.index }
    ensures { (result ≡ cleared_bits s.now v.index (group_index g)) × (result ≤ 8) }
{
    let block = block_at(v);
    match g {
        InterruptGroup::Group0 => s[block + BPR0] + 1,
        InterruptGroup::Group1 => s[block + BPR1],
    }
}

// The group priority of priority `p`.
fn group_priority(s: &State, v: Vcpu, g: InterruptGroup, p: u32) -> u32
    requires { Usable s.now v.index }
    ensures { (result ≡ group_priority s.now v.index (group_index g) p) × (result ≤ p) }
{
    clear_low(p, cleared_bits(s, v, g))
}

// The lowest set bit of AP0R and AP1R: 32 when idle.
pub fn running_level(s: &State, v: Vcpu) -> u32
    ensures { (result ≡ running_level s.now v.index) × (result ≤ 32) }
{
    let block = block_at(v);
    lowest_of(s[block + AP0R], s[block + AP1R])
}

// 8 x the running level, or 255: RPR.
pub fn running_priority(s: &State, v: Vcpu) -> u32
    ensures { result ≡ running_priority s.now v.index }
{
    let level = running_level(s, v);
    if level < 32 { 8 * level } else { 255 }
}

// Whether bit `level` of AP`g`R is set; no register has bit 32.
pub fn has_level(s: &State, v: Vcpu, g: InterruptGroup, level: u32) -> bool
    requires { level ≤ 32 }
    ensures { result ≡ bit (word s.now (apr_at v.index (group_index g))) level }
{
    if level == 32 {
        return false;
    }
    has_bit(s[block_at(v) + (AP0R + g.index())], level)
}

// Makes bit `level` of AP`g`R `on`.
pub fn put_level(s: &mut State, v: Vcpu, g: InterruptGroup, level: u32, on: bool)
    requires { level < 32 }
    ensures { s.new ≡ set_level on v.index (group_index g) level s.old }
{
    let k = AP0R + g.index();
    let levels = with_bit(s[block_at(v) + k], level, on);
    put_in_block(s, v, k, levels);
}

// ---- what the best `b`, a rank, is to a group

// Whether interrupt `id` is in group 1.
pub fn in_group1(s: &State, v: Vcpu, id: usize) -> bool
    requires { id < 1024 }
    ensures { result ≡ group s.now v.index id }
{
    has_bit(s[bank_at(v, id / 32) + GROUP], (id % 32) as u32)
}

// Whether `b` is an interrupt of group `g`.
fn of_group(s: &State, v: Vcpu, g: usize, b: u32) -> bool
    ensures { result ≡ of_group s.now v.index g b }
{
    let group = in_group1(s, v, (b % ID_SPAN) as usize) as usize;
    (b < RANKS) & (group == g)
}

// Whether an acknowledge in group `g` gives `b`: of group `g`, its priority below PMR, its group priority below the running one.
fn is_given(s: &State, v: Vcpu, g: InterruptGroup, b: u32) -> bool
    requires { Usable s.now v.index }
    ensures { result ≡ gives s.now v.index (group_index g) b }
{
    let p = b / ID_SPAN;
    let level = running_level(s, v);
    of_group(s, v, g.index(), b)
        & (p < s[block_at(v) + PMR])
        & (group_priority(s, v, g, p) < 8 * level)
}

// ---- the highest pending, the signal, and acknowledge

// The best's ID if of group `g`, else that of none: HPPIR`g`.
pub fn highest_pending(s: &State, v: Vcpu, g: usize) -> u32
    requires { Usable s.now v.index }
    ensures { result ≡ highest_pending s.now v.index g }
{
    let b = find_best(s, v);
    if of_group(s, v, g, b) {
        b % ID_SPAN
    } else {
        SPURIOUS
    }
}

// 1 if an acknowledge in group 1, 2 if one in group 0 would give an interrupt, else 0.
pub fn signal(s: &State, v: Vcpu) -> u32
    requires { Usable s.now v.index }
    ensures { result ≡ signal s.now v.index }
{
    let b = find_best(s, v);
    if is_given(s, v, InterruptGroup::Group1, b) {
        return 1;
    }
    if is_given(s, v, InterruptGroup::Group0, b) {
        2
    } else {
        0
    }
}

// Clears the latch of interrupt `id`, and not its line: a level interrupt stays pending while its line is high.
fn clear_latch(s: &mut State, v: Vcpu, id: usize)
    requires { id < 1024 }
    ensures { s.new ≡ set_flag latch_field false v.index id s.old }
{
    put_flag(s, LATCH, false, v, id);
}

// Makes interrupt `id` active, clears its latch, and sets bit `level` of AP`g`R.
fn take(s: &mut State, v: Vcpu, g: InterruptGroup, id: usize, level: u32)
    requires { (id < 1024) × (level < 32) }
    ensures { s.new ≡ set_level true v.index (group_index g) level (set_flag latch_field false v.index id (set_flag active_field true v.index id s.old)) }
{
    put_flag(s, ACTIVE, true, v, id);
    clear_latch(s, v, id);
    put_level(s, v, g, level, true);
}

// Acknowledges in group `g`: the ID of none where nothing is given; refused where the active-priority bit is set already; else the ID, which is taken. IAR`g`.
pub fn acknowledge(s: &mut State, v: Vcpu, g: InterruptGroup) -> Result<u32, Errno>
    requires { Usable s.old v.index }
    ensures { Acknowledges (group_index g) v.index s.old result s.new }
{
    let b = find_best(s, v);
    if !is_given(s, v, g, b) {
        return Ok(SPURIOUS);
    }
    let level = group_priority(s, v, g, b / ID_SPAN) / 8;
    if has_level(s, v, g, level) {
        return Err(Errno::Eio);
    }
    take(s, v, g, (b % ID_SPAN) as usize, level);
    Ok(b % ID_SPAN)
}
