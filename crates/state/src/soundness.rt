// The test whether the words are a sound state, and whether it is fresh.
ghost use Rattle.std.specs.Prelude.{◌≡◌, true, [], ◌∷◌, ◌+◌, ◌-◌, ◌%◌, ◌≤◌, ◌<◌, length};
ghost use Rattle.model.specs.Words.{all_below, every};
ghost use Rattle.model.specs.Layout.{state_length, most_vcpus, vcpus};
ghost use Rattle.model.specs.Sound.{used_bits, fresh_bits, fits, word_ok, setup, vcpu_ok, sound, fresh};
ghost use Rattle.state.specs.Clear.{Apart, Clear, Joins};

use crate::lookup::{Vcpu, affinity_of, is_count, is_unused, wide};
use crate::masks;
use crate::parts::block_at;
use model::layout::{
    BANK_LENGTH, BANKS, BLOCK_LENGTH, BLOCKS, BPR0, BPR1, COUNT, EDGES, INITIALISED, LEAST_BPR0,
    LEAST_BPR1, MOST_VCPUS, ROUTES, STATE_LENGTH, State, VCPUS,
};
use model::values::EDGE_BITS;

// ---- the set-up and the vCPUs

// The mark is 0 or 1, there are at most eight vCPUs, the count is unset or valid; once initialised there are a count and a vCPU.
fn setup_ok(initialised: usize, count: usize, n: usize) -> bool
    ensures { result ≡ setup initialised count n }
{
    let counted = is_count(count as u64);
    (initialised <= 1)
        & (n <= MOST_VCPUS)
        & ((count == 0) | counted)
        & ((initialised == 0) | (counted & (1 <= n)))
}

// The SGIs of vCPU `v` are edge, BPR0 and BPR1 have at least their least values, and no earlier vCPU has its affinity.
fn vcpu_ok(s: &State, v: Vcpu) -> bool
    ensures { result ≡ vcpu_ok s.now v.index }
{
    let block = block_at(v);
    let unused = is_unused(s, affinity_of(s, v), v.index);
    (s[block + EDGES] == EDGE_BITS)
        & (LEAST_BPR0 <= s[block + BPR0])
        & (LEAST_BPR1 <= s[block + BPR1])
        & unused
}

// The same for each of `n` vCPUs.
fn vcpus_ok(s: &State, n: usize) -> bool
    requires { n ≤ most_vcpus }
    ensures { result ≡ all_below (vcpu_ok s.now) n }
{
    let mut ok = true;
    for v in 0..n {
        ok &= vcpu_ok(s, Vcpu { index: v });
    }
    ok
}

// ---- the bits of every word

// The bits that the words of `s` from `at` on share with those of `row`, joined.
fn misfit_row(s: &State, at: usize, row: &[u32]) -> u32
    requires { at + length row.now ≤ state_length }
    ensures { Clear (Apart s.now row.now at) at (at + length row.now) result }
{
    let mut joined: u32 = 0;
    for (j, bits) in row.iter().enumerate() {
        joined |= s[at + j] & bits;
    }
    joined
}

// The same from `a` up to `e`, a row after the other. No branch in the loops: LLVM unrolls the row and makes vector code of it.
fn misfit(s: &State, a: usize, e: usize, row: &[u32]) -> u32
    requires { (a ≤ e) × (e ≤ state_length) × ((e - a) % length row.now ≡ 0) }
    ensures { Clear (Apart s.now row.now a) a e result }
{
    let mut joined: u32 = 0;
    let mut i = a;
    while i < e {
        joined |= misfit_row(s, i, row);
        i += row.len();
    }
    joined
}

// The words of `s` from `a` up to `e`, joined: two halves in one loop, of which LLVM makes vector code with twice the words to a turn.
fn join_words(s: &State, a: usize, e: usize) -> u32
    requires { (a ≤ e) × (e ≤ state_length) × ((e - a) % 2 ≡ 0) }
    ensures { Joins s.now a e result }
{
    let half = (e - a) / 2;
    let b = a + half;
    let mut low: u32 = 0;
    let mut high: u32 = 0;
    for i in 0..half {
        low |= s[a + i];
        high |= s[b + i];
    }
    low | high
}

// The bits that the words from `a` up to `e` share with `bits`, the same for each of them, joined.
fn misfit_words(s: &State, a: usize, e: usize, bits: u32) -> u32
    requires { (a ≤ e) × (e ≤ state_length) × ((e - a) % 2 ≡ 0) }
    ensures { Clear (Apart s.now (bits ∷ []) a) a e result }
{
    join_words(s, a, e) & bits
}

// Each word has only the bits that it may have in an initialised device.
fn used_fits(s: &State, count: usize, n: usize) -> bool
    requires { (64 ≤ count) × (count ≤ 1024) × (count % 32 ≡ 0) × (n ≤ most_vcpus) }
    ensures { result ≡ every (λ k w. fits w (used_bits count n k)) 0 s.now }
{
    // 1 where the interrupts from 992 on exist, but for the last four: their bank has a row of its own.
    let last = count / 1024;
    let blocks_end = BLOCKS + BLOCK_LENGTH * n;
    let banks_end = BANKS + BANK_LENGTH * (count / 32 - 1 - last);
    let last_end = banks_end + BANK_LENGTH * last;
    let routes_end = ROUTES + (count - 32 - 4 * last);
    let joined = misfit(s, 0, BLOCKS, &masks::HEADER)
        | misfit(s, BLOCKS, blocks_end, &masks::BLOCK)
        | misfit_words(s, blocks_end, BANKS, masks::ABSENT)
        | misfit(s, BANKS, banks_end, &masks::BANK)
        | misfit(s, banks_end, last_end, &masks::LAST_BANK)
        | misfit_words(s, last_end, ROUTES, masks::ABSENT)
        | misfit_words(s, ROUTES, routes_end, masks::ROUTE)
        | misfit_words(s, routes_end, STATE_LENGTH, masks::ABSENT);
    joined == 0
}

// Each word has only the bits that it may have in a fresh device.
fn fresh_fits(s: &State, n: usize) -> bool
    requires { n ≤ most_vcpus }
    ensures { result ≡ every (λ k w. fits w (fresh_bits n k)) 0 s.now }
{
    let blocks_end = BLOCKS + BLOCK_LENGTH * n;
    let joined = misfit(s, 0, BLOCKS, &masks::FRESH_HEADER)
        | misfit(s, BLOCKS, blocks_end, &masks::FRESH_BLOCK)
        | misfit_words(s, blocks_end, STATE_LENGTH, masks::ABSENT);
    joined == 0
}

// ---- the whole state

// Whether the device is just initialised.
pub fn is_fresh(s: &State) -> bool
    requires { vcpus s.now ≤ most_vcpus }
    ensures { result ≡ fresh s.now }
{
    let fits = fresh_fits(s, s[VCPUS] as usize);
    (s[INITIALISED] == 1) & fits
}

// Each word has only the bits that it may have: the fresh ones before initialising.
fn words_fit(s: &State, initialised: usize, count: usize, n: usize) -> bool
    requires { setup initialised count n ≡ true }
    ensures { result ≡ every (word_ok initialised count n) 0 s.now }
{
    if initialised == 0 {
        fresh_fits(s, n)
    } else {
        used_fits(s, count, n)
    }
}

// The words are a sound state.
pub fn is_sound(s: &[u32]) -> bool
    ensures { result ≡ sound s.now }
{
    let Some(s) = s.as_array() else {
        return false;
    };
    let initialised = wide(s[INITIALISED]);
    let count = wide(s[COUNT]);
    let n = wide(s[VCPUS]);
    if !setup_ok(initialised, count, n) {
        return false;
    }
    vcpus_ok(s, n) & words_fit(s, initialised, count, n)
}
