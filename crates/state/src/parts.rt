// The parts of the state that are lent on as `&mut`: a vCPU's block, a bank, a route; their places, and the stores into them.
ghost use Rattle.std.specs.Prelude.{◌≡◌, ◌+◌, ◌*◌, ◌≤◌, ◌<◌, length, set};
ghost use Rattle.model.specs.Layout.{block, bank, route_at};
ghost use Rattle.model.specs.Interrupts.{set_flag};

use crate::lookup::Vcpu;
use model::layout::{BANK_LENGTH, BANKS, BLOCK_LENGTH, BLOCKS, ROUTES, State};
use words::with_bit;

// ---- places

// Where the block of vCPU `v` starts.
pub fn block_at(v: Vcpu) -> usize
    ensures { (result ≡ block v.index) × (result + 32 ≤ 272) }
{
    BLOCKS + BLOCK_LENGTH * v.index
}

// Where the bank of the SPIs 32w to 32w + 31 starts.
pub fn spi_bank_at(w: usize) -> usize
    requires { w < 32 }
    ensures { (result ≡ 256 + 16 * w) × (result + 16 ≤ 768) }
{
    BANKS - BANK_LENGTH + BANK_LENGTH * w
}

// Where the bank of the interrupts 32w to 32w + 31 starts, as vCPU `v` sees it.
pub fn bank_at(v: Vcpu, w: usize) -> usize
    requires { w < 32 }
    ensures { (result ≡ bank v.index w) × (result + 16 ≤ 768) }
{
    if w == 0 { block_at(v) } else { spi_bank_at(w) }
}

// ---- stores

// Stores word `j` of a part that is lent.
fn store(part: &mut [u32], j: usize, x: u32)
    requires { j < length part.old }
    ensures { part.new ≡ set part.old j x }
{
    part[j] = x;
}

// Stores word `j` of the `n` words from `at` on, which are lent on.
fn store_in(s: &mut [u32], at: usize, n: usize, j: usize, x: u32)
    requires { (at + n ≤ length s.old) × (j < n) }
    ensures { s.new ≡ set s.old (at + j) x }
{
    store(&mut s[at..at + n], j, x);
}

// Stores word `j` of the block of vCPU `v`, after its bank.
pub fn put_in_block(s: &mut State, v: Vcpu, j: usize, x: u32)
    requires { (16 ≤ j) × (j < 32) }
    ensures { s.new ≡ set s.old (block v.index + j) x }
{
    store_in(s, block_at(v), BLOCK_LENGTH, j, x);
}

// Every store that concerns an interrupt, into a bank or a route, is made here.
pub fn store_of_interrupts(s: &mut [u32], at: usize, n: usize, j: usize, x: u32)
    requires { (at + n ≤ length s.old) × (j < n) }
    ensures { s.new ≡ set s.old (at + j) x }
{
    store_in(s, at, n, j, x);
}

// Stores word `j` of the bank of the interrupts 32w to 32w + 31, as vCPU `v` sees it.
pub fn put_in_bank(s: &mut State, v: Vcpu, w: usize, j: usize, x: u32)
    requires { (w < 32) × (j < 16) }
    ensures { s.new ≡ set s.old (bank v.index w + j) x }
{
    store_of_interrupts(s, bank_at(v, w), BANK_LENGTH, j, x);
}

// Stores the route of the SPI `id`.
pub fn put_route(s: &mut State, id: usize, x: u32)
    requires { (32 ≤ id) × (id < 1020) }
    ensures { s.new ≡ set s.old (route_at id) x }
{
    store_of_interrupts(s, ROUTES + (id - 32), 1, 0, x);
}

// Makes the flag in word `k` of the bank of interrupt `id`, as vCPU `v` sees it, `on`.
pub fn put_flag(s: &mut State, k: usize, on: bool, v: Vcpu, id: usize)
    requires { (k < 16) × (id < 1024) }
    ensures { s.new ≡ set_flag k on v.index id s.old }
{
    let w = id / 32;
    let old = s[bank_at(v, w) + k];
    put_in_bank(s, v, w, k, with_bit(old, (id % 32) as u32, on));
}
