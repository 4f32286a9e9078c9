// Functions on words of 32 bits. Each contract cites a definition by bits or bytes.
#![tactic(auto)]

ghost use Rattle.std.specs.Prelude.{◌≡◌, ◌||◌, ◌*◌, ◌/◌, ◌^◌, ◌<◌, ◌≤◌, length};
ghost use Rattle.model.specs.Words.{bit, with_bit, spread, lowest, masked};
ghost use Rattle.model.specs.Sound.{fits};
ghost use Rattle.model.specs.declared.Rule.TheVariants.{Replaces, Sets, Clears};
ghost use Rattle.words.specs.Words.{under, priority_under, byte_of, byte_shifted, byte_mask, collect, pending_word, pending_in, rest};

use model::Rule;
use model::layout::{EDGES, LATCH, LINE};
use model::values::PRIORITY_BITS;

// ---- one bit

// Whether bit i of w is set.
pub fn has_bit(w: u32, i: u32) -> bool
    requires { i < 32 }
    ensures { result ≡ bit w i }
{
    (w >> i) % 2 == 1
}

// w with its bit i made `on`.
pub fn with_bit(w: u32, i: u32, on: bool) -> u32
    requires { i < 32 }
    ensures { result ≡ with_bit w i on }
{
    if on { w | (1 << i) } else { w & !(1 << i) }
}

// ---- flags w, the bits x written to them by a rule, and the mask m of those that are meant

pub fn replace_under(w: u32, x: u32, m: u32) -> u32
    ensures { result ≡ under Replaces w x m }
{
    (w & !m) | (x & m)
}

pub fn set_under(w: u32, x: u32, m: u32) -> u32
    ensures { result ≡ under Sets w x m }
{
    w | (x & m)
}

pub fn clear_under(w: u32, x: u32, m: u32) -> u32
    ensures { result ≡ under Clears w x m }
{
    w & !(x & m)
}

pub fn written_under(rule: Rule, w: u32, x: u32, m: u32) -> u32
    ensures { result ≡ under rule w x m }
{
    match rule {
        Rule::Ignores => w,
        Rule::Replaces => replace_under(w, x, m),
        Rule::Sets => set_under(w, x, m),
        Rule::Clears => clear_under(w, x, m),
    }
}

// Four priorities w, and x written under the mask m: the low 3 bits of a priority are dropped.
pub fn priority_under(w: u32, x: u32, m: u32) -> u32
    ensures { result ≡ priority_under w x m }
{
    (w & !m) | (PRIORITY_BITS & x & m)
}

// ---- the bits of a mask

// The bits of `x` that the mask has.
pub fn bits_under(mask: u32, x: u32) -> u32
    ensures { result ≡ masked mask x }
{
    mask & x
}

// No bit of `x` is outside the mask.
pub fn is_within(x: u32, mask: u32) -> bool
    ensures { result ≡ fits x mask }
{
    x & !mask == 0
}

// ---- bytes

// Byte k of w.
pub fn byte_of(w: u32, k: u32) -> u32
    requires { k < 4 }
    ensures { (result ≡ byte_of w k) × (result < 256) }
{
    (w >> (8 * k)) % 256
}

// The word whose byte k is the low byte of x, and no other bit is set.
pub fn byte_shifted(x: u32, k: u32) -> u32
    requires { k < 4 }
    ensures { result ≡ byte_shifted x k }
{
    (x % 256) << (8 * k)
}

// The mask of byte k.
pub fn byte_mask(k: u32) -> u32
    requires { k < 4 }
    ensures { result ≡ byte_mask k }
{
    0xff << (8 * k)
}

// ---- the edge flags of 16 interrupts, and a word of ICFGR

// The word of ICFGR for the edge flags e.
pub fn config_of(e: u32) -> u32
    ensures { result ≡ spread e }
{
    let mut r: u32 = 0;
    for i in 0..16u32 {
        r |= ((e >> i) % 2) << (2 * i + 1);
    }
    r
}

// The edge flags in the word x of ICFGR.
pub fn edges_of(x: u32) -> u32
    ensures { result ≡ collect x }
{
    let mut r: u32 = 0;
    for i in 0..16u32 {
        r |= ((x >> (2 * i + 1)) % 2) << i;
    }
    r
}

// ---- pending

// Which of 32 interrupts are pending, by the edge flags of the first 16 and of the last 16.
pub fn pending_word(latch: u32, line: u32, low: u32, high: u32) -> u32
    ensures { result ≡ pending_word latch line low high }
{
    let edges = (low % 65536) | (high << 16);
    latch | (!edges & line)
}

// Which interrupts of a bank are pending.
pub fn pending_of(bank: &[u32]) -> u32
    requires { length bank.now ≡ 16 }
    ensures { result ≡ pending_in bank.now }
{
    pending_word(bank[LATCH], bank[LINE], bank[EDGES], bank[EDGES + 1])
}

// ---- set bits and low bits

// The lowest bit that is set in a or in b: 32 where there is none.
pub fn lowest_of(a: u32, b: u32) -> u32
    ensures { (result ≡ lowest (λ k. bit a k || bit b k) 32 0) × (result ≤ 32) }
{
    u32::trailing_zeros(a | b)
}

// m without its lowest set bit.
pub fn without_lowest(m: u32) -> u32
    requires { 0 < m }
    ensures { (result ≡ rest m) × (result < m) }
{
    m & (m - 1)
}

// w with its n low bits cleared.
pub fn clear_low(w: u32, n: u32) -> u32
    requires { n < 32 }
    ensures { result ≡ w / 2 ^ n * 2 ^ n }
{
    (w >> n) << n
}
