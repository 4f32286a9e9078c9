// The record as a table of parts, in the order of the record: for each run of words its place, its length, how a word is shown and which words may be there.
ghost use Rattle.std.specs.Prelude.{◌≡◌, ◌+◌, ◌*◌, ◌^◌, ◌≤◌, ◌<◌, length, get_or};
ghost use Rattle.model.specs.Words.{spread};
ghost use Rattle.model.specs.Layout.{state_length, most_vcpus, word};
ghost use Rattle.model.specs.Record.{spi_words, spis};
ghost use Rattle.model.specs.Demands.{Stopped};
ghost use Rattle.record.specs.Table.{field_bits, field_least, least_of, shown, hidden, fixed, plain, slot, slot_at, slot_set, words_in, takes, row_of, blank, header_part, distributor_parts, bank_rows, bank_parts, vcpu_parts, interrupt_part, slots, table_of, ShapeOf, Inside};

pub use crate::shape::Shape;
use model::layout::{
    AFFINITY, BPR0, BPR1, COUNT, CTLR, EDGES, ENABLES, FRAME_STATUS, GROUP, INITIALISED,
    LEAST_BPR0, LEAST_BPR1, PMR, ROUTES, STATUS, State, VCPUS,
};
use model::values::{
    AFFINITY_BITS, APR_BITS, BPR_BITS, EDGE_BITS, FLAG_BITS, GICD_CTLR_BITS, GICD_CTLR_FIXED,
    ICC_CTLR_BITS, ICC_CTLR_FIXED, LAST_EDGE_BITS, LAST_FLAG_BITS, ONE_BIT, PMR_BITS, PPI_BITS,
    PRIORITY_BITS, RECORD_VERSION, ROUTE_BITS, STATUSR_BITS,
};
use state::{Vcpu, block_at, ids_below, spi_bank_at, store_of_interrupts};
use words::{config_of, edges_of, is_within};

// A block of words whose fields differ: a vCPU's block, a bank of SPIs, the bank of the SPI word 31, of which the interrupts from 1020 on do not exist.
#[derive(Clone, Copy)]
pub enum Block {
    Vcpu,
    Bank,
    LastBank,
}

// How a word of the state is shown in the record, and which words may be there.
#[derive(Clone, Copy)]
pub enum Kind {
    // No word: this number alone.
    Exactly(u32),
    // As itself; the set-up fixes it, so only the target's own word may be there.
    SetUp,
    // As itself, with no bit outside a mask.
    Within(u32),
    // As itself; which words may be there goes by the word of a block.
    Fields(Block),
    // Above a base, with no bit outside a mask.
    Above(u32, u32),
    // Sixteen edge flags of a block, each at the upper of two bits.
    Edges(Block),
}

// A part of the record: `len` words, from word `first` of what starts at `base` on.
#[derive(Clone, Copy)]
pub struct Part {
    pub base: usize,
    pub first: usize,
    pub len: usize,
    pub kind: Kind,
}

// A place in a record: the number of a part, and of a word of it.
#[derive(Clone, Copy, Debug, PartialEq, Eq)]
pub struct Place {
    pub part: usize,
    pub word: usize,
}

// ---- the words that may be there

// The bits of the words of a vCPU's block, of a bank of SPIs and of the bank of the SPI word 31.
static VCPU_BITS: [u32; 27] = [
    FLAG_BITS, // GICR_IGROUPR0
    FLAG_BITS, // GICR_ISENABLER0
    FLAG_BITS, // the latch
    FLAG_BITS, // GICR_ISACTIVER0
    PPI_BITS, // the lines
    PRIORITY_BITS, // GICR_IPRIORITYR0
    PRIORITY_BITS,
    PRIORITY_BITS,
    PRIORITY_BITS,
    PRIORITY_BITS,
    PRIORITY_BITS,
    PRIORITY_BITS,
    PRIORITY_BITS, // GICR_IPRIORITYR7
    EDGE_BITS, // GICR_ICFGR0
    0,
    0,
    AFFINITY_BITS, // the affinity
    ONE_BIT, // the running mark
    STATUSR_BITS, // GICR_STATUSR
    PMR_BITS, // ICC_PMR_EL1
    ICC_CTLR_BITS, // ICC_CTLR_EL1
    BPR_BITS, // ICC_BPR0_EL1
    BPR_BITS, // ICC_BPR1_EL1
    APR_BITS, // ICC_AP0R0_EL1
    APR_BITS, // ICC_AP1R0_EL1
    ONE_BIT, // ICC_IGRPEN0_EL1
    ONE_BIT, // ICC_IGRPEN1_EL1
];

static BANK_BITS: [u32; 15] = [
    FLAG_BITS, // GICD_IGROUPR
    FLAG_BITS, // GICD_ISENABLER
    FLAG_BITS, // the latch
    FLAG_BITS, // GICD_ISACTIVER
    FLAG_BITS, // the lines
    PRIORITY_BITS, // GICD_IPRIORITYR, eight words
    PRIORITY_BITS,
    PRIORITY_BITS,
    PRIORITY_BITS,
    PRIORITY_BITS,
    PRIORITY_BITS,
    PRIORITY_BITS,
    PRIORITY_BITS,
    EDGE_BITS, // GICD_ICFGR, two words
    EDGE_BITS,
];

static LAST_BANK_BITS: [u32; 15] = [
    LAST_FLAG_BITS, // GICD_IGROUPR
    LAST_FLAG_BITS, // GICD_ISENABLER
    LAST_FLAG_BITS, // the latch
    LAST_FLAG_BITS, // GICD_ISACTIVER
    LAST_FLAG_BITS, // the lines
    PRIORITY_BITS, // GICD_IPRIORITYR, eight words
    PRIORITY_BITS,
    PRIORITY_BITS,
    PRIORITY_BITS,
    PRIORITY_BITS,
    PRIORITY_BITS,
    PRIORITY_BITS,
    0, // of the interrupts 1020 to 1023
    EDGE_BITS, // GICD_ICFGR, two words
    LAST_EDGE_BITS,
];

impl Block {
    // The bits that word `f` may have.
    #[tactic(auto, unfolding(crate::specs::Table::field_bits))]
    fn bits(self, f: usize) -> u32
        ensures { result ≡ field_bits self f }
    {
        let bits: &[u32] = match self {
            Block::Vcpu => &VCPU_BITS,
            Block::Bank => &BANK_BITS,
            Block::LastBank => &LAST_BANK_BITS,
        };
        bits.get(f).copied().unwrap_or(0)
    }

    // The least value of word `f`: BPR0 and BPR1 have one.
    #[tactic(auto, unfolding(crate::specs::Table::field_least))]
    fn least(self, f: usize) -> u32
        ensures { result ≡ field_least self f }
    {
        match (self, f) {
            (Block::Vcpu, BPR0) => LEAST_BPR0,
            (Block::Vcpu, BPR1) => LEAST_BPR1,
            _ => 0,
        }
    }
}

// ---- words as they are shown

// A word as it is: of latches the latch itself, not pending, in which the line of a level interrupt counts too.
pub fn word_at(words: &[u32], i: usize) -> u32
    requires { i < length words.now }
    ensures { result ≡ word words.now i }
{
    words[i]
}

// Sixteen edge flags as they are shown. Out of line, so that the loop over the words of a part stays short.
#[inline(never)]
fn shown_edges(word: u32) -> u32
    ensures { result ≡ spread word }
{
    config_of(word)
}

impl Kind {
    // What a word is shown as.
    #[tactic(auto, unfolding(crate::specs::Table::shown))]
    pub fn value_of(self, word: u32) -> u32
        requires { shown self word < 2 ^ 32 }
        ensures { result ≡ shown self word }
    {
        match self {
            Kind::Exactly(x) => x,
            Kind::SetUp | Kind::Within(_) | Kind::Fields(_) => word,
            Kind::Above(base, _) => base + word,
            Kind::Edges(_) => shown_edges(word),
        }
    }

    // The word that is shown as a value.
    #[tactic(auto, unfolding(crate::specs::Table::hidden))]
    pub fn word_of(self, value: u32) -> u32
        ensures { result ≡ hidden self value }
    {
        match self {
            Kind::Exactly(_) | Kind::SetUp | Kind::Within(_) | Kind::Fields(_) => value,
            Kind::Above(base, _) => value.saturating_sub(base),
            Kind::Edges(_) => edges_of(value),
        }
    }

    // Word `f` of a fresh device: the least that may be there.
    #[tactic(auto, unfolding(crate::specs::Table::least_of))]
    pub fn fresh_word(self, f: usize) -> u32
        ensures { result ≡ least_of self f }
    {
        match self {
            Kind::Fields(block) => block.least(f),
            _ => 0,
        }
    }

    // Whether the set-up fixes a number: nothing is stored.
    #[tactic(auto, unfolding(crate::specs::Table::fixed))]
    pub fn is_fixed(self) -> bool
        ensures { result ≡ fixed self }
    {
        matches!(self, Kind::Exactly(_) | Kind::SetUp)
    }

    // Whether words are shown as they are.
    #[tactic(auto, unfolding(crate::specs::Table::plain))]
    pub fn is_plain(self) -> bool
        ensures { result ≡ plain self }
    {
        matches!(self, Kind::SetUp | Kind::Within(_) | Kind::Fields(_))
    }

    // Whether some device of the set-up of `s` shows `x` at a place, which is word `f` of its block.
    #[tactic(auto, unfolding(crate::specs::Table::takes))]
    pub fn takes(self, s: &State, at: usize, f: usize, x: u32) -> bool
        requires { at < state_length }
        ensures { result ≡ takes s.now (slot at self f) x }
    {
        match self {
            Kind::Exactly(n) => x == n,
            Kind::SetUp => x == s[at],
            Kind::Within(mask) => is_within(x, mask),
            Kind::Fields(block) => is_within(x, block.bits(f)) & (block.least(f) <= x),
            Kind::Above(base, mask) => x >= base && is_within(x - base, mask),
            Kind::Edges(block) => {
                let w = edges_of(x);
                (config_of(w) == x) & is_within(w, block.bits(f))
            }
        }
    }
}

impl Part {
    // Its words.
    pub fn words(self, s: &State) -> &[u32]
        requires { Inside self }
        ensures { result.now ≡ words_in s.now self }
    {
        let start = self.base + self.first;
        &s[start..start + self.len]
    }

    // Whether some device of the set-up of `s` shows `x` at word `j`.
    pub fn takes(self, s: &State, j: usize, x: u32) -> bool
        requires { Inside self × (j < self.len) }
        ensures { result ≡ takes s.now (slot_at self j) x }
    {
        let f = self.first + j;
        self.kind.takes(s, self.base + f, f, x)
    }

    // Stores word `j`, unless the set-up fixes it. What the part lies in is lent on as `&mut`.
    #[tactic(auto, unfolding(crate::specs::Table::slot_set))]
    pub fn store(self, s: &mut State, j: usize, word: u32)
        requires { Inside self × (j < self.len) }
        ensures { s.new ≡ slot_set s.old (slot_at self j) word }
    {
        if !self.kind.is_fixed() {
            let end = self.first + self.len;
            store_of_interrupts(s, self.base, end, self.first + j, word);
        }
    }

    // Word `j` of a fresh device.
    pub fn fresh_word(self, j: usize) -> u32
        requires { Inside self × (j < self.len) }
        ensures { result ≡ least_of self.kind (self.first + j) }
    {
        self.kind.fresh_word(self.first + j)
    }
}

// ---- the table

// A row of the table.
fn row(base: usize, first: usize, len: usize, kind: Kind) -> Part
    ensures { result ≡ row_of base first len kind }
{
    Part {
        base,
        first,
        len,
        kind,
    }
}

// The header: version; count and number of vCPUs; each affinity.
#[tactic(auto, unfolding(crate::specs::Table::affinity_part))]
fn header_part(k: usize) -> Part
    requires { k < 2 + most_vcpus }
    ensures { (result ≡ header_part k) × Inside result }
{
    match k {
        0 => row(0, INITIALISED, 1, Kind::Exactly(RECORD_VERSION)),
        1 => row(0, COUNT, 2, Kind::SetUp),
        _ => row(block_at(Vcpu { index: k - 2 }), AFFINITY, 1, Kind::SetUp),
    }
}

// The distributor: CTLR, STATUSR.
fn distributor_part(i: usize) -> Part
    requires { i < 2 }
    ensures { (result ≡ get_or distributor_parts i blank) × Inside result }
{
    match i {
        0 => row(0, ENABLES, 1, Kind::Above(GICD_CTLR_FIXED, GICD_CTLR_BITS)),
        _ => row(0, STATUS, 1, Kind::Within(STATUSR_BITS)),
    }
}

// The bank of an SPI word: its flags and priorities, its edge flags.
fn bank_row(base: usize, block: Block, i: usize) -> Part
    requires { (base + 16 ≤ 768) × (i < 2) }
    ensures { (result ≡ get_or (bank_rows base block) i blank) × Inside result }
{
    match i {
        0 => row(base, GROUP, EDGES, Kind::Fields(block)),
        _ => row(base, EDGES, 2, Kind::Edges(block)),
    }
}

#[tactic(auto, unfolding(crate::specs::Table::bank_parts))]
fn bank_part(w: usize, i: usize) -> Part
    requires { (w < 32) × (i < 2) }
    ensures { (result ≡ get_or (bank_parts w) i blank) × Inside result }
{
    let base = spi_bank_at(w);
    if w == 31 {
        return bank_row(base, Block::LastBank, i);
    }
    bank_row(base, Block::Bank, i)
}

// A vCPU: STATUSR, its bank without the edge flags, its CPU interface.
#[tactic(auto, unfolding(crate::specs::Table::vcpu_parts))]
fn vcpu_part(v: Vcpu, i: usize) -> Part
    requires { i < 5 }
    ensures { (result ≡ get_or (vcpu_parts v.index) i blank) × Inside result }
{
    let base = block_at(v);
    match i {
        0 => row(base, FRAME_STATUS, 1, Kind::Within(STATUSR_BITS)),
        1 => row(base, GROUP, EDGES, Kind::Fields(Block::Vcpu)),
        2 => row(base, PMR, 1, Kind::Within(PMR_BITS)),
        3 => row(base, CTLR, 1, Kind::Above(ICC_CTLR_FIXED, ICC_CTLR_BITS)),
        _ => row(base, BPR0, 6, Kind::Fields(Block::Vcpu)),
    }
}

// The banks of the SPI words, the routes, the vCPUs.
#[tactic(auto, unfolding(crate::specs::Table::interrupt_part))]
fn interrupt_part(count: usize, i: usize) -> Part
    requires { (64 ≤ count) × (count ≤ 1024) × (i < 2 * spi_words count + 1 + 5 * most_vcpus) }
    ensures { (result ≡ interrupt_part count i) × Inside result }
{
    let banks = 2 * (count / 32 - 1);
    if i < banks {
        return bank_part(1 + i / 2, i % 2);
    }
    if i == banks {
        return row(ROUTES, 0, spi_count(count), Kind::Within(ROUTE_BITS));
    }
    let j = i - (banks + 1);
    vcpu_part(Vcpu { index: j / 5 }, j % 5)
}

// How many SPIs there are.
fn spi_count(count: usize) -> usize
    requires { (64 ≤ count) × (count ≤ 1024) }
    ensures { (result ≡ spis count) × (result ≤ 988) }
{
    ids_below(count as u32) - 32
}

impl Shape {
    // The shape of a stopped device.
    #[tactic(auto, using(crate::proofs::Order::numbers))]
    pub fn of(s: &State) -> Shape
        requires { Stopped s.now }
        ensures { ShapeOf s.now result }
    {
        Shape {
            count: s[COUNT] as usize,
            vcpus: s[VCPUS] as usize,
        }
    }

    // Part `k` of the table.
    #[tactic(auto, using(crate::proofs::Order::parts_by_number))]
    pub fn part_at(self, k: usize) -> Part
        requires { k < length (table_of self) }
        ensures { (result ≡ get_or (table_of self) k blank) × Inside result }
    {
        let header = 2 + self.vcpus;
        if k < header {
            return header_part(k);
        }
        if k < header + 2 {
            return distributor_part(k - header);
        }
        interrupt_part(self.count, k - (header + 2))
    }

    // How many parts the table has.
    #[tactic(auto, using(crate::proofs::Order::sizes))]
    pub fn part_count(self) -> usize
        ensures { result ≡ length (table_of self) }
    {
        5 + 6 * self.vcpus + 2 * (self.count / 32 - 1)
    }

    // How many values the record has.
    #[tactic(auto, using(crate::proofs::Order::sizes))]
    pub fn value_count(self) -> usize
        ensures { (result ≡ length (slots self.count self.vcpus)) × (result ≤ 1642) }
    {
        5 + 23 * self.vcpus + 15 * (self.count / 32 - 1) + spi_count(self.count)
    }
}
