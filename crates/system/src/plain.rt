// The plain registers of a vCPU's CPU interface, read and written by guest or attribute: PMR, BPRs, APs, CTLR, SRE, IGRPENs.
ghost use Rattle.std.specs.Prelude.{◌≡◌, ◌%◌, max};
ghost use Rattle.model.specs.Values.{icc_ctlr_bits};
ghost use Rattle.model.specs.Words.{masked};
ghost use Rattle.model.specs.Layout.{least_bpr};
ghost use Rattle.model.specs.Interface.{group_index, plain_read, plain_write};
ghost use Rattle.priority.specs.Asked.{Usable};

use model::layout::{AP0R, BPR0, CTLR, IGRPEN0, LEAST_BPR0, PMR, State};
use model::values::{ICC_CTLR_BITS, ICC_CTLR_FIXED, ICC_SRE};
use model::{By, InterruptGroup, Plain};
use state::{Vcpu, block_at, put_in_block};
use words::bits_under;

// What a plain register reads.
#[tactic(auto, unfolding(model::specs::Interface::plain_read))]
pub fn read_plain(s: &State, by: By, v: Vcpu, register: Plain) -> u32
    requires { Usable s.now v.index }
    ensures { result ≡ plain_read by s.now v.index register }
{
    let block = block_at(v);
    match register {
        Plain::Pmr => s[block + PMR],
        Plain::Bpr(g) => s[block + BPR0 + g.index()],
        Plain::Apr(g) => s[block + AP0R + g.index()],
        Plain::Ctlr => ICC_CTLR_FIXED + s[block + CTLR],
        Plain::Sre => ICC_SRE,
        Plain::Igrpen(g) => s[block + IGRPEN0 + g.index()],
    }
}

// What BPR`g` keeps of a write: bits 2-0, raised to its least.
fn point_of(g: InterruptGroup, x: u64) -> u32
    ensures { result ≡ max (least_bpr (group_index g)) (x % 8) }
{
    let least = LEAST_BPR0 + g.index() as u32;
    let point = (x % 8) as u32;
    point.max(least)
}

// What CTLR keeps of a write.
#[tactic(auto, using(crate::proofs::Registers::masked_low))]
fn control_of(x: u64) -> u32
    ensures { result ≡ masked icc_ctlr_bits x }
{
    bits_under(ICC_CTLR_BITS, (x % 0x1_0000_0000) as u32)
}

// Writes a plain register: PMR keeps bits 7-3, BPRs bits 2-0 raised to their least, APs bits 31-0, IGRPENs bit 0; of CTLR bit 1 is written; SRE ignores writes.
#[tactic(auto, unfolding(model::specs::Interface::plain_write))]
pub fn write_plain(s: &mut State, by: By, v: Vcpu, register: Plain, x: u64)
    ensures { s.new ≡ plain_write by s.old v.index register x }
{
    match register {
        Plain::Pmr => put_in_block(s, v, PMR, (x % 256 / 8 * 8) as u32),
        Plain::Bpr(g) => put_in_block(s, v, BPR0 + g.index(), point_of(g, x)),
        Plain::Apr(g) => put_in_block(s, v, AP0R + g.index(), (x % 0x1_0000_0000) as u32),
        Plain::Ctlr => put_in_block(s, v, CTLR, control_of(x)),
        Plain::Sre => {}
        Plain::Igrpen(g) => put_in_block(s, v, IGRPEN0 + g.index(), (x % 2) as u32),
    }
}
