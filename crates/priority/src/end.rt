// End of interrupt, and deactivate.
ghost use Rattle.std.specs.Prelude.{◌≡◌, ◌<◌};
ghost use Rattle.model.specs.Interrupts.{exists};
ghost use Rattle.model.specs.Interface.{group_index, eoi_mode, dropped, ended, deactivated};

use crate::acknowledge::{has_level, put_level, running_level};
use model::InterruptGroup;
use model::layout::{ACTIVE, CTLR, State};
use state::{Vcpu, block_at, is_spi, put_flag};
use words::has_bit;

// Whether there is such an interrupt.
fn is_present(s: &State, id: usize) -> bool
    ensures { result ≡ exists s.now id }
{
    (id < 32) | is_spi(s, id)
}

// Whether vCPU `v` is in EOImode 1.
fn eoi_mode(s: &State, v: Vcpu) -> bool
    ensures { result ≡ eoi_mode s.now v.index }
{
    has_bit(s[block_at(v) + CTLR], 1)
}

// Clears bit `level` of AP`g`R and, in EOImode 0, makes interrupt `id` inactive.
fn drop_level(s: &mut State, v: Vcpu, g: InterruptGroup, id: usize, level: u32)
    requires { (id < 1024) × (level < 32) }
    ensures { s.new ≡ dropped s.old v.index (group_index g) id level }
{
    let mode = eoi_mode(s, v);
    put_level(s, v, g, level, false);
    if !mode {
        put_flag(s, ACTIVE, false, v, id);
    }
}

// EOIR`g`: nothing if no such interrupt, or if AP`g`R lacks the running level; else that level is dropped.
pub fn end(s: &mut State, v: Vcpu, g: InterruptGroup, id: usize)
    ensures { s.new ≡ ended s.old v.index (group_index g) id }
{
    let level = running_level(s, v);
    if is_present(s, id) & has_level(s, v, g, level) {
        drop_level(s, v, g, id, level);
    }
}

// DIR: in EOImode 1 makes an existing interrupt inactive, else nothing.
pub fn deactivate(s: &mut State, v: Vcpu, id: usize)
    ensures { s.new ≡ deactivated s.old v.index id }
{
    if eoi_mode(s, v) & is_present(s, id) {
        put_flag(s, ACTIVE, false, v, id);
    }
}
