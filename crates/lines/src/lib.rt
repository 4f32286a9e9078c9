// Line changes and the signal query. Each has its refusals in document 01's order, EFAULT first.
#![tactic(auto)]

ghost use Rattle.std.specs.Prelude.{◌≡◌, [], ◌∷◌, true, cond, ◌≤◌, ◌<◌, length};
ghost use Rattle.model.specs.Layout.{most_vcpus, vcpus};
ghost use Rattle.model.specs.Interrupts.{is_private};
ghost use Rattle.model.specs.Sound.{sound};
ghost use Rattle.model.specs.Refusals.{first_failing, number};
ghost use Rattle.model.specs.Lines.{line_changed};
ghost use Rattle.model.specs.Calls.{Does, call, phase, has_line, change_line, query_signal};
ghost use Rattle.model.specs.declared.Errno.TheVariants.{Efault, Einval};
ghost use Rattle.model.specs.declared.Phase.TheVariants.{Changing};
ghost use Rattle.lines.specs.Lines.{rises_in, rise_latched};

use model::layout::{BANK_LENGTH, EDGES, LATCH, LINE, STATE_LENGTH, State, VCPUS};
use model::{Errno, Phase};
use priority::acknowledge::signal;
use state::{Vcpu, VcpuIndex, bank_at, check_vcpu, in_phase, is_sound, is_spi, put_flag, wide};
use words::has_bit;

// ---- the signal

// Whether IAR1 or IAR0 would give vCPU `v` an interrupt, running or not.
pub fn query_signal(s: &[u32], v: VcpuIndex) -> Result<u32, Errno>
    ensures { Does (call (query_signal v.0) s.now) (number result) s.now [] }
{
    let Some(s) = s.as_array::<STATE_LENGTH>() else {
        return Err(Errno::Efault);
    };
    check_vcpu(s, Phase::Initialised, v)?;
    Ok(signal(s, Vcpu::at(v)))
}

// ---- line change

// Whether the ID is a PPI of a vCPU that is there, or an SPI, whose line ignores the index.
fn has_line(s: &State, v: VcpuIndex, id: usize) -> bool
    ensures { result ≡ has_line s.now v.0 id }
{
    if (16 <= id) & (id < 32) {
        return v.0 < wide(s[VCPUS]);
    }
    is_spi(s, id)
}

// 14 not sound; 16 another phase; 22 a missing index, or no PPI or SPI.
fn check_line(s: &State, v: VcpuIndex, id: usize) -> Result<(), Errno>
    ensures { result ≡ first_failing ((sound s.now, Efault) ∷ phase Changing s.now ∷ (has_line s.now v.0 id, Einval) ∷ []) }
{
    if !is_sound(s) {
        return Err(Errno::Efault);
    }
    if !in_phase(s, Phase::Changing) {
        return Err(Errno::Ebusy);
    }
    if !has_line(s, v, id) {
        return Err(Errno::Einval);
    }
    Ok(())
}

// Whether interrupt `i` of a bank is edge, and its line goes 0 to 1.
fn rises(bank: &[u32], i: u32, level: bool) -> bool
    requires { (length bank.now ≡ 16) × (i < 32) }
    ensures { result ≡ rises_in bank.now i level }
{
    has_bit(bank[EDGES + (i / 16) as usize], i % 16) & !has_bit(bank[LINE], i) & level
}

// A vCPU that sees the interrupt: `v` where it is private, and any, so the first, where it is an SPI.
fn vcpu_for(v: VcpuIndex, id: usize) -> VcpuIndex
    ensures { result.0 ≡ cond (is_private id) v.0 0 }
{
    if id < 32 { v } else { VcpuIndex(0) }
}

// Latches interrupt `id` where it is edge and its line goes 0 to 1.
fn latch_rise(s: &mut State, v: Vcpu, id: usize, level: bool)
    requires { id < 1024 }
    ensures { s.new ≡ rise_latched s.old v.index id level }
{
    let at = bank_at(v, id / 32);
    if rises(&s[at..at + BANK_LENGTH], (id % 32) as u32, level) {
        put_flag(s, LATCH, true, v, id);
    }
}

// Changes the line of interrupt `id`.
fn write_line(s: &mut State, v: VcpuIndex, id: usize, level: bool)
    requires { (vcpus s.old ≤ most_vcpus) × (has_line s.old v.0 id ≡ true) }
    ensures { s.new ≡ line_changed s.old v.0 id level }
{
    let seer = Vcpu::at(vcpu_for(v, id));
    latch_rise(s, seer, id, level);
    put_flag(s, LINE, level, seer, id);
}

// Changes the line of a PPI or SPI.
pub fn change_line(s: &mut [u32], v: VcpuIndex, id: usize, level: bool) -> Result<u32, Errno>
    ensures { Does (call (change_line v.0 id level) s.old) (number result) s.new [] }
{
    let Some(s) = s.as_mut_array::<STATE_LENGTH>() else {
        return Err(Errno::Efault);
    };
    check_line(s, v, id)?;
    write_line(s, v, id, level);
    Ok(0)
}
