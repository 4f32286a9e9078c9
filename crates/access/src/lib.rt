// The guest's accesses to memory-mapped and system registers. Each has its refusals in document 01's order, EFAULT first.
#![tactic(auto)]

ghost use Rattle.std.specs.Prelude.{◌≡◌, [], ◌∷◌, true, ◌*◌, ◌%◌, ◌^◌, ◌<◌, eqb};
ghost use Rattle.model.specs.Layout.{most_vcpus};
ghost use Rattle.model.specs.Sound.{sound};
ghost use Rattle.model.specs.Refusals.{first_failing, number};
ghost use Rattle.model.specs.Registers.{banks, seen_by, by_byte, write_priority, guest_read, guest_write};
ghost use Rattle.model.specs.Calls.{Does, call, guest_checks, frame_checks, read_phase, read_distributor, write_distributor, read_frame, write_frame, read_system, write_system};
ghost use Rattle.model.specs.declared.Errno.TheVariants.{Efault};
ghost use Rattle.model.specs.declared.SystemRegister.TheVariants.{Read};

use model::layout::{STATE_LENGTH, State, VCPUS};
use model::{By, Errno, Phase, Readable, Register, SystemRegister, View};
use registers::decode::register_at;
use registers::{Bytes, frame_view, read_word, write_priority, write_word};
use state::{Vcpu, VcpuIndex, check_vcpu, running_of};
use system::decode::register_of;
use system::{read_register, write_register};
use words::{byte_of, byte_shifted};

// ---- refusals

// 14 not sound; 16 another phase; 22 no such vCPU or frame; 1 not running.
fn check_frame(s: &State, phase: Phase, v: VcpuIndex, frame: VcpuIndex) -> Result<(), Errno>
    ensures { result ≡ first_failing ((sound s.now, Efault) ∷ frame_checks phase v.0 frame.0 s.now) }
{
    check_vcpu(s, phase, v)?;
    let n = s[VCPUS] as usize;
    if frame.0 >= n {
        return Err(Errno::Einval);
    }
    if running_of(s, Vcpu::at(v)) != 1 {
        return Err(Errno::Eperm);
    }
    Ok(())
}

// The same for the distributor and for system registers: an access to them is tested as one to the vCPU's own frame.
fn check_guest(s: &State, phase: Phase, v: VcpuIndex) -> Result<(), Errno>
    ensures { result ≡ first_failing ((sound s.now, Efault) ∷ guest_checks phase v.0 s.now) }
{
    check_frame(s, phase, v, v)
}

// ---- one access: 4 bytes aligned, or 1 byte in IPRIORITYR; all else reads 0 and ignores writes

// IPRIORITYR alone takes one byte.
#[tactic(auto, unfolding(model::specs::Registers::by_byte))]
fn by_byte(register: Register) -> bool
    ensures { result ≡ by_byte register }
{
    matches!(register, Register::Priority)
}

// What an access of a view reads.
fn guest_read(s: &State, view: View, offset: u64, size: u64) -> u32
    requires { (sound s.now ≡ true) × (seen_by view < most_vcpus) }
    ensures { result ≡ guest_read s.now view offset size }
{
    let Some((register, k)) = register_at(view, offset) else {
        return 0;
    };
    if (size == 4) & (offset % 4 == 0) {
        return read_word(s, By::Guest, view, register, k);
    }
    if (size == 1) & by_byte(register) {
        return byte_of(
            read_word(s, By::Guest, view, register, k),
            (offset % 4) as u32,
        );
    }
    0
}

// Writes one byte of IPRIORITYR.
fn write_byte(s: &mut State, view: View, k: usize, byte: u32, value: u64)
    requires { (sound s.old ≡ true) × (seen_by view < most_vcpus) × (k < 8 * banks view) × (byte < 4) }
    ensures { s.new ≡ write_priority s.old view (λ i. eqb i byte) k (value % 256 * 2 ^ (8 * byte)) }
{
    write_priority(
        s,
        view,
        Bytes::One(byte),
        k,
        byte_shifted((value % 256) as u32, byte),
    );
}

// Writes by an access of a view, the low bits of its size.
fn guest_write(s: &mut State, view: View, offset: u64, size: u64, value: u64)
    requires { (sound s.old ≡ true) × (seen_by view < most_vcpus) }
    ensures { s.new ≡ guest_write s.old view offset size value }
{
    let Some((register, k)) = register_at(view, offset) else {
        return;
    };
    if (size == 4) & (offset % 4 == 0) {
        write_word(
            s,
            By::Guest,
            view,
            register,
            k,
            (value % 0x1_0000_0000) as u32,
        );
        return;
    }
    if (size == 1) & by_byte(register) {
        write_byte(s, view, k, (offset % 4) as u32, value);
    }
}

// ---- the distributor and the frames

// Reads the distributor.
pub fn read_distributor(s: &[u32], v: VcpuIndex, offset: u64, size: u64) -> Result<u32, Errno>
    ensures { Does (call (read_distributor v.0 offset size) s.now) (number result) s.now [] }
{
    let Some(s) = s.as_array::<STATE_LENGTH>() else {
        return Err(Errno::Efault);
    };
    check_guest(s, Phase::Initialised, v)?;
    Ok(guest_read(s, View::Distributor, offset, size))
}

// Writes the distributor.
pub fn write_distributor(
    s: &mut [u32],
    v: VcpuIndex,
    offset: u64,
    size: u64,
    value: u64,
) -> Result<u32, Errno>
    ensures { Does (call (write_distributor v.0 offset size value) s.old) (number result) s.new [] }
{
    let Some(s) = s.as_mut_array::<STATE_LENGTH>() else {
        return Err(Errno::Efault);
    };
    check_guest(s, Phase::Changing, v)?;
    guest_write(s, View::Distributor, offset, size, value);
    Ok(0)
}

// Reads a redistributor frame.
pub fn read_frame(
    s: &[u32],
    v: VcpuIndex,
    frame: VcpuIndex,
    offset: u64,
    size: u64,
) -> Result<u32, Errno>
    ensures { Does (call (read_frame v.0 frame.0 offset size) s.now) (number result) s.now [] }
{
    let Some(s) = s.as_array::<STATE_LENGTH>() else {
        return Err(Errno::Efault);
    };
    check_frame(s, Phase::Initialised, v, frame)?;
    Ok(guest_read(s, frame_view(frame), offset, size))
}

// Writes a redistributor frame.
pub fn write_frame(
    s: &mut [u32],
    v: VcpuIndex,
    frame: VcpuIndex,
    offset: u64,
    size: u64,
    value: u64,
) -> Result<u32, Errno>
    ensures { Does (call (write_frame v.0 frame.0 offset size value) s.old) (number result) s.new [] }
{
    let Some(s) = s.as_mut_array::<STATE_LENGTH>() else {
        return Err(Errno::Efault);
    };
    check_frame(s, Phase::Changing, v, frame)?;
    guest_write(s, frame_view(frame), offset, size, value);
    Ok(0)
}

// ---- system registers

// The phase that a read asks for: an acknowledge changes interrupts.
#[tactic(auto, unfolding(model::specs::Calls::read_phase))]
fn read_phase(register: SystemRegister) -> Phase
    ensures { result ≡ read_phase register }
{
    match register {
        SystemRegister::Read(Readable::Iar(_)) => Phase::Changing,
        SystemRegister::Read(Readable::Hppir(_) | Readable::Rpr)
        | SystemRegister::Both(_)
        | SystemRegister::Write(_)
        | SystemRegister::Unnamed => Phase::Initialised,
    }
}

// Reads a system register.
pub fn read_system(s: &mut [u32], v: VcpuIndex, encoding: u64) -> Result<u32, Errno>
    ensures { Does (call (read_system v.0 encoding) s.old) (number result) s.new [] }
{
    let Some(s) = s.as_mut_array::<STATE_LENGTH>() else {
        return Err(Errno::Efault);
    };
    let register = register_of(encoding);
    check_guest(s, read_phase(register), v)?;
    read_register(s, Vcpu::at(v), register)
}

// Writes a system register.
pub fn write_system(s: &mut [u32], v: VcpuIndex, encoding: u64, value: u64) -> Result<u32, Errno>
    ensures { Does (call (write_system v.0 encoding value) s.old) (number result) s.new [] }
{
    let Some(s) = s.as_mut_array::<STATE_LENGTH>() else {
        return Err(Errno::Efault);
    };
    check_guest(s, Phase::Changing, v)?;
    write_register(s, Vcpu::at(v), register_of(encoding), value)
}
