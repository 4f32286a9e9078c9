// The public calls for C: numbers and slices only. Each hands on to the function of `calls` that has its name, `vgic_save` to `fill`, makes the signed number of its answer, and promises the same: `Does` of its case of `call`. A library exports no symbol: the static library `vgic_c` does.
#![tactic(auto)]

ghost use Rattle.std.specs.Prelude.{[], ◌∷◌};
ghost use Rattle.model.specs.Calls.{Does, call, make, add_vcpu, set_running, change_line, read_distributor, write_distributor, read_frame, write_frame, read_system, write_system, query_signal, get_attribute, set_attribute, save, restore};

use calls::number_of;
use state::{Mpidr, VcpuIndex};

// ---- the calls that set a device up

// Makes a device of any words of the right length.
#[unsafe(no_mangle)]
pub extern "C" fn vgic_make(state: &mut [u32]) -> i64
    ensures { Does (call make state.old) result state.new [] }
{
    number_of(calls::make(state))
}

// Adds a vCPU with an affinity of its own.
#[unsafe(no_mangle)]
pub extern "C" fn vgic_add_vcpu(state: &mut [u32], mpidr: u32) -> i64
    ensures { Does (call (add_vcpu mpidr) state.old) result state.new [] }
{
    number_of(calls::add_vcpu(state, Mpidr(mpidr)))
}

// Marks a vCPU as running, or as stopped.
#[unsafe(no_mangle)]
pub extern "C" fn vgic_set_running(state: &mut [u32], v: usize, on: bool) -> i64
    ensures { Does (call (set_running v on) state.old) result state.new [] }
{
    number_of(calls::set_running(state, VcpuIndex(v), on))
}

// ---- the guest's accesses to memory-mapped registers, by the vCPU `v`

// Reads `size` bytes of the distributor.
#[unsafe(no_mangle)]
pub extern "C" fn vgic_read_distributor(state: &[u32], v: usize, offset: u64, size: u64) -> i64
    ensures { Does (call (read_distributor v offset size) state.now) result state.now [] }
{
    number_of(calls::read_distributor(state, VcpuIndex(v), offset, size))
}

// Writes `size` bytes of the distributor.
#[unsafe(no_mangle)]
pub extern "C" fn vgic_write_distributor(
    state: &mut [u32],
    v: usize,
    offset: u64,
    size: u64,
    value: u64,
) -> i64
    ensures { Does (call (write_distributor v offset size value) state.old) result state.new [] }
{
    number_of(calls::write_distributor(state, VcpuIndex(v), offset, size, value))
}

// Reads `size` bytes of the redistributor frame of a vCPU.
#[unsafe(no_mangle)]
pub extern "C" fn vgic_read_frame(
    state: &[u32],
    v: usize,
    frame: usize,
    offset: u64,
    size: u64,
) -> i64
    ensures { Does (call (read_frame v frame offset size) state.now) result state.now [] }
{
    number_of(calls::read_frame(state, VcpuIndex(v), VcpuIndex(frame), offset, size))
}

// Writes `size` bytes of the redistributor frame of a vCPU.
#[unsafe(no_mangle)]
pub extern "C" fn vgic_write_frame(
    state: &mut [u32],
    v: usize,
    frame: usize,
    offset: u64,
    size: u64,
    value: u64,
) -> i64
    ensures { Does (call (write_frame v frame offset size value) state.old) result state.new [] }
{
    number_of(calls::write_frame(state, VcpuIndex(v), VcpuIndex(frame), offset, size, value))
}

// ---- the guest's accesses to system registers, by the vCPU `v`, and its signal

// Reads the system register of an encoding.
#[unsafe(no_mangle)]
pub extern "C" fn vgic_read_system(state: &mut [u32], v: usize, encoding: u64) -> i64
    ensures { Does (call (read_system v encoding) state.old) result state.new [] }
{
    number_of(calls::read_system(state, VcpuIndex(v), encoding))
}

// Writes the system register of an encoding.
#[unsafe(no_mangle)]
pub extern "C" fn vgic_write_system(state: &mut [u32], v: usize, encoding: u64, value: u64) -> i64
    ensures { Does (call (write_system v encoding value) state.old) result state.new [] }
{
    number_of(calls::write_system(state, VcpuIndex(v), encoding, value))
}

// 1 if IAR1, 2 if IAR0 would give vCPU `v` an interrupt, else 0.
#[unsafe(no_mangle)]
pub extern "C" fn vgic_query_signal(state: &[u32], v: usize) -> i64
    ensures { Does (call (query_signal v) state.now) result state.now [] }
{
    number_of(calls::query_signal(state, VcpuIndex(v)))
}

// ---- lines

// Changes the line of a PPI of a vCPU, or of an SPI.
#[unsafe(no_mangle)]
pub extern "C" fn vgic_change_line(state: &mut [u32], v: usize, id: usize, level: bool) -> i64
    ensures { Does (call (change_line v id level) state.old) result state.new [] }
{
    number_of(calls::change_line(state, VcpuIndex(v), id, level))
}

// ---- attributes

// Gets an attribute of a group.
#[unsafe(no_mangle)]
pub extern "C" fn vgic_get_attribute(state: &[u32], group: u64, attribute: u64) -> i64
    ensures { Does (call (get_attribute group attribute) state.now) result state.now [] }
{
    number_of(calls::get_attribute(state, group, attribute))
}

// Sets an attribute of a group: of group 3 the interrupt count; of group 4 the device is initialised.
#[unsafe(no_mangle)]
pub extern "C" fn vgic_set_attribute(
    state: &mut [u32],
    group: u64,
    attribute: u64,
    value: u64,
) -> i64
    ensures { Does (call (set_attribute group attribute value) state.old) result state.new [] }
{
    number_of(calls::set_attribute(state, group, attribute, value))
}

// ---- the record

// Leaves the record at the front of a buffer, and its length or the refusal in `res`; the rest of the buffer keeps its bytes, and a refusal changes none.
#[unsafe(no_mangle)]
pub extern "C" fn vgic_save(state: &[u32], buf: &mut [u8], res: &mut i64)
    ensures { Does (call (save buf.old) state.now) res.new state.now (buf.new ∷ []) }
{
    *res = number_of(calls::fill(state, buf));
}

// Restores the device of a record into a fresh one of the same count and affinities.
#[unsafe(no_mangle)]
pub extern "C" fn vgic_restore(state: &mut [u32], bytes: &[u8]) -> i64
    ensures { Does (call (restore bytes.now) state.old) result state.new (bytes.now ∷ []) }
{
    number_of(calls::restore(state, bytes))
}
