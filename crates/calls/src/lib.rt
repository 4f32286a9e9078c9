// The public calls. Each takes any numbers and any lent words and bytes, and promises `Does` of its case of `call`: its answer, words and bytes. `save`, which hands back a part of its buffer, promises `Saves`.
#![tactic(auto)]

ghost use Rattle.std.specs.Prelude.{◌≡◌, [], ◌∷◌, nat_abs};
ghost use Rattle.model.specs.Refusals.{number};
ghost use Rattle.model.specs.Calls.{Does, call, make, add_vcpu, set_running, change_line, read_distributor, write_distributor, read_frame, write_frame, read_system, write_system, query_signal, get_attribute, set_attribute, save, restore, Saves};

use model::Errno;
use record::save::front_length;
use state::{Mpidr, VcpuIndex};

// ---- the answer as a signed number

// -errno, or an answer from 0 up.
#[tactic(auto, unfolding(model::specs::Refusals::number, model::specs::Refusals::errno))]
pub fn number_of(answer: Result<u32, Errno>) -> i64
    ensures { result ≡ number answer }
{
    match answer {
        Ok(value) => i64::from(value),
        Err(e) => -(e as i64),
    }
}

// How far a number is from 0: of an answer the value, of a refusal its errno.
pub fn magnitude(r: i64) -> u64
    ensures { result ≡ nat_abs r }
{
    r.unsigned_abs()
}

// ---- the calls that set a device up

// Makes a device of any words of the right length.
pub fn make(state: &mut [u32]) -> Result<u32, Errno>
    ensures { Does (call make state.old) (number result) state.new [] }
{
    setup::make_device(state)
}

// Adds a vCPU with an affinity of its own.
pub fn add_vcpu(state: &mut [u32], mpidr: Mpidr) -> Result<u32, Errno>
    ensures { Does (call (add_vcpu mpidr.0) state.old) (number result) state.new [] }
{
    setup::add_vcpu(state, mpidr)
}

// Marks a vCPU as running, or as stopped.
pub fn set_running(state: &mut [u32], v: VcpuIndex, on: bool) -> Result<u32, Errno>
    ensures { Does (call (set_running v.0 on) state.old) (number result) state.new [] }
{
    setup::set_running(state, v, on)
}

// ---- the guest's accesses to memory-mapped registers, by the vCPU `v`

// Reads `size` bytes of the distributor.
pub fn read_distributor(state: &[u32], v: VcpuIndex, offset: u64, size: u64) -> Result<u32, Errno>
    ensures { Does (call (read_distributor v.0 offset size) state.now) (number result) state.now [] }
{
    access::read_distributor(state, v, offset, size)
}

// Writes `size` bytes of the distributor.
pub fn write_distributor(
    state: &mut [u32],
    v: VcpuIndex,
    offset: u64,
    size: u64,
    value: u64,
) -> Result<u32, Errno>
    ensures { Does (call (write_distributor v.0 offset size value) state.old) (number result) state.new [] }
{
    access::write_distributor(state, v, offset, size, value)
}

// Reads `size` bytes of the redistributor frame of a vCPU.
pub fn read_frame(
    state: &[u32],
    v: VcpuIndex,
    frame: VcpuIndex,
    offset: u64,
    size: u64,
) -> Result<u32, Errno>
    ensures { Does (call (read_frame v.0 frame.0 offset size) state.now) (number result) state.now [] }
{
    access::read_frame(state, v, frame, offset, size)
}

// Writes `size` bytes of the redistributor frame of a vCPU.
pub fn write_frame(
    state: &mut [u32],
    v: VcpuIndex,
    frame: VcpuIndex,
    offset: u64,
    size: u64,
    value: u64,
) -> Result<u32, Errno>
    ensures { Does (call (write_frame v.0 frame.0 offset size value) state.old) (number result) state.new [] }
{
    access::write_frame(state, v, frame, offset, size, value)
}

// ---- the guest's accesses to system registers, by the vCPU `v`, and its signal

// Reads the system register of an encoding. A read of IAR0 or IAR1 acknowledges.
pub fn read_system(state: &mut [u32], v: VcpuIndex, encoding: u64) -> Result<u32, Errno>
    ensures { Does (call (read_system v.0 encoding) state.old) (number result) state.new [] }
{
    access::read_system(state, v, encoding)
}

// Writes the system register of an encoding.
pub fn write_system(
    state: &mut [u32],
    v: VcpuIndex,
    encoding: u64,
    value: u64,
) -> Result<u32, Errno>
    ensures { Does (call (write_system v.0 encoding value) state.old) (number result) state.new [] }
{
    access::write_system(state, v, encoding, value)
}

// 1 if IAR1, 2 if IAR0 would give vCPU `v` an interrupt, else 0.
pub fn query_signal(state: &[u32], v: VcpuIndex) -> Result<u32, Errno>
    ensures { Does (call (query_signal v.0) state.now) (number result) state.now [] }
{
    lines::query_signal(state, v)
}

// ---- lines

// Changes the line of a PPI of a vCPU, or of an SPI.
pub fn change_line(state: &mut [u32], v: VcpuIndex, id: usize, level: bool) -> Result<u32, Errno>
    ensures { Does (call (change_line v.0 id level) state.old) (number result) state.new [] }
{
    lines::change_line(state, v, id, level)
}

// ---- attributes

// Gets an attribute of a group.
pub fn get_attribute(state: &[u32], group: u64, attribute: u64) -> Result<u32, Errno>
    ensures { Does (call (get_attribute group attribute) state.now) (number result) state.now [] }
{
    attributes::get(state, group, attribute)
}

// Sets an attribute of a group: of group 3 the interrupt count; of group 4 the device is initialised.
pub fn set_attribute(
    state: &mut [u32],
    group: u64,
    attribute: u64,
    value: u64,
) -> Result<u32, Errno>
    ensures { Does (call (set_attribute group attribute value) state.old) (number result) state.new [] }
{
    attributes::set(state, group, attribute, value)
}

// ---- the record

// Fills the front of a buffer with the record, whose length is the answer; the rest keeps its bytes, and a refusal changes none.
pub fn fill(state: &[u32], buf: &mut [u8]) -> Result<u32, Errno>
    ensures { Does (call (save buf.old) state.now) (number result) state.now (buf.new ∷ []) }
{
    record::save::fill(state, buf)
}

// The same, with the answer left in `res`: hands back the filled front part of the buffer, the empty front where it is refused.
pub fn save<'a>(state: &[u32], buf: &'a mut [u8], res: &mut i64) -> &'a mut [u8]
    ensures { Saves (call (save buf.old) state.now) res.new state.now result.now × (result.ref_ptr ≡ buf.entry.ref_ptr) }
{
    let answer = record::save::fill(state, buf);
    *res = number_of(answer);
    &mut buf[..front_length(answer)]
}

// Restores the device of a record into a fresh one of the same count and affinities.
pub fn restore(state: &mut [u32], bytes: &[u8]) -> Result<u32, Errno>
    ensures { Does (call (restore bytes.now) state.old) (number result) state.new (bytes.now ∷ []) }
{
    record::restore::restore_device(state, bytes)
}
