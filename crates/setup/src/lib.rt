// The calls that set a device up: make, add vCPU, attribute groups 3 and 4, running flag. Each has its refusals in document 01's order, EFAULT first, then its writer.
#![tactic(auto)]

ghost use Rattle.std.specs.Prelude.{◌≡◌, [], ◌∷◌, cond, not, ◌&&◌, ◌||◌, ◌<◌, eqb, ltb, length, set};
ghost use Rattle.model.specs.Values.{edge_bits};
ghost use Rattle.model.specs.Layout.{most_vcpus, initialised_at, is_initialised, count, count_at, vcpus, edge_field, affinity_field, bpr_field, least_bpr};
ghost use Rattle.model.specs.Sound.{sound};
ghost use Rattle.model.specs.Refusals.{first_failing, number};
ghost use Rattle.model.specs.Calls.{Does, call, checks, set_checks, make, add_vcpu, set_running, get_attribute, set_attribute, vcpu_added, initialised_next};
ghost use Rattle.model.specs.declared.Errno.TheVariants.{Efault, Ebusy, Einval};
ghost use Rattle.model.specs.declared.AttributeGroup.TheVariants.{Count, Initialise};

use model::layout::{
    AFFINITY, BLOCK_LENGTH, BPR0, BPR1, COUNT, EDGES, INITIALISED, LEAST_BPR0, LEAST_BPR1,
    MOST_VCPUS, RUNNING, STATE_LENGTH, State, VCPUS,
};
use model::values::EDGE_BITS;
use model::{Errno, Phase};
use state::{
    Mpidr, Vcpu, VcpuIndex, block_at, check_vcpu, is_affinity, is_count, is_sound, is_unused,
    put_in_block,
};

// ---- make a device

// Any content of the right length becomes a device: all zero.
pub fn make_device(s: &mut [u32]) -> Result<u32, Errno>
    ensures { Does (call make s.old) (number result) s.new [] }
{
    if s.len() != STATE_LENGTH {
        return Err(Errno::Efault);
    }
    s.fill(0);
    Ok(0)
}

// ---- add a vCPU

// The words of a block that are not zero when its vCPU is added.
fn write_block(b: &mut [u32], mpidr: Mpidr)
    requires { length b.old ≡ 32 }
    ensures { b.new ≡ set (set (set (set b.old edge_field edge_bits) affinity_field mpidr.0) (bpr_field 0) (least_bpr 0)) (bpr_field 1) (least_bpr 1) }
{
    b[EDGES] = EDGE_BITS;
    b[AFFINITY] = mpidr.0;
    b[BPR0] = LEAST_BPR0;
    b[BPR1] = LEAST_BPR1;
}

// One vCPU more, the last, its block lent on.
fn write_vcpu(s: &mut State, mpidr: Mpidr)
    requires { vcpus s.old < most_vcpus }
    ensures { s.new ≡ vcpu_added s.old (vcpus s.old) mpidr.0 }
{
    let n = s[VCPUS];
    let at = block_at(Vcpu { index: n as usize });
    write_block(&mut s[at..at + BLOCK_LENGTH], mpidr);
    s[VCPUS] = n + 1;
}

// 16 if initialised; 22 bad affinity; 17 in use; 12 a ninth vCPU.
fn check_new_vcpu(s: &State, mpidr: Mpidr) -> Result<(), Errno>
    ensures { result ≡ first_failing ((sound s.now, Efault) ∷ checks (add_vcpu mpidr.0) s.now) }
{
    if !is_sound(s) {
        return Err(Errno::Efault);
    }
    if s[INITIALISED] == 1 {
        return Err(Errno::Ebusy);
    }
    if !is_affinity(mpidr) {
        return Err(Errno::Einval);
    }
    let n = s[VCPUS] as usize;
    if !is_unused(s, mpidr, n) {
        return Err(Errno::Eexist);
    }
    if n >= MOST_VCPUS {
        return Err(Errno::Enomem);
    }
    Ok(())
}

// Adds a vCPU with an affinity of its own.
pub fn add_vcpu(s: &mut [u32], mpidr: Mpidr) -> Result<u32, Errno>
    ensures { Does (call (add_vcpu mpidr.0) s.old) (number result) s.new [] }
{
    let Some(s) = s.as_mut_array::<STATE_LENGTH>() else {
        return Err(Errno::Efault);
    };
    check_new_vcpu(s, mpidr)?;
    write_vcpu(s, mpidr);
    Ok(0)
}

// ---- attribute group 3: the interrupt count

// Whether the count may still be set.
fn count_is_open(s: &State) -> bool
    ensures { result ≡ (eqb (count s.now) 0 && not (is_initialised s.now)) }
{
    (s[COUNT] == 0) & (s[INITIALISED] != 1)
}

// 22 no count; 16 if set or initialised.
fn check_count(s: &State, value: u64) -> Result<(), Errno>
    ensures { result ≡ first_failing ((sound s.now, Efault) ∷ set_checks Count 0 value s.now) }
{
    if !is_sound(s) {
        return Err(Errno::Efault);
    }
    if !is_count(value) {
        return Err(Errno::Einval);
    }
    if !count_is_open(s) {
        return Err(Errno::Ebusy);
    }
    Ok(())
}

// Sets the count; the attribute's number is ignored.
pub fn set_count(s: &mut [u32], attribute: u64, value: u64) -> Result<u32, Errno>
    ensures { Does (call (set_attribute 3 attribute value) s.old) (number result) s.new [] }
{
    let Some(s) = s.as_mut_array::<STATE_LENGTH>() else {
        return Err(Errno::Efault);
    };
    check_count(s, value)?;
    s[COUNT] = value as u32;
    Ok(0)
}

// Gives the count, 0 where it is unset.
pub fn get_count(s: &[u32], attribute: u64) -> Result<u32, Errno>
    ensures { Does (call (get_attribute 3 attribute) s.now) (number result) s.now [] }
{
    let Some(s) = s.as_array::<STATE_LENGTH>() else {
        return Err(Errno::Efault);
    };
    if !is_sound(s) {
        return Err(Errno::Efault);
    }
    Ok(s[COUNT])
}

// ---- attribute group 4: initialise

// An unset count becomes 256.
fn count_or_default(c: u32) -> u32
    ensures { result ≡ cond (eqb c 0) 256 c }
{
    if c == 0 { 256 } else { c }
}

// The two words that initialise writes.
fn mark_initialised(s: &mut State, count: u32)
    ensures { s.new ≡ set (set s.old count_at count) initialised_at 1 }
{
    s[COUNT] = count;
    s[INITIALISED] = 1;
}

// No change if done already.
fn write_initialised(s: &mut State)
    ensures { s.new ≡ initialised_next s.old }
{
    if s[INITIALISED] == 1 {
        return;
    }
    let count = count_or_default(s[COUNT]);
    mark_initialised(s, count);
}

// Whether the device is initialised, or has a vCPU.
fn may_initialise(s: &State) -> bool
    ensures { result ≡ (is_initialised s.now || ltb 0 (vcpus s.now)) }
{
    (s[INITIALISED] == 1) | (0 < s[VCPUS])
}

// 6 if the attribute is not 0; 19 with no vCPU, unless done already.
fn check_initialise(s: &State, attribute: u64) -> Result<(), Errno>
    ensures { result ≡ first_failing ((sound s.now, Efault) ∷ set_checks Initialise attribute 0 s.now) }
{
    if !is_sound(s) {
        return Err(Errno::Efault);
    }
    if attribute != 0 {
        return Err(Errno::Enxio);
    }
    if !may_initialise(s) {
        return Err(Errno::Enodev);
    }
    Ok(())
}

// Initialises the device; the value is ignored.
pub fn initialise(s: &mut [u32], attribute: u64, value: u64) -> Result<u32, Errno>
    ensures { Does (call (set_attribute 4 attribute value) s.old) (number result) s.new [] }
{
    let Some(s) = s.as_mut_array::<STATE_LENGTH>() else {
        return Err(Errno::Efault);
    };
    check_initialise(s, attribute)?;
    write_initialised(s);
    Ok(0)
}

// Group 4 has only a set.
pub fn get_initialise(s: &[u32], attribute: u64) -> Result<u32, Errno>
    ensures { Does (call (get_attribute 4 attribute) s.now) (number result) s.now [] }
{
    if !is_sound(s) {
        return Err(Errno::Efault);
    }
    Err(Errno::Enxio)
}

// ---- running flag

// Marks a vCPU as running, or as stopped.
pub fn set_running(s: &mut [u32], v: VcpuIndex, on: bool) -> Result<u32, Errno>
    ensures { Does (call (set_running v.0 on) s.old) (number result) s.new [] }
{
    let Some(s) = s.as_mut_array::<STATE_LENGTH>() else {
        return Err(Errno::Efault);
    };
    check_vcpu(s, Phase::Initialised, v)?;
    put_in_block(s, Vcpu::at(v), RUNNING, on as u32);
    Ok(0)
}
