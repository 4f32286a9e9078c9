// The phase that a call asks for, and the refusals of a call that names a vCPU.
ghost use Rattle.std.specs.Prelude.{◌≡◌, ◌∷◌, ◌≤◌};
ghost use Rattle.model.specs.Layout.{most_vcpus, vcpus};
ghost use Rattle.model.specs.Sound.{sound};
ghost use Rattle.model.specs.Refusals.{first_failing};
ghost use Rattle.model.specs.Calls.{in_phase, vcpu_checks};
ghost use Rattle.model.specs.declared.Errno.TheVariants.{Efault};

use crate::lookup::{VcpuIndex, is_stopped};
use crate::soundness::is_sound;
use model::layout::{INITIALISED, State, VCPUS};
use model::{Errno, Phase};

// Whether the device is in the phase that a call asks for.
pub fn in_phase(s: &State, phase: Phase) -> bool
    requires { vcpus s.now ≤ most_vcpus }
    ensures { result ≡ in_phase phase s.now }
{
    match phase {
        Phase::Initialised | Phase::Changing => s[INITIALISED] == 1,
        Phase::Stopped => is_stopped(s),
    }
}

// 14 not sound; 16 another phase; 22 no such index.
pub fn check_vcpu(s: &[u32], phase: Phase, v: VcpuIndex) -> Result<(), Errno>
    ensures { result ≡ first_failing ((sound s.now, Efault) ∷ vcpu_checks phase v.0 s.now) }
{
    let Some(s) = s.as_array() else {
        return Err(Errno::Efault);
    };
    if !is_sound(s) {
        return Err(Errno::Efault);
    }
    if !in_phase(s, phase) {
        return Err(Errno::Ebusy);
    }
    let n = s[VCPUS] as usize;
    if v.0 >= n {
        return Err(Errno::Einval);
    }
    Ok(())
}
