// The lent state: lookup between vCPU index and affinity, the places of its parts and the stores into them, the test whether it is sound, and the refusals of a call that names a vCPU.
#![tactic(auto)]

mod checks;
mod lookup;
mod masks;
mod parts;
mod soundness;

pub use checks::{check_vcpu, in_phase};
pub use lookup::{
    Mpidr, Vcpu, VcpuIndex, affinity_of, ids_below, index_of, is_affinity, is_count, is_spi,
    is_stopped, is_unused, running_of, wide,
};
pub use parts::{
    bank_at, block_at, put_flag, put_in_bank, put_in_block, put_route, spi_bank_at,
    store_of_interrupts,
};
pub use soundness::{is_fresh, is_sound};
