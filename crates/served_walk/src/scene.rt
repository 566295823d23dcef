ghost use Rattle.std.specs.Prelude.{◌≡◌};
ghost use Rattle.machine_spec.specs.Made.{key_of};

use fault_codes::Stage;
use phys_mem::Phys;
use sysregs::fields::{asid, vmid};
use tagged_tlb::{Key, Sought};
use translate::InForce;

/// What an access meets: the registers in force, the rows of its core, memory, and the moment, which is the number of the
/// step.
#[derive(Drop)]
pub struct Scene<'a, F> {
    pub force: &'a InForce,
    pub finds: &'a F,
    pub phys: &'a Phys,
    pub moment: u32,
}

/// The rows of a stage that serve an address in bytes under registers.
pub(crate) fn sought(force: &InForce, stage: Stage, at: u64) -> Sought
    ensures { result ≡ record { key = key_of force.now; at = at; stage = stage } }
{
    Sought {
        key: Key {
            config: *force.config(),
            vmid: vmid(force.regs()),
            asid: asid(force.regs()),
        },
        at,
        stage,
    }
}
