//! What stage 2 refuses at a leaf, and how an access comes out.
ghost use Rattle.std.specs.Prelude.{◌≡◌, ◌↔◌, true, false, IsSome, IsTrue, MatchResult, option_map};
ghost use Rattle.sysregs.specs.Registers.{InRange};
ghost use Rattle.permissions.specs.Rights.{perms_of, all_rights};
ghost use Rattle.attributes.specs.Memory;
ghost use Rattle.fault_codes.specs.declared.fault.Stage.TheVariants.{S2};
ghost use Rattle.fault_codes.specs.declared.fault.Class.TheVariants.{Permission};
ghost use Rattle.walk_spec.specs.Stage1.{is_readable};
ghost use Rattle.walk_spec.specs.BothStages.{judged2, outcome_of};
ghost use Rattle.walk_spec.specs.Steps.{reaches};
ghost use Rattle.translate.specs.Parts.{unreadable, leaf1_or_off, finish_of, gives_of};

use crate::parts::refusals::is_fetch;
use attributes::types::{alone, combine, mmu_off};
use attributes::{MemType, Share};
use fault_codes::{Class, Fault, Stage};
use permissions::{El, Kind, Perms, allows2, both, perms2};
use sysregs::Config;
use trails::{Access, Outcome};
use walk_spec::{Leaf1, Leaf2};

/// A stage 2 permission fault at a leaf.
fn denied(leaf: &Leaf2, s1ptw: bool) -> Fault
    ensures { result ≡ record { stage = S2; level = leaf.now.level; class = Permission; s1ptw = s1ptw } }
{
    Fault {
        stage: Stage::S2,
        level: leaf.level,
        class: Class::Permission,
        s1ptw,
    }
}

fn is_device(mem: MemType) -> bool
    ensures { result ≡ Memory.is_device mem }
{
    matches!(mem, MemType::Device { .. })
}

/// Whether stage 2 lets a stage 1 descriptor be read whose place this leaf maps: as a read at EL1, and with PTW not from
/// Device memory.
pub fn descriptor_read(config: &Config, leaf: &Leaf2) -> Result<(), Fault>
    ensures { MatchResult result (λ _. is_readable config.now leaf.now ≡ true)
        (λ f. (is_readable config.now leaf.now ≡ false) × (f ≡ unreadable leaf.now)) }
{
    let readable = allows2(leaf.perms, El::El1, Kind::Read) & !(config.ptw & is_device(leaf.mem));
    if readable {
        Ok(())
    } else {
        Err(denied(leaf, true))
    }
}

/// What stage 1 gives besides its output.
#[derive(Clone, Copy)]
pub(crate) struct Gives {
    pub perms: Perms,
    pub mem: MemType,
    pub sh: Share,
}

/// What stage 1 gives at a leaf, or while it is off.
fn gives1(config: &Config, access: &Access, leaf: Option<&Leaf1>) -> Gives
    ensures { result ≡ gives_of (leaf1_or_off config.now access.now (option_map (λ l. l.now) leaf.entry)) }
{
    match leaf {
        Some(leaf) => Gives {
            perms: leaf.perms,
            mem: leaf.mem,
            sh: leaf.sh,
        },
        None => {
            let (mem, sh) = mmu_off(is_fetch(access.kind), config.i);
            Gives {
                perms: perms2(true, true, 0, false, false),
                mem,
                sh,
            }
        }
    }
}

/// How an access comes out: where both stages lead, or the permission fault of stage 2. `out` is the output of stage 1
/// in bytes; its leaf is there while stage 1 is on, and that of stage 2 while stage 2 is on.
#[inline(always)]
pub fn finish(
    config: &Config,
    access: &Access,
    out: u64,
    leaf1: Option<&Leaf1>,
    leaf2: Option<&Leaf2>,
) -> Outcome
    requires on1 { IsTrue config.now.m ↔ IsSome leaf1 }
    requires on2 { IsTrue config.now.vm ↔ IsSome leaf2 }
    requires out { out ≡ (leaf1_or_off config.now access.now (option_map (λ l. l.now) leaf1)).out }
    ensures { result ≡ finish_of config.now access.now (option_map (λ l. l.now) leaf1.entry) (option_map (λ l. l.now) leaf2.entry) }
{
    let given = gives1(config, access, leaf1);
    let Some(leaf2) = leaf2 else {
        let (mem, sh) = alone(given.mem, given.sh);
        return Outcome::Mapped {
            pa: out,
            perms: given.perms,
            mem,
            sh,
        };
    };
    if !allows2(leaf2.perms, access.el, access.kind) {
        return Outcome::Faulted {
            fault: denied(leaf2, false),
        };
    }
    let (mem, sh) = combine(given.mem, given.sh, leaf2.mem, leaf2.sh);
    Outcome::Mapped {
        pa: leaf2.pa,
        perms: both(given.perms, leaf2.perms),
        mem,
        sh,
    }
}
