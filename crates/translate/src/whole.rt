//! The whole walk of an access.
ghost use Rattle.std.specs.Prelude.{◌≡◌, ◌≤◌, [], IfOk, IfErr, Err, option_map};
ghost use Rattle.bitwords.specs.Causes.{Rose};
ghost use Rattle.walk_spec.specs.Walked.{WalkedWhole, IsFresh, HasLine, HasLineStop};
ghost use Rattle.sysregs.specs.Refused.{AreAccepted};
ghost use Rattle.translate.specs.Parts.{out_of};
ghost use Rattle.translate.specs.Deep.{outcome_by};

use crate::parts::finish;
use crate::stage1::{Output1, stage1};
use crate::stage2::{stage2_end, stage2_last};
use crate::under::{InForce, Under};
use sysregs::{Config, Regs};
use table_reads::Supply;
use trails::{Access, Outcome, Stop, Trail};
use walk_spec::Leaf1;

/// The output of stage 1 in bytes; while it is off, VA bits 51 to 0.
pub fn output(access: &Access, leaf: Option<&Leaf1>) -> u64
    ensures { result ≡ out_of access.now (option_map (λ l. l.now) leaf.entry) }
{
    match leaf {
        Some(leaf) => leaf.out,
        None => access.va % (1 << 52),
    }
}

/// Both stages from their bases.
fn whole<S: Supply>(
    under: &Under,
    access: &Access,
    supply: &mut S,
    trail: &mut Trail,
) -> Result<Outcome, Stop>
    requires empty { trail.old ≡ [] }
    ensures same { S.memory supply.new ≡ S.memory supply.old }
    ensures later { S.faults supply.old ≤ S.faults supply.new }
    ensures kept { S.keeps supply.old supply.new }
    ensures line { IfOk result HasLine }
    ensures stop { IfErr result HasLineStop }
    ensures walked { WalkedWhole under.now.regs access.now under.now.moment (S.memory supply.old) (Rose (S.faults supply.old) (S.faults supply.new))
        trail.new (outcome_by result) }
{
    let config = under.config();
    let Output1 { out, leaf: leaf1 } = match stage1(under, access, supply, trail) {
        Ok(output) => output,
        Err(stop) => return Err(stop),
    };
    if !config.vm {
        return Ok(finish(config, access, out, leaf1.as_ref(), None));
    }
    let last = match stage2_last(under, out, false, supply, trail) {
        Ok(last) => last,
        Err(stop) => return Err(stop),
    };
    let leaf2 = match stage2_end(under, out, false, &last) {
        Ok(leaf) => leaf,
        Err(fault) => return Err(Stop::Fault { fault }),
    };
    Ok(finish(config, access, out, leaf1.as_ref(), Some(&leaf2)))
}

/// How an access comes out whose walk stops.
fn stopped(stop: Stop) -> Outcome
    requires { HasLineStop stop }
    ensures value { result ≡ outcome_by (Err stop) }
    ensures line { HasLine result }
{
    match stop {
        Stop::Fault { fault } => Outcome::Faulted { fault },
        Stop::Absent {
            stage,
            level,
            pa,
            s1ptw,
        } => Outcome::Absent {
            stage,
            level,
            pa,
            s1ptw,
        },
        Stop::Conflict => Outcome::Conflict,
    }
}

/// The walk of an access through both stages: how it comes out. The items that it used, all of this moment, are put into
/// an empty trail, which is the caller's since it is large. Where the supply tells its memory and does not fail, both are
/// those of the fresh walk. It is never a conflict, and a fault has a status code.
#[inline(never)]
pub fn translate_at<S: Supply>(
    force: &InForce,
    access: &Access,
    moment: u32,
    supply: &mut S,
    trail: &mut Trail,
) -> Outcome
    requires accepted { AreAccepted force.now }
    requires empty { trail.old ≡ [] }
    ensures same { S.memory supply.new ≡ S.memory supply.old }
    ensures later { S.faults supply.old ≤ S.faults supply.new }
    ensures kept { S.keeps supply.old supply.new }
    ensures line { HasLine result }
    ensures walked { WalkedWhole force.now access.now moment (S.memory supply.old) (Rose (S.faults supply.old) (S.faults supply.new)) trail.new result }
    ensures fresh { IsFresh force.now access.now moment (S.memory supply.old) (Rose (S.faults supply.old) (S.faults supply.new)) trail.new result }
{
    match whole(&Under::of(force, moment), access, supply, trail) {
        Ok(outcome) => outcome,
        Err(stop) => stopped(stop),
    }
}

/// The walk of an access through both stages: how it comes out, and the items that it used, all of moment 0. Where the
/// supply tells its memory and does not fail, both are those of the fresh walk. It is never a conflict, and a fault has
/// a status code.
pub fn translate<S: Supply>(regs: &Regs, access: &Access, supply: &mut S) -> (Outcome, Trail)
    requires accepted { AreAccepted regs.now }
    ensures same { S.memory supply.new ≡ S.memory supply.old }
    ensures later { S.faults supply.old ≤ S.faults supply.new }
    ensures kept { S.keeps supply.old supply.new }
    ensures line { HasLine result.0 }
    ensures walked { WalkedWhole regs.now access.now 0 (S.memory supply.old) (Rose (S.faults supply.old) (S.faults supply.new)) result.1 result.0 }
    ensures fresh { IsFresh regs.now access.now 0 (S.memory supply.old) (Rose (S.faults supply.old) (S.faults supply.new)) result.1 result.0 }
{
    let mut trail = Trail::none();
    let outcome = translate_at(&InForce::of(*regs), access, 0, supply, &mut trail);
    (outcome, trail)
}
