//! Stage 1 from its base, on or off.
ghost use Rattle.std.specs.Prelude.{◌≡◌, ◌+◌, ◌≤◌, ◌<◌, ◌%◌, ◌^◌, ◌↔◌, [], length, IsTrue, IsFalse, IsSome, IfOk, IfErr};
ghost use Rattle.bitwords.specs.Causes.{Rose};
ghost use Rattle.sysregs.specs.Registers.{config_of};
ghost use Rattle.sysregs.specs.Sides.{side_of};
ghost use Rattle.trails.specs.Lengths.{most_items, most_items2};
ghost use Rattle.walk_spec.specs.BothStages.{is_refused1};
ghost use Rattle.walk_spec.specs.Fresh.{start_base1};
ghost use Rattle.walk_spec.specs.Walked.{HasLineStop};
ghost use Rattle.stage1_walk.specs.Under.{IsUnder, IsUnderFor};
ghost use Rattle.translate.specs.Parts.{leaf1_or_off};
ghost use Rattle.translate.specs.Deep.{WalkedOn1, WalkedStage1};

use crate::deep::stage1_from;
use crate::parts::{enter1, keep_root, off1, start_table, walker1};
use crate::under::Under;
use stage1_walk::Under1;
use table_reads::Supply;
use trails::{Access, Stop, Trail};
use walk_spec::Leaf1;

/// What stage 1 gives: its output in bytes, with its leaf while it is on.
#[derive(Clone, Copy)]
pub(crate) struct Output1 {
    pub out: u64,
    pub leaf: Option<Leaf1>,
}

/// Stage 1 of an access that it doesn't refuse, from the base of the access's side.
fn stage1_on<S: Supply>(
    under: &Under,
    walk: &Under1,
    base: u64,
    supply: &mut S,
    trail: &mut Trail,
) -> Result<Leaf1, Stop>
    requires accepted { IsFalse (is_refused1 (config_of under.now.regs) walk.now.access.now) }
    requires walk { IsUnder walk.now }
    requires of { IsUnderFor (config_of under.now.regs) walk.now.access.now walk.now }
    requires base { base ≡ start_base1 under.now.regs (side_of walk.now.access.now.va) }
    requires table { base < 2 ^ 52 × base % 8 ≡ 0 }
    requires empty { trail.old ≡ [] }
    ensures same { S.memory supply.new ≡ S.memory supply.old }
    ensures later { S.faults supply.old ≤ S.faults supply.new }
    ensures kept { S.keeps supply.old supply.new }
    ensures most { length trail.new + most_items2 ≤ most_items }
    ensures line { IfErr result HasLineStop }
    ensures walked { WalkedOn1 (S.memory supply.old) (Rose (S.faults supply.old) (S.faults supply.new))
        under.now walk.now.access.now trail.new result }
{
    if let Err(fault) = keep_root(&walker1(under.moment()), &walk.sizes, base, trail) {
        return Err(Stop::Fault { fault });
    }
    stage1_from(
        under,
        walk,
        walk.sizes.start,
        start_table(base),
        supply,
        trail,
    )
}

/// Stage 1 of an access, on or off.
pub(crate) fn stage1<S: Supply>(
    under: &Under,
    access: &Access,
    supply: &mut S,
    trail: &mut Trail,
) -> Result<Output1, Stop>
    requires empty { trail.old ≡ [] }
    ensures same { S.memory supply.new ≡ S.memory supply.old }
    ensures later { S.faults supply.old ≤ S.faults supply.new }
    ensures kept { S.keeps supply.old supply.new }
    ensures most { length trail.new + most_items2 ≤ most_items }
    ensures line { IfErr result HasLineStop }
    ensures on { IfOk result (λ o. IsTrue (config_of under.now.regs).m ↔ IsSome o.leaf) }
    ensures out { IfOk result (λ o. o.out ≡ (leaf1_or_off (config_of under.now.regs) access.now o.leaf).out) }
    ensures walked { WalkedStage1 (S.memory supply.old) (Rose (S.faults supply.old) (S.faults supply.new)) under.now access.now trail.new result }
{
    let config = under.config();
    if !config.m {
        return match off1(config, access) {
            Ok(out) => Ok(Output1 { out, leaf: None }),
            Err(fault) => Err(Stop::Fault { fault }),
        };
    }
    let side = sysregs::side(access.va);
    let start = under.start1(side);
    let sizes = match enter1(config, access, side, start.sizes) {
        Ok(sizes) => sizes,
        Err(fault) => return Err(Stop::Fault { fault }),
    };
    let walk = Under1::of(config, access, side, sizes);
    match stage1_on(under, &walk, start.base, supply, trail) {
        Ok(leaf) => Ok(Output1 {
            out: leaf.out,
            leaf: Some(leaf),
        }),
        Err(stop) => Err(stop),
    }
}
