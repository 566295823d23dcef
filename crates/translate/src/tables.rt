//! Walks from a given table, by the granule in force.
ghost use Rattle.std.specs.Prelude.{◌≡◌, ◌+◌, ◌*◌, ◌≤◌, ◌<◌, ◌%◌, ◌^◌, length, true, IsFalse, IfOk, IfErr};
ghost use Rattle.bitwords.specs.Causes.{Rose};
ghost use Rattle.geometry.specs.Tables.{left_below};
ghost use Rattle.sysregs.specs.Registers.{config_of};
ghost use Rattle.sysregs.specs.Sides.{side_of};
ghost use Rattle.trails.specs.Lengths.{most_items, most_per_word};
ghost use Rattle.trails.specs.Printed.{HasTextStop};
ghost use Rattle.walk_spec.specs.Stage2.{is_refused2};
ghost use Rattle.walk_spec.specs.BothStages.{asked, is_refused1};
ghost use Rattle.walk_spec.specs.Walked.{HasLineStop};
ghost use Rattle.stage1_walk.specs.Clauses as Clauses1;
ghost use Rattle.stage1_walk.specs.Gave.{Walked1};
ghost use Rattle.stage1_walk.specs.Under as Unders1;
ghost use Rattle.stage2_walk.specs.Under.{IsUnder};
ghost use Rattle.stage2_walk.specs.SoundSteps.{IsSoundLeaf};
ghost use Rattle.stage2_walk.specs.Clauses.{IsTableOf, CameDown, WalkedLeft, WalkedFrom};

use crate::under::InForce;
use geometry::case_table;
use stage1_walk::{From1, Supply1, Under1, walk1_under};
use stage2_walk::{From2, Last2, Under2, walk2_down, walk2_under};
use sysregs::Tg;
use table_reads::{Supply, left_below};
use trails::{Access, Stop, Trail};
use walk_spec::{Leaf1, Leaf2, Table1};

/// Stage 1 from a table with so many levels left, by the granule of the side.
#[inline(always)]
pub(crate) fn walk1_left<D: Supply1>(
    under: &Under1,
    left: u32,
    table: Table1,
    supply: &mut D,
    trail: &mut Trail,
) -> Result<Leaf1, Stop>
    requires under { Unders1.IsUnder under.now }
    requires left { left ≤ under.now.sizes.start }
    requires table { table.address < 2 ^ 52 × table.address % 8 ≡ 0 }
    requires room { length trail.old + most_per_word * (left + 1) ≤ most_items }
    ensures most { length trail.new ≤ length trail.old + most_per_word * (left + 1) }
    ensures text { IfErr result HasTextStop }
    ensures walked { Walked1 D.gives (Unders1.asked_under under.now) left table supply.old trail.old trail.new result supply.new }
{
    let tg = under.config.tg(under.side);
    case_table!(granule tg; walk1_under::<_, D>(under, left, table, supply, trail))
}

/// Stage 2 from a table with so many levels left down to its last word, by the granule of stage 2.
#[inline(always)]
pub(crate) fn walk2_last<S: Supply>(
    under: &Under2,
    left: u32,
    table: u64,
    supply: &mut S,
    trail: &mut Trail,
) -> Result<Last2, Stop>
    requires under { IsUnder under.now }
    requires left { left ≤ under.now.sizes.start }
    requires table { table < 2 ^ 52 × table % 8 ≡ 0 }
    requires room { length trail.old + left < most_items }
    ensures same { S.memory supply.new ≡ S.memory supply.old }
    ensures later { S.faults supply.old ≤ S.faults supply.new }
    ensures kept { S.keeps supply.old supply.new }
    ensures most { length trail.new ≤ length trail.old + left + 1 }
    ensures line { IfErr result HasLineStop }
    ensures down { CameDown (S.memory supply.old) (Rose (S.faults supply.old) (S.faults supply.new)) under.now left table trail.old trail.new result }
{
    case_table!(granule under.config.tg2; walk2_down::<_, S>(under, left, table, supply, trail))
}

/// Stage 2 from a table with so many levels left, by the granule of stage 2.
fn walk2_left<S: Supply>(
    under: &Under2,
    left: u32,
    table: u64,
    supply: &mut S,
    trail: &mut Trail,
) -> Result<Leaf2, Stop>
    requires under { IsUnder under.now }
    requires left { left ≤ under.now.sizes.start }
    requires table { table < 2 ^ 52 × table % 8 ≡ 0 }
    requires room { length trail.old + left < most_items }
    ensures same { S.memory supply.new ≡ S.memory supply.old }
    ensures later { S.faults supply.old ≤ S.faults supply.new }
    ensures kept { S.keeps supply.old supply.new }
    ensures most { length trail.new ≤ length trail.old + left + 1 }
    ensures line { IfErr result HasLineStop }
    ensures sound { IfOk result (IsSoundLeaf under.now.ipa) }
    ensures walked { WalkedLeft (S.memory supply.old) (Rose (S.faults supply.old) (S.faults supply.new)) under.now left table trail.old trail.new result }
{
    case_table!(granule under.config.tg2; walk2_under::<_, S>(under, left, table, supply, trail))
}

/// Stage 1 from a table down to a leaf, for an access that is not refused, over any supply of its words. The items are
/// those that the supply appends. (DDI 0487, AArch64.S1Walk)
pub fn walk1_from<D: Supply1>(
    force: &InForce,
    access: &Access,
    from: &From1,
    supply: &mut D,
    trail: &mut Trail,
) -> Result<Leaf1, Stop>
    requires accepted { IsFalse (is_refused1 (config_of force.now) access.now) }
    requires table { Clauses1.IsTableOf (config_of force.now) (side_of access.now.va) from.now }
    requires room { length trail.old + most_per_word * (left_below from.now.level + 1) ≤ most_items }
    ensures most { length trail.new ≤ length trail.old + most_per_word * (left_below from.now.level + 1) }
    ensures text { IfErr result HasTextStop }
    ensures walked { Walked1 D.gives (asked (config_of force.now) true access.now) (left_below from.now.level) (Clauses1.table_from from.now)
        supply.old trail.old trail.new result supply.new }
{
    let side = sysregs::side(access.va);
    let Some(sizes) = force.start1(side).sizes else {
        unreachable!();
    };
    let under = Under1::of(force.config(), access, side, sizes);
    let table = Table1 {
        address: from.base,
        bits: from.tables,
    };
    walk1_left::<D>(&under, left_below(from.level), table, supply, trail)
}

/// Stage 2 from a table down to a leaf, for an IPA in bytes that is not refused. `s1ptw` marks the place of a stage 1
/// descriptor. The items of its words are appended, with this moment. Its parameters are those of `walk2`.
/// (DDI 0487, AArch64.S2Walk)
pub fn walk2_from<S: Supply>(
    force: &InForce,
    from: &From2,
    ipa: u64,
    s1ptw: bool,
    moment: u32,
    supply: &mut S,
    trail: &mut Trail,
) -> Result<Leaf2, Stop>
    requires accepted { IsFalse (is_refused2 (config_of force.now) ipa) }
    requires table { IsTableOf (config_of force.now) from.now }
    requires room { length trail.old + left_below from.now.level < most_items }
    ensures same { S.memory supply.new ≡ S.memory supply.old }
    ensures later { S.faults supply.old ≤ S.faults supply.new }
    ensures kept { S.keeps supply.old supply.new }
    ensures most { length trail.new ≤ length trail.old + left_below from.now.level + 1 }
    ensures line { IfErr result HasLineStop }
    ensures sound { IfOk result (IsSoundLeaf ipa) }
    ensures walked { WalkedFrom (S.memory supply.old) (Rose (S.faults supply.old) (S.faults supply.new))
        (record { config = config_of force.now; ipa = ipa; s1ptw = s1ptw; moment = moment; from = from.now }) trail.old trail.new result }
{
    let Some(sizes) = force.start2().sizes else {
        unreachable!();
    };
    let under = Under2 {
        config: force.config(),
        ipa,
        sizes,
        moment,
        s1ptw,
    };
    walk2_left::<S>(&under, left_below(from.level), from.base, supply, trail)
}
