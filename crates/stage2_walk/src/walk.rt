ghost use Rattle.std.specs.Prelude.{◌≡◌, ◌+◌, ◌-◌, ◌≤◌, ◌<◌, ◌^◌, ◌%◌, length, IsFalse, IfOk, IfErr};
ghost use Rattle.bitwords.specs.Causes.{Rose};
ghost use Rattle.geometry.specs.Tables.{most_left, left_below, level_of};
ghost use Rattle.sysregs.specs.Registers.{InRange, granule_of};
ghost use Rattle.trails.specs.Lengths.{most_items};
ghost use Rattle.table_reads.specs.Memory.{HasRead};
ghost use Rattle.walk_spec.specs.Stage2.{is_refused2};
ghost use Rattle.walk_spec.specs.Walked.{HasLineStop};
ghost use Rattle.stage2_walk.specs.Under.{IsUnder, asked_under, walker_under};
ghost use Rattle.stage2_walk.specs.SoundSteps.{IsSoundLeaf};
ghost use Rattle.stage2_walk.specs.Clauses.{IsTableOf, CameDown, WalkedLeft, WalkedFrom};

use crate::sizes::sizes2;
use crate::step::{Last2, end2, table_below};
use crate::under::Under2;
use sysregs::Config;
use table_reads::{Supply, left_below, level, place, place_below, read};
use trails::{Stop, Trail};
use walk_spec::Leaf2;

/// A stage 2 table to walk from: its level, and its base in bytes.
#[derive(Clone, Copy)]
pub struct From2 {
    pub base: u64,
    pub level: i8,
}

/// Reads the word at a place with so many levels left, and appends its item.
#[inline(always)]
fn read_word<S: Supply>(
    under: &Under2,
    left: u32,
    place: u64,
    supply: &mut S,
    trail: &mut Trail,
) -> Result<u64, Stop>
    requires left { left ≤ most_left }
    requires aligned { place % 8 ≡ 0 }
    requires room { length trail.old < most_items }
    ensures same { S.memory supply.new ≡ S.memory supply.old }
    ensures later { S.faults supply.old ≤ S.faults supply.new }
    ensures kept { S.keeps supply.old supply.new }
    ensures read { HasRead (S.memory supply.old) (Rose (S.faults supply.old) (S.faults supply.new)) (walker_under under.now)
        (level_of left) place trail.old trail.new result }
{
    read(&under.walker(), level(left), place, supply, trail)
}

/// The walk from a table with so many levels left down to the word of a leaf or a fault, under numbers that are at hand. The
/// items of its words are appended.
#[inline(always)]
pub fn walk2_down<const G: u32, S: Supply>(
    under: &Under2,
    mut left: u32,
    mut table: u64,
    supply: &mut S,
    trail: &mut Trail,
) -> Result<Last2, Stop>
    requires granule { G ≡ granule_of under.now.config.now.tg2 }
    requires under { IsUnder under.now }
    requires left { left ≤ under.now.sizes.start }
    requires table { table < 2 ^ 52 × table % 8 ≡ 0 }
    requires room { length trail.old + left < most_items }
    ensures same { S.memory supply.new ≡ S.memory supply.old }
    ensures later { S.faults supply.old ≤ S.faults supply.new }
    ensures kept { S.keeps supply.old supply.new }
    ensures most { length trail.new ≤ length trail.old + left + 1 }
    ensures line { IfErr result HasLineStop }
    ensures down { CameDown (S.memory supply.old) (Rose (S.faults supply.old) (S.faults supply.new)) under.now left table trail.old trail.new result }
{
    let mut place = place::<G>(&under.sizes, left, table, under.ipa);
    loop {
        let word = read_word(under, left, place, supply, trail)?;
        match table_below::<G>(under, left, word) {
            Some(next) => {
                table = next;
                left -= 1;
                place = place_below::<G>(left, table, under.ipa);
            }
            None => return Ok(Last2 { word, place, left }),
        }
    }
}

/// The walk from a table with so many levels left down to a leaf, under numbers that are at hand. The items of its words
/// are appended.
#[inline(always)]
pub fn walk2_under<const G: u32, S: Supply>(
    under: &Under2,
    left: u32,
    table: u64,
    supply: &mut S,
    trail: &mut Trail,
) -> Result<Leaf2, Stop>
    requires granule { G ≡ granule_of under.now.config.now.tg2 }
    requires under { IsUnder under.now }
    requires left { left ≤ under.now.sizes.start }
    requires table { table < 2 ^ 52 × table % 8 ≡ 0 }
    requires room { length trail.old + left < most_items }
    ensures same { S.memory supply.new ≡ S.memory supply.old }
    ensures later { S.faults supply.old ≤ S.faults supply.new }
    ensures kept { S.keeps supply.old supply.new }
    ensures most { length trail.new ≤ length trail.old + left + 1 }
    ensures line { IfErr result HasLineStop }
    ensures sound { IfOk result (IsSoundLeaf under.now.ipa) }
    ensures walked { WalkedLeft (S.memory supply.old) (Rose (S.faults supply.old) (S.faults supply.new)) under.now left table trail.old trail.new result }
{
    let last = match walk2_down::<G, S>(under, left, table, supply, trail) {
        Ok(last) => last,
        Err(stop) => return Err(stop),
    };
    match end2(under, &last) {
        Ok(leaf) => Ok(leaf),
        Err(fault) => Err(Stop::Fault { fault }),
    }
}

/// The walk through stage 2 from a table down to a leaf, for an IPA that is not refused. `ptw` marks the place of a
/// stage 1 descriptor. The items of its words are appended, with this moment.
pub fn walk2<const G: u32, S: Supply>(
    config: &Config,
    from: &From2,
    ipa: u64,
    ptw: bool,
    moment: u32,
    supply: &mut S,
    trail: &mut Trail,
) -> Result<Leaf2, Stop>
    requires config { InRange config.now }
    requires granule { G ≡ granule_of config.now.tg2 }
    requires accepted { IsFalse (is_refused2 config.now ipa) }
    requires table { IsTableOf config.now from.now }
    requires room { length trail.old + left_below from.now.level < most_items }
    ensures same { S.memory supply.new ≡ S.memory supply.old }
    ensures later { S.faults supply.old ≤ S.faults supply.new }
    ensures kept { S.keeps supply.old supply.new }
    ensures most { length trail.new ≤ length trail.old + left_below from.now.level + 1 }
    ensures line { IfErr result HasLineStop }
    ensures sound { IfOk result (IsSoundLeaf ipa) }
    ensures walked { WalkedFrom (S.memory supply.old) (Rose (S.faults supply.old) (S.faults supply.new))
        (record { config = config.now; ipa = ipa; s1ptw = ptw; moment = moment; from = from.now }) trail.old trail.new result }
{
    let under = Under2 {
        config,
        ipa,
        sizes: sizes2(config),
        moment,
        s1ptw: ptw,
    };
    walk2_under::<G, S>(&under, left_below(from.level), from.base, supply, trail)
}
