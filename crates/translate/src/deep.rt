//! The words of stage 1, each by the stage 2 of its place.
ghost use Rattle.std.specs.Prelude.{◌≡◌, ◌+◌, ◌*◌, ◌≤◌, ◌<◌, ◌%◌, ◌^◌, length, IfErr};
ghost use Rattle.bitwords.specs.Causes.{Rose};
ghost use Rattle.sysregs.specs.Registers.{config_of};
ghost use Rattle.trails.specs.Lengths.{most_items, most_per_word};
ghost use Rattle.walk_spec.specs.Walked.{HasLineStop};
ghost use Rattle.stage1_walk.specs.Under.{IsUnder, IsUnderFor};
ghost use Rattle.translate.specs.Deep.{DeepGave, WalkedFrom1};

use crate::parts::{descriptor_read, walker1};
use crate::stage2::{stage2_end, stage2_last};
use crate::tables::walk1_left;
use crate::under::Under;
use stage1_walk::{Supply1, Under1};
use table_reads::{Supply, read};
use trails::{Stop, Trail};
use walk_spec::{Leaf1, Table1};

/// Words of stage 1 over a supply of words of memory.
#[derive(Drop)]
pub struct Deep<'a, S> {
    under: &'a Under<'a>,
    supply: &'a mut S,
}

impl<'a, S: Supply> Supply1 for Deep<'a, S> {
    ghost gives = { DeepGave S.memory S.faults S.keeps };

    /// A call of its own: it holds a walk through stage 2, which would stand in each level of stage 1.
    #[inline(never)]
    fn word_at(&mut self, level: i8, ipa: u64, trail: &mut Trail) -> Result<u64, Stop> {
        let config = self.under.config();
        let walker = walker1(self.under.moment());
        if !config.vm {
            return read(&walker, level, ipa, self.supply, trail);
        }
        let last = match stage2_last(self.under, ipa, true, self.supply, trail) {
            Ok(last) => last,
            Err(stop) => return Err(stop),
        };
        let leaf = match stage2_end(self.under, ipa, true, &last) {
            Ok(leaf) => leaf,
            Err(fault) => return Err(Stop::Fault { fault }),
        };
        if let Err(fault) = descriptor_read(config, &leaf) {
            return Err(Stop::Fault { fault });
        }
        read(&walker, level, leaf.pa, self.supply, trail)
    }
}

/// Stage 1 from a table, over a supply that keeps its reference. It is a call of its own so that this has a clause: what
/// the caller's supply becomes is known only where the walk's clause says that the reference is the same, and that of
/// `walk1_left` speaks of any supply.
fn walk_kept<S: Supply>(
    under: &Under,
    walk: &Under1,
    left: u32,
    table: Table1,
    deep: &mut Deep<S>,
    trail: &mut Trail,
) -> Result<Leaf1, Stop>
    requires under { deep.old.under.now ≡ under.now }
    requires walk { IsUnder walk.now }
    requires of { IsUnderFor (config_of under.now.regs) walk.now.access.now walk.now }
    requires left { left ≤ walk.now.sizes.start }
    requires table { table.address < 2 ^ 52 × table.address % 8 ≡ 0 }
    requires room { length trail.old + most_per_word * (left + 1) ≤ most_items }
    ensures same_reference { deep.new.supply.ghost_name ≡ deep.old.supply.ghost_name }
    ensures same { S.memory deep.new.supply.now ≡ S.memory deep.old.supply.now }
    ensures later { S.faults deep.old.supply.now ≤ S.faults deep.new.supply.now }
    ensures kept { S.keeps deep.old.supply.now deep.new.supply.now }
    ensures most { length trail.new ≤ length trail.old + most_per_word * (left + 1) }
    ensures line { IfErr result HasLineStop }
    ensures walked { WalkedFrom1 (S.memory deep.old.supply.now) (Rose (S.faults deep.old.supply.now) (S.faults deep.new.supply.now))
        under.now walk.now.access.now left table trail.old trail.new result }
{
    walk1_left::<Deep<S>>(walk, left, table, deep, trail)
}

/// Stage 1 from a table with so many levels left, with the stage 2 of its words.
pub(crate) fn stage1_from<S: Supply>(
    under: &Under,
    walk: &Under1,
    left: u32,
    table: Table1,
    supply: &mut S,
    trail: &mut Trail,
) -> Result<Leaf1, Stop>
    requires walk { IsUnder walk.now }
    requires of { IsUnderFor (config_of under.now.regs) walk.now.access.now walk.now }
    requires left { left ≤ walk.now.sizes.start }
    requires table { table.address < 2 ^ 52 × table.address % 8 ≡ 0 }
    requires room { length trail.old + most_per_word * (left + 1) ≤ most_items }
    ensures same { S.memory supply.new ≡ S.memory supply.old }
    ensures later { S.faults supply.old ≤ S.faults supply.new }
    ensures kept { S.keeps supply.old supply.new }
    ensures most { length trail.new ≤ length trail.old + most_per_word * (left + 1) }
    ensures line { IfErr result HasLineStop }
    ensures walked { WalkedFrom1 (S.memory supply.old) (Rose (S.faults supply.old) (S.faults supply.new))
        under.now walk.now.access.now left table trail.old trail.new result }
{
    let mut deep = Deep { under, supply };
    walk_kept::<S>(under, walk, left, table, &mut deep, trail)
}
