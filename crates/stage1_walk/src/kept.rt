//! Words of stage 1 that were kept.
ghost use Rattle.std.specs.Prelude.{◌≡◌, ◌≤◌, ◌<◌, ◌^◌, ◌%◌, true};
ghost use Rattle.geometry.specs.Tables.{most_left};
ghost use Rattle.sysregs.specs.Registers.{granule_of};
ghost use Rattle.sysregs.specs.Sides.{side_of, tg_of};
ghost use Rattle.descriptors.specs.Meaning.{means1_of};
ghost use Rattle.walk_spec.specs.Needs.{fits, word, mapping1, serves_run, regime_of};
ghost use Rattle.walk_spec.specs.Stage1;
ghost use Rattle.walk_spec.specs.BothStages.{asked};
ghost use Rattle.stage1_walk.specs.Under.{IsUnder, IsUnderFor, regime_under};
ghost use Rattle.stage1_walk.specs.SoundSteps.{IsSoundStep};
ghost use Rattle.stage1_walk.specs.Kept.{needed1};

use crate::step::{meaning, step_by};
use crate::under::Under1;
use descriptors::Kind1;
use fault_codes::Stage;
use geometry::serves_run;
use kept_items::is_word;
use table_reads::{Lead, place};
use trails::Item;
use walk_spec::{Entry1, Leaf1, Table1};

/// The entry that an access selects in a table with so many levels left.
pub fn entry1<const G: u32>(under: &Under1, left: u32, table: Table1) -> Entry1
    requires granule { G ≡ granule_of (tg_of under.now.config.now under.now.side) }
    requires under { IsUnder under.now }
    requires of { IsUnderFor under.now.config.now under.now.access.now under.now }
    requires left { left ≤ under.now.sizes.start }
    requires table { table.address < 2 ^ 52 × table.address % 8 ≡ 0 }
    ensures { result ≡ Stage1.entry1 (asked under.now.config.now true under.now.access.now) left table }
{
    Entry1 {
        table,
        place: place::<G>(&under.sizes, left, table.address, under.address),
        address: under.address,
        left,
    }
}

/// Whether an item's word is a block or page of a run that serves another place of the run.
fn is_run_mate<const G: u32>(under: &Under1, left: u32, place: u64, item: &Item) -> bool
    requires granule { G ≡ granule_of (tg_of under.now.config.now under.now.side) }
    requires under { IsUnder under.now }
    requires left { left ≤ most_left }
    ensures { result ≡ serves_run (mapping1 (means1_of under.now.config.now under.now.side left item.now.value)) under.now.sizes left item.now.pa place }
{
    match meaning::<G>(left, item.value, under.config, under.side) {
        Kind1::Leaf {
            out,
            contiguous,
            ..
        } => contiguous && serves_run::<G>(under.sizes.input, left, out, item.pa, place),
        _ => false,
    }
}

/// Whether an item is the word of an entry that is needed at a physical place.
#[tactic(auto, unfolding(walk_spec::specs::Needs::fits))]
fn fits_under<const G: u32>(under: &Under1, entry: &Entry1, place: u64, item: &Item) -> bool
    requires granule { G ≡ granule_of (tg_of under.now.config.now under.now.side) }
    requires under { IsUnder under.now }
    requires left { entry.now.left ≤ most_left }
    ensures { result ≡ fits (regime_under under.now) (word (needed1 entry.now place)) item.now }
{
    is_word(item, Stage::S1, entry.left)
        && (item.pa == place || is_run_mate::<G>(under, entry.left, place, item))
}

/// Whether an item is the word of an entry that is needed at a physical place.
pub fn fits_entry<const G: u32>(under: &Under1, entry: &Entry1, place: u64, item: &Item) -> bool
    requires granule { G ≡ granule_of (tg_of under.now.config.now under.now.side) }
    requires under { IsUnder under.now }
    requires of { IsUnderFor under.now.config.now under.now.access.now under.now }
    requires left { entry.now.left ≤ most_left }
    ensures { result ≡ fits (regime_of under.now.config.now (side_of under.now.access.now.va)) (word (needed1 entry.now place)) item.now }
{
    fits_under::<G>(under, entry, place, item)
}

/// What the word of an item leads to, for an access that is judged.
pub fn step_kept<const G: u32>(under: &Under1, entry: &Entry1, item: &Item) -> Lead<Leaf1, Table1>
    requires granule { G ≡ granule_of (tg_of under.now.config.now under.now.side) }
    requires under { IsUnder under.now }
    requires of { IsUnderFor under.now.config.now under.now.access.now under.now }
    requires left { entry.now.left ≤ most_left }
    ensures value { result ≡ Stage1.step1 (asked under.now.config.now true under.now.access.now) entry.now item.now.pa item.now.value }
    ensures sound { IsSoundStep entry.now.left result }
{
    step_by::<G>(under, entry, item.pa, item.value)
}
