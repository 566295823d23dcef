//! How a walk through stage 1 stands on items that were kept.
ghost use Rattle.std.specs.Prelude.{◌≡◌, ℕ, ◌≤◌, ◌<◌, ◌^◌, ◌%◌, length, drop, slice_index_or, true};
ghost use Rattle.geometry.specs.Tables.{most_left};
ghost use Rattle.sysregs.specs.Registers.{InRange, granule_of};
ghost use Rattle.sysregs.specs.Sides.{side_of, tg_of};
ghost use Rattle.walk_spec.specs.Ask.{on};
ghost use Rattle.walk_spec.specs.Needs.{fits, regime_of};
ghost use Rattle.walk_spec.specs.Stage1;
ghost use Rattle.walk_spec.specs.Stage1.{read1, word_of};
ghost use Rattle.walk_spec.specs.BothStages.{asked};
ghost use Rattle.stage1_walk.specs.Under.{IsUnder, IsUnderFor};
ghost use Rattle.translate.specs.Standing.{IsStoodWord, IsStood1, EndsAtTop, from1_at};

use crate::parts::descriptor_read;
use fault_codes::Fault;
use geometry::case_table;
use kept_items::item_at;
use stage1_walk::{From1, Under1, entry1, fits_entry, step_kept};
use stage2_walk::{Stood2, stand2};
use table_reads::{Lead, level};
use trails::Item;
use walk_spec::{Entry1, Leaf1, Table1};

/// How the word of an entry stands on the items of a list, from a place of the list on: it is there, or a fault is, with
/// the place of the first item that is left over; an item is needed; or one doesn't fit.
#[derive(Clone, Copy)]
pub(crate) enum StoodWord {
    Had { item: Item, at: usize },
    Refused { fault: Fault, at: usize },
    Needs,
    Unfit,
}

/// How stage 1 stands: at a leaf or a fault; before the words of a table, of which no item was taken; within the items of
/// a word; or at an item that doesn't fit.
#[derive(Clone, Copy)]
pub(crate) enum Stood1 {
    Found { leaf: Leaf1, at: usize },
    Refused { fault: Fault, at: usize },
    AtTable { from: From1 },
    Within,
    Unfit,
}

/// How the word of an entry stands that is read at a physical place.
fn stand_read<const G: u32>(
    under: &Under1,
    entry: &Entry1,
    place: u64,
    items: &[Item],
    at: usize,
) -> StoodWord
    requires config { InRange under.now.config.now }
    requires granule { G ≡ granule_of (tg_of under.now.config.now under.now.side) }
    requires under { IsUnder under.now }
    requires of { IsUnderFor under.now.config.now under.now.access.now under.now }
    requires left { entry.now.left ≤ most_left }
    requires at { at ≤ length items.now }
    ensures { IsStoodWord entry.now.left items.now result
        (on (fits (regime_of under.now.config.now (side_of under.now.access.now.va))) (read1 entry.now place) (drop at items.now)) }
{
    if at == items.len() {
        return StoodWord::Needs;
    }
    let item = item_at(items, at);
    if !fits_entry::<G>(under, entry, place, &item) {
        return StoodWord::Unfit;
    }
    StoodWord::Had { item, at: at + 1 }
}

/// How the word of an entry stands, with the stage 2 of its place.
fn stand_word<const G: u32>(under: &Under1, entry: &Entry1, items: &[Item], at: usize) -> StoodWord
    requires config { InRange under.now.config.now }
    requires granule { G ≡ granule_of (tg_of under.now.config.now under.now.side) }
    requires under { IsUnder under.now }
    requires of { IsUnderFor under.now.config.now under.now.access.now under.now }
    requires left { entry.now.left ≤ most_left }
    requires at { at ≤ length items.now }
    ensures { IsStoodWord entry.now.left items.now result (on (fits (regime_of under.now.config.now (side_of under.now.access.now.va)))
        (word_of (regime_of under.now.config.now (side_of under.now.access.now.va)) entry.now) (drop at items.now)) }
{
    let config = under.config;
    if !config.vm {
        return stand_read::<G>(under, entry, entry.place, items, at);
    }
    match stand2(config, entry.place, true, items, at) {
        Stood2::Found { leaf, at: next } => match descriptor_read(config, &leaf) {
            Ok(()) => stand_read::<G>(under, entry, leaf.pa, items, next),
            Err(fault) => StoodWord::Refused { fault, at: next },
        },
        Stood2::Refused { fault, at: next } => StoodWord::Refused { fault, at: next },
        Stood2::Within { .. } => StoodWord::Needs,
        Stood2::Before => StoodWord::Needs,
        Stood2::Unfit => StoodWord::Unfit,
    }
}

/// The table with so many levels left.
fn from1_at(left: u32, table: Table1) -> From1
    requires { left ≤ most_left }
    ensures { result ≡ from1_at left table }
{
    From1 {
        base: table.address,
        level: level(left),
        tables: table.bits,
    }
}

/// How stage 1 stands from a table, with the stage 2 of its words. Where no item is left from the place on, the last one
/// is to be a base or a table of stage 1.
pub(crate) fn stand1<const G: u32>(
    under: &Under1,
    left: u32,
    table: Table1,
    items: &[Item],
    at: usize,
) -> Stood1
    requires config { InRange under.now.config.now }
    requires granule { G ≡ granule_of (tg_of under.now.config.now under.now.side) }
    requires under { IsUnder under.now }
    requires of { IsUnderFor under.now.config.now under.now.access.now under.now }
    requires left { left ≤ under.now.sizes.start × left ≤ most_left }
    requires table { table.address < 2 ^ 52 × table.address % 8 ≡ 0 }
    requires at { at ≤ length items.now }
    ensures { (at ≡ length items.now → EndsAtTop under.now.config.now (side_of under.now.access.now.va) items.now)
        → IsStood1 under.now.config.now under.now.access.now left table items.now (drop at items.now) result }
{
    let entry = entry1::<G>(under, left, table);
    match stand_word::<G>(under, &entry, items, at) {
        StoodWord::Had { item, at: next } => {
            match step_kept::<G>(under, &entry, &item) {
                Lead::Down { table } => stand1::<G>(under, left - 1, table, items, next),
                Lead::Reached { leaf } => Stood1::Found { leaf, at: next },
                Lead::Stopped { fault } => Stood1::Refused { fault, at: next },
            }
        }
        StoodWord::Refused { fault, at: next } => Stood1::Refused { fault, at: next },
        StoodWord::Needs => {
            if at == items.len() {
                Stood1::AtTable {
                    from: from1_at(left, table),
                }
            } else {
                Stood1::Within
            }
        }
        StoodWord::Unfit => Stood1::Unfit,
    }
}
