//! How a walk through stage 2 stands on items that were kept.
ghost use Rattle.std.specs.Prelude.{◌≡◌, ℕ, ◌≤◌, ◌<◌, ◌^◌, ◌%◌, length, drop, slice_index_or, IsFalse};
ghost use Rattle.geometry.specs.Tables.{most_left};
ghost use Rattle.sysregs.specs.Registers.{InRange, granule_of};
ghost use Rattle.sysregs.specs.declared.regs.Side.{Side};
ghost use Rattle.fault_codes.specs.declared.fault.Stage.TheVariants.{S2};
ghost use Rattle.descriptors.specs.Meaning.{means2_of};
ghost use Rattle.walk_spec.specs.Ask.{on};
ghost use Rattle.table_reads.specs.Numbers;
ghost use Rattle.table_reads.specs.Items.{fault_at};
ghost use Rattle.walk_spec.specs.Needs.{fits, stage2_base, word, mapping2, serves_run, regime_of};
ghost use Rattle.walk_spec.specs.Stage2;
ghost use Rattle.walk_spec.specs.Stage2.{walk2_from, walk2_behind};
ghost use Rattle.stage2_walk.specs.Under.{IsUnder, asked_under, regime_under};
ghost use Rattle.stage2_walk.specs.Standing.{IsStood2, needed, table_at, asked2_at};

use crate::refusals::{enter2, refusal, sized2};
use crate::step::{meaning, step_by};
use crate::under::Under2;
use crate::walk::From2;
use descriptors::Kind2;
use fault_codes::{Class, Fault, Stage};
use geometry::{case_table, serves_run};
use kept_items::{fits_base, is_word, item_at};
use sysregs::{Config, Tg};
use table_reads::{Lead, is_too_large, level, place};
use trails::Item;
use walk_spec::Leaf2;

/// How a walk through stage 2 stands on the items of a list, from a place of the list on: at a leaf or a fault, with the
/// place of the first item that is left over; before the word that it needs of a table; before its base; or at an item
/// that doesn't fit.
#[derive(Clone, Copy)]
pub enum Stood2 {
    Found { leaf: Leaf2, at: usize },
    Refused { fault: Fault, at: usize },
    Within { from: From2 },
    Before,
    Unfit,
}

/// A table with so many levels left.
fn table_at(left: u32, base: u64) -> From2
    requires { left ≤ most_left }
    ensures { result ≡ table_at left base }
{
    From2 {
        base,
        level: level(left),
    }
}

/// Whether an item's word is a block or page of a run that serves another place of the run.
fn is_run_mate<const G: u32>(under: &Under2, left: u32, place: u64, item: &Item) -> bool
    requires granule { G ≡ granule_of under.now.config.now.tg2 }
    requires under { IsUnder under.now }
    requires left { left ≤ most_left }
    ensures { result ≡ serves_run (mapping2 (means2_of under.now.config.now left item.now.value)) under.now.sizes left item.now.pa place }
{
    match meaning::<G>(left, item.value, under.config) {
        Kind2::Leaf {
            out,
            contiguous,
            ..
        } => contiguous && serves_run::<G>(under.sizes.input, left, out, item.pa, place),
        _ => false,
    }
}

/// Whether an item is the word that is needed at a place.
#[tactic(auto, unfolding(walk_spec::specs::Needs::fits))]
fn fits_word<const G: u32>(under: &Under2, left: u32, place: u64, item: &Item) -> bool
    requires granule { G ≡ granule_of under.now.config.now.tg2 }
    requires under { IsUnder under.now }
    requires left { left ≤ most_left }
    ensures { (s : Side) → (table : ℕ) → result ≡ fits (regime_under under.now s) (word (needed (asked_under under.now) left table place)) item.now }
{
    is_word(item, Stage::S2, left)
        && (item.pa == place || is_run_mate::<G>(under, left, place, item))
}

/// How the walk from a table stands on the items from a place on.
fn stand_left<const G: u32>(
    under: &Under2,
    left: u32,
    table: u64,
    items: &[Item],
    at: usize,
) -> Stood2
    requires granule { G ≡ granule_of under.now.config.now.tg2 }
    requires under { IsUnder under.now }
    requires sizes { under.now.sizes ≡ Numbers.sizes2 under.now.config.now }
    requires left { left ≤ under.now.sizes.start }
    requires table { table < 2 ^ 52 × table % 8 ≡ 0 }
    requires at { at ≤ length items.now }
    ensures { (s : Side) → IsStood2 under.now.config.now items.now result
        (on (fits (regime_under under.now s)) (walk2_from (asked_under under.now) left table) (drop at items.now)) }
{
    let place = place::<G>(&under.sizes, left, table, under.ipa);
    if at == items.len() {
        return Stood2::Within {
            from: table_at(left, table),
        };
    }
    let item = item_at(items, at);
    if !fits_word::<G>(under, left, place, &item) {
        return Stood2::Unfit;
    }
    match step_by::<G>(under, left, item.pa, item.value) {
        Lead::Down { table } => stand_left::<G>(under, left - 1, table, items, at + 1),
        Lead::Reached { leaf } => Stood2::Found { leaf, at: at + 1 },
        Lead::Stopped { fault } => Stood2::Refused { fault, at: at + 1 },
    }
}

/// Whether an item is the base of stage 2.
#[tactic(auto, unfolding(walk_spec::specs::Needs::fits))]
fn fits_start(under: &Under2, item: &Item) -> bool
    requires under { IsUnder under.now }
    ensures { (s : Side) → (ipa : ℕ) → result ≡ fits (regime_under under.now s) (stage2_base ipa) item.now }
{
    fits_base(&under.sizes, Stage::S2, item)
}

/// How the walk from a base that fits stands on the items behind it, by the granule of stage 2.
fn stand_behind(under: &Under2, base: u64, items: &[Item], at: usize) -> Stood2
    requires under { IsUnder under.now }
    requires sizes { under.now.sizes ≡ Numbers.sizes2 under.now.config.now }
    requires base { base < 2 ^ 52 × base % 8 ≡ 0 }
    requires at { at ≤ length items.now }
    ensures { (s : Side) → IsStood2 under.now.config.now items.now result
        (on (fits (regime_under under.now s)) (walk2_behind (asked_under under.now) base) (drop at items.now)) }
{
    if is_too_large(&under.sizes, base) {
        return Stood2::Refused {
            fault: refusal(under.s1ptw, Class::AddressSize),
            at,
        };
    }
    case_table!(granule under.config.tg2; stand_left(under, under.sizes.start, base, items, at))
}

/// How the walk from its base stands on the items from a place on, for an IPA that is not refused.
fn stand_on(under: &Under2, items: &[Item], at: usize) -> Stood2
    requires under { IsUnder under.now }
    requires sizes { under.now.sizes ≡ Numbers.sizes2 under.now.config.now }
    requires accepted { IsFalse (Stage2.is_refused2 under.now.config.now under.now.ipa) }
    requires at { at ≤ length items.now }
    ensures { (s : Side) → IsStood2 under.now.config.now items.now result
        (on (fits (regime_under under.now s)) (Stage2.walk2 (asked_under under.now)) (drop at items.now)) }
{
    if at == items.len() {
        return Stood2::Before;
    }
    let item = item_at(items, at);
    if !fits_start(under, &item) {
        return Stood2::Unfit;
    }
    stand_behind(under, item.value, items, at + 1)
}

/// How the walk through stage 2 for an IPA stands on the items from a place on. `ptw` marks the place of a stage 1
/// descriptor.
pub fn stand2(config: &Config, ipa: u64, ptw: bool, items: &[Item], at: usize) -> Stood2
    requires config { InRange config.now }
    requires at { at ≤ length items.now }
    ensures { (s : Side) → IsStood2 config.now items.now result
        (on (fits (regime_of config.now s)) (Stage2.walk2 (asked2_at config.now ptw ipa)) (drop at items.now)) }
{
    match enter2(sized2(config), ipa, ptw) {
        Ok(sizes) => {
            let under = Under2 {
                config,
                ipa,
                sizes,
                moment: 0,
                s1ptw: ptw,
            };
            stand_on(&under, items, at)
        }
        Err(fault) => Stood2::Refused { fault, at },
    }
}
