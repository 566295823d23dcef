//! The walk of an access over a trail that was kept.
ghost use Rattle.std.specs.Prelude.{◌≡◌, ◌↔◌, ◌≤◌, ◌<◌, ◌^◌, ◌%◌, length, drop, IsFalse, IsTrue, IsSome, option_map, true};
ghost use Rattle.geometry.specs.Tables.{most_left};
ghost use Rattle.sysregs.specs.Registers.{InRange};
ghost use Rattle.sysregs.specs.Sides.{side_of};
ghost use Rattle.walk_spec.specs.Needs.{fits, regime_of, stage1_base};
ghost use Rattle.walk_spec.specs.Steps.{reaches};
ghost use Rattle.walk_spec.specs.Ask.{ends};
ghost use Rattle.walk_spec.specs.BothStages.{is_refused1};
ghost use Rattle.stage1_walk.specs.Under.{IsUnder, IsUnderFor};
ghost use Rattle.translate.specs.Parts.{leaf1_or_off, out_of};
ghost use Rattle.translate.specs.Standing.{EndsAtTop, IsStood1};
ghost use Rattle.translate.specs.Replayed.{IsReplayed, IsStoodOn, stands_stage1};

use crate::parts::{enter1, finish, off1, refusal, start_table};
use crate::replayed::Replay;
use crate::stand::{Stood1, stand1};
use fault_codes::{Class, Fault, Stage};
use geometry::case_table;
use kept_items::{fits_base, item_at};
use stage1_walk::{Under1, sized1};
use stage2_walk::{Stood2, stand2};
use sysregs::{Config, Tg};
use table_reads::is_too_large;
use trails::{Access, Item, Outcome, Trail};
use walk_spec::{Leaf1, Table1};

/// It ended with a fault.
fn faulted(len: usize, fault: Fault) -> Replay
    ensures { result ≡ Replay.Ended len (Outcome.Faulted fault) }
{
    Replay::Ended {
        len,
        outcome: Outcome::Faulted { fault },
    }
}

/// Behind stage 1, whose leaf is there while it is on: stage 2 of its output in bytes.
fn replay_output(
    config: &Config,
    access: &Access,
    out: u64,
    leaf1: Option<&Leaf1>,
    items: &[Item],
    at: usize,
) -> Replay
    requires config { InRange config.now }
    requires on { IsTrue config.now.m ↔ IsSome leaf1 }
    requires out { out ≡ out_of access.now (option_map (λ l. l.now) leaf1) }
    requires at { at ≤ length items.now }
    requires stage1 { stands_stage1 config.now access.now items.now
        ≡ ends (reaches (leaf1_or_off config.now access.now (option_map (λ l. l.now) leaf1))) (drop at items.now) }
    requires untop { at ≡ length items.now → EndsAtTop config.now (side_of access.now.va) items.now → ⊥ }
    ensures { IsReplayed config.now access.now items.now result }
{
    if !config.vm {
        return Replay::Ended {
            len: at,
            outcome: finish(config, access, out, leaf1, None),
        };
    }
    match stand2(config, out, false, items, at) {
        Stood2::Found { leaf, at: len } => Replay::Ended {
            len,
            outcome: finish(config, access, out, leaf1, Some(&leaf)),
        },
        Stood2::Refused { fault, at: len } => faulted(len, fault),
        Stood2::Within { .. } => Replay::Other,
        Stood2::Before => Replay::Other,
        Stood2::Unfit => Replay::Other,
    }
}

/// Whether an item is the base of stage 1.
#[tactic(auto, unfolding(walk_spec::specs::Needs::fits))]
fn fits_start(under: &Under1, item: &Item) -> bool
    requires under { IsUnder under.now }
    requires of { IsUnderFor under.now.config.now under.now.access.now under.now }
    ensures { result ≡ fits (regime_of under.now.config.now (side_of under.now.access.now.va)) stage1_base item.now }
{
    fits_base(&under.sizes, Stage::S1, item)
}

/// How stage 1 stands from a table, by the granule of the side.
fn stand_granule(under: &Under1, left: u32, table: Table1, items: &[Item], at: usize) -> Stood1
    requires config { InRange under.now.config.now }
    requires under { IsUnder under.now }
    requires of { IsUnderFor under.now.config.now under.now.access.now under.now }
    requires left { left ≤ under.now.sizes.start × left ≤ most_left }
    requires table { table.address < 2 ^ 52 × table.address % 8 ≡ 0 }
    requires at { at ≤ length items.now }
    ensures { (at ≡ length items.now → EndsAtTop under.now.config.now (side_of under.now.access.now.va) items.now)
        → IsStood1 under.now.config.now under.now.access.now left table items.now (drop at items.now) result }
{
    let tg = under.config.tg(under.side);
    case_table!(granule tg; stand1(under, left, table, items, at))
}

/// How stage 1 stands from its base, for an access that it doesn't refuse.
fn stand_start(under: &Under1, items: &[Item]) -> Stood1
    requires config { InRange under.now.config.now }
    requires m { IsTrue under.now.config.now.m }
    requires accepted { IsFalse (is_refused1 under.now.config.now under.now.access.now) }
    requires under { IsUnder under.now }
    requires of { IsUnderFor under.now.config.now under.now.access.now under.now }
    ensures { IsStoodOn under.now.config.now under.now.access.now items.now result }
{
    if items.len() == 0 {
        return Stood1::Within;
    }
    let item = item_at(items, 0);
    if !fits_start(under, &item) {
        return Stood1::Unfit;
    }
    if is_too_large(&under.sizes, item.value) {
        return Stood1::Refused {
            fault: refusal(Stage::S1, false, Class::AddressSize),
            at: 1,
        };
    }
    stand_granule(under, under.sizes.start, start_table(item.value), items, 1)
}

/// Stage 1 from its base, and then its output.
fn replay_on(under: &Under1, items: &[Item]) -> Replay
    requires config { InRange under.now.config.now }
    requires m { IsTrue under.now.config.now.m }
    requires accepted { IsFalse (is_refused1 under.now.config.now under.now.access.now) }
    requires under { IsUnder under.now }
    requires of { IsUnderFor under.now.config.now under.now.access.now under.now }
    ensures { IsReplayed under.now.config.now under.now.access.now items.now result }
{
    match stand_start(under, items) {
        Stood1::Found { leaf, at } => replay_output(
            under.config,
            under.access,
            leaf.out,
            Some(&leaf),
            items,
            at,
        ),
        Stood1::Refused { fault, at } => faulted(at, fault),
        Stood1::AtTable { from } => Replay::More { from },
        Stood1::Within => Replay::Other,
        Stood1::Unfit => Replay::Other,
    }
}

/// The judged walk of an access over a kept trail. The moments of the items don't count.
pub fn replay(config: &Config, access: &Access, trail: &Trail) -> Replay
    requires config { InRange config.now }
    ensures { IsReplayed config.now access.now trail.now result }
{
    let items = trail.items();
    if !config.m {
        return match off1(config, access) {
            Ok(out) => replay_output(config, access, out, None, items, 0),
            Err(fault) => faulted(0, fault),
        };
    }
    let side = sysregs::side(access.va);
    match enter1(config, access, side, sized1(config, side)) {
        Ok(sizes) => replay_on(&Under1::of(config, access, side, sizes), items),
        Err(fault) => faulted(0, fault),
    }
}
