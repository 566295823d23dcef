//! One row that a step makes.
ghost use Rattle.std.specs.Prelude.{◌≡◌, ◌==◌, ℕ, ◌<◌, ◌≤◌, ◌^◌, ◌%◌, List, take, drop, IfSome, Some, None, true};
ghost use Rattle.geometry.specs.Tables.{most_left, level_of};
ghost use Rattle.sysregs.specs.declared.regs.Side as declared_side;
ghost use Rattle.fault_codes.specs.declared.fault.Stage.TheVariants.{S1, S2};
ghost use Rattle.trails.specs.declared.item.Item as declared_item;
ghost use Rattle.table_reads.specs.Places.{place_of};
ghost use Rattle.table_reads.specs.Numbers.{AreSound, is_sized1, is_sized2, sizes1};
ghost use Rattle.stage1_walk.specs.Sized.{IsSized1};
ghost use Rattle.stage2_walk.specs.Entered.{IsSized2};
ghost use Rattle.walk_spec.specs.Stage1.{untagged};
ghost use Rattle.walk_spec.specs.Needs.{regime_of, sizes_of};
ghost use Rattle.machine_spec.specs.Marks.{Mark, tag_by};
ghost use Rattle.machine_spec.specs.Made.{row_of};
ghost use Rattle.made_rows.specs.Sized.{is_sized};
ghost use Rattle.made_rows.specs.Words.{word_at};
ghost use Rattle.made_rows.specs.NewRows.{maker_for, regime_for, row_from, stage_by, TellsMark};

use crate::word::{Means, Word, word1, word2};
use bitwords::align_down;
use fault_codes::Stage;
use geometry::case_table;
use stage1_walk::sized1;
use stage2_walk::sized2;
use std::marker::Model;
use sysregs::fields::{asid, vmid};
use sysregs::{Config, Side, Tg};
use table_reads::{Sizes, place};
use tagged_tlb::Kind;
use tlbi_ops::Tag;
use trails::{Access, Item};
use translate::InForce;
use walk_spec::Region;

/// A row that a step makes: its trail is that of the step from the item at `start` up to the one before `end`.
#[derive(Clone, Copy)]
pub struct NewRow {
    pub region: Region,
    pub tag: Tag,
    pub start: usize,
    pub end: usize,
    pub kind: Kind,
    pub global: bool,
}

/// Under which registers, for which access and in which step rows are made.
#[derive(Drop)]
pub(crate) struct Making<'a> {
    force: &'a InForce,
    access: &'a Access,
    stage1: Option<Sizes>,
    stage2: Option<Sizes>,
    step: u32,
    side: Side,
}

impl<'a> Model for Making<'a> {
    ghost use Rattle.std.specs.Prelude.{◌≡◌, IfSome};
    ghost use Rattle.sysregs.specs.Registers.{config_of};
    ghost use Rattle.sysregs.specs.Sides.{side_of};
    ghost use Rattle.table_reads.specs.Numbers.{AreSound};
    ghost use Rattle.stage1_walk.specs.Sized.{IsSized1};
    ghost use Rattle.stage2_walk.specs.Entered.{IsSized2};
    ghost use Rattle.made_rows.specs.NewRows.{MadeFor};

    ghost Value = { MadeFor };

    ghost view = { λ s. record { regs = s.force.now; access = s.access.now; step = s.step } };

    ghost invariant = { λ s. (s.side ≡ side_of s.access.now.va)
        × IsSized1 (config_of s.force.now) s.side s.stage1 × IfSome s.stage1 AreSound × IsSized2 (config_of s.force.now) s.stage2
        × IfSome s.stage2 AreSound };
}

/// How many levels are left below a level from 0 to 3.
fn left_of(level: i8) -> Option<u32>
    ensures is { (left : ℕ) → left ≤ most_left → level ≡ level_of left → result ≡ Some left }
    ensures most { IfSome result (λ left. left ≤ most_left) }
{
    match level {
        0 => Some(3),
        1 => Some(2),
        2 => Some(1),
        3 => Some(0),
        _ => None,
    }
}

/// What a word of stage 1 is, where the sizes of its side are in range.
fn in_stage1(
    config: &Config,
    side: Side,
    sizes: &Option<Sizes>,
    va: u64,
    left: u32,
    item: &Item,
) -> Option<Word>
    requires sizes { IsSized1 config.now side sizes.now }
    requires sound { IfSome sizes.now AreSound }
    requires left { left ≤ most_left }
    ensures is { is_sized1 config.now side ≡ true → left ≤ (sizes1 config.now side).start →
        result ≡ Some (word_at (regime_of config.now side) va S1 left item.now) }
    ensures small { IfSome result (λ w. w.class ≤ 55) }
{
    match sizes {
        Some(sizes) => Some(word1(config, side, sizes, va, left, item)),
        None => None,
    }
}

/// What a word of stage 2 is, where its sizes are in range.
fn in_stage2(config: &Config, sizes: &Option<Sizes>, left: u32, item: &Item) -> Option<Word>
    requires sizes { IsSized2 config.now sizes.now }
    requires sound { IfSome sizes.now AreSound }
    requires left { left ≤ most_left }
    ensures is { (s : declared_side.Side) → is_sized2 config.now ≡ true → result ≡ Some (word_at (regime_of config.now s) 0 S2 left item.now) }
    ensures small { IfSome result (λ w. w.class ≤ 55) }
{
    match sizes {
        Some(sizes) => Some(word2(config, sizes, left, item)),
        None => None,
    }
}

/// The entry that an address selects in a start table of stage 1.
#[tactic(auto, unfolding(table_reads::specs::Numbers::sizes1))]
fn first_entry(config: &Config, side: Side, sizes: &Sizes, base: u64, va: u64) -> u64
    requires sizes { sizes.now ≡ sizes1 config.now side }
    requires sound { AreSound sizes.now }
    requires base { base < 2 ^ 52 × base % 8 ≡ 0 }
    ensures { result ≡ place_of sizes.now sizes.now.start base va }
{
    let tg = config.tg(side);
    case_table!(granule tg; place(sizes, sizes.start, base, va))
}

/// The granule of a stage, whose sizes are there.
fn granule(sizes: &Option<Sizes>) -> u32
    ensures { (s : Sizes) → sizes.now ≡ Some s → result ≡ s.granule }
{
    match sizes {
        Some(sizes) => sizes.granule,
        None => 0,
    }
}

impl<'a> Making<'a> {
    pub fn of(force: &'a InForce, access: &'a Access, step: u32) -> Making<'a>
        ensures { result ≡ record { regs = force.now; access = access.now; step = step } }
    {
        let side = sysregs::side(access.va);
        Making {
            stage1: sized1(force.config(), side),
            stage2: sized2(force.config()),
            force,
            access,
            step,
            side,
        }
    }

    /// The address of the access without its tag.
    pub fn va(&self) -> u64
        ensures { result ≡ untagged self.now.access.va }
    {
        self.access.va % (1 << 56)
    }

    /// Where stage 1 goes while it is off: VA bits 51 to 0.
    pub fn off_output(&self) -> u64
        ensures { result ≡ self.now.access.va % 2 ^ 52 }
    {
        self.access.va % (1 << 52)
    }

    /// The entry that the address selects in the start table of stage 1, whose base is this.
    pub fn start_entry(&self, base: u64) -> u64
        ensures { base < 2 ^ 52 → base % 8 ≡ 0 → is_sized (regime_for self.now) S1 ≡ true →
            result ≡ place_of (regime_for self.now).stage1 (regime_for self.now).stage1.start base (untagged self.now.access.va) }
    {
        match &self.stage1 {
            Some(sizes) if base < (1 << 52) && base % 8 == 0 => {
                first_entry(self.force.config(), self.side, sizes, base, self.va())
            }
            _ => 0,
        }
    }

    /// Whether an item was read in this step.
    pub fn is_now(&self, item: &Item) -> bool
        ensures { result ≡ (item.now.moment == self.now.step) }
    {
        item.moment == self.step
    }

    /// What the word of an item is.
    pub fn word(&self, item: &Item) -> Option<Word>
        ensures is { (left : ℕ) → left ≤ most_left → left ≤ (sizes_of (regime_for self.now) item.now.stage).start
            → item.now.level ≡ level_of left →
            is_sized (regime_for self.now) item.now.stage ≡ true →
            result ≡ Some (word_at (regime_for self.now) (untagged self.now.access.va) item.now.stage left item.now) }
        ensures small { IfSome result (λ w. w.class ≤ 55) }
    {
        let left = left_of(item.level)?;
        let config = self.force.config();
        match item.stage {
            Stage::S1 => in_stage1(config, self.side, &self.stage1, self.va(), left, item),
            Stage::S2 => in_stage2(config, &self.stage2, left, item),
        }
    }

    /// The granule of a stage as a number of bits.
    fn granule(&self, stage: Stage) -> u32
        ensures { is_sized (regime_for self.now) stage ≡ true → result ≡ (sizes_of (regime_for self.now) stage).granule }
    {
        match stage {
            Stage::S1 => granule(&self.stage1),
            Stage::S2 => granule(&self.stage2),
        }
    }

    /// What an invalidation looks at in a word that was read for an address.
    fn tag(&self, stage: Stage, word: &Word, address: u64) -> Tag
        requires { word.now.class ≤ 55 }
        ensures { (m : Mark) → TellsMark (regime_for self.now) m stage word.now address → is_sized (regime_for self.now) stage ≡ true →
            result ≡ tag_by self.now.regs m }
    {
        let regs = self.force.regs();
        let (is_table, is_global) = match word.means {
            Means::Table { .. } => (true, false),
            Means::Leaf1 { global } => (false, global),
            Means::Leaf2 { .. } | Means::Nothing => (false, false),
        };
        Tag {
            start: align_down(address, word.class),
            class: word.class,
            granule: self.granule(stage),
            asid: if stage == Stage::S1 { asid(regs) } else { 0 },
            vmid: vmid(regs),
            stage,
            table: is_table,
            global: is_global,
        }
    }

    /// The row of a word that was read for an address, of a kind of the word's stage.
    pub fn row(&self, kind: Kind, word: &Word, address: u64, start: usize, end: usize) -> NewRow
        requires { word.now.class ≤ 55 }
        ensures row { (m : Mark) → (trail : List declared_item.Item) → TellsMark (regime_for self.now) m (stage_by kind) word.now address →
            is_sized (regime_for self.now) (stage_by kind) ≡ true →
            row_from (maker_for self.now) trail result ≡ row_of (maker_for self.now) m kind (drop start (take end trail)) }
        ensures class { result.region.class ≡ word.now.class }
        ensures start { result.start ≡ start }
    {
        let stage = match kind {
            Kind::Leaf1 | Kind::Table1 => Stage::S1,
            Kind::Leaf2 | Kind::Table2 => Stage::S2,
        };
        NewRow {
            region: Region {
                class: word.class,
                start: address >> word.class,
            },
            tag: self.tag(stage, word, address),
            start,
            end,
            kind,
            global: false,
        }
    }
}
