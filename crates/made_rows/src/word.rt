//! What a word is to the rows of a step.
ghost use Rattle.std.specs.Prelude.{◌≡◌, ◌-◌, ◌<◌, ◌≤◌, ◌^◌, ◌%◌};
ghost use Rattle.geometry.specs.Tables.{most_left};
ghost use Rattle.sysregs.specs.Registers.{granule_of};
ghost use Rattle.sysregs.specs.Sides.{tg_of};
ghost use Rattle.fault_codes.specs.declared.fault.Stage.TheVariants.{S1, S2};
ghost use Rattle.sysregs.specs.declared.regs.Side.{Side};
ghost use Rattle.table_reads.specs.Places.{place_of};
ghost use Rattle.table_reads.specs.Numbers.{AreSound, sizes1, sizes2};
ghost use Rattle.walk_spec.specs.Needs.{regime_of};
ghost use Rattle.made_rows.specs.Words.{word_at};

use descriptors::{Kind1, Kind2, decode1, decode2};
use geometry::{case_table, entry_class, goes_to, leaf_class};
use sysregs::{Config, Side, Tg};
use table_reads::{Sizes, is_too_large, place};
use trails::Item;

/// What a word is: nothing that is kept, a table, a leaf of stage 1, or one of stage 2. `cached` says whether a table or a
/// leaf of stage 2 may be kept at all.
#[derive(Clone, Copy)]
pub enum Means {
    Nothing,
    Table { cached: bool },
    Leaf1 { global: bool },
    Leaf2 { cached: bool },
}

/// What a word is; the class of its region: that of its entry, or of its run; and where stage 1 goes by a word of its own, in
/// bytes: to an entry of the next table, or to its output.
#[derive(Clone, Copy)]
pub struct Word {
    pub means: Means,
    pub class: u32,
    pub goal: u64,
}

/// The entry that an address selects in the table of a word of stage 1 with `LEFT` levels left.
fn entry_below<const G: u32, const LEFT: u32>(sizes: &Sizes, table: u64, va: u64) -> u64
    requires granule { sizes.now.granule ≡ G }
    requires sound { AreSound sizes.now }
    requires left { 0 < LEFT }
    requires table { table < 2 ^ 52 × table % 8 ≡ 0 }
    ensures { LEFT ≤ sizes.now.start → result ≡ place_of sizes.now (LEFT - 1) table va }
{
    if LEFT > sizes.start {
        return 0;
    }
    place::<G>(sizes, LEFT - 1, table, va)
}

/// A word of stage 1 with `LEFT` levels left.
#[tactic(auto, using(crate::proofs::Classes::entry_most, crate::proofs::Classes::leaf_most, descriptors::proofs::Bounds::bounded1))]
fn word1_at<const G: u32, const LEFT: u32>(
    config: &Config,
    side: Side,
    sizes: &Sizes,
    va: u64,
    item: &Item,
) -> Word
    requires granule { G ≡ granule_of (tg_of config.now side) }
    requires sizes { sizes.now ≡ sizes1 config.now side }
    requires same_granule { sizes.now.granule ≡ G }
    requires sound { AreSound sizes.now }
    requires left { LEFT ≤ most_left }
    ensures value { LEFT ≤ sizes.now.start → result ≡ word_at (regime_of config.now side) va S1 LEFT item.now }
    ensures small { result.class ≤ 55 }
{
    let entry = entry_class::<G, LEFT>();
    match decode1::<G, LEFT>(item.value, config, side) {
        Kind1::Invalid => Word {
            means: Means::Nothing,
            class: entry,
            goal: 0,
        },
        Kind1::Table { next, .. } => Word {
            means: Means::Table {
                cached: !is_too_large(sizes, next),
            },
            class: entry,
            goal: entry_below::<G, LEFT>(sizes, next, va),
        },
        Kind1::Leaf {
            out,
            global,
            contiguous,
            ..
        } => {
            let class = leaf_class::<G>(sizes.input, LEFT, out, contiguous, item.pa);
            Word {
                means: Means::Leaf1 { global },
                class,
                goal: goes_to(out, class, va),
            }
        }
    }
}

/// A word of stage 2 with `LEFT` levels left.
#[tactic(auto, using(crate::proofs::Classes::entry_most, crate::proofs::Classes::leaf_most))]
fn word2_at<const G: u32, const LEFT: u32>(config: &Config, sizes: &Sizes, item: &Item) -> Word
    requires granule { G ≡ granule_of config.now.tg2 }
    requires sizes { sizes.now ≡ sizes2 config.now }
    requires same_granule { sizes.now.granule ≡ G }
    requires sound { AreSound sizes.now }
    requires left { LEFT ≤ most_left }
    ensures value { (s : Side) → result ≡ word_at (regime_of config.now s) 0 S2 LEFT item.now }
    ensures small { result.class ≤ 55 }
{
    let entry = entry_class::<G, LEFT>();
    match decode2::<G, LEFT>(item.value, config) {
        Kind2::Invalid => Word {
            means: Means::Nothing,
            class: entry,
            goal: 0,
        },
        Kind2::Table { next } => Word {
            means: Means::Table {
                cached: !is_too_large(sizes, next),
            },
            class: entry,
            goal: 0,
        },
        Kind2::Leaf {
            out,
            af,
            contiguous,
            ..
        } => Word {
            means: Means::Leaf2 {
                cached: !is_too_large(sizes, out) && (af || config.ha2),
            },
            class: leaf_class::<G>(sizes.input, LEFT, out, contiguous, item.pa),
            goal: 0,
        },
    }
}

/// A word of stage 1, by its level.
fn word1_by<const G: u32>(
    left: u32,
    config: &Config,
    side: Side,
    sizes: &Sizes,
    va: u64,
    item: &Item,
) -> Word
    requires granule { G ≡ granule_of (tg_of config.now side) }
    requires sizes { sizes.now ≡ sizes1 config.now side }
    requires same_granule { sizes.now.granule ≡ G }
    requires sound { AreSound sizes.now }
    requires left { left ≤ most_left }
    ensures value { left ≤ sizes.now.start → result ≡ word_at (regime_of config.now side) va S1 left item.now }
    ensures small { result.class ≤ 55 }
{
    case_table!(level left; word1_at::<G>(config, side, sizes, va, item))
}

/// A word of stage 2, by its level.
fn word2_by<const G: u32>(left: u32, config: &Config, sizes: &Sizes, item: &Item) -> Word
    requires granule { G ≡ granule_of config.now.tg2 }
    requires sizes { sizes.now ≡ sizes2 config.now }
    requires same_granule { sizes.now.granule ≡ G }
    requires sound { AreSound sizes.now }
    requires left { left ≤ most_left }
    ensures value { (s : Side) → result ≡ word_at (regime_of config.now s) 0 S2 left item.now }
    ensures small { result.class ≤ 55 }
{
    case_table!(level left; word2_at::<G>(config, sizes, item))
}

/// What a word of stage 1 is, which was read with so many levels left in the tables of a side.
#[tactic(auto, unfolding(table_reads::specs::Numbers::sizes1))]
pub(crate) fn word1(
    config: &Config,
    side: Side,
    sizes: &Sizes,
    va: u64,
    left: u32,
    item: &Item,
) -> Word
    requires sizes { sizes.now ≡ sizes1 config.now side }
    requires sound { AreSound sizes.now }
    requires left { left ≤ most_left }
    ensures value { left ≤ sizes.now.start → result ≡ word_at (regime_of config.now side) va S1 left item.now }
    ensures small { result.class ≤ 55 }
{
    let tg = config.tg(side);
    case_table!(granule tg; word1_by(left, config, side, sizes, va, item))
}

/// What a word of stage 2 is, which was read with so many levels left.
#[tactic(auto, unfolding(table_reads::specs::Numbers::sizes2))]
pub(crate) fn word2(config: &Config, sizes: &Sizes, left: u32, item: &Item) -> Word
    requires sizes { sizes.now ≡ sizes2 config.now }
    requires sound { AreSound sizes.now }
    requires left { left ≤ most_left }
    ensures value { (s : Side) → result ≡ word_at (regime_of config.now s) 0 S2 left item.now }
    ensures small { result.class ≤ 55 }
{
    case_table!(granule config.tg2; word2_by(left, config, sizes, item))
}
