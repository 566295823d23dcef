//! Items of a trail that was kept: whether one is what a walk needs.
#![tactic(auto)]

ghost use Rattle.std.specs.Prelude.{◌≡◌, ◌≤◌, ◌<◌, ◌&&◌, length, slice_index_or};
ghost use Rattle.geometry.specs.Tables.{most_left, level_of, table_size};
ghost use Rattle.table_reads.specs.Numbers.{AreSound};
ghost use Rattle.walk_spec.specs.Needs;

use bitwords::power;
use fault_codes::Stage;
use table_reads::{Sizes, level};
use trails::{Item, What};

/// The item at a place of a trail.
pub fn item_at(items: &[Item], at: usize) -> Item
    requires { at < length items.now }
    ensures { result ≡ slice_index_or items.now at result }
{
    items[at]
}

fn is_same_level(a: i8, b: i8) -> bool
    ensures { result ≡ Needs.level_eq a b }
{
    a == b
}

fn is_same_stage(a: Stage, b: Stage) -> bool
    ensures { result ≡ Needs.stage_eq a b }
{
    matches!((a, b), (Stage::S1, Stage::S1) | (Stage::S2, Stage::S2))
}

/// Whether an item is a word of a stage, with so many levels left.
pub fn is_word(item: &Item, stage: Stage, left: u32) -> bool
    requires { left ≤ most_left }
    ensures { result ≡ (Needs.is_word item.now.what && Needs.stage_eq item.now.stage stage && Needs.level_eq item.now.level (level_of left)) }
{
    matches!(item.what, What::Word)
        && is_same_stage(item.stage, stage)
        && is_same_level(item.level, level(left))
}

/// The bytes of the start table.
#[tactic(auto, using(crate::proofs::StartTables::size_small))]
fn table_size(sizes: &Sizes) -> u64
    requires { AreSound sizes.now }
    ensures value { result ≡ table_size sizes.now.granule sizes.now.input sizes.now.start }
    ensures some { 0 < result }
{
    let class = sizes.granule + sizes.start * (sizes.granule - 3);
    8 * power(sizes.input - class)
}

/// Whether an item is a base of a stage.
pub fn fits_base(sizes: &Sizes, stage: Stage, item: &Item) -> bool
    requires { AreSound sizes.now }
    ensures { result ≡ Needs.fits_base sizes.now stage item.now }
{
    matches!(item.what, What::Base)
        && is_same_stage(item.stage, stage)
        && is_same_level(item.level, level(sizes.start))
        && item.pa == item.value
        && item.value % table_size(sizes) == 0
        && item.value < power(52)
}
