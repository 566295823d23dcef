//! All rows that a step makes, in the order of its trail.
ghost use Rattle.std.specs.Prelude.{◌≡◌, ◌==◌, ℕ, ◌+◌, ◌/◌, ◌<◌, ◌≤◌, ◌^◌, List, Option, true, [], All};
ghost use Rattle.std.specs.Prelude.{length, Some, None, IfSome, if◌then◌else◌, vec_len, vec_capacity};
ghost use Rattle.std.specs.List.{list_any};
ghost use Rattle.fault_codes.specs.declared.fault.Stage.TheVariants.{S1, S2};
ghost use Rattle.sysregs.specs.Registers.{config_of};
ghost use Rattle.trails.specs.Lengths.{most_items};
ghost use Rattle.trails.specs.declared.item.Item as declared_item;
ghost use Rattle.trails.specs.declared.item.What.TheVariants.{Base as ABase, Word as AWord};
ghost use Rattle.walk_spec.specs.Ask.{Fed};
ghost use Rattle.walk_spec.specs.Needs.{Need};
ghost use Rattle.walk_spec.specs.Steps.{End};
ghost use Rattle.walk_spec.specs.Stage1.{untagged};
ghost use Rattle.walk_spec.specs.BothStages.{Landing};
ghost use Rattle.translate.specs.Replayed.{stands_whole};
ghost use Rattle.machine_spec.specs.Marks.{Mark};
ghost use Rattle.machine_spec.specs.Made.{leaf_rows};
ghost use Rattle.made_rows.specs.Pieces.{IsPiece, smaller_of};
ghost use Rattle.made_rows.specs.NewRows.{MadeFor, maker_for, regime_for, one_from, IsSmall, IsKnown, AreKnown, HasLeaf};
ghost use Rattle.made_rows.specs.NewRows.{Passed, PassedAll, is_mapped, StandsTo, AreMade};

use crate::making::{Making, NewRow};
use crate::word::Means;
use fault_codes::Stage;
use tagged_tlb::Kind;
use trails::{Access, Item, What};
use translate::InForce;
use walk_spec::Region;

/// What is known between two items of a trail: the IPA of the chain of stage 2 that stands open, where stage 1 goes, in bytes,
/// and where the open chain begins in the trail; the row of the last item of stage 1, where that is a leaf that was read now,
/// and the class of the last word of stage 2 behind it.
#[derive(Clone, Copy)]
pub struct Stand {
    pub ipa: u64,
    pub goal: u64,
    pub start: usize,
    pub leaf: Option<NewRow>,
    pub class2: Option<u32>,
}

/// A row that is made on a condition.
fn only_if(condition: bool, row: NewRow) -> Option<NewRow>
    ensures is { result ≡ (if condition then Some row else None) }
    ensures small { IsSmall row → IfSome result IsSmall }
{
    if condition { Some(row) } else { None }
}

/// Passes the base of stage 1.
fn pass_base1(making: &Making, stand: &mut Stand, at: usize, item: &Item)
    requires place { at < 2 ^ 32 }
    requires stage { item.now.stage ≡ S1 }
    requires what { item.now.what ≡ ABase }
    ensures passed { IsKnown (regime_for making.now) item.now → Passed making.now at item.now stand.old stand.new None }
    ensures leaf { stand.new.leaf ≡ None }
{
    stand.goal = making.start_entry(item.value);
    stand.start = at + 1;
    stand.leaf = None;
    stand.class2 = None;
}

/// Passes a base of stage 2, which begins a chain for where stage 1 goes.
fn pass_base2(stand: &mut Stand, at: usize, item: &Item)
    requires stage { item.now.stage ≡ S2 }
    requires what { item.now.what ≡ ABase }
    ensures passed { (made : MadeFor) → Passed made at item.now stand.old stand.new None }
    ensures leaf { stand.new.leaf ≡ stand.old.leaf }
{
    stand.ipa = stand.goal;
    stand.start = at;
    stand.class2 = None;
}

/// Passes a word of stage 1. Answers its row.
fn pass_word1(making: &Making, stand: &mut Stand, at: usize, item: &Item) -> Option<NewRow>
    requires place { at < 2 ^ 32 }
    requires stage { item.now.stage ≡ S1 }
    requires what { item.now.what ≡ AWord }
    ensures passed { IsKnown (regime_for making.now) item.now → Passed making.now at item.now stand.old stand.new result }
    ensures small { IfSome result IsSmall }
    ensures leaf { IfSome stand.new.leaf IsSmall }
{
    stand.start = at + 1;
    stand.leaf = None;
    stand.class2 = None;
    let word = making.word(item)?;
    stand.goal = word.goal;
    if !making.is_now(item) {
        return None;
    }
    match word.means {
        Means::Table { cached } => {
            let row = making.row(Kind::Table1, &word, making.va(), 0, at + 1);
            only_if(cached, row)
        }
        Means::Leaf1 { global } => {
            let row = making.row(Kind::Leaf1, &word, making.va(), 0, 0);
            stand.leaf = Some(NewRow { global, ..row });
            None
        }
        Means::Nothing | Means::Leaf2 { .. } => None,
    }
}

/// Passes a word of stage 2. Answers its row.
fn pass_word2(making: &Making, stand: &mut Stand, at: usize, item: &Item) -> Option<NewRow>
    requires place { at < 2 ^ 32 }
    requires stage { item.now.stage ≡ S2 }
    requires what { item.now.what ≡ AWord }
    ensures passed { IsKnown (regime_for making.now) item.now → Passed making.now at item.now stand.old stand.new result }
    ensures small { IfSome result IsSmall }
    ensures leaf { stand.new.leaf ≡ stand.old.leaf }
{
    let is_now = making.is_now(item);
    if !is_now && stand.leaf.is_none() {
        return None;
    }
    let word = making.word(item)?;
    stand.class2 = Some(word.class);
    if !is_now {
        return None;
    }
    match word.means {
        Means::Table { cached } => {
            let row = making.row(Kind::Table2, &word, stand.ipa, stand.start, at + 1);
            only_if(cached, row)
        }
        Means::Leaf2 { cached } => {
            let row = making.row(Kind::Leaf2, &word, stand.ipa, stand.start, at + 1);
            only_if(cached, row)
        }
        Means::Nothing | Means::Leaf1 { .. } => None,
    }
}

/// Passes an item of a trail. Answers its row.
fn pass(making: &Making, stand: &mut Stand, at: usize, item: &Item) -> Option<NewRow>
    requires place { at < 2 ^ 32 }
    ensures passed { IsKnown (regime_for making.now) item.now → Passed making.now at item.now stand.old stand.new result }
    ensures small { IfSome result IsSmall }
    ensures leaf { IfSome stand.old.leaf IsSmall → IfSome stand.new.leaf IsSmall }
{
    match (item.stage, item.what) {
        (Stage::S1, What::Base) => {
            pass_base1(making, stand, at, item);
            None
        }
        (Stage::S2, What::Base) => {
            pass_base2(stand, at, item);
            None
        }
        (Stage::S1, What::Word) => pass_word1(making, stand, at, item),
        (Stage::S2, What::Word) => pass_word2(making, stand, at, item),
    }
}

/// Passes all items of a trail. Their rows are appended in order, for which there is room.
fn pass_all(making: &Making, trail: &[Item], rows: &mut Vec<NewRow>) -> Stand
    requires most { length trail.now ≤ most_items }
    requires empty { rows.old.items ≡ [] }
    requires room { most_items ≤ vec_capacity rows.old }
    ensures passed { AreKnown (regime_for making.now) trail.now → PassedAll making.now trail.now rows.new.items result }
    ensures most { vec_len rows.new ≤ length trail.now }
    ensures small { All IsSmall rows.new.items }
    ensures leaf { IfSome result.leaf IsSmall }
    ensures capacity { vec_capacity rows.new ≡ vec_capacity rows.old }
{
    let mut stand = Stand {
        ipa: 0,
        goal: making.off_output(),
        start: 0,
        leaf: None,
        class2: None,
    };
    for (at, item) in trail.iter().enumerate() {
        if let Some(row) = pass(making, &mut stand, at, item) {
            rows.push_reserved(row);
        }
    }
    stand
}

/// The region of a class around an address.
fn region_around(address: u64, class: u32) -> Region
    ensures { result ≡ record { class = class; start = address / 2 ^ class } }
{
    let start = if class < 64 { address >> class } else { 0 };
    Region { class, start }
}

/// The smaller of two classes, of which the second may lack.
fn smaller(class: u32, other: Option<u32>) -> u32
    ensures is { result ≡ (smaller_of class other) }
    ensures most { result ≤ class }
{
    match other {
        Some(other) if other < class => other,
        _ => class,
    }
}

/// The row of a stage 1 leaf that was read now with the stage 2 of its output, behind a whole trail that ends in a translation.
fn leaf_row(making: &Making, stand: &Stand, end: usize) -> Option<NewRow>
    ensures row { (o : Option Mark) → (k : Option ℕ) → (class : ℕ) → (trail : List declared_item.Item) → HasLeaf making.now o k stand.now
        → IsPiece o k class →
        end ≡ length trail → one_from (maker_for making.now) trail result ≡ leaf_rows (maker_for making.now) class
        (untagged making.now.access.va) trail o }
    ensures small { IfSome stand.now.leaf IsSmall → IfSome result IsSmall }
{
    let leaf = stand.leaf?;
    let class = smaller(leaf.region.class, stand.class2);
    Some(NewRow {
        region: region_around(making.va(), class),
        end,
        ..leaf
    })
}

/// An access that was walked: the items of its trail, and whether it came to a translation.
#[derive(Drop)]
pub struct Walked<'a> {
    pub access: &'a Access,
    pub trail: &'a [Item],
    pub is_mapped: bool,
}

/// Whether an item was read in a step.
fn has_new(trail: &[Item], step: u32) -> bool
    ensures { result ≡ list_any (λ i. i.moment == step) trail.now }
{
    trail.iter().any(|item| item.moment == step)
}

/// The rows that a step makes whose access was walked under registers in force: into an empty list with room for them, in the
/// order in which they are made. The trail stands on the walk of the access. Where no item was read in this step, there are none.
pub fn rows_made(force: &InForce, walked: &Walked, step: u32, rows: &mut Vec<NewRow>)
    requires most { length walked.now.trail.now ≤ most_items }
    requires empty { rows.old.items ≡ [] }
    requires room { most_items < vec_capacity rows.old }
    ensures made { (end : Fed Need (End Landing)) → StandsTo (stands_whole (config_of force.now) walked.now.access.now walked.now.trail.now) end →
        walked.now.is_mapped ≡ is_mapped end → AreMade force.now step walked.now.access.now walked.now.trail.now end rows.new.items }
    ensures small { All IsSmall rows.new.items }
    ensures most { vec_len rows.new ≤ length walked.now.trail.now + 1 }
    ensures capacity { vec_capacity rows.new ≡ vec_capacity rows.old }
{
    if !has_new(walked.trail, step) {
        return;
    }
    let making = Making::of(force, walked.access, step);
    let stand = pass_all(&making, walked.trail, rows);
    if !walked.is_mapped {
        return;
    }
    if let Some(row) = leaf_row(&making, &stand, walked.trail.len()) {
        rows.push_reserved(row);
    }
}
