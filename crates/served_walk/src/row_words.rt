//! The words of stage 1, each by the chain of its place over rows.
ghost use Rattle.std.specs.Prelude.{◌≡◌, ◌+◌, ◌<◌, ◌≤◌, ◌*◌, length, slice_index_or, IsFalse, IfErr};
ghost use Rattle.geometry.specs.Tables.{left_below};
ghost use Rattle.sysregs.specs.Registers.{config_of};
ghost use Rattle.sysregs.specs.Sides.{side_of};
ghost use Rattle.trails.specs.Lengths.{most_items, most_per_word};
ghost use Rattle.trails.specs.Printed.{HasTextStop};
ghost use Rattle.phys_mem.specs.Words.{memory_of};
ghost use Rattle.walk_spec.specs.BothStages.{is_refused1};
ghost use Rattle.stage1_walk.specs.Clauses.{IsTableOf, table_from};
ghost use Rattle.tlbi_ops.specs.Covers.{is_stage1};
ghost use Rattle.tagged_tlb.specs.Found.{first_hit};
ghost use Rattle.served_walk.specs.KeptWords.{TookWord};
ghost use Rattle.served_walk.specs.RowGiven.{HasReadWord, RowGave, StageGave};

use crate::chain::chain;
use crate::finds::Finds;
use crate::met::{MOST_CHAIN, Met, append};
use crate::scene::Scene;
use fault_codes::Stage;
use stage1_walk::{From1, Supply1};
use trails::{Access, Item, Stop, Trail, What};
use translate::parts::descriptor_read;
use translate::walk1_from;
use walk_spec::Leaf1;

/// Words of stage 1 over rows, and what was met of them. `kept` are items of a row of stage 1, which come first: each word
/// with the chain of its place.
#[derive(Drop)]
pub struct RowWords<'a, F> {
    pub scene: &'a Scene<'a, F>,
    pub kept: &'a [Item],
    pub met: Met,
}

/// The place of the first item of stage 1.
fn first_of_stage1(items: &[Item]) -> Option<usize>
    ensures { result ≡ first_hit (λ i. is_stage1 i.stage) 0 items.now }
{
    for (at, item) in items.iter().enumerate() {
        if item.stage == Stage::S1 {
            return Some(at);
        }
    }
    None
}

/// The item at a place.
pub(crate) fn item_at(items: &[Item], at: usize) -> Item
    requires { at < length items.now }
    ensures { result ≡ slice_index_or items.now at result }
{
    items[at]
}

/// The first word of kept items, which is taken and appended with its chain; and what is left of them.
fn take_word<'a>(kept: &'a [Item], trail: &mut Trail) -> (Option<u64>, &'a [Item])
    requires room { length trail.old + most_per_word ≤ most_items }
    ensures { TookWord kept.entry.now result.1.now trail.old trail.new result.0 }
{
    let at = match first_of_stage1(kept) {
        Some(at) => at,
        None => return (None, kept),
    };
    if at > MOST_CHAIN {
        return (None, kept);
    }
    let (front, rest) = kept.split_at(at + 1);
    let word = item_at(front, at);
    append(front, trail);
    (Some(word.value), rest)
}

/// Reads the word of a level of stage 1 at a physical place in bytes and appends its item.
fn read_word<F>(scene: &Scene<F>, level: i8, place: u64, trail: &mut Trail) -> Result<u64, Stop>
    requires room { length trail.old < most_items }
    ensures { HasReadWord (memory_of scene.now.phys.now) scene.now.moment level place trail.old trail.new result }
{
    match scene.phys.load(place) {
        Some(value) => {
            trail.push(Item {
                pa: place,
                value,
                moment: scene.moment,
                stage: Stage::S1,
                level,
                what: What::Word,
            });
            Ok(value)
        }
        None => Err(Stop::Absent {
            stage: Stage::S1,
            level,
            pa: place,
            s1ptw: false,
        }),
    }
}

impl<'a, F: Finds> Supply1 for RowWords<'a, F> {
    ghost gives = { RowGave F.holds F.row_at };

    /// A call of its own: it holds a walk through stage 2, which would stand in each level of stage 1.
    #[inline(never)]
    fn word_at(&mut self, level: i8, ipa: u64, trail: &mut Trail) -> Result<u64, Stop> {
        let (kept, left) = take_word(self.kept, trail);
        self.kept = left;
        match kept {
            Some(value) => return Ok(value),
            None => {}
        }
        let scene = self.scene;
        let config = scene.force.config();
        if !config.vm {
            return read_word::<F>(scene, level, ipa, trail);
        }
        let leaf = match chain::<F>(scene, ipa, true, &mut self.met, trail) {
            Ok(leaf) => leaf,
            Err(stop) => return Err(stop),
        };
        if let Err(fault) = descriptor_read(config, &leaf) {
            return Err(Stop::Fault { fault });
        }
        read_word::<F>(scene, level, leaf.pa, trail)
    }
}

/// Stage 1 of an access that isn't refused, from a table, over rows.
pub(crate) fn stage1_below<F: Finds>(
    access: &Access,
    from: &From1,
    words: &mut RowWords<F>,
    trail: &mut Trail,
) -> Result<Leaf1, Stop>
    requires accepted { IsFalse (is_refused1 (config_of words.old.scene.now.force.now) access.now) }
    requires table { IsTableOf (config_of words.old.scene.now.force.now) (side_of access.now.va) from.now }
    requires room { length trail.old + most_per_word * (left_below from.now.level + 1) ≤ most_items }
    ensures most { length trail.new ≤ length trail.old + most_per_word * (left_below from.now.level + 1) }
    ensures text { IfErr result HasTextStop }
    ensures same { words.new.scene.now ≡ words.old.scene.now }
    ensures gave { StageGave F.holds F.row_at words.old.scene.now access.now (left_below from.now.level) (table_from from.now)
        words.old.kept.now words.old.met words.new.met trail.old trail.new result }
{
    let force = words.scene.force;
    walk1_from::<RowWords<F>>(force, access, from, words, trail)
}
