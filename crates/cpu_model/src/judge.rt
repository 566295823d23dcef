//! How the trail of an answer stands against now.
ghost use Rattle.std.specs.Prelude.{◌≡◌, true};
ghost use Rattle.std.specs.List.{list_any};
ghost use Rattle.sysregs.specs.Registers.{config_of};
ghost use Rattle.walk_spec.specs.Needs.{regime_of};
ghost use Rattle.phys_mem.specs.Words.{memory_of};
ghost use Rattle.machine_spec.specs.Kept.{base_by};
ghost use Rattle.machine_spec.specs.Allowed.{is_earlier, is_changed, has_word, is_conflict};
ghost use Rattle.made_rows.specs.NewRows.{is_mapping};
ghost use Rattle.made_rows.specs.Sized.{is_sized};
ghost use Rattle.cpu_model.specs.Judged.{HasSizes, HaveSizes};

use fault_codes::Stage;
use phys_mem::Phys;
use sysregs::Side;
use trails::{Item, Outcome, What};
use translate::InForce;

/// Whether an item was read in an earlier step.
pub fn is_old(moment: u32, items: &[Item]) -> bool
    ensures { result ≡ list_any (is_earlier moment) items.now }
{
    items.iter().any(|item| item.moment < moment)
}

/// Whether a word was found that has this value.
fn has_word(found: Option<u64>, value: u64) -> bool
    ensures { result ≡ has_word found value }
{
    match found {
        Some(word) => word == value,
        None => false,
    }
}

/// The base that the registers give for a stage, where its sizes are in range.
fn base(force: &InForce, side: Side, stage: Stage) -> u64
    ensures { is_sized (regime_of (config_of force.now) side) stage ≡ true → result ≡ base_by force.now side stage }
{
    match stage {
        Stage::S1 => force.base1(side),
        Stage::S2 => force.base2(),
    }
}

/// Whether an item differs from now: its place holds another word, or the register gives another base.
fn is_changed(force: &InForce, side: Side, phys: &Phys, item: &Item) -> bool
    ensures { HasSizes force.now side item.now → result ≡ is_changed force.now side (memory_of phys.now) item.now }
{
    match item.what {
        What::Base => item.value != base(force, side, item.stage),
        What::Word => !has_word(phys.seen(item.pa), item.value),
    }
}

/// Whether any item differs from now.
pub fn is_stale(force: &InForce, side: Side, phys: &Phys, items: &[Item]) -> bool
    ensures { HaveSizes force.now side items.now → result ≡ list_any (is_changed force.now side (memory_of phys.now)) items.now }
{
    for item in items {
        if is_changed(force, side, phys, item) {
            return true;
        }
    }
    false
}

/// Whether an outcome is a translation.
pub fn is_mapping(outcome: &Outcome) -> bool
    ensures { result ≡ is_mapping outcome.now }
{
    matches!(outcome, Outcome::Mapped { .. })
}

/// Whether an outcome is a conflict.
pub fn is_conflict(outcome: &Outcome) -> bool
    ensures { result ≡ is_conflict outcome.now }
{
    matches!(outcome, Outcome::Conflict)
}
