//! Stage 2 for an IPA over rows: by a leaf's row, behind a table's row, or from its base.
ghost use Rattle.std.specs.Prelude.{◌≡◌, ◌+◌, ◌≤◌, ◌&&◌, nat_le, length, IsTrue, IsFalse, IfSome, IfOk, IfErr};
ghost use Rattle.geometry.specs.Tables.{level_of};
ghost use Rattle.sysregs.specs.Registers.{config_of};
ghost use Rattle.trails.specs.Lengths.{most_items, most_items2};
ghost use Rattle.trails.specs.Printed.{HasTextStop};
ghost use Rattle.table_reads.specs.Numbers.{sizes2};
ghost use Rattle.walk_spec.specs.Stage2.{is_refused2};
ghost use Rattle.walk_spec.specs.Walked.{HasLineStop};
ghost use Rattle.stage2_walk.specs.SoundSteps.{IsSoundLeaf};
ghost use Rattle.served_walk.specs.Chained.{ChainGave, MayConflict, GaveByLeaf, GaveByTable, NoLeaf, NoTable};

use crate::finds::Finds;
use crate::met::{MOST_CHAIN, Met, Service, append, keep_second};
use crate::scene::{Scene, sought};
use crate::words::Words;
use fault_codes::Stage;
use stage2_walk::{Replay2, replay2};
use table_reads::left_below;
use tagged_tlb::{Found, Kind};
use trails::{Stop, Trail};
use translate::parts::{begin2, root2};
use translate::walk2_from;
use walk_spec::Leaf2;

/// Whether two chains are no longer than a chain may be.
fn are_short(len: usize, other: usize) -> bool
    ensures { result ≡ (nat_le len most_items2 && nat_le other most_items2) }
{
    len <= MOST_CHAIN && other <= MOST_CHAIN
}

/// Whether there is room behind a chain for its table's word and those of so many levels below.
fn has_room(len: usize, left: u32) -> bool
    ensures { result ≡ nat_le (len + left + 1) most_items2 }
{
    len < MOST_CHAIN && len + (left as usize) < MOST_CHAIN
}

/// Stage 2 for an IPA that isn't refused, by the leaves that match; None where none does.
fn by_leaf<F: Finds>(
    scene: &Scene<F>,
    ipa: u64,
    met: &mut Met,
    trail: &mut Trail,
) -> Option<Result<Leaf2, Stop>>
    requires accepted { IsFalse (is_refused2 (config_of scene.now.force.now) ipa) }
    requires room { length trail.old + most_items2 ≤ most_items }
    ensures most { length trail.new ≤ length trail.old + most_items2 }
    ensures text { IfSome result (λ r. IfErr r HasTextStop) }
    ensures sound { IfSome result (λ r. IfOk r (IsSoundLeaf ipa)) }
    ensures conflict { IfSome result (λ r. IfErr r (MayConflict trail.old trail.new met.new)) }
    ensures gave { (s1ptw : _) → GaveByLeaf F.holds F.row_at scene.now s1ptw ipa met.old met.new trail.old trail.new result }
{
    let finds = scene.finds;
    match finds.find(Kind::Leaf2, &sought(scene.force, Stage::S2, ipa)) {
        Found::Nothing => None,
        Found::One { only } => {
            let chain = finds.trail(Kind::Leaf2, only.slot);
            match replay2(scene.force.config(), ipa, chain) {
                Replay2::Ended { leaf } => {
                    if chain.len() > MOST_CHAIN {
                        return None;
                    }
                    append(chain, trail);
                    met.note(Service {
                        kind: Kind::Leaf2,
                        seen: only,
                    });
                    Some(Ok(leaf))
                }
                _ => None,
            }
        }
        Found::Two { first, second } => {
            let chain = finds.trail(Kind::Leaf2, first.slot);
            let other = finds.trail(Kind::Leaf2, second.slot);
            if !are_short(chain.len(), other.len()) {
                return None;
            }
            append(chain, trail);
            keep_second(other, chain.len(), met);
            Some(Err(Stop::Conflict))
        }
    }
}

/// Stage 2 for an IPA that isn't refused, behind the deepest table that matches; None where none does.
fn by_table<F: Finds>(
    scene: &Scene<F>,
    ipa: u64,
    s1ptw: bool,
    met: &mut Met,
    trail: &mut Trail,
) -> Option<Result<Leaf2, Stop>>
    requires accepted { IsFalse (is_refused2 (config_of scene.now.force.now) ipa) }
    requires room { length trail.old + most_items2 ≤ most_items }
    ensures most { length trail.new ≤ length trail.old + most_items2 }
    ensures line { IfSome result (λ r. IfErr r HasLineStop) }
    ensures sound { IfSome result (λ r. IfOk r (IsSoundLeaf ipa)) }
    ensures gave { GaveByTable F.holds F.row_at scene.now s1ptw ipa met.old met.new trail.old trail.new result }
{
    let finds = scene.finds;
    let seen = match finds.deepest(Kind::Table2, &sought(scene.force, Stage::S2, ipa)) {
        Some(seen) => seen,
        None => return None,
    };
    let chain = finds.trail(Kind::Table2, seen.slot);
    let from = match replay2(scene.force.config(), ipa, chain) {
        Replay2::More { from } => from,
        _ => return None,
    };
    if !has_room(chain.len(), left_below(from.level)) {
        return None;
    }
    append(chain, trail);
    met.note(Service {
        kind: Kind::Table2,
        seen,
    });
    let mut words = Words { phys: scene.phys };
    Some(walk2_from::<Words>(
        scene.force,
        &from,
        ipa,
        s1ptw,
        scene.moment,
        &mut words,
        trail,
    ))
}

/// Stage 2 for an IPA that isn't refused, from its base. `level` is its start level.
fn by_base<F: Finds>(
    scene: &Scene<F>,
    ipa: u64,
    s1ptw: bool,
    level: i8,
    trail: &mut Trail,
) -> Result<Leaf2, Stop>
    requires accepted { IsFalse (is_refused2 (config_of scene.now.force.now) ipa) }
    requires level { level ≡ level_of (sizes2 (config_of scene.now.force.now)).start }
    requires room { length trail.old + most_items2 ≤ most_items }
    ensures most { length trail.new ≤ length trail.old + most_items2 }
    ensures line { IfErr result HasLineStop }
    ensures sound { IfOk result (IsSoundLeaf ipa) }
    ensures gave { (met : _) → NoLeaf F.holds scene.now ipa → NoTable F.holds scene.now ipa →
        ChainGave F.holds F.row_at scene.now s1ptw ipa met met trail.old trail.new result }
{
    let force = scene.force;
    let from = match root2(
        force.regs(),
        force.config(),
        level,
        s1ptw,
        scene.moment,
        trail,
    ) {
        Ok(from) => from,
        Err(fault) => return Err(Stop::Fault { fault }),
    };
    let mut words = Words { phys: scene.phys };
    walk2_from::<Words>(force, &from, ipa, s1ptw, scene.moment, &mut words, trail)
}

/// Stage 2 for an IPA in bytes over rows. `s1ptw` marks the place of a stage 1 descriptor. The items are appended, and the row
/// that served is noted.
pub(crate) fn chain<F: Finds>(
    scene: &Scene<F>,
    ipa: u64,
    s1ptw: bool,
    met: &mut Met,
    trail: &mut Trail,
) -> Result<Leaf2, Stop>
    requires room { length trail.old + most_items2 ≤ most_items }
    ensures most { length trail.new ≤ length trail.old + most_items2 }
    ensures text { IfErr result HasTextStop }
    ensures sound { IfOk result (IsSoundLeaf ipa) }
    ensures conflict { IfErr result (MayConflict trail.old trail.new met.new) }
    ensures gave { ChainGave F.holds F.row_at scene.now s1ptw ipa met.old met.new trail.old trail.new result }
{
    let level = match begin2(scene.force.config(), ipa, s1ptw) {
        Ok(level) => level,
        Err(fault) => return Err(Stop::Fault { fault }),
    };
    match by_leaf::<F>(scene, ipa, met, trail) {
        Some(result) => return result,
        None => {}
    }
    match by_table::<F>(scene, ipa, s1ptw, met, trail) {
        Some(result) => return result,
        None => {}
    }
    by_base::<F>(scene, ipa, s1ptw, level, trail)
}
