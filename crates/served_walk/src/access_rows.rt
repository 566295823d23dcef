//! An access over rows: by a combined row, behind the deepest table of stage 1, or from the base.
ghost use Rattle.std.specs.Prelude.{◌≡◌, ◌+◌, ◌*◌, ◌≤◌, ◌<◌, ◌%◌, ◌^◌, ◌↔◌, [], ◌∷◌};
ghost use Rattle.std.specs.Prelude.{true, false, None, length, IsTrue, IsFalse, IsSome, IsNone, Err, option_map};
ghost use Rattle.geometry.specs.Tables.{left_below, level_of};
ghost use Rattle.sysregs.specs.Registers.{config_of};
ghost use Rattle.sysregs.specs.Sides.{side_of};
ghost use Rattle.permissions.specs.Rights.{no_bits};
ghost use Rattle.trails.specs.Lengths.{most_items, most_items2, most_per_word};
ghost use Rattle.table_reads.specs.Numbers.{sizes1};
ghost use Rattle.walk_spec.specs.Stage1;
ghost use Rattle.walk_spec.specs.Steps.{reaches};
ghost use Rattle.walk_spec.specs.BothStages.{asked, is_refused1, is_refused_off, stage2_behind, walk};
ghost use Rattle.stage1_walk.specs.Clauses.{IsTableOf, table_from};
ghost use Rattle.translate.specs.Parts.{leaf1_or_off};
ghost use Rattle.translate.specs.Replayed.{NeedsMore};
ghost use Rattle.translate.specs.Deep.{outcome_by};
ghost use Rattle.served_walk.specs.Accessed.{WholeGave, BelowIfOn, RowLeft, most_from_base, GaveByLeaf1, GaveByTable1};
ghost use Rattle.served_walk.specs.Accessed.{NoLeaf1, NoTable1, AccessGave, IsServed, IsSecond, ConflictOf};

use crate::chain::chain;
use crate::finds::Finds;
use crate::met::{MOST_CHAIN, Met, Service, append};
use crate::row_words::{RowWords, item_at, stage1_below};
use crate::scene::{Scene, sought};
use fault_codes::Stage;
use permissions::TableBits;
use stage1_walk::From1;
use sysregs::Side;
use tagged_tlb::{Found, Kind};
use trails::{Access, Item, MOST_ITEMS, Outcome, Stop, Trail};
use translate::parts::{begin1, finish, root1};
use translate::replay::replay;
use translate::{Begin1, Replay, output};
use walk_spec::Leaf1;

/// How an access comes out whose walk stops.
fn stopped(stop: Stop) -> Outcome
    ensures { result ≡ outcome_by (Err stop) }
{
    match stop {
        Stop::Fault { fault } => Outcome::Faulted { fault },
        Stop::Absent {
            stage,
            level,
            pa,
            s1ptw,
        } => Outcome::Absent {
            stage,
            level,
            pa,
            s1ptw,
        },
        Stop::Conflict => Outcome::Conflict,
    }
}

/// Stage 2 of the output of stage 1, whose leaf is there while it is on.
fn output_below<F: Finds>(
    access: &Access,
    leaf: Option<&Leaf1>,
    words: &mut RowWords<F>,
    trail: &mut Trail,
) -> Outcome
    requires on { IsTrue (config_of words.old.scene.now.force.now).m ↔ IsSome leaf }
    requires room { length trail.old + most_items2 ≤ most_items }
    ensures gave { WholeGave F.holds F.row_at words.old.scene.now access.now 1
        (stage2_behind (asked (config_of words.old.scene.now.force.now) true access.now)
        (reaches (leaf1_or_off (config_of words.old.scene.now.force.now) access.now (option_map (λ l. l.now) leaf.entry))))
        words.old.met words.new.met trail.old trail.new result }
{
    let scene = words.scene;
    let config = scene.force.config();
    let out = output(access, leaf);
    if !config.vm {
        return finish(config, access, out, leaf, None);
    }
    match chain::<F>(scene, out, false, &mut words.met, trail) {
        Ok(leaf2) => finish(config, access, out, leaf, Some(&leaf2)),
        Err(stop) => stopped(stop),
    }
}

/// Both stages of an access that isn't refused, behind a table of stage 1.
fn both_below<F: Finds>(
    access: &Access,
    from: &From1,
    words: &mut RowWords<F>,
    trail: &mut Trail,
) -> Outcome
    requires on { IsTrue (config_of words.old.scene.now.force.now).m }
    requires accepted { IsFalse (is_refused1 (config_of words.old.scene.now.force.now) access.now) }
    requires table { IsTableOf (config_of words.old.scene.now.force.now) (side_of access.now.va) from.now }
    requires room { length trail.old + most_per_word * (left_below from.now.level + 1) + most_items2 ≤ most_items }
    ensures gave { BelowIfOn F.holds F.row_at words.old.scene.now access.now (left_below from.now.level) (table_from from.now)
        words.old.kept.now words.old.met words.new.met trail.old trail.new result }
{
    match stage1_below::<F>(access, from, words, trail) {
        Ok(leaf) => output_below::<F>(access, Some(&leaf), words, trail),
        Err(stop) => stopped(stop),
    }
}

/// A start table of stage 1, without bits of tables above it.
fn start_table(base: u64, level: i8) -> From1
    ensures { result ≡ record { base = base; level = level; tables = no_bits } }
{
    From1 {
        base,
        level,
        tables: TableBits {
            no_el0: false,
            read_only: false,
            pxn: false,
            uxn: false,
        },
    }
}

/// Both stages of an access that isn't refused, from the base of its side. `level` is the side's start level.
fn by_base1<F: Finds>(
    access: &Access,
    side: Side,
    level: i8,
    words: &mut RowWords<F>,
    trail: &mut Trail,
) -> Outcome
    requires on { IsTrue (config_of words.old.scene.now.force.now).m }
    requires accepted { IsFalse (is_refused1 (config_of words.old.scene.now.force.now) access.now) }
    requires side { side ≡ side_of access.now.va }
    requires level { level ≡ level_of (sizes1 (config_of words.old.scene.now.force.now) (side_of access.now.va)).start }
    requires kept { words.old.kept.now ≡ [] }
    requires empty { trail.old ≡ [] }
    ensures gave { WholeGave F.holds F.row_at words.old.scene.now access.now (most_from_base words.old.scene.now access.now)
        (walk (config_of words.old.scene.now.force.now) true access.now) words.old.met words.new.met [] trail.new result }
{
    let scene = words.scene;
    let force = scene.force;
    match root1(
        force.regs(),
        force.config(),
        side,
        level,
        scene.moment,
        trail,
    ) {
        Ok(from) => both_below::<F>(access, &from, words, trail),
        Err(fault) => Outcome::Faulted { fault },
    }
}

/// Both stages of an access that isn't refused, behind the trail of a table's row, which needs more. `level` is the side's start
/// level.
fn behind_row<'a, F: Finds>(
    access: &Access,
    level: i8,
    items: &'a [Item],
    words: &mut RowWords<'a, F>,
    trail: &mut Trail,
) -> Outcome
    requires on { IsTrue (config_of words.old.scene.now.force.now).m }
    requires accepted { IsFalse (is_refused1 (config_of words.old.scene.now.force.now) access.now) }
    requires level { level ≡ level_of (sizes1 (config_of words.old.scene.now.force.now) (side_of access.now.va)).start }
    requires more { NeedsMore (config_of words.old.scene.now.force.now) access.now items.now }
    requires whole { trail.old ≡ items.now }
    ensures gave { RowLeft F.holds F.row_at words.old.scene.now access.now items.entry.now words.old.met words.new.met trail.new result }
{
    let (base, kept) = items.split_at(1);
    let from = start_table(item_at(base, 0).value, level);
    trail.cut(1);
    words.kept = kept;
    both_below::<F>(access, &from, words, trail)
}

/// An access that isn't refused, behind the deepest table of stage 1 that matches; None where none does.
fn by_table1<F: Finds>(
    access: &Access,
    level: i8,
    words: &mut RowWords<F>,
    trail: &mut Trail,
) -> Option<Outcome>
    requires on { IsTrue (config_of words.old.scene.now.force.now).m }
    requires accepted { IsFalse (is_refused1 (config_of words.old.scene.now.force.now) access.now) }
    requires level { level ≡ level_of (sizes1 (config_of words.old.scene.now.force.now) (side_of access.now.va)).start }
    requires fresh { words.old.met.services.items ≡ [] }
    requires empty { trail.old ≡ [] }
    ensures same { IsNone result → words.new ≡ words.old }
    ensures gave { GaveByTable1 F.holds F.row_at words.old.scene.now access.now words.new.met trail.new result }
{
    let scene = words.scene;
    let finds = scene.finds;
    let sought = sought(scene.force, Stage::S1, access.va % (1 << 56));
    let seen = match finds.deepest(Kind::Table1, &sought) {
        Some(seen) => seen,
        None => return None,
    };
    let items = finds.trail(Kind::Table1, seen.slot);
    if items.len() > MOST_ITEMS {
        return None;
    }
    append(items, trail);
    let service = Service {
        kind: Kind::Table1,
        seen,
    };
    match replay(scene.force.config(), access, trail) {
        Replay::Ended { len, outcome } => {
            trail.cut(len);
            words.met.note(service);
            Some(outcome)
        }
        Replay::More { .. } => {
            words.met.note(service);
            Some(behind_row::<F>(access, level, items, words, trail))
        }
        Replay::Other => {
            trail.cut(0);
            None
        }
    }
}

/// Two combined rows that both match: a conflict, where their trails are no longer than a trail.
fn both_leaves(
    one: &[Item],
    two: &[Item],
    first: &mut Trail,
    second: &mut Option<Trail>,
) -> Option<Outcome>
    requires empty { first.old ≡ [] }
    requires none { second.old ≡ None }
    ensures { ConflictOf one.now two.now first.new second.new result }
{
    if one.len() > MOST_ITEMS || two.len() > MOST_ITEMS {
        return None;
    }
    append(one, first);
    let mut other = Trail::none();
    append(two, &mut other);
    *second = Some(other);
    Some(Outcome::Conflict)
}

/// An access that isn't refused, by the combined rows that match; None where none does.
fn by_leaf1<F: Finds>(
    access: &Access,
    words: &mut RowWords<F>,
    first: &mut Trail,
    second: &mut Option<Trail>,
) -> Option<Outcome>
    requires on { IsTrue (config_of words.old.scene.now.force.now).m }
    requires accepted { IsFalse (is_refused1 (config_of words.old.scene.now.force.now) access.now) }
    requires fresh { words.old.met.services.items ≡ [] }
    requires empty { first.old ≡ [] }
    requires none { second.old ≡ None }
    ensures same { IsNone result → words.new ≡ words.old }
    ensures gave { GaveByLeaf1 F.holds F.row_at words.old.scene.now access.now words.new.met first.new second.new result }
{
    let scene = words.scene;
    let finds = scene.finds;
    let sought = sought(scene.force, Stage::S1, access.va % (1 << 56));
    match finds.find(Kind::Leaf1, &sought) {
        Found::Nothing => None,
        Found::One { only } => {
            let items = finds.trail(Kind::Leaf1, only.slot);
            if items.len() > MOST_ITEMS {
                return None;
            }
            append(items, first);
            match replay(scene.force.config(), access, first) {
                Replay::Ended { len, outcome } => {
                    first.cut(len);
                    words.met.note(Service {
                        kind: Kind::Leaf1,
                        seen: only,
                    });
                    Some(outcome)
                }
                _ => {
                    first.cut(0);
                    None
                }
            }
        }
        Found::Two {
            first: a,
            second: b,
        } => both_leaves(
            finds.trail(Kind::Leaf1, a.slot),
            finds.trail(Kind::Leaf1, b.slot),
            first,
            second,
        ),
    }
}

/// The second trail at a conflict of two chains: the first one up to what the second chain stands for, and this chain.
fn tell_second(outcome: Outcome, met: &Met, first: &Trail, second: &mut Option<Trail>)
    requires none { second.old ≡ None }
    ensures { IsSecond met.now first.now outcome second.new }
{
    if !matches!(outcome, Outcome::Conflict) {
        return;
    }
    let items = first.items();
    let before = items.len().saturating_sub(met.instead);
    if before + MOST_CHAIN > MOST_ITEMS {
        return;
    }
    let mut trail = Trail::none();
    append(items.split_at(before).0, &mut trail);
    append(met.second.as_slice(), &mut trail);
    *second = Some(trail);
}

/// An access that isn't refused and that no combined row serves: behind a table's row, or from the base. `level` is the start
/// level of the access's side.
fn below_leaf<F: Finds>(
    access: &Access,
    side: Side,
    level: i8,
    words: &mut RowWords<F>,
    trail: &mut Trail,
) -> Outcome
    requires on { IsTrue (config_of words.old.scene.now.force.now).m }
    requires accepted { IsFalse (is_refused1 (config_of words.old.scene.now.force.now) access.now) }
    requires side { side ≡ side_of access.now.va }
    requires level { level ≡ level_of (sizes1 (config_of words.old.scene.now.force.now) (side_of access.now.va)).start }
    requires kept { words.old.kept.now ≡ [] }
    requires fresh { words.old.met.services.items ≡ [] }
    requires empty { trail.old ≡ [] }
    ensures gave { NoLeaf1 F.holds words.old.scene.now access.now
        → AccessGave F.holds F.row_at words.old.scene.now access.now words.new.met trail.new result }
{
    match by_table1::<F>(access, level, words, trail) {
        Some(outcome) => outcome,
        None => by_base1::<F>(access, side, level, words, trail),
    }
}

/// An access while stage 1 is on and doesn't refuse it. `level` is the start level of the access's side.
fn accepted<F: Finds>(
    access: &Access,
    side: Side,
    level: i8,
    words: &mut RowWords<F>,
    first: &mut Trail,
    second: &mut Option<Trail>,
) -> Outcome
    requires on { IsTrue (config_of words.old.scene.now.force.now).m }
    requires accepted { IsFalse (is_refused1 (config_of words.old.scene.now.force.now) access.now) }
    requires side { side ≡ side_of access.now.va }
    requires level { level ≡ level_of (sizes1 (config_of words.old.scene.now.force.now) (side_of access.now.va)).start }
    requires kept { words.old.kept.now ≡ [] }
    requires fresh { words.old.met.services.items ≡ [] }
    requires empty { first.old ≡ [] }
    requires none { second.old ≡ None }
    ensures served { IsServed F.holds F.row_at words.old.scene.now access.now words.new.met first.new second.new result }
{
    match by_leaf1::<F>(access, words, first, second) {
        Some(outcome) => return outcome,
        None => {}
    }
    let outcome = below_leaf::<F>(access, side, level, words, first);
    tell_second(outcome, &words.met, first, second);
    outcome
}

/// An access while stage 1 is off and doesn't refuse it.
fn off<F: Finds>(
    access: &Access,
    words: &mut RowWords<F>,
    first: &mut Trail,
    second: &mut Option<Trail>,
) -> Outcome
    requires off { (config_of words.old.scene.now.force.now).m ≡ false }
    requires accepted { IsFalse (is_refused_off (config_of words.old.scene.now.force.now) access.now) }
    requires fresh { words.old.met.services.items ≡ [] }
    requires empty { first.old ≡ [] }
    requires none { second.old ≡ None }
    ensures served { IsServed F.holds F.row_at words.old.scene.now access.now words.new.met first.new second.new result }
{
    let outcome = output_below::<F>(access, None, words, first);
    tell_second(outcome, &words.met, first, second);
    outcome
}

/// An access, before any row was met.
fn answer<F: Finds>(
    access: &Access,
    words: &mut RowWords<F>,
    first: &mut Trail,
    second: &mut Option<Trail>,
) -> Outcome
    requires kept { words.old.kept.now ≡ [] }
    requires fresh { words.old.met.services.items ≡ [] }
    requires empty { first.old ≡ [] }
    requires none { second.old ≡ None }
    ensures served { IsServed F.holds F.row_at words.old.scene.now access.now words.new.met first.new second.new result }
{
    match begin1(words.scene.force.config(), access) {
        Ok(Begin1::On { side, level }) => {
            accepted::<F>(access, side, level, words, first, second)
        }
        Ok(Begin1::Off { .. }) => off::<F>(access, words, first, second),
        Err(fault) => Outcome::Faulted { fault },
    }
}

/// Leaves no second trail.
fn no_second(second: &mut Option<Trail>)
    ensures { second.new ≡ None }
{
    if second.is_some() {
        *second = None;
    }
}

/// An access over the rows of a core: how it comes out. Its trail, and at a conflict the second one, are written where an earlier
/// one stood; `met` has the rows that served. For each list of rows that the caches may hold, all of it is what the definitions
/// serve.
pub fn served_access<F: Finds>(
    scene: &Scene<F>,
    access: &Access,
    met: &mut Met,
    first: &mut Trail,
    second: &mut Option<Trail>,
) -> Outcome
    ensures served { IsServed F.holds F.row_at scene.now access.now met.new first.new second.new result }
{
    first.cut(0);
    no_second(second);
    let mut words = RowWords {
        scene,
        kept: &[],
        met: Met::none(),
    };
    let outcome = answer::<F>(access, &mut words, first, second);
    *met = words.met;
    outcome
}
