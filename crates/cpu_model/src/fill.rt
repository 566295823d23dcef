//! The rows that a step makes come into the caches.
ghost use Rattle.std.specs.Prelude.{◌≡◌, ◌+◌, ◌<◌, ◌≤◌, ◌^◌, All, length, take, drop, if◌then◌else◌};
ghost use Rattle.trails.specs.Lengths.{most_items};
ghost use Rattle.fault_codes.specs.declared.fault.Stage;
ghost use Rattle.machine_spec.specs.Made.{key_for, made_in};
ghost use Rattle.made_rows.specs.NewRows.{stage_by, row_from, IsSmall};
ghost use Rattle.walk_cache.specs.ByKind.{AreAlike};
ghost use Rattle.cpu_model.specs.Filled.{rows_of_step, Fills};

use fault_codes::Stage;
use made_rows::NewRow;
use sysregs::fields::{asid, vmid};
use tagged_tlb::{Key, Kind, LentRow, Made};
use trails::Item;
use translate::InForce;
use walk_cache::Caches;

/// What a step makes its rows of: the registers in force, its trail, and its number.
#[derive(Drop)]
pub struct Source<'a> {
    pub force: &'a InForce,
    pub trail: &'a [Item],
    pub step: u32,
}

/// The key of a row of a kind. Stage 2 knows no ASID.
fn key_for(force: &InForce, kind: Kind) -> Key
    ensures { result ≡ key_for force.now (stage_by kind) }
{
    let regs = force.regs();
    let asid = match kind {
        Kind::Leaf1 | Kind::Table1 => asid(regs),
        Kind::Leaf2 | Kind::Table2 => 0,
    };
    Key {
        config: *force.config(),
        vmid: vmid(regs),
        asid,
    }
}

/// The items before a place.
fn before(items: &[Item], end: usize) -> &[Item]
    ensures { result.now ≡ take end items.now }
{
    if end < items.len() {
        &items[..end]
    } else {
        items
    }
}

/// The items from a place on.
fn behind(items: &[Item], start: usize) -> &[Item]
    ensures { result.now ≡ drop start items.now }
{
    if start < items.len() {
        &items[start..]
    } else {
        &[]
    }
}

/// The row of a step with its number among them.
fn row_of<'a>(source: &Source<'a>, new: &NewRow, order: u32) -> LentRow<'a>
    requires { length source.now.trail.now ≤ most_items }
    ensures { result ≡ record (row_from record { regs = source.now.force.now; step = source.now.step } source.now.trail.now new.now)
        { made = made_in source.now.step order } }
{
    LentRow {
        trail: behind(before(source.trail, new.end), new.start),
        tag: new.tag,
        key: key_for(source.force, new.kind),
        region: new.region,
        made: Made {
            step: source.step,
            order,
        },
        kind: new.kind,
        global: new.global,
    }
}

/// The number that a row counts for.
fn count(evicted: bool) -> u32
    ensures { result ≡ (if evicted then 1 else 0) }
{
    if evicted { 1 } else { 0 }
}

/// The rows of a step are added in order. Answers how many rows were evicted.
pub fn add_all(caches: &mut Caches, source: &Source, rows: &[NewRow]) -> u32
    requires most { length source.now.trail.now ≤ most_items }
    requires few { length rows.now ≤ most_items + 1 }
    requires small { All IsSmall rows.now }
    ensures filled { Fills caches.old (rows_of_step source.now.force.now source.now.step source.now.trail.now rows.now) result caches.new }
    ensures alike { AreAlike caches.old caches.new }
{
    let mut evicted = 0;
    for (order, new) in rows.iter().enumerate() {
        let row = row_of(source, new, order as u32);
        evicted += count(caches.add(&row));
    }
    evicted
}
