ghost use Rattle.std.specs.Prelude.{◌≡◌};

use bitwords::NoMemory;
use fault_codes::Stage;
use served_walk::Service;
use std::alloc::Global;
use sysregs::fields::config;
use sysregs::{Op, Regs};
use tagged_tlb::{Found, Key, Kind, LentRow, Made, Sought};
use tlbi_ops::{Tag, decode};
use trace_lang::{Policy, Size};
use walk_cache::Caches;
use walk_spec::Region;

/// Under registers that are all 0.
fn key() -> Key {
    Key {
        config: config(&Regs::zero()),
        vmid: 0,
        asid: 0,
    }
}

/// A stage 1 table's row for the page of a number, which is its order too.
fn row(page: u32) -> LentRow<'static>
    ensures { result.region.class ≡ 12 }
{
    LentRow {
        trail: &[],
        tag: Tag {
            start: u64::from(page) << 12,
            class: 12,
            granule: 12,
            asid: 0,
            vmid: 0,
            stage: Stage::S1,
            table: true,
            global: false,
        },
        key: key(),
        region: Region {
            start: u64::from(page),
            class: 12,
        },
        made: Made {
            step: 1,
            order: page,
        },
        kind: Kind::Table1,
        global: false,
    }
}

fn sought(page: u64) -> Sought {
    Sought {
        key: key(),
        at: page << 12,
        stage: Stage::S1,
    }
}

/// The order of the one row of a kind that matches a page.
fn order_at(caches: &Caches, kind: Kind, page: u64) -> Option<u32> {
    match caches.find(kind, &sought(page)) {
        Found::One { only } => Some(only.made.order),
        _ => None,
    }
}

/// The table's row of a page serves, where there is one. Says how many items its trail has.
fn serve(caches: &mut Caches, page: u64) -> Option<usize> {
    let seen = caches.deepest(Kind::Table1, &sought(page))?;
    let items = caches.trail(Kind::Table1, seen.slot).len();
    caches.touch_all(&[Service {
        kind: Kind::Table1,
        seen,
    }]);
    Some(items)
}

/// Eight pages come, the first serves, and a ninth comes. Says whether a row left then, and which of the first two pages are there.
fn nine_pages(
    alloc: Global,
    size: Size,
    policy: Policy,
) -> Result<(bool, Option<u32>, Option<u32>), NoMemory> {
    let mut caches = Caches::opened(alloc, 0, size, policy)?;
    for page in 0..8 {
        caches.add(&row(page));
    }
    serve(&mut caches, 0);
    let lost = caches.add(&row(8));
    let first = order_at(&caches, Kind::Table1, 0);
    let second = order_at(&caches, Kind::Table1, 1);
    Ok((lost, first, second))
}

/// A full set of eight loses the first page under fifo, the second under lru, and by the first number drawn the eighth. Four sets
/// of four have room for nine pages.
#[test]
fn rows_leave_by_size_and_policy(rt: HostRuntime) -> Result<(), NoMemory> {
    let alloc = rt.alloc();
    assert!(rt; nine_pages(alloc, Size::NoRows, Policy::Lru)? == (false, None, None));
    assert!(rt; nine_pages(alloc, Size::Small, Policy::Lru)? == (true, Some(0), None));
    assert!(rt; nine_pages(alloc, Size::Small, Policy::Fifo)? == (true, None, Some(1)));
    assert!(rt;
        nine_pages(alloc, Size::Small, Policy::Random { start: 0 })? == (true, Some(0), Some(1))
    );
    assert!(rt; nine_pages(alloc, Size::Medium, Policy::Fifo)? == (false, Some(0), Some(1)));
    assert!(rt; nine_pages(alloc, Size::Large, Policy::Lru)? == (false, Some(0), Some(1)));
    Ok(())
}

#[test]
fn rows_are_of_their_kind_and_go(rt: HostRuntime) -> Result<(), NoMemory> {
    let mut caches = Caches::opened(rt.alloc(), 1, Size::Large, Policy::Lru)?;
    assert!(rt; !caches.add(&row(3)) && serve(&mut caches, 3) == Some(0));
    assert!(rt;
        order_at(&caches, Kind::Table1, 3) == Some(3)
            && order_at(&caches, Kind::Leaf1, 3) == None
            && order_at(&caches, Kind::Table2, 3) == None
    );
    caches.kill(&decode(Op::Vmalle1, false, true, 0, &Regs::zero(), 0, 0));
    assert!(rt; order_at(&caches, Kind::Table1, 3) == None && serve(&mut caches, 3) == None);
    Ok(())
}
