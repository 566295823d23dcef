ghost use Rattle.std.specs.Prelude.{◌≡◌};

use fault_codes::Stage;
use std::alloc::AllocError;
use sysregs::fields::config;
use sysregs::{Op, Regs};
use tagged_tlb::{Chooser, Found, Key, Kind, LentRow, Made, Sought, Tlb};
use tlbi_ops::{Tag, decode};
use trace_lang::Policy;
use walk_spec::Region;

/// Under registers that are all 0.
fn key() -> Key {
    Key {
        config: config(&Regs::zero()),
        vmid: 0,
        asid: 0,
    }
}

/// A stage 1 table's row for the page of a number.
fn row(page: u64, order: u32) -> LentRow<'static>
    ensures { result.region.class ≡ 12 }
{
    LentRow {
        trail: &[],
        tag: Tag {
            start: page << 12,
            class: 12,
            granule: 12,
            asid: 0,
            vmid: 0,
            stage: Stage::S1,
            table: true,
            global: false,
        },
        key: key(),
        region: Region {
            start: page,
            class: 12,
        },
        made: Made { step: 1, order },
        kind: Kind::Table1,
        global: false,
    }
}

fn sought(at: u64) -> Sought {
    Sought {
        key: key(),
        at,
        stage: Stage::S1,
    }
}

/// The order of the one row that matches an address.
fn order_at(tlb: &Tlb<2, 2>, at: u64) -> Option<u32> {
    match tlb.find(&sought(at)) {
        Found::One { only } => Some(only.made.order),
        _ => None,
    }
}

/// The row of the smallest region that matches an address serves. Says how many items its trail has.
fn serve(tlb: &mut Tlb<2, 2>, at: u64) -> Option<usize> {
    let seen = tlb.deepest(&sought(at))?;
    let items = tlb.trail(seen.slot).len();
    tlb.touch(seen.slot);
    Some(items)
}

#[test]
fn rows_come_serve_and_go(rt: HostRuntime) -> Result<(), AllocError> {
    let mut tlb = Tlb::<2, 2>::opened(rt.alloc())?;
    let mut by = Chooser::opened(Policy::Lru, 0);
    assert!(rt;
        !tlb.add(&row(0, 0), &mut by)
            && !tlb.add(&row(2, 1), &mut by)
            && !tlb.add(&row(2, 2), &mut by)
    );
    assert!(rt;
        order_at(&tlb, 0xfff) == Some(0)
            && order_at(&tlb, 0x2000) == Some(1)
            && order_at(&tlb, 0x1000) == None
    );
    assert!(rt; serve(&mut tlb, 0) == Some(0) && serve(&mut tlb, 0x1000) == None);
    assert!(rt; tlb.add(&row(4, 3), &mut by));
    assert!(rt;
        order_at(&tlb, 0) == Some(0)
            && order_at(&tlb, 0x2000) == None
            && order_at(&tlb, 0x4000) == Some(3)
    );
    tlb.kill(&decode(Op::Vmalle1, false, true, 0, &Regs::zero(), 0, 0));
    assert!(rt; order_at(&tlb, 0) == None && order_at(&tlb, 0x4000) == None);
    Ok(())
}
