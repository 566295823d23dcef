use fault_codes::Stage;
use sysregs::{Op, Regs};
use tlbi_ops::{Inval, Tag, covers, decode, laws};

/// What an operation gives where all registers but `HCR_EL2` and `TCR_EL1` are 0.
fn given(op: Op, at_el1: bool, operand: u64, hcr_el2: u64, tcr_el1: u64) -> Inval {
    let mut regs = Regs::zero();
    regs.hcr_el2 = hcr_el2;
    regs.tcr_el1 = tcr_el1;
    decode(op, false, at_el1, operand, &regs, 0, 0)
}

/// An operation at EL1, its operand, where its addresses start, how many bytes they have, and its granule.
const ADDRESSES: [(Op, u64, u64, u64, Option<u32>); 18] = [
    (Op::Rvaae1, 0x5180_0000_0100, 0x10_0000, 0x10_0000, Some(12)),
    (
        Op::Rvae1,
        0x401f_ffff_ffff,
        0xff_ffff_ffff_f000,
        0x1000,
        Some(12),
    ),
    (Op::Rvae1, 0x100, 0, 0, None),
    (Op::Rvale1, 0x8000_0000_0001, 0x4000, 0x8000, Some(14)),
    (
        Op::Rvaale1,
        0xff80_0000_0002,
        0x2_0000,
        0x20_0000_0000,
        Some(16),
    ),
    (
        Op::Ripas2e1,
        0xc00f_ffff_ffff,
        0xf_ffff_ffff_0000,
        0x1_0000,
        Some(16),
    ),
    (
        Op::Ripas2e1,
        0xc01f_ffff_ffff,
        0x1f_ffff_ffff_0000,
        0,
        Some(16),
    ),
    (
        Op::Ripas2le1,
        0x4010_0000_0000,
        0x1_0000_0000_0000,
        0x2000,
        Some(12),
    ),
    (
        Op::Vae1,
        0x1_0fff_ffff_ffff,
        0xff_ffff_ffff_f000,
        0x1000,
        None,
    ),
    (Op::Vale1, 0x4_0201, 0x4020_1000, 0x1000, None),
    (Op::Vaae1, 0x4_0201, 0x4020_1000, 0x1000, None),
    (Op::Vaale1, 0x4_0201, 0x4020_1000, 0x1000, None),
    (
        Op::Ipas2e1,
        0xff_ffff_ffff,
        0xf_ffff_ffff_f000,
        0x1000,
        None,
    ),
    (Op::Ipas2le1, 0x100_0000_0001, 0x1000, 0x1000, None),
    (Op::Vmalle1, 7, 0, 0x100_0000_0000_0000, None),
    (Op::Aside1, 7, 0, 0x100_0000_0000_0000, None),
    (Op::Vmalls12e1, 7, 0, 0x100_0000_0000_0000, None),
    (Op::Alle1, 7, 0, 0x100_0000_0000_0000, None),
];

#[test]
fn names_addresses(rt: HostRuntime) {
    for &(op, operand, start, count, granule) in ADDRESSES.as_slice() {
        let inval = given(op, true, operand, 0, 0);
        assert!(rt; (inval.start, inval.count, inval.granule) == (start, count, granule));
        assert!(rt; inval.op == op && !inval.broadcast);
    }
}

/// An operation, whether it is issued at EL1, its registers, and its ASID and whether it is broadcast, for one operand.
const ASIDS: [(Op, bool, u64, u64, u16, bool); 12] = [
    (Op::Vae1, true, 0x200, 0, 0x01, true),
    (Op::Vae1, false, 0x200, 0, 0x01, false),
    (Op::Vale1, true, 0, 0x10_0000_0000, 0x701, false),
    (Op::Rvae1, true, 0x200, 0x10_0000_0000, 0x701, true),
    (Op::Rvale1, true, 0x200, 0, 0x01, true),
    (Op::Aside1, true, 0x200, 0x10_0000_0000, 0x701, true),
    (Op::Vaae1, true, 0x200, 0x10_0000_0000, 0, true),
    (Op::Vmalle1, true, 0x200, 0, 0, true),
    (Op::Ipas2e1, true, 0x200, 0, 0, false),
    (Op::Vmalls12e1, true, 0x200, 0, 0, false),
    (Op::Alle1, true, 0x200, 0, 0, false),
    (Op::Ripas2le1, true, 0x200, 0, 0, false),
];

#[test]
fn names_asids_and_cores(rt: HostRuntime) {
    for &(op, at_el1, hcr_el2, tcr_el1, asid, broadcast) in ASIDS.as_slice() {
        let inval = given(op, at_el1, 0x701_0000_0004_0201, hcr_el2, tcr_el1);
        assert!(rt; (inval.asid, inval.broadcast) == (asid, broadcast));
    }
    let mut regs = Regs::zero();
    regs.vttbr_el2 = 0x1234_0000_0000_0000;
    let narrow = decode(Op::Alle1, true, false, 0, &regs, 3, 9);
    regs.vtcr_el2 = 1 << 19;
    let wide = decode(Op::Alle1, false, false, 0, &regs, 3, 9);
    assert!(rt; (narrow.vmid, narrow.broadcast) == (0x34, true));
    assert!(rt; (wide.vmid, wide.broadcast) == (0x1234, false));
    assert!(rt; (wide.issuer, wide.issued) == (3, 9));
}

/// Of VMID 2 and ASID 1, two pages from 0x4000 on; as a range, of 4 KB granules.
fn two_pages(op: Op) -> Inval {
    Inval {
        start: 0x4000,
        count: 0x2000,
        granule: Some(12),
        issued: 0,
        asid: 1,
        vmid: 2,
        op,
        issuer: 0,
        broadcast: true,
    }
}

/// The page at 0x4000, of VMID 2 and ASID 1.
const PAGE: Tag = Tag {
    start: 0x4000,
    class: 12,
    granule: 12,
    asid: 1,
    vmid: 2,
    stage: Stage::S1,
    table: false,
    global: false,
};

/// The same of stage 2.
const PAGE2: Tag = Tag {
    asid: 0,
    stage: Stage::S2,
    ..PAGE
};

/// All operations.
const ALL: [Op; 16] = [
    Op::Vmalle1,
    Op::Vae1,
    Op::Vaae1,
    Op::Vale1,
    Op::Vaale1,
    Op::Aside1,
    Op::Ipas2e1,
    Op::Ipas2le1,
    Op::Vmalls12e1,
    Op::Alle1,
    Op::Rvae1,
    Op::Rvaae1,
    Op::Rvale1,
    Op::Rvaale1,
    Op::Ripas2e1,
    Op::Ripas2le1,
];

/// An x for each operation that takes the row, in their order above.
fn takers(tag: &Tag) -> [u8; 16] {
    let mut taken = [b'-'; 16];
    for place in 0..16usize {
        if covers(&two_pages(ALL[place]), tag) {
            taken[place] = b'x';
        }
    }
    taken
}

/// Rows of stage 1, and what takes them.
const ROWS1: [(Tag, &[u8; 16]); 11] = [
    (PAGE, b"xxxxxx--xxxxxx--"),
    (
        Tag {
            start: 0x5000,
            ..PAGE
        },
        b"xxxxxx--xxxxxx--",
    ),
    (
        Tag {
            start: 0x3000,
            ..PAGE
        },
        b"x----x--xx------",
    ),
    (
        Tag {
            start: 0x6000,
            ..PAGE
        },
        b"x----x--xx------",
    ),
    (
        Tag {
            table: true,
            ..PAGE
        },
        b"xxx--x--xxxx----",
    ),
    (
        Tag {
            global: true,
            asid: 9,
            ..PAGE
        },
        b"xxxxx---xxxxxx--",
    ),
    (Tag { asid: 9, ..PAGE }, b"x-x-x---xx-x-x--"),
    (Tag { vmid: 3, ..PAGE }, b"---------x------"),
    (
        Tag {
            class: 14,
            granule: 14,
            ..PAGE
        },
        b"xxxxxx--xx------",
    ),
    (
        Tag {
            start: 0,
            class: 21,
            ..PAGE
        },
        b"xxxxxx--xxxxxx--",
    ),
    (
        Tag {
            start: 0,
            class: 64,
            ..PAGE
        },
        b"xxxxxx--xxxxxx--",
    ),
];

#[test]
fn takes_rows_of_stage_1(rt: HostRuntime) {
    for &(tag, want) in ROWS1.as_slice() {
        assert!(rt; takers(&tag) == *want);
    }
}

/// Rows of stage 2, and what takes them.
const ROWS2: [(Tag, &[u8; 16]); 4] = [
    (PAGE2, b"------xxxx----xx"),
    (
        Tag {
            table: true,
            ..PAGE2
        },
        b"------x-xx----x-",
    ),
    (
        Tag {
            start: 0x6000,
            ..PAGE2
        },
        b"--------xx------",
    ),
    (
        Tag {
            start: 0,
            class: 30,
            ..PAGE2
        },
        b"------xxxx----xx",
    ),
];

#[test]
fn takes_rows_of_stage_2(rt: HostRuntime) {
    for &(tag, want) in ROWS2.as_slice() {
        assert!(rt; takers(&tag) == *want);
    }
    let range = two_pages(Op::Rvaae1);
    assert!(rt;
        !covers(
            &Inval {
                granule: None,
                ..range
            },
            &PAGE
        )
    );
    assert!(rt;
        !covers(
            &Inval { count: 0, ..range },
            &Tag {
                class: 30,
                start: 0,
                ..PAGE
            }
        )
    );
}

#[test]
fn laws_ask_for_nothing(_rt: HostRuntime) {
    laws::operands_end();
    laws::operations_widen();
}
