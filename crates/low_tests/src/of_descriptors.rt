ghost use Rattle.std.specs.Prelude.{◌≡◌};
ghost use Rattle.sysregs.specs.Registers.{granule_of};
ghost use Rattle.sysregs.specs.Sides.{tg_of};

use descriptors::{Kind1, Kind2, decode1, decode2};
use geometry::case_table;
use sysregs::fields::config;
use sysregs::{Config, Regs, Side, Tg};

fn at1<const G: u32>(left: u32, w: u64, config: &Config, side: Side) -> Kind1
    requires { G ≡ granule_of (tg_of config.now side) }
{
    case_table!(level left; decode1::<G>(w, config, side))
}

fn at2<const G: u32>(left: u32, w: u64, config: &Config) -> Kind2
    requires { G ≡ granule_of config.now.tg2 }
{
    case_table!(level left; decode2::<G>(w, config))
}

fn meaning1(left: u32, w: u64, config: &Config, side: Side) -> Kind1 {
    let tg = config.tg(side);
    case_table!(granule tg; at1(left, w, config, side))
}

fn meaning2(left: u32, w: u64, config: &Config) -> Kind2 {
    let tg = config.tg2;
    case_table!(granule tg; at2(left, w, config))
}

/// T for a table and L for a leaf, with its address.
fn shape1(kind: Kind1) -> (u8, u64) {
    match kind {
        Kind1::Invalid => (b'-', 0),
        Kind1::Table { next, .. } => (b'T', next),
        Kind1::Leaf { out, .. } => (b'L', out),
    }
}

fn shape2(kind: Kind2) -> (u8, u64) {
    match kind {
        Kind2::Invalid => (b'-', 0),
        Kind2::Table { next } => (b'T', next),
        Kind2::Leaf { out, .. } => (b'L', out),
    }
}

/// Both stages with the same granule.
fn with_granule(code: u64) -> Config {
    config(&Regs {
        tcr_el1: (code % 4) << 14,
        vtcr_el2: (code % 4) << 14,
        ..Regs::zero()
    })
}

/// The codes of TG0.
const K4: u64 = 0;

const K64: u64 = 1;

const K16: u64 = 2;

/// The code of TG0, the levels left, a word, and its meaning at both stages.
const SHAPES: [(u64, u32, u64, (u8, u64)); 21] = [
    (K4, 0, 0, (b'-', 0)),
    (K4, 0, 0x5002, (b'-', 0)),
    (K4, 0, 0x5001, (b'-', 0)),
    (K4, 0, 0xffff_ffff_ffff_f003, (b'L', 0xffff_ffff_f000)),
    (K4, 1, 0xffff_ffff_ffff_ffff, (b'T', 0xffff_ffff_f000)),
    (K4, 1, 0x3f_f001, (b'L', 0x20_0000)),
    (K4, 2, 0x7fe0_0001, (b'L', 0x4000_0000)),
    (K4, 3, 0x80_0000_0001, (b'-', 0)),
    (K4, 3, 0x5003, (b'T', 0x5000)),
    (K16, 0, 0x1_0001, (b'-', 0)),
    (K16, 0, 0x1_3003, (b'L', 0x1_0000)),
    (K16, 1, 0x3ff_c001, (b'L', 0x200_0000)),
    (K16, 1, 0xb003, (b'T', 0x8000)),
    (K16, 2, 0x10_0000_0001, (b'-', 0)),
    (K16, 3, 0x8001, (b'-', 0)),
    (K64, 0, 0x5_0001, (b'-', 0)),
    (K64, 0, 0x5_f003, (b'L', 0xf_0000_0005_0000)),
    (K64, 1, 0x3fff_a001, (b'L', 0xa_0000_2000_0000)),
    (K64, 1, 0x3_1003, (b'T', 0x1_0000_0003_0000)),
    (K64, 2, 0x400_0000_0001, (b'L', 0x400_0000_0000)),
    (K64, 3, 0x400_0000_0001, (b'-', 0)),
];

#[test]
fn shapes_and_addresses(rt: HostRuntime) {
    for &(code, left, w, want) in SHAPES.as_slice() {
        let fields = with_granule(code);
        let found = (
            shape1(meaning1(left, w, &fields, Side::Low)),
            shape2(meaning2(left, w, &fields)),
        );
        assert!(rt; found == (want, want));
    }
}

/// AttrIndx, SH, AF, not nG and Contiguous of a leaf, and then AP[1], AP[2], DBM, PXN and UXN.
fn leaf1(kind: Kind1) -> [u32; 10] {
    match kind {
        Kind1::Leaf {
            attr_index,
            bits,
            sh,
            af,
            global,
            contiguous,
            ..
        } => [
            attr_index,
            sh,
            u32::from(af),
            u32::from(global),
            u32::from(contiguous),
            u32::from(bits.el0),
            u32::from(bits.read_only),
            u32::from(bits.dbm),
            u32::from(bits.pxn),
            u32::from(bits.uxn),
        ],
        _ => [9; 10],
    }
}

/// APTable[0], APTable[1], PXNTable and UXNTable.
fn table1(kind: Kind1) -> [u32; 4] {
    match kind {
        Kind1::Table { bits, .. } => [
            u32::from(bits.no_el0),
            u32::from(bits.read_only),
            u32::from(bits.pxn),
            u32::from(bits.uxn),
        ],
        _ => [9; 4],
    }
}

/// A word, and the fields of the leaf.
const LEAVES1: [(u64, [u32; 10]); 11] = [
    (0x501f, [7, 0, 0, 1, 0, 0, 0, 0, 0, 0]),
    (0x5303, [0, 3, 0, 1, 0, 0, 0, 0, 0, 0]),
    (0x5403, [0, 0, 1, 1, 0, 0, 0, 0, 0, 0]),
    (0x5803, [0, 0, 0, 0, 0, 0, 0, 0, 0, 0]),
    (0x10_0000_0000_5003, [0, 0, 0, 1, 1, 0, 0, 0, 0, 0]),
    (0x5043, [0, 0, 0, 1, 0, 1, 0, 0, 0, 0]),
    (0x5083, [0, 0, 0, 1, 0, 0, 1, 0, 0, 0]),
    (0x8_0000_0000_5003, [0, 0, 0, 1, 0, 0, 0, 1, 0, 0]),
    (0x20_0000_0000_5003, [0, 0, 0, 1, 0, 0, 0, 0, 1, 0]),
    (0x40_0000_0000_5003, [0, 0, 0, 1, 0, 0, 0, 0, 0, 1]),
    (0xff87_0000_0000_5023, [0, 0, 0, 1, 0, 0, 0, 0, 0, 0]),
];

#[test]
fn leaves_of_stage_1(rt: HostRuntime) {
    let fields = config(&Regs::zero());
    for &(w, want) in LEAVES1.as_slice() {
        assert!(rt; leaf1(meaning1(0, w, &fields, Side::High)) == want);
    }
}

/// `TCR_EL1`, a word, and the bits of the table on the low and the high side.
const TABLES: [(u64, u64, [u32; 4], [u32; 4]); 7] = [
    (0, 0x800_0000_0000_5003, [0, 0, 1, 0], [0, 0, 1, 0]),
    (0, 0x1000_0000_0000_5003, [0, 0, 0, 1], [0, 0, 0, 1]),
    (0, 0x2000_0000_0000_5003, [1, 0, 0, 0], [1, 0, 0, 0]),
    (0, 0x4000_0000_0000_5003, [0, 1, 0, 0], [0, 1, 0, 0]),
    (0, 0x87ff_0000_0000_5fff, [0; 4], [0; 4]),
    (0x200_0000_0000, 0x7800_0000_0000_5003, [0; 4], [1; 4]),
    (0x400_0000_0000, 0x7800_0000_0000_5003, [1; 4], [0; 4]),
];

#[test]
fn tables_of_stage_1(rt: HostRuntime) {
    for &(tcr_el1, w, low, high) in TABLES.as_slice() {
        let fields = config(&Regs {
            tcr_el1,
            ..Regs::zero()
        });
        let found = (
            table1(meaning1(1, w, &fields, Side::Low)),
            table1(meaning1(1, w, &fields, Side::High)),
        );
        assert!(rt; found == (low, high));
    }
}

/// MemAttr, XN, SH, S2AP's read and write, AF, DBM and Contiguous.
fn leaf2(kind: Kind2) -> [u32; 8] {
    match kind {
        Kind2::Leaf {
            mem_attr,
            read,
            write,
            xn,
            sh,
            af,
            dbm,
            contiguous,
            ..
        } => [
            mem_attr,
            xn,
            sh,
            u32::from(read),
            u32::from(write),
            u32::from(af),
            u32::from(dbm),
            u32::from(contiguous),
        ],
        _ => [99; 8],
    }
}

/// A word, and the fields of the leaf.
const LEAVES2: [(u64, [u32; 8]); 10] = [
    (0x503f, [15, 0, 0, 0, 0, 0, 0, 0]),
    (0x20_0000_0000_5003, [0, 1, 0, 0, 0, 0, 0, 0]),
    (0x40_0000_0000_5003, [0, 2, 0, 0, 0, 0, 0, 0]),
    (0x5303, [0, 0, 3, 0, 0, 0, 0, 0]),
    (0x5043, [0, 0, 0, 1, 0, 0, 0, 0]),
    (0x5083, [0, 0, 0, 0, 1, 0, 0, 0]),
    (0x5403, [0, 0, 0, 0, 0, 1, 0, 0]),
    (0x8_0000_0000_5003, [0, 0, 0, 0, 0, 0, 1, 0]),
    (0x10_0000_0000_5003, [0, 0, 0, 0, 0, 0, 0, 1]),
    (0xff87_0000_0000_5803, [0; 8]),
];

#[test]
fn leaves_of_stage_2(rt: HostRuntime) {
    let fields = config(&Regs::zero());
    for &(w, want) in LEAVES2.as_slice() {
        assert!(rt; leaf2(meaning2(0, w, &fields)) == want);
    }
}
