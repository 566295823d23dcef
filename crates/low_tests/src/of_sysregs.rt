use sysregs::fields::{asid, base1, base2, check_msr, check_reg, config, output_size, vmid};
use sysregs::{Config, Field, Reg, Regs, Side, Tg, Unsupported, same_config, side};

/// The registers that are 0 but for one.
fn only(reg: Reg, value: u64) -> Regs {
    let mut regs = Regs::zero();
    regs.set(reg, value);
    regs
}

fn numbers(fields: &Config) -> [u32; 9] {
    [
        fields.t0sz,
        fields.t1sz,
        fields.sh0,
        fields.sh1,
        fields.ips,
        fields.t2sz,
        fields.sl0,
        fields.sl2,
        fields.ps,
    ]
}

/// The fields of `SCTLR_EL1`, `HCR_EL2` and `VTCR_EL2`, and of `TCR_EL1` those of no side.
fn switches(fields: &Config) -> [bool; 10] {
    [
        fields.m,
        fields.i,
        fields.wxn,
        fields.epan,
        fields.vm,
        fields.ptw,
        fields.ha2,
        fields.hd2,
        fields.ha1,
        fields.hd1,
    ]
}

/// The fields of `TCR_EL1` that a side has of its own.
fn of_side(fields: &Config, side: Side) -> [bool; 5] {
    [
        fields.epd(side),
        fields.tbi(side),
        fields.hpd(side),
        fields.tbid(side),
        fields.e0pd(side),
    ]
}

/// The value of one register, and the numbers that it gives.
const NUMBERS: [(Reg, u64, [u32; 9]); 11] = [
    (Reg::TcrEl1, 0x3f, [63, 0, 0, 0, 0, 0, 0, 0, 0]),
    (Reg::TcrEl1, 0x3f_0000, [0, 63, 0, 0, 0, 0, 0, 0, 0]),
    (Reg::TcrEl1, 0x3000, [0, 0, 3, 0, 0, 0, 0, 0, 0]),
    (Reg::TcrEl1, 0x3000_0000, [0, 0, 0, 3, 0, 0, 0, 0, 0]),
    (Reg::TcrEl1, 0x7_0000_0000, [0, 0, 0, 0, 7, 0, 0, 0, 0]),
    (Reg::TcrEl1, 0xffff_fff8_cfc0_cfc0, [0; 9]),
    (Reg::VtcrEl2, 0x3f, [0, 0, 0, 0, 0, 63, 0, 0, 0]),
    (Reg::VtcrEl2, 0xc0, [0, 0, 0, 0, 0, 0, 3, 0, 0]),
    (Reg::VtcrEl2, 0x2_0000_0000, [0, 0, 0, 0, 0, 0, 0, 1, 0]),
    (Reg::VtcrEl2, 0x7_0000, [0, 0, 0, 0, 0, 0, 0, 0, 7]),
    (Reg::VtcrEl2, 0xffff_fffd_fff8_ff00, [0; 9]),
];

/// The code of a granule, and what it means for the low and the high side.
const GRANULES: [(u64, Tg, Tg); 4] = [
    (0, Tg::K4, Tg::K4),
    (1, Tg::K64, Tg::K16),
    (2, Tg::K16, Tg::K4),
    (3, Tg::K4, Tg::K64),
];

#[test]
fn numbers_of_registers(rt: HostRuntime) {
    for &(reg, value, want) in NUMBERS.as_slice() {
        assert!(rt; numbers(&config(&only(reg, value))) == want);
    }
    for &(code, low, high) in GRANULES.as_slice() {
        let both = config(&only(Reg::TcrEl1, code << 14 | code << 30));
        let second = config(&only(Reg::VtcrEl2, code << 14));
        assert!(rt; (both.tg(Side::Low), both.tg(Side::High), second.tg2) == (low, high, low));
    }
}

/// A switch, its register and its bit.
const SWITCHES: [(usize, Reg, u32); 10] = [
    (0, Reg::SctlrEl1, 0),
    (1, Reg::SctlrEl1, 12),
    (2, Reg::SctlrEl1, 19),
    (3, Reg::SctlrEl1, 57),
    (4, Reg::HcrEl2, 0),
    (5, Reg::HcrEl2, 2),
    (6, Reg::VtcrEl2, 21),
    (7, Reg::VtcrEl2, 22),
    (8, Reg::TcrEl1, 39),
    (9, Reg::TcrEl1, 40),
];

/// A field of `TCR_EL1` that each side has, and its bit for the low and the high side.
const SIDES: [(usize, u64, u64); 5] = [
    (0, 0x80, 0x80_0000),
    (1, 0x20_0000_0000, 0x40_0000_0000),
    (2, 0x200_0000_0000, 0x400_0000_0000),
    (3, 0x8_0000_0000_0000, 0x10_0000_0000_0000),
    (4, 0x80_0000_0000_0000, 0x100_0000_0000_0000),
];

#[test]
fn switches_of_registers(rt: HostRuntime) {
    for &(place, reg, bit) in SWITCHES.as_slice() {
        let fields = config(&only(reg, 1 << bit));
        for (other, on) in switches(&fields).iter().enumerate() {
            assert!(rt; *on == (other == place));
        }
    }
    for &(place, low, high) in SIDES.as_slice() {
        for (w, on, off) in [(low, Side::Low, Side::High), (high, Side::High, Side::Low)] {
            let fields = config(&only(Reg::TcrEl1, w));
            for (other, found) in of_side(&fields, on).iter().enumerate() {
                assert!(rt; *found == (other == place));
            }
            assert!(rt; of_side(&fields, off) == [false; 5]);
        }
    }
    let fields = config(&only(Reg::TcrEl1, 0x1a_0019));
    assert!(rt; (fields.txsz(Side::Low), fields.txsz(Side::High)) == (25, 26));
}

/// The code of a size, and the bits that it means with 4 or 16 KB and with 64 KB.
const OUTPUTS: [(u32, u32, u32); 8] = [
    (0, 32, 32),
    (1, 36, 36),
    (2, 40, 40),
    (3, 42, 42),
    (4, 44, 44),
    (5, 48, 48),
    (6, 48, 52),
    (7, 48, 52),
];

#[test]
fn identifiers_and_sizes(rt: HostRuntime) {
    let mut regs = Regs::zero();
    regs.set(Reg::Ttbr0El1, 0x1234_0000_4000_0001);
    regs.set(Reg::Ttbr1El1, 0x5678_0000_5000_0001);
    regs.set(Reg::VttbrEl2, 0xabcd_0000_6000_0001);
    for (tcr, vtcr, want) in [
        (0, 0, (0x34, 0xcd)),
        (0x10_0000_0000, 0, (0x1234, 0xcd)),
        (0x40_0000, 0x8_0000, (0x78, 0xabcd)),
        (0x10_0040_0000, 0x8_0000, (0x5678, 0xabcd)),
    ] {
        regs.set(Reg::TcrEl1, tcr);
        regs.set(Reg::VtcrEl2, vtcr);
        assert!(rt; (asid(&regs), vmid(&regs)) == want);
    }
    for &(code, four, sixty_four) in OUTPUTS.as_slice() {
        let found = (
            output_size(Tg::K4, code),
            output_size(Tg::K16, code),
            output_size(Tg::K64, code),
        );
        assert!(rt; found == (four, four, sixty_four));
    }
    assert!(rt; matches!(side(0xff7f_ffff_ffff_ffff), Side::Low));
    assert!(rt; matches!(side(0x80_0000_0000_0000), Side::High));
}

#[test]
fn bases_of_start_tables(rt: HostRuntime) {
    for (size, tg0, tg1, w, want) in [
        (6, 0x4000, 0xc000_0000, 0x1_0004, 0x1_0000_0001_0000),
        (5, 0x4000, 0xc000_0000, 0x1_0004, 0x1_0004),
        (6, 0, 0x8000_0000, 0x1_0004, 0x1_0004),
        (6, 0x8000, 0x4000_0000, 0x1_0004, 0x1_0004),
        (5, 0, 0x8000_0000, u64::MAX, 0xffff_ffff_fffe),
        (7, 0x4000, 0xc000_0000, u64::MAX, 0xf_ffff_ffff_ffc0),
    ] {
        let regs = Regs {
            tcr_el1: size << 32 | tg0,
            ttbr0_el1: w,
            vtcr_el2: size << 16 | tg0,
            vttbr_el2: w,
            ..Regs::zero()
        };
        assert!(rt; (base1(&regs, Side::Low), base2(&regs)) == (want, want));
        assert!(rt; base1(&regs, Side::High) == 0);
        let high = Regs {
            tcr_el1: size << 32 | tg1,
            ttbr1_el1: w,
            ..Regs::zero()
        };
        assert!(rt; base1(&high, Side::High) == want);
    }
}

/// A register, and its bit that is refused.
const REFUSED: [(Reg, u32, Field); 8] = [
    (Reg::SctlrEl1, 25, Field::Ee),
    (Reg::TcrEl1, 59, Field::Ds),
    (Reg::HcrEl2, 12, Field::Dc),
    (Reg::HcrEl2, 27, Field::Tge),
    (Reg::HcrEl2, 32, Field::Cd),
    (Reg::HcrEl2, 33, Field::Id),
    (Reg::HcrEl2, 46, Field::Fwb),
    (Reg::VtcrEl2, 32, Field::Ds),
];

/// A register with all bits that are not refused.
const ACCEPTED: [(Reg, u64); 8] = [
    (Reg::SctlrEl1, 0xffff_ffff_fdff_ffff),
    (Reg::TcrEl1, 0xf7ff_ffff_ffff_ffff),
    (Reg::Ttbr0El1, u64::MAX),
    (Reg::Ttbr1El1, u64::MAX),
    (Reg::MairEl1, u64::MAX),
    (Reg::HcrEl2, 0xffff_bffc_f7ff_efff),
    (Reg::VtcrEl2, 0xffff_fffe_ffff_ffff),
    (Reg::VttbrEl2, u64::MAX),
];

/// What a trace's register write is refused for besides.
const REFUSED_WRITES: [(Reg, u32, Field); 4] = [
    (Reg::TcrEl1, 39, Field::Ha),
    (Reg::TcrEl1, 40, Field::Hd),
    (Reg::VtcrEl2, 21, Field::Ha),
    (Reg::VtcrEl2, 22, Field::Hd),
];

#[test]
fn refused_writes(rt: HostRuntime) {
    for &(reg, bit, field) in REFUSED_WRITES.as_slice() {
        let refused = Err(Unsupported { reg, field });
        let found = (check_msr(reg, 1 << bit), check_msr(reg, u64::MAX << bit));
        assert!(rt; found == (refused, refused));
    }
    for &(reg, bit, field) in REFUSED.as_slice() {
        assert!(rt; check_msr(reg, 1 << bit) == Err(Unsupported { reg, field }));
    }
    assert!(rt; check_msr(Reg::MairEl1, u64::MAX) == Ok(()));
}

#[test]
fn refused_fields_and_equality(rt: HostRuntime) {
    for &(reg, bit, field) in REFUSED.as_slice() {
        let refused = Err(Unsupported { reg, field });
        let found = (check_reg(reg, 1 << bit), check_reg(reg, u64::MAX << bit));
        assert!(rt; found == (refused, refused));
    }
    for &(reg, value) in ACCEPTED.as_slice() {
        assert!(rt; check_reg(reg, value) == Ok(()));
    }
    let fields = config(&Regs::zero());
    for (reg, value, same) in [
        (Reg::Ttbr0El1, u64::MAX, true),
        (Reg::MairEl1, 1, false),
        (Reg::VtcrEl2, 0x40_0000, false),
    ] {
        assert!(rt; same_config(&fields, &config(&only(reg, value))) == same);
    }
}

#[test]
fn names(rt: HostRuntime) {
    for (reg, name, key) in [
        (Reg::SctlrEl1, "SCTLR_EL1", "sctlr_el1"),
        (Reg::Ttbr1El1, "TTBR1_EL1", "ttbr1_el1"),
        (Reg::VttbrEl2, "VTTBR_EL2", "vttbr_el2"),
    ] {
        assert!(rt; (reg.name(), reg.key()) == (name, key));
    }
    assert!(rt; (Field::Fwb.name(), Field::Hd.name()) == ("FWB", "HD"));
}
