use attributes::Share::{Ish, Nsh, Osh};
use attributes::types::{alone, combine, mair, mmu_off, s2_attr, share};
use attributes::{Cache, Device, MemType, Share, laws};

fn letter(given: bool, name: u8) -> u8 {
    if given { name } else { b'-' }
}

/// N, T or B for Non-cacheable, write-through and write-back, then t for transient, and R and W for allocation.
fn cache_text(cache: Cache) -> [u8; 4] {
    let (kind, transient, read, write) = match cache {
        Cache::Nc => (b'N', false, false, false),
        Cache::Wt {
            transient,
            read,
            write,
        } => (b'T', transient, read, write),
        Cache::Wb {
            transient,
            read,
            write,
        } => (b'B', transient, read, write),
    };
    [
        kind,
        letter(transient, b't'),
        letter(read, b'R'),
        letter(write, b'W'),
    ]
}

/// The outer and the inner cacheability, and G for tagged.
fn normal_text(outer: [u8; 4], inner: [u8; 4], tagged: bool) -> [u8; 9] {
    let [a, b, c, d] = outer;
    let [e, f, g, h] = inner;
    [a, b, c, d, e, f, g, h, letter(tagged, b'G')]
}

fn text(m: MemType) -> [u8; 9] {
    match m {
        MemType::Device {
            kind: Device::NGnRnE,
        } => *b"nGnRnE   ",
        MemType::Device {
            kind: Device::NGnRE,
        } => *b"nGnRE    ",
        MemType::Device { kind: Device::NGRE } => *b"nGRE     ",
        MemType::Device { kind: Device::GRE } => *b"GRE      ",
        MemType::Normal {
            outer,
            inner,
            tagged,
        } => normal_text(cache_text(outer), cache_text(inner), tagged),
    }
}

/// The manual's row for one half of a byte of `MAIR_EL1`, where it names a cacheability.
fn mair_row(half: u8) -> [u8; 4] {
    match half {
        0b0001 => *b"Tt-W",
        0b0010 => *b"TtR-",
        0b0011 => *b"TtRW",
        0b0100 => *b"N---",
        0b0101 => *b"Bt-W",
        0b0110 => *b"BtR-",
        0b0111 => *b"BtRW",
        0b1000 => *b"T---",
        0b1001 => *b"T--W",
        0b1010 => *b"T-R-",
        0b1011 => *b"T-RW",
        0b1100 => *b"B---",
        0b1101 => *b"B--W",
        0b1110 => *b"B-R-",
        0b1111 => *b"B-RW",
        _ => *b"none",
    }
}

/// The manual's type for a byte of `MAIR_EL1`, Device-nGnRnE for a reserved one.
fn mair_text(byte: u8) -> [u8; 9] {
    match byte {
        0x04 => *b"nGnRE    ",
        0x08 => *b"nGRE     ",
        0x0c => *b"GRE      ",
        0xf0 => *b"B-RWB-RWG",
        0x00..=0x0f => *b"nGnRnE   ",
        _ if byte % 16 == 0 => *b"nGnRnE   ",
        _ => normal_text(mair_row(byte / 16), mair_row(byte % 16), false),
    }
}

/// The manual's type for a stage 2 MemAttr[3:0], with inner Non-cacheable for a reserved inner code.
fn s2_row(code: u32) -> [u8; 9] {
    match code {
        0b0000 => *b"nGnRnE   ",
        0b0001 => *b"nGnRE    ",
        0b0010 => *b"nGRE     ",
        0b0011 => *b"GRE      ",
        0b0100 | 0b0101 => *b"N---N----",
        0b0110 => *b"N---T----",
        0b0111 => *b"N---B----",
        0b1000 | 0b1001 => *b"T---N----",
        0b1010 => *b"T---T----",
        0b1011 => *b"T---B----",
        0b1100 | 0b1101 => *b"B---N----",
        0b1110 => *b"B---T----",
        _ => *b"B---B----",
    }
}

#[test]
fn codes_of_memory_types(rt: HostRuntime) {
    for byte in 0..=255 {
        assert!(rt; text(mair(byte)) == mair_text(byte));
    }
    for code in 0..16 {
        assert!(rt; text(s2_attr(code)) == s2_row(code));
    }
    for (code, want) in [(0, Nsh), (1, Nsh), (2, Osh), (3, Ish)] {
        assert!(rt; share(code) == want);
    }
}

/// Type and shareability of stage 1 and of stage 2, and what both come to.
const COMBINED: [(u8, Share, u32, Share, [u8; 9], Share); 8] = [
    (0xff, Ish, 0b0110, Nsh, *b"N---T-RW-", Ish),
    (0xff, Nsh, 0b0001, Nsh, *b"nGnRE    ", Osh),
    (0x04, Ish, 0b0010, Nsh, *b"nGnRE    ", Osh),
    (0x0c, Ish, 0b1111, Ish, *b"GRE      ", Osh),
    (0xf0, Nsh, 0b1111, Ish, *b"B-RWB-RWG", Ish),
    (0xf0, Nsh, 0b1011, Nsh, *b"T-RWB-RW-", Nsh),
    (0x7e, Ish, 0b0101, Ish, *b"N---N----", Osh),
    (0x1b, Ish, 0b1111, Osh, *b"Tt-WT-RW-", Osh),
];

#[test]
fn both_stages_combine(rt: HostRuntime) {
    for &(byte, share1, code, share2, want, wider) in COMBINED.as_slice() {
        let (m, share) = combine(mair(byte), share1, s2_attr(code), share2);
        assert!(rt; (text(m), share) == (want, wider));
    }
}

/// Type and shareability of stage 1, and what they come to alone.
const ALONE: [(u8, Share, [u8; 9], Share); 3] = [
    (0x44, Nsh, *b"N---N----", Osh),
    (0x4f, Nsh, *b"N---B-RW-", Nsh),
    (0x08, Ish, *b"nGRE     ", Osh),
];

/// Whether it is a fetch, SCTLR_EL1.I, and the type while stage 1 is off.
const WHILE_OFF: [(bool, bool, [u8; 9]); 4] = [
    (false, false, *b"nGnRnE   "),
    (false, true, *b"nGnRnE   "),
    (true, false, *b"N---N----"),
    (true, true, *b"T-R-T-R--"),
];

#[test]
fn one_stage_alone_and_stage_1_off(rt: HostRuntime) {
    for &(byte, share1, want, raised) in ALONE.as_slice() {
        let (m, share) = alone(mair(byte), share1);
        assert!(rt; (text(m), share) == (want, raised));
    }
    for &(fetch, cached, want) in WHILE_OFF.as_slice() {
        let (m, share) = mmu_off(fetch, cached);
        assert!(rt; (text(m), share) == (want, Osh));
    }
}

#[test]
fn laws_ask_for_nothing(_rt: HostRuntime) {
    laws::weaker_cacheability();
    laws::stronger_device();
    laws::hints_of_stage_1();
    laws::tagged_write_back();
    laws::uncached_is_outer_shareable();
    laws::cached_is_wider();
    laws::write_back_leaves_stage_1();
}
