ghost use Rattle.std.specs.Prelude.{◌<◌};

use bitflags::Flags;
use permissions::{
    Bits1, El, Kind, Perms, TableBits, allows1, allows2, both, laws, perms1, perms2,
};

/// Whether bit `n` of a code is 1.
fn bit(code: u32, n: u32) -> bool
    requires { n < 32 }
{
    code >> n & 1 == 1
}

fn letter(given: bool, name: u8) -> u8 {
    if given { name } else { b'-' }
}

/// A set as a row of text: what EL0 may do, and then what EL1 may.
fn row(perms: Perms) -> [u8; 6] {
    [
        letter(perms.contains(Perms::R0), b'R'),
        letter(perms.contains(Perms::W0), b'W'),
        letter(perms.contains(Perms::X0), b'X'),
        letter(perms.contains(Perms::R1), b'R'),
        letter(perms.contains(Perms::W1), b'W'),
        letter(perms.contains(Perms::X1), b'X'),
    ]
}

/// The set that a number's low six bits name.
fn set(code: u32) -> Perms {
    Perms::from_bits_retain((code % 64) as u8)
}

/// A leaf whose bits are those of a code: AP[1], AP[2], DBM, PXN and UXN from bit 0 up.
fn leaf(code: u32) -> Bits1 {
    Bits1 {
        el0: bit(code, 0),
        read_only: bit(code, 1),
        dbm: bit(code, 2),
        pxn: bit(code, 3),
        uxn: bit(code, 4),
    }
}

/// Table bits from bit 5 up: APTable[0], APTable[1], PXNTable and UXNTable.
fn tables(code: u32) -> TableBits {
    TableBits {
        no_el0: bit(code, 5),
        read_only: bit(code, 6),
        pxn: bit(code, 7),
        uxn: bit(code, 8),
    }
}

/// What AP[2:1] and WXN permit where PXN and UXN are 0.
fn stage1_row(ap: u32, wxn: bool) -> [u8; 6] {
    match (ap, wxn) {
        (0, false) => *b"--XRWX",
        (0, true) => *b"--XRW-",
        (1, false) => *b"RWXRW-",
        (1, true) => *b"RW-RW-",
        (2, _) => *b"--XR-X",
        _ => *b"R-XR-X",
    }
}

/// A row without the rights to fetch that UXN and PXN take.
fn without_fetches(row: [u8; 6], uxn: bool, pxn: bool) -> [u8; 6] {
    let [r0, w0, x0, r1, w1, x1] = row;
    let x0 = if uxn { b'-' } else { x0 };
    let x1 = if pxn { b'-' } else { x1 };
    [r0, w0, x0, r1, w1, x1]
}

/// AP[2:1] as it stands after dirty state and APTable, from a code of `leaf` and `tables`.
fn effective_ap(code: u32, dirty: bool) -> u32 {
    let ap = if dirty && code & 0b110 == 0b110 {
        code & 0b01
    } else {
        code & 0b11
    };
    match code >> 5 & 0b11 {
        0b00 => ap,
        0b01 => ap & 0b10,
        0b10 => ap | 0b10,
        _ => 0b10,
    }
}

#[test]
fn all_bits_of_stage_1(rt: HostRuntime) {
    for code in 0..2048 {
        let (dirty, wxn) = (bit(code, 9), bit(code, 10));
        let any_uxn = code & 0b1_0001_0000 != 0;
        let any_pxn = code & 0b0_1000_1000 != 0;
        let want = without_fetches(stage1_row(effective_ap(code, dirty), wxn), any_uxn, any_pxn);
        assert!(rt; row(perms1(leaf(code), tables(code), dirty, wxn)) == want);
    }
}

/// What S2AP and XN[1:0] permit.
fn stage2_row(s2ap: u32, xn: u32) -> [u8; 6] {
    match (s2ap, xn) {
        (0b00, _) => *b"------",
        (0b10, _) => *b"-W--W-",
        (0b01, 0b00) => *b"R-XR-X",
        (0b01, 0b01) => *b"R-XR--",
        (0b01, 0b10) => *b"R--R--",
        (0b01, _) => *b"R--R-X",
        (_, 0b00) => *b"RWXRWX",
        (_, 0b01) => *b"RWXRW-",
        (_, 0b10) => *b"RW-RW-",
        _ => *b"RW-RWX",
    }
}

#[test]
fn all_bits_of_stage_2(rt: HostRuntime) {
    for code in 0..64 {
        let (dbm, dirty) = (bit(code, 4), bit(code, 5));
        let s2ap = if dbm && dirty {
            code & 0b01 | 0b10
        } else {
            code & 0b11
        };
        let xn = code >> 2 & 0b11;
        let perms = perms2(bit(code, 0), bit(code, 1), xn, dbm, dirty);
        assert!(rt; row(perms) == stage2_row(s2ap, xn));
    }
}

/// The accesses in the order of a set's bits.
const ACCESSES: [(El, Kind); 6] = [
    (El::El0, Kind::Read),
    (El::El0, Kind::Write),
    (El::El0, Kind::Fetch),
    (El::El1, Kind::Read),
    (El::El1, Kind::Write),
    (El::El1, Kind::Fetch),
];

#[test]
fn accesses_of_both_stages(rt: HostRuntime) {
    for code in 0..512 {
        let (uxn, pan, epan) = (bit(code, 6), bit(code, 7), bit(code, 8));
        let user_data = bit(code, 0) || epan && !uxn;
        for (place, (el, kind)) in ACCESSES.iter().enumerate() {
            let given = code >> place & 1 == 1;
            let is_data_of_el1 = place == 3 || place == 4;
            let found = (
                allows1(set(code), uxn, *el, *kind, pan, epan),
                allows2(set(code), *el, *kind),
            );
            let want = (given && !(is_data_of_el1 && pan && user_data), given);
            assert!(rt; found == want);
        }
        let (one, two) = (code % 64, code / 7);
        assert!(rt; both(set(one), set(two)) == set(one & two));
    }
}

#[test]
fn laws_ask_for_nothing(_rt: HostRuntime) {
    laws::tables_only_take();
    laws::fetch_bits_only_take();
    laws::fetches_come_of_writes();
    laws::no_fetch_of_writable();
    laws::no_fetch_of_user_writable();
    laws::el1_reads();
    laws::fetch_needs_read();
    laws::pan_spares_el0();
    laws::pan_spares_fetches();
    laws::epan_needs_pan();
    laws::both_is_intersection();
}
