use reg_file::{MOST_BYTES, Name, RegError, RegRefusal, read};
use std::alloc::{AllocError, Global};
use std::test::Fail;
use sysregs::{Field, Reg, Regs, Unsupported};

/// The two bases of stage 1, between line ends.
const TTBRS: &str = "\nttbr0_el1 = \"0x1000\"\nttbr1_el1 = \"0x1234000000001000\"\n";

const SCTLR_TCR: &str = "sctlr_el1 = \"0x1005\"\ntcr_el1 = \"0x35b5503510\"";

const MAIR: &str = "mair_el1 = \"0x40044ffff\"\n";

/// A text, so many times another, and a text.
fn filled(
    alloc: Global,
    front: &str,
    middle: &[u8],
    count: usize,
    back: &str,
) -> Result<Vec<u8>, AllocError> {
    let mut bytes = Vec::from_slice(alloc, front.as_bytes())?;
    for _ in 0..count {
        bytes.extend_from_slice(middle)?;
    }
    bytes.extend_from_slice(back.as_bytes())?;
    Ok(bytes)
}

/// The registers of stage 1 in the files below, and two of stage 2.
fn regs(hcr_el2: u64, vttbr_el2: u64) -> Regs {
    Regs {
        sctlr_el1: 0x1005,
        tcr_el1: 0x35_b550_3510,
        ttbr0_el1: 0x1000,
        ttbr1_el1: 0x1234_0000_0000_1000,
        mair_el1: 0x4_0044_ffff,
        hcr_el2,
        vttbr_el2,
        ..Regs::zero()
    }
}

/// What stands before the bases and behind them, and HCR_EL2 and VTTBR_EL2 of the file.
const FILES: [(&str, &str, u64, u64); 6] = [
    (SCTLR_TCR, MAIR, 0, 0),
    (
        "tcr_el1 = 0x35b5503510\r\n# the MMU is on\r\nsctlr_el1 = 4101\r",
        "mair_el1 = 0x40044ffff # eight\r\n",
        0,
        0,
    ),
    (
        SCTLR_TCR,
        "mair_el1 = \"17184391167\"\nvtcr_el2 = -0\nhcr_el2 = 1\n",
        1,
        0,
    ),
    (
        SCTLR_TCR,
        "mair_el1 = '0x40044FFFF'\nvttbr_el2 = 0x7fffffffffffffff\n",
        0,
        0x7fff_ffff_ffff_ffff,
    ),
    (
        SCTLR_TCR,
        "\"mair_el1\" = 0x4_0044_ffff\nvttbr_el2 = \"18446744073709551615\"\n",
        0,
        u64::MAX,
    ),
    (
        SCTLR_TCR,
        "mair_el1 = \"00000000017184391167\"\nvtcr_el2 = 0\n",
        0,
        0,
    ),
];

#[test]
fn reads_registers(rt: HostRuntime) -> Result<(), AllocError> {
    for (front, back, hcr, vttbr) in FILES.as_slice() {
        let text = filled(rt.alloc(), front, TTBRS.as_bytes(), 1, back)?;
        let want = regs(*hcr, *vttbr);
        assert!(rt; matches!(read(rt.alloc(), text.as_slice()), Ok(regs) if regs == want));
    }
    Ok(())
}

/// A refusal, with the text of a name in place of the name.
#[derive(Clone, Copy)]
enum Why {
    TooLarge(u64),
    NotToml,
    Unknown(&'static str),
    Missing(Reg),
    BadValue(Reg),
    Unsupported(Reg, Field),
}

fn is_why(found: &RegRefusal, why: Why) -> bool {
    match (found, why) {
        (RegRefusal::TooLarge { size }, Why::TooLarge(want)) => *size == want,
        (RegRefusal::NotToml, Why::NotToml) => true,
        (RegRefusal::Unknown { key }, Why::Unknown(want)) => key.text() == want,
        (RegRefusal::Missing { reg }, Why::Missing(want)) => *reg == want,
        (RegRefusal::BadValue { reg }, Why::BadValue(want)) => *reg == want,
        (RegRefusal::Unsupported { at }, Why::Unsupported(reg, field)) => {
            *at == Unsupported { reg, field }
        }
        _ => false,
    }
}

fn is_refused(alloc: Global, bytes: &[u8], why: Why) -> bool {
    match read(alloc, bytes) {
        Err(RegError::Refused { why: found }) => is_why(&found, why),
        Err(RegError::NoMemory) | Ok(_) => false,
    }
}

/// What stands before the bases and behind them, and the refusal of the file.
const REFUSED: [(&str, &str, Why); 12] = [
    ("sctlr_el1 = 1", "tcr_el1 = 16", Why::Missing(Reg::MairEl1)),
    ("vbar_el1 = 0", "tcr_el1 = 16", Why::Unknown("vbar_el1")),
    ("[mair_el1]", "", Why::Missing(Reg::SctlrEl1)),
    ("vbar_el1 = 0\nesr_el1.x = 0", "", Why::Unknown("esr_el1")),
    ("\"\\u0000\\u001b[2J\" = 0", "", Why::Unknown("\0\x1b[2J")),
    ("TCR_EL1 = 0", "", Why::Unknown("TCR_EL1")),
    ("tcr_el1 = 0", "tcr_el1 = 0", Why::NotToml),
    ("tcr_el1", "", Why::NotToml),
    ("tcr_el1 = 0x8000000000000000", "", Why::NotToml),
    (
        "sctlr_el1 = 0\ntcr_el1 = 0",
        "mair_el1 = 0\nhcr_el2 = 0x400000000000",
        Why::Unsupported(Reg::HcrEl2, Field::Fwb),
    ),
    (
        "sctlr_el1 = 0x2000000\ntcr_el1 = 0x800000000000000",
        "mair_el1 = 0",
        Why::Unsupported(Reg::SctlrEl1, Field::Ee),
    ),
    (
        "sctlr_el1 = 0x2000000\ntcr_el1 = 0",
        "mair_el1 = 0\nvttbr_el2 = []",
        Why::BadValue(Reg::VttbrEl2),
    ),
];

#[test]
fn names_the_first_reason(rt: HostRuntime) -> Result<(), AllocError> {
    for (front, back, why) in REFUSED.as_slice() {
        let text = filled(rt.alloc(), front, TTBRS.as_bytes(), 1, back)?;
        assert!(rt; is_refused(rt.alloc(), text.as_slice(), *why));
    }
    Ok(())
}

/// What stands behind a value of TCR_EL1: a file whose HCR_EL2 is bad too.
const BEHIND: &str = "\nttbr0_el1 = 0\nttbr1_el1 = 0\nmair_el1 = 0\nhcr_el2 = -1\n";

/// Values that are no numbers of 64 bits.
const BAD_VALUES: [&str; 12] = [
    "-1",
    "\"0x\"",
    "\"\"",
    "\"-1\"",
    "1.0",
    "true",
    "[1]",
    "2024-02-29",
    "07:32:00",
    "{}",
    "\"18446744073709551616\"",
    "\"0x00000000000000001\"",
];

#[test]
fn refuses_values(rt: HostRuntime) -> Result<(), AllocError> {
    for value in BAD_VALUES.as_slice() {
        let front = "sctlr_el1 = 1\ntcr_el1 = ";
        let text = filled(rt.alloc(), front, value.as_bytes(), 1, BEHIND)?;
        assert!(rt; is_refused(rt.alloc(), text.as_slice(), Why::BadValue(Reg::TcrEl1)));
    }
    Ok(())
}

/// A text, bytes that stand so many times, a text, and the refusal of the whole.
const DEEP: [(&str, &[u8], usize, &str, Why); 11] = [
    ("", b"\xff", 1, "", Why::NotToml),
    ("", b"\xff", 65537, "", Why::TooLarge(65537)),
    ("", b"", 0, "", Why::Missing(Reg::SctlrEl1)),
    ("", b"a.", 60, "a = 1", Why::Unknown("a")),
    ("", b"a.", 32760, "a = 1", Why::NotToml),
    ("[", b"a.", 32760, "a]", Why::NotToml),
    ("[[", b"a.", 32760, "a]]", Why::NotToml),
    ("", b"a.", 32768, "", Why::NotToml),
    ("x = ", b"[", 65532, "", Why::NotToml),
    ("x = ", b"{a=", 21844, "", Why::NotToml),
    ("", b"[", 65536, "", Why::NotToml),
];

#[test]
fn bounds_sizes_and_depths(rt: HostRuntime) -> Result<(), AllocError> {
    let alloc = rt.alloc();
    let mut text = filled(alloc, SCTLR_TCR, TTBRS.as_bytes(), 1, MAIR)?;
    for _ in 0..MOST_BYTES.saturating_sub(text.len()) {
        text.push(b' ')?;
    }
    assert!(rt; text.len() == 65536);
    assert!(rt; matches!(read(alloc, text.as_slice()), Ok(found) if found == regs(0, 0)));
    text.push(b' ')?;
    assert!(rt; is_refused(alloc, text.as_slice(), Why::TooLarge(65537)));
    for (front, middle, count, back, why) in DEEP.as_slice() {
        let bytes = filled(alloc, front, middle, *count, back)?;
        assert!(rt; is_refused(alloc, bytes.as_slice(), *why));
    }
    Ok(())
}

#[test]
fn names_are_texts(rt: HostRuntime) -> Result<(), Fail> {
    assert!(rt; Name::of(rt.alloc(), "vbar_el1")?.text() == "vbar_el1");
    Ok(())
}
