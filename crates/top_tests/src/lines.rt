//! The line of each status and of each refusal.
use dump_file::{DumpField, DumpRefusal};
use explain_text::QuietMemory;
use reg_file::{Name, RegRefusal};
use statuses::{Status, Why, error_line};
use std::alloc::AllocError;
use std::test::Fail;
use sysregs::{Field, Reg, Unsupported};
use trace_lang::TraceRefusal;

/// A status and its line.
#[derive(Drop)]
struct Line(Status, &'static [u8]);

const AT: Unsupported = Unsupported {
    reg: Reg::HcrEl2,
    field: Field::Fwb,
};

fn regs(why: RegRefusal) -> Status {
    Status::Refused {
        why: Why::Regs { why },
    }
}

fn dump(why: DumpRefusal) -> Status {
    Status::Refused {
        why: Why::Dump { why },
    }
}

fn wrong(field: DumpField) -> Status {
    dump(DumpRefusal::WrongKind { field })
}

fn trace(why: TraceRefusal) -> Status {
    Status::Refused {
        why: Why::Trace { why },
    }
}

#[test]
fn lines(rt: HostRuntime) {
    for Line(status, text) in &[
        Line(Status::Done, b""),
        Line(Status::WriteFault, b""),
        Line(Status::ReadFault, b"vmsa: read fault\n"),
        Line(Status::NoMemory, b"vmsa: out of memory\n"),
        Line(
            Status::Refused {
                why: Why::Word { at: AT },
            },
            b"vmsa: raw: unsupported HCR_EL2.FWB\n",
        ),
        Line(
            regs(RegRefusal::TooLarge { size: 65537 }),
            b"vmsa: registers: too large\n",
        ),
        Line(regs(RegRefusal::NotToml), b"vmsa: registers: not toml\n"),
        Line(
            regs(RegRefusal::Missing { reg: Reg::MairEl1 }),
            b"vmsa: registers: missing mair_el1\n",
        ),
        Line(
            regs(RegRefusal::BadValue { reg: Reg::TcrEl1 }),
            b"vmsa: registers: bad value tcr_el1\n",
        ),
        Line(
            regs(RegRefusal::Unsupported { at: AT }),
            b"vmsa: registers: unsupported HCR_EL2.FWB\n",
        ),
        Line(dump(DumpRefusal::NotElf), b"vmsa: dump: not elf\n"),
        Line(wrong(DumpField::Class), b"vmsa: dump: wrong class\n"),
        Line(wrong(DumpField::Encoding), b"vmsa: dump: wrong encoding\n"),
        Line(wrong(DumpField::Kind), b"vmsa: dump: wrong kind\n"),
        Line(wrong(DumpField::Machine), b"vmsa: dump: wrong machine\n"),
        Line(
            wrong(DumpField::EntrySize),
            b"vmsa: dump: wrong entry size\n",
        ),
        Line(dump(DumpRefusal::BadTable), b"vmsa: dump: bad table\n"),
        Line(
            dump(DumpRefusal::TooMany),
            b"vmsa: dump: too many segments\n",
        ),
        Line(
            dump(DumpRefusal::PastEnd { segment: 4095 }),
            b"vmsa: dump: segment 4095 past end\n",
        ),
        Line(
            trace(TraceRefusal::TooLarge { size: 16777217 }),
            b"vmsa: trace: too large\n",
        ),
        Line(
            trace(TraceRefusal::NotText { line: 1 }),
            b"vmsa: trace: line 1: not text\n",
        ),
        Line(
            trace(TraceRefusal::LongLine { line: 9 }),
            b"vmsa: trace: line 9: long line\n",
        ),
        Line(
            trace(TraceRefusal::BadWord { line: 5, place: 1 }),
            b"vmsa: trace: line 5: bad word 1\n",
        ),
        Line(
            trace(TraceRefusal::OutOfRange {
                line: 4294967295,
                place: 101,
            }),
            b"vmsa: trace: line 4294967295: out of range 101\n",
        ),
        Line(
            trace(TraceRefusal::Unsupported { line: 5, at: AT }),
            b"vmsa: trace: line 5: unsupported HCR_EL2.FWB\n",
        ),
        Line(
            trace(TraceRefusal::NotAtEl1 { line: 6 }),
            b"vmsa: trace: line 6: not at el1\n",
        ),
        Line(trace(TraceRefusal::NoHeader), b"vmsa: trace: no header\n"),
        Line(
            trace(TraceRefusal::AfterEnd { line: 6 }),
            b"vmsa: trace: line 6: after end\n",
        ),
    ] {
        let mut err = QuietMemory::new(rt.alloc());
        assert!(rt; error_line(&mut err, status).is_ok());
        assert!(rt; err.bytes.as_slice() == *text);
    }
}

const LONG: &str = "0123456789abcdef0123456789abcdef0123456789abcdef0123456789abcdefgh";

/// Names and their lines.
const NAMES: [(&str, &[u8]); 2] = [
    ("a b~\u{7f}!", b"vmsa: no file a?b~?!\n"),
    (
        LONG,
        b"vmsa: no file 0123456789abcdef0123456789abcdef0123456789abcdef0123456789abcdef\n",
    ),
];

#[test]
fn names(rt: HostRuntime) -> Result<(), Fail> {
    let alloc = rt.alloc();
    for (name, text) in &NAMES {
        let Ok(name) = Name::of(alloc, name) else {
            return Err(Fail::from(AllocError));
        };
        let mut err = QuietMemory::new(alloc);
        assert!(rt; error_line(&mut err, &Status::NoFile { name }).is_ok());
        assert!(rt; err.bytes.as_slice() == *text);
    }
    let Ok(key) = Name::of(alloc, "vbar_el1") else {
        return Err(Fail::from(AllocError));
    };
    let mut err = QuietMemory::new(alloc);
    assert!(rt; error_line(&mut err, &regs(RegRefusal::Unknown { key })).is_ok());
    assert!(rt; err.bytes.as_slice() == b"vmsa: registers: unknown vbar_el1\n".as_slice());
    Ok(())
}
