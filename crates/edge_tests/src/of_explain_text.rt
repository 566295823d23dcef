ghost use Rattle.fault_codes.specs.Status.{HasLevel};

use attributes::{Cache, Device, MemType, Share};
use bitflags::Flags;
use explain_text::{
    Adapter, FailingMemory, QuietMemory, Sink, WriteFailed, absent_line, access_line, explain,
    fault_line, item_line, item_lines, outcome_line,
};
use fault_codes::{Class, Fault, Stage};
use permissions::{El, Kind, Perms};
use std::alloc::AllocError;
use std::io;
use sysregs::Regs;
use trails::{Access, Item, Outcome, Trail, What};

/// The base of a table.
const BASE: Item = Item {
    pa: 0x1000,
    value: 0x1000,
    moment: 8,
    stage: Stage::S1,
    level: 0,
    what: What::Base,
};

/// A word at the lowest level that there is.
const WORD: Item = Item {
    pa: 0x4008,
    value: 0x5403,
    moment: u32::MAX,
    stage: Stage::S2,
    level: -1,
    what: What::Word,
};

fn put_items(out: &mut QuietMemory) -> Result<(), WriteFailed> {
    item_line(out, &WORD, false)?;
    item_lines(out, &[BASE, WORD], true)
}

#[test]
fn prints_items(rt: HostRuntime) {
    let mut out = QuietMemory::new(rt.alloc());
    let expected = b"s2 word level -1 at 0x4008 value 0x5403\n\
        s1 base level 0 at 0x1000 moment 8\n\
        s2 word level -1 at 0x4008 value 0x5403 moment 4294967295\n";
    assert!(rt; put_items(&mut out).is_ok());
    assert!(rt; out.bytes.as_slice() == expected.as_slice());
}

fn put_fault(
    out: &mut QuietMemory,
    stage: Stage,
    level: i8,
    class: Class,
    s1ptw: bool,
) -> Result<(), WriteFailed>
    requires { HasLevel class level }
{
    let fault = Fault {
        stage,
        level,
        class,
        s1ptw,
    };
    fault_line(out, &fault)?;
    outcome_line(out, &Outcome::Faulted { fault }, true)
}

fn put_faults(out: &mut QuietMemory) -> Result<(), WriteFailed> {
    put_fault(out, Stage::S1, 0, Class::Translation, false)?;
    put_fault(out, Stage::S2, -1, Class::AddressSize, true)?;
    put_fault(out, Stage::S1, 3, Class::AccessFlag, false)?;
    put_fault(out, Stage::S2, 1, Class::Permission, true)?;
    put_fault(out, Stage::S1, 1, Class::External, false)?;
    put_fault(out, Stage::S2, 2, Class::Conflict, false)
}

#[test]
fn prints_faults(rt: HostRuntime) {
    let mut out = QuietMemory::new(rt.alloc());
    let expected = b"fault stage 1 level 0 translation fsc 0x04\n\
        fault stage 1 level 0 translation fsc 0x04\n\
        fault stage 2 level -1 address-size fsc 0x29 s1ptw\n\
        fault stage 2 level -1 address-size fsc 0x29 s1ptw\n\
        fault stage 1 level 3 access-flag fsc 0x0b\n\
        fault stage 1 level 3 access-flag fsc 0x0b\n\
        fault stage 2 level 1 permission fsc 0x0d s1ptw\n\
        fault stage 2 level 1 permission fsc 0x0d s1ptw\n\
        fault stage 1 level 1 external fsc 0x15\n\
        fault stage 1 level 1 external fsc 0x15\n\
        fault stage 2 level 2 conflict fsc 0x30\n\
        fault stage 2 level 2 conflict fsc 0x30\n";
    assert!(rt; put_faults(&mut out).is_ok());
    assert!(rt; out.bytes.as_slice() == expected.as_slice());
}

/// A word that memory lacks, in each form, and a conflict.
fn put_absent(out: &mut QuietMemory) -> Result<(), WriteFailed> {
    let absent = Outcome::Absent {
        stage: Stage::S1,
        level: 2,
        pa: 0xf_ffff_ffff_fff8,
        s1ptw: true,
    };
    absent_line(out, Stage::S2, -1, 0, false)?;
    outcome_line(out, &absent, false)?;
    outcome_line(out, &absent, true)?;
    outcome_line(out, &Outcome::Conflict, true)
}

#[test]
fn prints_absent_words_and_conflicts(rt: HostRuntime) {
    let mut out = QuietMemory::with_room(rt.alloc(), 256);
    let expected = b"absent stage 2 level -1 at 0x0\n\
        absent stage 1 level 2 at 0xffffffffffff8 s1ptw\n\
        fault stage 1 level 2 external fsc 0x16 s1ptw\n\
        conflict fsc 0x30\n";
    assert!(rt; put_absent(&mut out).is_ok());
    assert!(rt; !out.lost && out.bytes.as_slice() == expected.as_slice());
}

const CACHED: Cache = Cache::Wb {
    transient: false,
    read: true,
    write: true,
};

const READ_ONLY: Cache = Cache::Wt {
    transient: true,
    read: true,
    write: false,
};

const WRITE_ONLY: Cache = Cache::Wb {
    transient: true,
    read: false,
    write: true,
};

/// Where an access goes and what it may do there, the rights being R0, W0, X0, R1, W1 and X1 from bit 0 up; and the line.
const MAPPED: [(u64, u8, MemType, Share, &str); 7] = [
    (
        0x5abc,
        0b011_011,
        MemType::Normal {
            outer: CACHED,
            inner: CACHED,
            tagged: false,
        },
        Share::Ish,
        "mapped 0x5abc el0 rw- el1 rw- normal outer wb+r+w inner wb+r+w ish\n",
    ),
    (
        0x2_0000_0005_1234,
        0b111_100,
        MemType::Device {
            kind: Device::NGnRnE,
        },
        Share::Osh,
        "mapped 0x2000000051234 el0 --x el1 rwx device-nGnRnE osh\n",
    ),
    (
        0,
        0b100_001,
        MemType::Device {
            kind: Device::NGnRE,
        },
        Share::Osh,
        "mapped 0x0 el0 r-- el1 --x device-nGnRE osh\n",
    ),
    (
        1,
        0b010_000,
        MemType::Device { kind: Device::NGRE },
        Share::Osh,
        "mapped 0x1 el0 --- el1 -w- device-nGRE osh\n",
    ),
    (
        2,
        0b001_010,
        MemType::Device { kind: Device::GRE },
        Share::Osh,
        "mapped 0x2 el0 -w- el1 r-- device-GRE osh\n",
    ),
    (
        u64::MAX,
        0b111_111,
        MemType::Normal {
            outer: WRITE_ONLY,
            inner: READ_ONLY,
            tagged: true,
        },
        Share::Nsh,
        "mapped 0xffffffffffffffff el0 rwx el1 rwx normal outer wb+w+t inner wt+r+t tagged nsh\n",
    ),
    (
        3,
        0,
        MemType::Normal {
            outer: READ_ONLY,
            inner: Cache::Nc,
            tagged: false,
        },
        Share::Ish,
        "mapped 0x3 el0 --- el1 --- normal outer wt+r+t inner nc ish\n",
    ),
];

#[test]
fn prints_where_an_access_goes(rt: HostRuntime) {
    for &(pa, rights, mem, sh, expected) in MAPPED.as_slice() {
        let mut out = QuietMemory::new(rt.alloc());
        let perms = Perms::from_bits_retain(rights);
        let outcome = Outcome::Mapped { pa, perms, mem, sh };
        assert!(rt; outcome_line(&mut out, &outcome, false).is_ok());
        assert!(rt; out.bytes.as_slice() == expected.as_bytes());
    }
}

const READ: Access = Access {
    va: 0x4020_1abc,
    el: El::El1,
    kind: Kind::Read,
    pan: false,
};

/// The words before an access, the access, its ASID and VMID, and the line.
const ACCESSES: [(&str, Access, u16, u16, &str); 3] = [
    (
        "access",
        Access {
            va: 0xb400_0000_4020_1abc,
            el: El::El0,
            ..READ
        },
        0x1234,
        0,
        "access 0xb400000040201abc el0 read asid 0x1234 vmid 0x0",
    ),
    (
        "7 core 1 access",
        Access {
            va: 0,
            kind: Kind::Write,
            pan: true,
            ..READ
        },
        0,
        0xab,
        "7 core 1 access 0x0 el1 write pan asid 0x0 vmid 0xab",
    ),
    (
        "",
        Access {
            va: u64::MAX,
            kind: Kind::Fetch,
            pan: true,
            ..READ
        },
        u16::MAX,
        u16::MAX,
        " 0xffffffffffffffff el1 fetch pan asid 0xffff vmid 0xffff",
    ),
];

#[test]
fn prints_accesses(rt: HostRuntime) {
    for &(word, access, asid, vmid, expected) in ACCESSES.as_slice() {
        let mut out = QuietMemory::new(rt.alloc());
        assert!(rt; access_line(&mut out, word, &access, asid, vmid).is_ok());
        assert!(rt; out.bytes.as_slice() == expected.as_bytes());
    }
}

/// The text of a walk of two items.
const WALK: &str = "access 0x40201abc el1 read asid 0x12 vmid 0xab\n\
    s1 base level 0 at 0x1000\n\
    s2 word level -1 at 0x4008 value 0x5403\n\
    absent stage 1 level 2 at 0x2008\n";

fn put_walk<O: Sink>(out: &mut O) -> Result<(), WriteFailed> {
    let regs = Regs {
        tcr_el1: 1 << 22,
        ttbr1_el1: 0x3412 << 48,
        vttbr_el2: 0xcdab << 48,
        ..Regs::zero()
    };
    let mut trail = Trail::none();
    trail.push(BASE);
    trail.push(WORD);
    let outcome = Outcome::Absent {
        stage: Stage::S1,
        level: 2,
        pa: 0x2008,
        s1ptw: false,
    };
    explain(out, &regs, &READ, &outcome, &trail)
}

#[test]
fn explains_a_walk(rt: HostRuntime) -> Result<(), AllocError> {
    let alloc = rt.alloc();
    let mut out = QuietMemory::new(alloc);
    assert!(rt; put_walk(&mut out).is_ok());
    assert!(rt; out.bytes.as_slice() == WALK.as_bytes());
    for taken in [0, 9, 49, 113, 118] {
        let mut fails = Vec::new(alloc);
        fails.push((0, taken))?;
        let mut out = FailingMemory::new(alloc, fails);
        assert!(rt; put_walk(&mut out).is_err());
        assert!(rt; (out.calls, out.bytes.len()) == (1, taken));
        assert!(rt; WALK.as_bytes().starts_with(out.bytes.as_slice()));
    }
    Ok(())
}

/// What a writer got: how many bytes, and the last of them.
#[derive(Drop)]
struct Got {
    count: u64,
    last: u8,
}

/// A writer that takes so many bytes at once.
#[derive(Drop)]
struct Slow<'a> {
    most: usize,
    got: &'a mut Got,
}

impl<'a> io::Write for Slow<'a> {
    fn write(&mut self, piece: &[u8]) -> io::Result<usize> {
        let taken = piece.len().min(self.most);
        if taken > 0 {
            self.got.last = piece[taken - 1];
        }
        self.got.count = self.got.count.saturating_add(taken as u64);
        Ok(taken)
    }

    fn flush(&mut self) -> io::Result<()> {
        Ok(())
    }
}

/// Whether such a writer takes a whole piece.
fn is_put(most: usize, piece: &[u8], got: &mut Got) -> bool {
    Adapter::new(Slow { most, got }).put(piece).is_ok()
}

#[test]
fn writes_the_whole_piece_or_fails(rt: HostRuntime) {
    let mut piece = [b'x'; 100];
    piece[99] = b'!';
    let mut got = Got { count: 0, last: 0 };
    assert!(rt; is_put(7, &piece, &mut got));
    assert!(rt; got.count == 100 && got.last == b'!');
    assert!(rt; is_put(0, b"", &mut got) && !is_put(0, b"piece", &mut got));
    assert!(rt; got.count == 100);
}
