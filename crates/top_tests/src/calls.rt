//! Whole calls: each command once, its statuses, and each call of files and sinks failing in turn.
use crate::made::{Short, TABLES, called, core_of, memory, one, only, two, words};
use dump_file::{FailingFiles, MemoryFile, MemoryFiles};
use explain_text::{FailingMemory, QuietMemory};
use std::alloc::{AllocError, Global};
use std::test::Fail;
use top_call::vmsa;

/// Registers of user space under 48 bits and 4 KB, with A1, AS and TBI0.
const USER: &[u8] = b"sctlr_el1 = \"0x1005\"\ntcr_el1 = \"0x35b5503510\"\nttbr0_el1 = \"0x1000\"\n\
    ttbr1_el1 = \"0x1234000000001000\"\nmair_el1 = \"0x40044ffff\"\n";

const RAW: &str = "raw r 0x10 0x1000 0x40201abc";

const RAW_TEXT: &[u8] = b"access 0x40201abc el1 read\n\
    s1 base level 0 at 0x1000\n\
    s1 word level 0 at 0x1000 value 0x2003\n\
    s1 word level 1 at 0x2008 value 0x3003\n\
    s1 word level 2 at 0x3008 value 0x4003\n\
    s1 word level 3 at 0x4008 value 0x60000000005f43\n\
    mapped 0x5abc\n";

const EXPLAIN: &str = "explain r d 0xb400000040201abc el0 read";

const EXPLAIN_TEXT: &[u8] = b"access 0xb400000040201abc el0 read asid 0x1234 vmid 0x0\n\
    s1 base level 0 at 0x1000\n\
    s1 word level 0 at 0x1000 value 0x2003\n\
    s1 word level 1 at 0x2008 value 0x3003\n\
    s1 word level 2 at 0x3008 value 0x4003\n\
    s1 word level 3 at 0x4008 value 0x60000000005f43\n\
    mapped 0x5abc el0 rw- el1 rw- normal outer wb+r+w inner wb+r+w ish\n";

const RUN: &str = "run r";
/// A write of a base that waits until it is settled, then a write of its word.
const TRACE: &[u8] = b"cores 2\nmemory 0x0 0x10000\ncaches none\npolicy fifo\n\
    store 0 0x1000 0x2003\nstore 0 0x2008 0x3003\nstore 0 0x3008 0x4003\nstore 0 0x4008 0x5403\n\
    msr 0 TCR_EL1 0x10\nmsr 0 TTBR0_EL1 0x1000\nmsr 0 SCTLR_EL1 0x1\nisb 0\nmsr 0 TTBR0_EL1 0x6000\n\
    access 0 el1 read 0x40201abc\nsettle 0\naccess 0 el1 read 0x40201abc\nend\n";

const RUN_TEXT: &[u8] = b"event 9 core 0 access 0x40201abc el1 read asid 0x0 vmid 0x0\n\
    s1 base level 0 at 0x1000 moment 9\n\
    s1 word level 0 at 0x1000 value 0x2003 moment 9\n\
    s1 word level 1 at 0x2008 value 0x3003 moment 9\n\
    s1 word level 2 at 0x3008 value 0x4003 moment 9\n\
    s1 word level 3 at 0x4008 value 0x5403 moment 9\n\
    mapped 0x5abc el0 --x el1 rwx device-nGnRnE osh\n\
    event 11 core 0 access 0x40201abc el1 read asid 0x0 vmid 0x0\n\
    s1 base level 0 at 0x6000 moment 11\n\
    s1 word level 0 at 0x6000 value 0x0 moment 11\n\
    fault stage 1 level 0 translation fsc 0x04\n\
    summary accesses 2 prefetches 0 mapped 1 faulted 1 conflicts 0 old 0 stale 0 evicted 0\n";

const OLD: &str = "run d";
/// A row serves a page whose descriptor is no more.
const OLD_TRACE: &[u8] = b"cores 1\nmemory 0x0 0x10000\ncaches small\npolicy fifo\n\
    store 0 0x1000 0x2003\nstore 0 0x2008 0x3003\nstore 0 0x3008 0x4003\nstore 0 0x4008 0x5403\n\
    msr 0 TCR_EL1 0x10\nmsr 0 TTBR0_EL1 0x1000\nmsr 0 SCTLR_EL1 0x1\nisb 0\n\
    access 0 el1 read 0x40201abc\nstore 0 0x4008 0x0\naccess 0 el1 read 0x40201abc\nend\n";

const OLD_TEXT: &[u8] = b"event 8 core 0 access 0x40201abc el1 read asid 0x0 vmid 0x0\n\
    s1 base level 0 at 0x1000 moment 8\n\
    s1 word level 0 at 0x1000 value 0x2003 moment 8\n\
    s1 word level 1 at 0x2008 value 0x3003 moment 8\n\
    s1 word level 2 at 0x3008 value 0x4003 moment 8\n\
    s1 word level 3 at 0x4008 value 0x5403 moment 8\n\
    mapped 0x5abc el0 --x el1 rwx device-nGnRnE osh\n\
    event 10 core 0 access 0x40201abc el1 read asid 0x0 vmid 0x0\n\
    s1 base level 0 at 0x1000 moment 8\n\
    s1 word level 0 at 0x1000 value 0x2003 moment 8\n\
    s1 word level 1 at 0x2008 value 0x3003 moment 8\n\
    s1 word level 2 at 0x3008 value 0x4003 moment 8\n\
    s1 word level 3 at 0x4008 value 0x5403 moment 8\n\
    mapped 0x5abc el0 --x el1 rwx device-nGnRnE osh\n\
    summary accesses 2 prefetches 0 mapped 2 faulted 0 conflicts 0 old 1 stale 1 evicted 0\n";

/// The files of a command.
fn files(alloc: Global, command: &str) -> Result<Vec<MemoryFile>, AllocError> {
    if command == EXPLAIN {
        return two(alloc, USER, core_of(alloc, 0x5000, &TABLES)?.as_slice());
    }
    if command == RUN {
        return one(alloc, "r", TRACE);
    }
    if command == OLD {
        return one(alloc, "d", OLD_TRACE);
    }
    one(alloc, "r", memory(alloc, 0x5000, &TABLES)?.as_slice())
}

/// A command, its text, and how many calls of files it makes.
struct Case(&'static str, &'static [u8], u64);

const CASES: [Case; 4] = [
    Case(RAW, RAW_TEXT, 5),
    Case(EXPLAIN, EXPLAIN_TEXT, 10),
    Case(RUN, RUN_TEXT, 3),
    Case(OLD, OLD_TEXT, 3),
];

#[test]
fn answers(rt: HostRuntime) -> Result<(), Fail> {
    let alloc = rt.alloc();
    for Case(command, text, _calls) in &CASES {
        let mut files = MemoryFiles {
            files: files(alloc, command)?,
        };
        assert!(rt; called(alloc, command, &mut files)?.is(0, text, b""));
    }
    Ok(())
}

#[test]
fn tells_of_reads_that_fail(rt: HostRuntime) -> Result<(), Fail> {
    let alloc = rt.alloc();
    for Case(command, text, calls) in &CASES {
        for call in 0..*calls {
            let mut files = FailingFiles::new(files(alloc, command)?, only(alloc, call)?, "r", "d");
            assert!(rt; called(alloc, command, &mut files)?.is(5, b"", b"vmsa: read fault\n"));
        }
        let mut files = FailingFiles::new(files(alloc, command)?, only(alloc, *calls)?, "r", "d");
        assert!(rt; called(alloc, command, &mut files)?.is(0, text, b""));
    }
    Ok(())
}

/// Standard output takes a first part of the text, and standard error nothing.
#[test]
fn tells_of_writes_that_fail(rt: HostRuntime) -> Result<(), Fail> {
    let alloc = rt.alloc();
    for Case(command, text, _calls) in &CASES {
        for taken in [0, 6, 200usize] {
            let words = words(alloc, command)?;
            let mut files = MemoryFiles {
                files: files(alloc, command)?,
            };
            let mut fails = Vec::new(alloc);
            fails.push((0, taken))?;
            let mut out = FailingMemory::new(alloc, fails);
            let mut err = QuietMemory::new(alloc);
            let status = vmsa(alloc, words.as_slice(), &mut files, &mut out, &mut err);
            assert!(rt; status.number() == 6 && err.bytes.is_empty());
            assert!(rt; out.bytes.len() == taken && text.starts_with(out.bytes.as_slice()));
        }
    }
    Ok(())
}

const USAGE: &[u8] = b"usage: vmsa raw IMAGE TCR TTBR0 VA\n\
    usage: vmsa explain REGS DUMP VA EL KIND [pan]\nusage: vmsa run TRACE\n\
    usage: vmsa drill N\n";

/// Words, their status and its line, over a trace `r`.
struct Refusal(&'static str, u8, &'static [u8]);

const REFUSALS: [Refusal; 9] = [
    Refusal("", 2, USAGE),
    Refusal("raw r 0x10 two 0x0", 2, USAGE),
    Refusal("run r r", 2, USAGE),
    Refusal("raw t 0x10 0x1000 0x0", 3, b"vmsa: no file t\n"),
    Refusal("explain t r 0x0 el1 read", 3, b"vmsa: no file t\n"),
    Refusal("run t", 3, b"vmsa: no file t\n"),
    Refusal(
        "raw r 0x800000000000010 0x1000 0x0",
        4,
        b"vmsa: raw: unsupported TCR_EL1.DS\n",
    ),
    Refusal(
        "explain r t 0x0 el1 read",
        4,
        b"vmsa: registers: not toml\n",
    ),
    Refusal(RUN, 4, b"vmsa: trace: no end\n"),
];

#[test]
fn refuses(rt: HostRuntime) -> Result<(), Fail> {
    let alloc = rt.alloc();
    for Refusal(words, status, line) in &REFUSALS {
        let mut files = MemoryFiles {
            files: one(
                alloc,
                "r",
                b"cores 1\nmemory 0x0 0x1000\ncaches none\npolicy fifo\n",
            )?,
        };
        assert!(rt; called(alloc, words, &mut files)?.is(*status, b"", line));
    }
    let mut files = MemoryFiles {
        files: two(alloc, USER, b"")?,
    };
    assert!(rt; called(alloc, EXPLAIN, &mut files)?.is(4, b"", b"vmsa: dump: not elf\n"));
    Ok(())
}

/// Files that give three bytes a read are read whole.
#[test]
fn reads_on(rt: HostRuntime) -> Result<(), Fail> {
    let alloc = rt.alloc();
    for Case(command, text, _calls) in &CASES {
        let mut files = Short::new(files(alloc, command)?, 3, u64::MAX);
        assert!(rt; called(alloc, command, &mut files)?.is(0, text, b""));
    }
    Ok(())
}

/// What comes of files that end early is what came of them, and nothing besides.
struct Ended(&'static str, u64, u8, &'static [u8], &'static [u8]);

const ENDED: [Ended; 3] = [
    Ended(
        RAW,
        0x1004,
        0,
        b"access 0x40201abc el1 read\ns1 base level 0 at 0x1000\nabsent stage 1 level 0 at 0x1000\n",
        b"",
    ),
    Ended(EXPLAIN, 100, 4, b"", b"vmsa: registers: missing mair_el1\n"),
    Ended(RUN, 51, 4, b"", b"vmsa: trace: no end\n"),
];

#[test]
fn takes_what_came(rt: HostRuntime) -> Result<(), Fail> {
    let alloc = rt.alloc();
    for Ended(command, end, status, out, err) in &ENDED {
        let mut files = Short::new(files(alloc, command)?, 3, *end);
        assert!(rt; called(alloc, command, &mut files)?.is(*status, out, err));
    }
    Ok(())
}
