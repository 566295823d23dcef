use TraceRefusal::{
    AfterEnd, BadNumber, BadWord, LongLine, NoEnd, NoHeader, NotAtEl1, NotText, OutOfRange,
    TooLarge, TooMany,
};
use permissions::{El, Kind};
use std::alloc::{AllocError, Global};
use std::test::Fail;
use sysregs::{Field, Op, Reg, Unsupported};
use trace_lang::{
    MOST_BYTES, Policy, Size, TraceError, TraceRefusal, parse, parse_of_print, print,
};
use trails::{Access, Barrier, Event, Origin};

/// The lines before the events, of which there are 4.
const HEADER: &str = "cores 2\nmemory 0x0 0x10000\ncaches none\npolicy fifo\n";

/// A first text, a line again and again, and a last text.
fn text_of(
    alloc: Global,
    first: &str,
    line: &str,
    times: usize,
    last: &str,
) -> Result<Vec<u8>, AllocError> {
    let mut bytes = Vec::from_slice(alloc, first.as_bytes())?;
    for _ in 0..times {
        bytes.extend_from_slice(line.as_bytes())?;
    }
    bytes.extend_from_slice(last.as_bytes())?;
    Ok(bytes)
}

/// A text of this size with lines of 200 bytes that are skipped.
fn comments(alloc: Global, size: usize) -> Result<Vec<u8>, AllocError> {
    let mut bytes = Vec::new(alloc);
    for i in 0..size {
        bytes.push(if i % 201 == 200 { b'\n' } else { b'#' })?;
    }
    Ok(bytes)
}

/// How many events a text has, or its refusal.
fn told(alloc: Global, text: &[u8]) -> Result<usize, TraceRefusal> {
    match parse(alloc, text) {
        Ok(trace) => Ok(trace.events().len()),
        Err(TraceError::Refused { why }) => Err(why),
        Err(TraceError::NoMemory) => Ok(usize::MAX),
    }
}

/// Texts, and the refusal of each.
const BAD_HEADERS: [(&str, TraceRefusal); 40] = [
    ("", NoHeader),
    ("# only\n\n", NoHeader),
    ("memory 0x0 0x1000\n", NoHeader),
    ("cores 1", NoHeader),
    ("cores 1\ncores 1\n", NoHeader),
    ("cores 1\npolicy fifo\n", NoHeader),
    ("cores 1\ncaches none\nend\n", NoHeader),
    ("cores 1\ncaches none\npolicy fifo\n", NoEnd),
    ("cores\n", BadWord { line: 1, place: 2 }),
    ("cores one\n", BadNumber { line: 1, place: 2 }),
    ("\ncores 0\n", OutOfRange { line: 2, place: 2 }),
    ("cores 9 9\n", OutOfRange { line: 1, place: 2 }),
    ("cores 8 9\n", BadWord { line: 1, place: 3 }),
    ("cores 1\nmemory\n", BadWord { line: 2, place: 2 }),
    ("cores 1\nmemory 4 x\n", OutOfRange { line: 2, place: 2 }),
    (
        "cores 1\nmemory 0x10000000000000 8\n",
        OutOfRange { line: 2, place: 2 },
    ),
    ("cores 1\nmemory 0\n", BadWord { line: 2, place: 3 }),
    (
        "cores 1\nmemory 65536 000000000000000000008\n",
        BadNumber { line: 2, place: 3 },
    ),
    ("cores 1\nmemory 0 -8\n", BadNumber { line: 2, place: 3 }),
    ("cores 1\nmemory 0 0\n", OutOfRange { line: 2, place: 3 }),
    ("cores 1\nmemory 0 12\n", OutOfRange { line: 2, place: 3 }),
    (
        "cores 1\nmemory 0xffffffffffff8 16\n",
        OutOfRange { line: 2, place: 3 },
    ),
    (
        "cores 1\nmemory 8 0xfffffffffffffff8\n",
        OutOfRange { line: 2, place: 3 },
    ),
    (
        "cores 1\nmemory 0 0x4000008\n",
        OutOfRange { line: 2, place: 3 },
    ),
    (
        "cores 1\nmemory 0 0x2000000\nmemory 0x2000000 0x2000008\n",
        OutOfRange { line: 3, place: 3 },
    ),
    (
        "cores 1\nmemory 0x1000 0x1000\nmemory 0x1ff8 8\n",
        OutOfRange { line: 3, place: 2 },
    ),
    (
        "cores 1\nmemory 0x1000 0x1000\nmemory 0xff8 16\n",
        OutOfRange { line: 3, place: 2 },
    ),
    (
        "cores 1\nmemory 0x1000 8\nmemory 0x1000 8 8\n",
        BadWord { line: 3, place: 4 },
    ),
    (
        "cores 1\nmemory 0 8\nmemory 0 12 8\n",
        OutOfRange { line: 3, place: 3 },
    ),
    ("cores 1\ncaches Small\n", BadWord { line: 2, place: 2 }),
    ("cores 1\ncaches none none\n", BadWord { line: 2, place: 3 }),
    (
        "cores 1\ncaches none\npolicy LRU\n",
        BadWord { line: 3, place: 2 },
    ),
    (
        "cores 1\ncaches large\npolicy lru 1\n",
        BadWord { line: 3, place: 3 },
    ),
    (
        "cores 1\ncaches none\npolicy random\n",
        BadWord { line: 3, place: 3 },
    ),
    (
        "cores 1\ncaches none\npolicy random one\n",
        BadNumber { line: 3, place: 3 },
    ),
    (
        "cores 1\ncaches small\npolicy random 1 1\n",
        BadWord { line: 3, place: 4 },
    ),
    ("cores 1\rmemory 0\n", NotText { line: 1 }),
    ("cores 1\n# \u{e9}\n", NotText { line: 2 }),
    ("cores 1\n# one\r\r\n", NotText { line: 2 }),
    ("cores 1\n\u{7f}\n", NotText { line: 2 }),
];

#[test]
fn refuses_headers(rt: HostRuntime) {
    for (text, want) in BAD_HEADERS.as_slice() {
        assert!(rt; told(rt.alloc(), text.as_bytes()) == Err(*want));
    }
    assert!(rt; told(rt.alloc(), b"cores 1\ncaches none\npolicy fifo\nend") == Ok(0));
}

/// Lines behind the header, and the refusal of each text.
const BAD_EVENTS: [(&str, TraceRefusal); 40] = [
    ("cores 2\nend\n", BadWord { line: 5, place: 1 }),
    ("prefetch 2 el1 read 0\n", OutOfRange { line: 5, place: 2 }),
    ("prefetch 0 el1 read\n", BadWord { line: 5, place: 5 }),
    ("prefetch 0 el1 read 0 pan\n", BadWord { line: 5, place: 6 }),
    ("isb\n", BadWord { line: 5, place: 2 }),
    ("isb zero\n", BadNumber { line: 5, place: 2 }),
    ("isb 2\n", OutOfRange { line: 5, place: 2 }),
    ("settle 0 0\n", BadWord { line: 5, place: 3 }),
    ("deliver 256\n", OutOfRange { line: 5, place: 2 }),
    ("store 2 x\n", OutOfRange { line: 5, place: 2 }),
    ("store 0 4 x\n", OutOfRange { line: 5, place: 3 }),
    ("store 0 0x10000 x\n", OutOfRange { line: 5, place: 3 }),
    (
        "store 0 0xfffffffffffffff8 0\n",
        OutOfRange { line: 5, place: 3 },
    ),
    (
        "store 0 0xfff8 0x1ffffffffffffffff\n",
        BadNumber { line: 5, place: 4 },
    ),
    (
        "store 0 00000000000000000008 0\nstore 0 000000000000000000008 0\n",
        BadNumber { line: 6, place: 3 },
    ),
    (
        "store 0 8 18446744073709551616\n",
        BadNumber { line: 5, place: 4 },
    ),
    ("store 0 8 0 0\n", BadWord { line: 5, place: 5 }),
    ("msr 0 tcr_el1 0\n", BadWord { line: 5, place: 3 }),
    ("msr 0 HCR_EL2\n", BadWord { line: 5, place: 4 }),
    (
        "msr 0 HCR_EL2 0x400000000000 0x0\n",
        BadWord { line: 5, place: 5 },
    ),
    (
        "msr 0 HCR_EL2 0x400000000000\n",
        TraceRefusal::Unsupported {
            line: 5,
            at: Unsupported {
                reg: Reg::HcrEl2,
                field: Field::Fwb,
            },
        },
    ),
    ("tlbi 0 el3 VAE1 0\n", BadWord { line: 5, place: 3 }),
    ("tlbi 0 el1 VAE1ISIS 0\n", BadWord { line: 5, place: 4 }),
    ("tlbi 0 el1 IS 0\n", BadWord { line: 5, place: 4 }),
    ("tlbi 0 el1 VAE1\n", BadWord { line: 5, place: 5 }),
    ("tlbi 0 el1 VAE1 0 0\n", BadWord { line: 5, place: 6 }),
    ("tlbi 0 el1 ALLE1 0x0\n", BadWord { line: 5, place: 5 }),
    ("tlbi 0 el1 ALLE1\n", NotAtEl1 { line: 5 }),
    ("tlbi 0 el1 RIPAS2LE1IS 0\n", NotAtEl1 { line: 5 }),
    ("dsb 0 osh\n", BadWord { line: 5, place: 3 }),
    ("dsb 0 sy sy\n", BadWord { line: 5, place: 4 }),
    ("access 0 el2 read 0\n", BadWord { line: 5, place: 3 }),
    ("access 0 el0 exec 0\n", BadWord { line: 5, place: 4 }),
    ("access 0 el0 read\n", BadWord { line: 5, place: 5 }),
    ("access 0 el0 read 0 PAN\n", BadWord { line: 5, place: 6 }),
    (
        "access 0 el0 read 0 pan pan\n",
        BadWord { line: 5, place: 7 },
    ),
    ("end 0\n", BadWord { line: 5, place: 2 }),
    ("end\n#\n\nisb 0\n", AfterEnd { line: 8 }),
    ("isb 0\nisb 0\n", NoEnd),
    ("isb x\nisb 2\n", BadNumber { line: 5, place: 2 }),
];

#[test]
fn refuses_events(rt: HostRuntime) -> Result<(), AllocError> {
    for (lines, want) in BAD_EVENTS.as_slice() {
        let text = text_of(rt.alloc(), HEADER, lines, 1, "")?;
        assert!(rt; told(rt.alloc(), text.as_slice()) == Err(*want));
    }
    Ok(())
}

/// Blanks, line ends, comments and numbers in each form.
const SPACED: &str = "# blanks and line ends\r\n\tcores  02\n  # two\nmemory 0 0x1000\r\n \
memory\t65536 00000000000000000008 \t\ncaches none\n \t\npolicy fifo\n#store 0 1 1\n\
store 0x1 65536 18446744073709551615\nend\r\n# more";

#[test]
fn reads_spaced_traces(rt: HostRuntime) -> Result<(), Fail> {
    let Ok(trace) = parse(rt.alloc(), SPACED.as_bytes()) else {
        return Err(Fail::new("refused"));
    };
    assert!(rt;
        trace.cores() == 2 && trace.size() == Size::NoRows && trace.policy() == Policy::Fifo
    );
    assert!(rt; trace.ranges() == [(0, 0x1000), (0x10000, 8)].as_slice());
    let store = Event::Store {
        core: 1,
        pa: 0x10000,
        value: u64::MAX,
    };
    assert!(rt; trace.events() == [store].as_slice());
    Ok(())
}

/// A line of each event but stores and invalidations.
const EVENTS: &str = "cores 2\nmemory 0x0 0x10000\ncaches none\npolicy fifo\n\
msr 1 TTBR0_EL1 0xABcd\n\
msr 1 VTTBR_EL2 0\n\
settle 0\n\
isb 0x1\n\
deliver 00\n\
dsb 0 nsh\n\
dsb 0 ish\n\
dsb 0 sy\n\
access 0 el0 fetch 8\n\
access 0 el0 fetch 8 pan\n\
prefetch 1 el1 write 16\n\
end\n";

const EVENTS_READ: [Event; 11] = [
    Event::Msr {
        core: 1,
        reg: Reg::Ttbr0El1,
        value: 0xabcd,
    },
    Event::Msr {
        core: 1,
        reg: Reg::VttbrEl2,
        value: 0,
    },
    Event::Settle { core: 0 },
    Event::Isb { core: 1 },
    Event::Deliver { core: 0 },
    Event::Dsb {
        core: 0,
        kind: Barrier::Nsh,
    },
    Event::Dsb {
        core: 0,
        kind: Barrier::Ish,
    },
    Event::Dsb {
        core: 0,
        kind: Barrier::Sy,
    },
    Event::Access {
        core: 0,
        access: Access {
            va: 8,
            el: El::El0,
            kind: Kind::Fetch,
            pan: false,
        },
    },
    Event::Access {
        core: 0,
        access: Access {
            va: 8,
            el: El::El0,
            kind: Kind::Fetch,
            pan: true,
        },
    },
    Event::Prefetch {
        core: 1,
        access: Access {
            va: 16,
            el: El::El1,
            kind: Kind::Write,
            pan: false,
        },
    },
];

/// Each invalidation, of its core alone and broadcast.
const INVALIDATIONS: &str = "cores 2\nmemory 0x0 0x10000\ncaches none\npolicy fifo\n\
tlbi 0 el2 VMALLE1\ntlbi 0 el2 VMALLE1IS\n\
tlbi 0 el2 VAE1 5\ntlbi 0 el2 VAE1IS 5\n\
tlbi 0 el2 VAAE1 5\ntlbi 0 el2 VAAE1IS 5\n\
tlbi 0 el2 VALE1 5\ntlbi 0 el2 VALE1IS 5\n\
tlbi 0 el2 VAALE1 5\ntlbi 0 el2 VAALE1IS 5\n\
tlbi 0 el2 ASIDE1 5\ntlbi 0 el2 ASIDE1IS 5\n\
tlbi 0 el2 IPAS2E1 5\ntlbi 0 el2 IPAS2E1IS 5\n\
tlbi 0 el2 IPAS2LE1 5\ntlbi 0 el2 IPAS2LE1IS 5\n\
tlbi 0 el2 VMALLS12E1\ntlbi 0 el2 VMALLS12E1IS\n\
tlbi 0 el2 ALLE1\ntlbi 0 el2 ALLE1IS\n\
tlbi 0 el2 RVAE1 5\ntlbi 0 el2 RVAE1IS 5\n\
tlbi 0 el2 RVAAE1 5\ntlbi 0 el2 RVAAE1IS 5\n\
tlbi 0 el2 RVALE1 5\ntlbi 0 el2 RVALE1IS 5\n\
tlbi 0 el2 RVAALE1 5\ntlbi 0 el2 RVAALE1IS 5\n\
tlbi 0 el2 RIPAS2E1 5\ntlbi 0 el2 RIPAS2E1IS 5\n\
tlbi 0 el2 RIPAS2LE1 5\ntlbi 0 el2 RIPAS2LE1IS 5\n\
end\n";

const OPERATIONS: [(Op, u64); 16] = [
    (Op::Vmalle1, 0),
    (Op::Vae1, 5),
    (Op::Vaae1, 5),
    (Op::Vale1, 5),
    (Op::Vaale1, 5),
    (Op::Aside1, 5),
    (Op::Ipas2e1, 5),
    (Op::Ipas2le1, 5),
    (Op::Vmalls12e1, 0),
    (Op::Alle1, 0),
    (Op::Rvae1, 5),
    (Op::Rvaae1, 5),
    (Op::Rvale1, 5),
    (Op::Rvaale1, 5),
    (Op::Ripas2e1, 5),
    (Op::Ripas2le1, 5),
];

/// An operation of its core alone and broadcast, issued at EL2.
fn issued(op: Op, operand: u64) -> [Event; 2] {
    [false, true].map(|shared| Event::Tlbi {
        core: 0,
        from: Origin::El2,
        op,
        shared,
        operand,
    })
}

#[test]
fn reads_events(rt: HostRuntime) -> Result<(), Fail> {
    let Ok(trace) = parse(rt.alloc(), EVENTS.as_bytes()) else {
        return Err(Fail::new("refused"));
    };
    assert!(rt; trace.events() == EVENTS_READ.as_slice());
    let Ok(trace) = parse(rt.alloc(), INVALIDATIONS.as_bytes()) else {
        return Err(Fail::new("refused"));
    };
    assert!(rt; trace.events().len() == 2 * OPERATIONS.len());
    for (found, (op, operand)) in trace.events().chunks(2).zip(OPERATIONS.as_slice()) {
        assert!(rt; found == issued(*op, *operand).as_slice());
    }
    Ok(())
}

/// Sixteen ranges of memory, the most there may be.
const RANGES: &str =
    "cores 1\nmemory 0x00 8\nmemory 0x10 8\nmemory 0x20 8\nmemory 0x30 8\nmemory 0x40 8\n\
memory 0x50 8\nmemory 0x60 8\nmemory 0x70 8\nmemory 0x80 8\nmemory 0x90 8\nmemory 0xa0 8\n\
memory 0xb0 8\nmemory 0xc0 8\nmemory 0xd0 8\nmemory 0xe0 8\nmemory 0xf0 8\n";

/// A first text, a line, how often it stands, a last text, and what is said of the whole.
const LONG: [(&str, &str, usize, &str, Result<usize, TraceRefusal>); 10] = [
    (RANGES, "", 0, "caches none\npolicy fifo\nend\n", Ok(0)),
    (RANGES, "", 0, "memory 0x100 x\n", Err(TooMany { line: 18 })),
    (HEADER, "isb 0\n", 1, "\nend", Ok(1)),
    (HEADER, "isb 0\n", 50000, "end\n", Ok(50000)),
    (
        HEADER,
        "isb 0\n",
        50000,
        "x\n",
        Err(TooMany { line: 50005 }),
    ),
    (HEADER, "#", 200, "\r\nend\n", Ok(0)),
    (HEADER, "#", 201, "\r\nend\n", Err(LongLine { line: 5 })),
    (HEADER, "#", 201, "\r\r\nend\n", Err(NotText { line: 5 })),
    ("", "#", 201, "\n", Err(LongLine { line: 1 })),
    (
        "cores 1\ncaches none\npolicy fifo\nend\n",
        "#",
        201,
        "",
        Err(LongLine { line: 5 }),
    ),
];

#[test]
fn keeps_limits(rt: HostRuntime) -> Result<(), AllocError> {
    let alloc = rt.alloc();
    for (first, line, times, last, want) in LONG.as_slice() {
        let text = text_of(alloc, first, line, *times, last)?;
        assert!(rt; told(alloc, text.as_slice()) == *want);
    }
    let mut text = comments(alloc, MOST_BYTES)?;
    assert!(rt; told(alloc, text.as_slice()) == Err(NoHeader));
    text.push(b'#')?;
    assert!(rt; told(alloc, text.as_slice()) == Err(TooLarge { size: 16777217 }));
    Ok(())
}

#[test]
fn prints_what_was_read(rt: HostRuntime) -> Result<(), Fail> {
    let alloc = rt.alloc();
    for (text, want) in [
        (
            "cores 01\nmemory 0 4096\ncaches none\npolicy fifo\nend",
            "cores 1\nmemory 0x0 0x1000\ncaches none\npolicy fifo\nend\n",
        ),
        (
            "cores 0x2\r\n# two\nmemory 0x8000 32768\nmemory 0 0x01000\n\ncaches  none\npolicy\tfifo\n\
store 1 0x8000 18446744073709551615\nmsr 0x0 TCR_EL1 16\n settle 1\nisb 0\ntlbi 0 el1 VAE1IS 4096\n\
tlbi 1 el2 ALLE1\ntlbi 1 el2 VMALLS12E1IS\ndsb 0 ish\ndeliver 01\naccess 0 el0 read 0xABC\n\
access 1 el1 write 7 pan\nend",
            "cores 2\nmemory 0x8000 0x8000\nmemory 0x0 0x1000\ncaches none\npolicy fifo\n\
store 1 0x8000 0xffffffffffffffff\nmsr 0 TCR_EL1 0x10\nsettle 1\nisb 0\ntlbi 0 el1 VAE1IS 0x1000\n\
tlbi 1 el2 ALLE1\ntlbi 1 el2 VMALLS12E1IS\ndsb 0 ish\ndeliver 1\naccess 0 el0 read 0xabc\n\
access 1 el1 write 0x7 pan\nend\n",
        ),
    ] {
        let Ok(trace) = parse(alloc, text.as_bytes()) else {
            return Err(Fail::new("refused"));
        };
        let Ok(again) = print(alloc, &trace) else {
            return Err(Fail::new("no memory"));
        };
        assert!(rt; again.as_slice() == want.as_bytes());
    }
    Ok(())
}

/// The words of each size and policy, and what they are.
const CACHES: [(&str, Size, Policy); 4] = [
    ("caches none\npolicy lru\n", Size::NoRows, Policy::Lru),
    ("caches small\npolicy fifo\n", Size::Small, Policy::Fifo),
    (
        "caches medium\npolicy random 0xff\n",
        Size::Medium,
        Policy::Random { start: 255 },
    ),
    (
        "caches large\npolicy random 0xffffffffffffffff\n",
        Size::Large,
        Policy::Random { start: u64::MAX },
    ),
];

#[test]
fn names_sizes_and_policies(rt: HostRuntime) -> Result<(), Fail> {
    let alloc = rt.alloc();
    for (words, size, policy) in CACHES.as_slice() {
        let text = text_of(
            alloc,
            "cores 1\n",
            words,
            1,
            "prefetch 0 el1 fetch 0x40\nend\n",
        )?;
        let Ok(trace) = parse(alloc, text.as_slice()) else {
            return Err(Fail::new("refused"));
        };
        assert!(rt; trace.size() == *size && trace.policy() == *policy);
        let Ok(again) = print(alloc, &trace) else {
            return Err(Fail::new("no memory"));
        };
        assert!(rt; again.as_slice() == text.as_slice());
    }
    Ok(())
}

#[test]
fn laws_ask_for_nothing(_rt: HostRuntime) {
    parse_of_print();
}
