//! Dumps: their refusals, words over pages, and how often a file is read.
use crate::made::{Header, Short, head, one, only};
use dump_file::{
    Dump, DumpError, DumpField, DumpRefusal, FailingFiles, Files, MemoryFiles, ReadFailed,
};
use std::alloc::{AllocError, Global};
use std::test::Fail;

/// The byte at a place of a file's contents, which no two pages have alike.
fn content(at: u64) -> u8 {
    (at % 251) as u8
}

/// A core of so many bytes, with contents behind its program headers.
fn core(alloc: Global, headers: &[Header], size: u64) -> Result<Vec<u8>, AllocError> {
    let mut bytes = head(alloc, headers)?;
    for at in bytes.len() as u64..size {
        bytes.push(content(at))?;
    }
    Ok(bytes)
}

/// The word at a place, which is a multiple of 8.
fn word_in<F: Files>(dump: &mut Dump, files: &mut F, pa: u64) -> Result<Option<u64>, ReadFailed> {
    dump.word(files, pa / 8 * 8)
}

/// What is written over a dump of two program headers, where, at which size it is cut, and what it is refused for.
struct Refused(usize, &'static [u8], usize, DumpRefusal);

const REFUSED: [Refused; 9] = [
    Refused(0, b"", 63, DumpRefusal::NotElf),
    Refused(0, b"KDUMP   ", 192, DumpRefusal::NotElf),
    Refused(
        4,
        b"\x01",
        192,
        DumpRefusal::WrongKind {
            field: DumpField::Class,
        },
    ),
    Refused(
        5,
        b"\x02",
        192,
        DumpRefusal::WrongKind {
            field: DumpField::Encoding,
        },
    ),
    Refused(
        16,
        b"\x02",
        192,
        DumpRefusal::WrongKind {
            field: DumpField::Kind,
        },
    ),
    Refused(
        18,
        b"\x3e",
        192,
        DumpRefusal::WrongKind {
            field: DumpField::Machine,
        },
    ),
    Refused(
        54,
        b"\x37",
        192,
        DumpRefusal::WrongKind {
            field: DumpField::EntrySize,
        },
    ),
    Refused(56, b"\xff\xff", 192, DumpRefusal::TooMany),
    Refused(0, b"", 175, DumpRefusal::BadTable),
];

/// Two segments of eight bytes each, which end with the file.
const TWO: [Header; 2] = [Header(1, 176, 0x1000, 8), Header(1, 184, 0x2000, 8)];

#[test]
fn refuses(rt: HostRuntime) -> Result<(), Fail> {
    let alloc = rt.alloc();
    for Refused(at, new, size, why) in &REFUSED {
        let mut bytes = core(alloc, &TWO, 192)?;
        for (place, byte) in bytes.iter_mut().skip(*at).zip(*new) {
            *place = *byte;
        }
        bytes.truncate(*size);
        let mut files = MemoryFiles {
            files: one(alloc, "d", bytes.as_slice())?,
        };
        let opened = Dump::of(alloc, &mut files, "d");
        assert!(rt; opened.is_err_and(|e| e == DumpError::Refused { why: *why }));
    }
    Ok(())
}

/// Places of memory and their words.
const WORDS: [(u64, Option<u64>); 6] = [
    (0x1000, Some(0x535251504f4e4d4c)),
    (0x1008, Some(0x5b5a595857565554)),
    (0x2008, Some(0x5f5e5d5c5b5a5958)),
    (0x3000, None),
    (0xfffffffffffffff8, Some(0x7776757473727170)),
    (0, None),
];

/// Segments that overlap, that lie over two pages of the file, of seven bytes, and at the end of memory.
const FIVE: [Header; 5] = [
    Header(1, 0xffc, 0x1000, 16),
    Header(1, 0x1018, 0x2000, 8),
    Header(1, 0x1000, 0x2000, 24),
    Header(1, 0x1018, 0x3000, 7),
    Header(1, 0x1020, 0xfffffffffffffff8, 16),
];

#[test]
fn reads_words(rt: HostRuntime) -> Result<(), Fail> {
    let alloc = rt.alloc();
    let bytes = core(alloc, &FIVE, 0x1030)?;
    let mut files = MemoryFiles {
        files: one(alloc, "d", bytes.as_slice())?,
    };
    let mut dump = Dump::of(alloc, &mut files, "d").expect(&rt, "a dump");
    for (pa, word) in &WORDS {
        assert!(rt; word_in(&mut dump, &mut files, *pa) == Ok(*word));
    }
    Ok(())
}

/// How many reads there are by the end of each turn over a segment of 70 pages, of which 64 are kept, and after one more word of
/// the page that was read last.
#[test]
fn keeps_64_pages(rt: HostRuntime) -> Result<(), Fail> {
    let alloc = rt.alloc();
    let bytes = core(alloc, &[Header(1, 0x1000, 0, 0x46000)], 0x47000)?;
    let mut files = Short::new(one(alloc, "d", bytes.as_slice())?, 0x1000, u64::MAX);
    let mut dump = Dump::of(alloc, &mut files, "d").expect(&rt, "a dump");
    assert!(rt; files.reads == 2);
    for page in 0..64u64 {
        assert!(rt; word_in(&mut dump, &mut files, page * 0x1000).is_ok());
    }
    assert!(rt; files.reads == 66);
    for page in 0..64u64 {
        assert!(rt; word_in(&mut dump, &mut files, page * 0x1000 + 8).is_ok());
    }
    assert!(rt; files.reads == 66);
    assert!(rt; word_in(&mut dump, &mut files, 0x40000).is_ok());
    assert!(rt; word_in(&mut dump, &mut files, 0x40008).is_ok());
    assert!(rt; files.reads == 67);
    assert!(rt; word_in(&mut dump, &mut files, 0).is_ok());
    assert!(rt; files.reads == 68);
    Ok(())
}

/// Pages of which only a part comes serve what came of them and aren't kept: a file that ends in a page, and reads of three bytes.
#[test]
fn reads_short(rt: HostRuntime) -> Result<(), Fail> {
    let alloc = rt.alloc();
    let bytes = core(alloc, &[Header(1, 0x1000, 0, 0x1000)], 0x2000)?;
    let mut files = Short::new(one(alloc, "d", bytes.as_slice())?, 0x1000, 0x100c);
    let mut dump = Dump::of(alloc, &mut files, "d").expect(&rt, "a dump");
    for (pa, word) in [
        (0, Some(0x5756555453525150)),
        (8, None),
        (0x10, None),
        (0, Some(0x5756555453525150)),
    ] {
        let reads = files.reads;
        assert!(rt; word_in(&mut dump, &mut files, pa) == Ok(word));
        assert!(rt; reads < files.reads);
    }
    files.end = 0x2000;
    files.most = 3;
    assert!(rt; word_in(&mut dump, &mut files, 8) == Ok(Some(0x5f5e5d5c5b5a5958)));
    // A page that is kept serves where the file is cut.
    files.end = 0;
    assert!(rt; word_in(&mut dump, &mut files, 0x10) == Ok(Some(0x6766656463626160)));
    for (end, why) in [(64, DumpRefusal::BadTable), (63, DumpRefusal::NotElf)] {
        files.end = end;
        let opened = Dump::of(alloc, &mut files, "d");
        assert!(rt; opened.is_err_and(|e| e == DumpError::Refused { why }));
    }
    Ok(())
}

/// A call that fails is told, and the next call goes on.
#[test]
fn goes_on_after_a_failure(rt: HostRuntime) -> Result<(), Fail> {
    let alloc = rt.alloc();
    let bytes = core(alloc, &TWO, 192)?;
    let mut files = FailingFiles::new(one(alloc, "d", bytes.as_slice())?, only(alloc, 3)?, "d", "");
    let mut dump = Dump::of(alloc, &mut files, "d").expect(&rt, "a dump");
    assert!(rt; word_in(&mut dump, &mut files, 0x2000) == Err(ReadFailed));
    assert!(rt; word_in(&mut dump, &mut files, 0x2000) == Ok(Some(0xbfbebdbcbbbab9b8)));
    Ok(())
}
