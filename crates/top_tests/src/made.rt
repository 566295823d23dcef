//! What the tests are made of: files, words, dumps and calls.
use dump_file::{Counts, Files, MemoryFile, MemoryFiles, ReadFailed};
use explain_text::QuietMemory;
use std::alloc::{AllocError, Global};
use top_call::vmsa;

/// The words between blanks.
pub fn words(alloc: Global, text: &str) -> Result<Vec<String>, AllocError> {
    let mut words = Vec::new(alloc);
    for word in text.split(' ') {
        words.push(String::from_str(alloc, word)?)?;
    }
    Ok(words)
}

/// A file of a name.
pub fn file(alloc: Global, name: &str, bytes: &[u8]) -> Result<MemoryFile, AllocError> {
    Ok(MemoryFile {
        name: String::from_str(alloc, name)?,
        bytes: Vec::from_slice(alloc, bytes)?,
    })
}

/// One file.
pub fn one(alloc: Global, name: &str, bytes: &[u8]) -> Result<Vec<MemoryFile>, AllocError> {
    let mut files = Vec::new(alloc);
    files.push(file(alloc, name, bytes)?)?;
    Ok(files)
}

/// A register file `r` and a dump `d`.
pub fn two(alloc: Global, registers: &[u8], dump: &[u8]) -> Result<Vec<MemoryFile>, AllocError> {
    let mut files = one(alloc, "r", registers)?;
    files.push(file(alloc, "d", dump)?)?;
    Ok(files)
}

/// A list of one number.
pub fn only(alloc: Global, number: u64) -> Result<Vec<u64>, AllocError> {
    let mut numbers = Vec::new(alloc);
    numbers.push(number)?;
    Ok(numbers)
}

/// A program header: its type, and where its segment lies in the file, in memory, and how many bytes the file has of it.
#[derive(Drop)]
pub struct Header(pub u32, pub u64, pub u64, pub u64);

/// The bytes of a core with these program headers right behind its header.
pub fn head(alloc: Global, headers: &[Header]) -> Result<Vec<u8>, AllocError> {
    let mut bytes = Vec::new(alloc);
    bytes.extend_from_slice(b"\x7fELF\x02\x01\x01")?;
    bytes.resize(16, 0)?;
    bytes.extend_from_slice(&[4, 0, 183, 0])?;
    bytes.resize(32, 0)?;
    bytes.extend_from_slice(&64u64.to_le_bytes())?;
    bytes.resize(54, 0)?;
    bytes.extend_from_slice(&[56, 0])?;
    bytes.extend_from_slice(&((headers.len() % 0x10000) as u16).to_le_bytes())?;
    bytes.resize(64, 0)?;
    for Header(kind, offset, address, size) in headers {
        bytes.extend_from_slice(&kind.to_le_bytes())?;
        bytes.extend_from_slice(&[0; 4])?;
        for field in [*offset, 0, *address, *size, 0, 0] {
            bytes.extend_from_slice(&field.to_le_bytes())?;
        }
    }
    Ok(bytes)
}

/// A word: its place in bytes, and its value.
pub struct Word(pub usize, pub u64);

/// Four tables of 4 KB that map the page at 0x40201000 to 0x5000.
pub const TABLES: [Word; 4] = [
    Word(0x1000, 0x2003),
    Word(0x2008, 0x3003),
    Word(0x3008, 0x4003),
    Word(0x4008, 0x60000000005f43),
];

/// So many bytes, all 0 but for these words.
pub fn memory(alloc: Global, size: usize, words: &[Word]) -> Result<Vec<u8>, AllocError> {
    let mut bytes = vec![in alloc; 0u8; size]?;
    for Word(at, value) in words {
        for (place, byte) in bytes.iter_mut().skip(*at).zip(&value.to_le_bytes()) {
            *place = *byte;
        }
    }
    Ok(bytes)
}

/// A core with one segment of memory from address 0, which begins at a page of the file.
pub fn core_of(alloc: Global, size: usize, words: &[Word]) -> Result<Vec<u8>, AllocError> {
    let mut bytes = head(alloc, &[Header(1, 0x1000, 0, size as u64)])?;
    bytes.resize(0x1000, 0)?;
    bytes.extend_from_slice(memory(alloc, size, words)?.as_slice())?;
    Ok(bytes)
}

/// What a call wrote, and the number of its status.
#[derive(Drop)]
pub struct Told {
    pub status: u8,
    pub out: QuietMemory,
    pub err: QuietMemory,
}

/// A call over these files.
pub fn called<F: Files>(alloc: Global, text: &str, files: &mut F) -> Result<Told, AllocError> {
    let words = words(alloc, text)?;
    let mut out = QuietMemory::new(alloc);
    let mut err = QuietMemory::new(alloc);
    let status = vmsa(alloc, words.as_slice(), files, &mut out, &mut err).number();
    Ok(Told { status, out, err })
}

impl Told {
    /// Whether this status came, with this text on standard output and this line on standard error.
    pub fn is(&self, status: u8, out: &[u8], err: &[u8]) -> bool {
        self.status == status
            && self.out.bytes.as_slice() == out
            && self.err.bytes.as_slice() == err
    }
}

/// Files in memory that don't tell their bytes, that give few bytes a read, and that end early.
#[derive(Drop)]
pub struct Short<'a> {
    pub files: MemoryFiles,
    /// The most bytes that a read gives.
    pub most: usize,
    /// Where a read finds its file ended, in bytes.
    pub end: u64,
    pub reads: u64,
    pub missing: Counts<'a>,
}

impl<'a> Short<'a> {
    pub fn new(files: Vec<MemoryFile>, most: usize, end: u64) -> Short<'a> {
        Short {
            files: MemoryFiles { files },
            most,
            end,
            reads: 0,
            missing: Counts::new("r", "d"),
        }
    }
}

impl<'a> Files for Short<'a> {
    ghost use Rattle.dump_file.specs.Held.{Untold};
    ghost use Rattle.dump_file.specs.Counts.{counts_of};

    ghost holds = { λ _ _. Untold };

    ghost faults = { λ _ _. 0 };

    ghost missing = { λ s. counts_of s.missing };

    ghost reads = { λ _ _ _ _ _. Unit {0} };

    fn size(&mut self, name: &str) -> Result<Option<u64>, ReadFailed> {
        match self.files.size(name) {
            Ok(Some(size)) => Ok(Some(size)),
            _ => {
                self.missing.more(name);
                Ok(None)
            }
        }
    }

    fn read_at(&mut self, name: &str, at: u64, into: &mut [u8]) -> Result<usize, ReadFailed> {
        self.reads = self.reads.saturating_add(1);
        let left = self.end.saturating_sub(at) as usize;
        let room = into.len().min(self.most).min(left);
        if room == 0 {
            self.missing.more(name);
            return Ok(0);
        }
        let Ok(count) = self.files.read_at(name, at, &mut into[..room]) else {
            self.missing.more(name);
            return Ok(0);
        };
        if count == 0 {
            self.missing.more(name);
        }
        Ok(count)
    }
}
