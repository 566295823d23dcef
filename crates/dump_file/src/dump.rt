ghost use Rattle.std.specs.Prelude.{◌≡◌, ◌≤◌, ◌+◌, ◌*◌, ◌-◌, ◌%◌, ℕ, List, length, IfOk, IfErr, IfSome, Ok, None};
ghost use Rattle.bitwords.specs.Causes.{HasCause};
ghost use Rattle.dump_file.specs.Held.{Bytes};
ghost use Rattle.dump_file.specs.DumpOf.{holds_word, serving};
ghost use Rattle.dump_file.specs.Kept.{IsSame, StandsFor};
ghost use Rattle.dump_file.specs.Dumps.{IsOpened, IsError, IsWord};
ghost use Rattle.dump_file.specs.Opening.{EndsWithin, IsOfSize, IsTable, AreHeaders, IsFault};

use crate::files::{Files, ReadFailed};
use crate::fill::fill_from;
use crate::header::{ENTRY, HEADER, TableAt, segments, table_at};
use crate::pages::{Paged, word_at};
use crate::refusal::{DumpError, DumpRefusal};
use lru::LruCache;
use std::alloc::Global;
use std::marker::Model;
use std::num::NonZeroUsize;

/// A part of memory that a dump holds.
#[derive(Clone, Copy, Debug, PartialEq, Eq)]
pub struct Segment {
    /// Where it lies in memory, in bytes.
    pub address: u64,
    /// Where it lies in the file, in bytes.
    pub offset: u64,
    /// How many bytes of it the file has.
    pub size: u64,
}

impl Segment {
    /// Whether all eight bytes of a place of memory lie in it.
    fn holds_word(&self, pa: u64) -> bool
        ensures { result ≡ holds_word self.now pa }
    {
        self.address <= pa && (pa - self.address) as u128 + 8 <= self.size as u128
    }
}

/// The first segment that holds a place.
fn serving(segments: &[Segment], pa: u64) -> Option<Segment>
    ensures first { result ≡ serving segments.now pa }
    ensures within { (size : ℕ) → EndsWithin size segments.now → IfSome result (λ s. (s.address ≤ pa) × (s.offset + (pa - s.address) + 8 ≤ size)) }
{
    for segment in segments {
        if segment.holds_word(pa) {
            return Some(*segment);
        }
    }
    None
}

/// How many pages are kept at most.
const PAGES: usize = 64;

/// The program headers of a dump: how many there are, and their bytes.
#[derive(Drop)]
struct Headers {
    count: u16,
    bytes: Vec<u8>,
}

/// A dump of memory whose file is read in pages of 4,096 bytes, of which at most 64 are kept.
#[derive(Drop)]
pub struct Dump {
    alloc: Global,
    name: String,
    size: u64,
    segments: Vec<Segment>,
    pages: LruCache<u64, Vec<u8>>,
}

impl Model for Dump {
    ghost use Rattle.std.specs.Prelude.{string_bytes};
    ghost use Rattle.dump_file.specs.Kept.{Opened};
    ghost use Rattle.dump_file.specs.Opening.{EndsWithin};
    ghost use Rattle.dump_file.specs.Paging.{AreFull};

    ghost Value = { Opened };

    ghost view = { λ d. record { name = string_bytes d.name; size = d.size; segments = d.segments.items; pages = d.pages.entries } };

    ghost invariant = { λ d. EndsWithin d.size d.segments.items × AreFull d.size d.pages.entries };
}

/// Reads a file's header of 64 bytes.
fn read_head<F: Files>(files: &mut F, name: &str, size: u64) -> Result<TableAt, DumpError>
    requires { IsOfSize (F.holds files.old name.now) size }
    ensures same { F.holds files.new ≡ F.holds files.old }
    ensures table { IfOk result (IsTable (F.holds files.old name.now)) }
    ensures within { IfOk result (λ t. t.place + 56 * t.count ≤ size) }
    ensures error { IfErr result (IsFault (F.holds files.old name.now) (F.faults files.old name.now) (F.faults files.new name.now)) }
    ensures missing { F.missing files.old name.now ≤ F.missing files.new name.now }
    ensures faults { F.faults files.old name.now ≤ F.faults files.new name.now }
{
    if size < 64 {
        return Err(DumpError::from(DumpRefusal::NotElf));
    }
    let mut head = [0u8; HEADER];
    if fill_from(files, name, 0, &mut head)? < HEADER {
        return Err(DumpError::from(DumpRefusal::NotElf));
    }
    Ok(table_at(&head, size)?)
}

/// Reads a file's header and its program headers.
fn read_headers<F: Files>(
    alloc: Global,
    files: &mut F,
    name: &str,
    size: u64,
) -> Result<Headers, DumpError>
    requires { IsOfSize (F.holds files.old name.now) size }
    ensures same { F.holds files.new ≡ F.holds files.old }
    ensures headers { IfOk result (λ h. AreHeaders (F.holds files.old name.now) h.count h.bytes.items) }
    ensures whole { IfOk result (λ h. length h.bytes.items ≡ 56 * h.count) }
    ensures error { IfErr result (IsFault (F.holds files.old name.now) (F.faults files.old name.now) (F.faults files.new name.now)) }
    ensures missing { F.missing files.old name.now ≤ F.missing files.new name.now }
    ensures faults { F.faults files.old name.now ≤ F.faults files.new name.now }
{
    let TableAt { place, count } = read_head(files, name, size)?;
    let mut bytes = vec![in alloc; 0u8; ENTRY * count as usize]?;
    if fill_from(files, name, place, bytes.as_mut_slice())? < bytes.len() {
        return Err(DumpError::from(DumpRefusal::BadTable));
    }
    Ok(Headers { count, bytes })
}

impl Dump {
    /// Opens a dump: reads its file's size, its header and its program headers, and nothing else. Which dumps are
    /// refused, with what, is this project's own rule. NoMemory comes where memory is refused.
    pub fn of<F: Files>(alloc: Global, files: &mut F, name: &str) -> Result<Dump, DumpError>
        ensures same { F.holds files.new ≡ F.holds files.old }
        ensures dump { IfOk result (λ d. (d.name ≡ name.now) × IsOpened (F.holds files.old name.now) d) }
        ensures error { IfErr result (IsError (F.holds files.old name.now)
            (F.missing files.old name.now) (F.missing files.new name.now) (F.faults files.old name.now) (F.faults files.new name.now)) }
        ensures missing { F.missing files.old name.now ≤ F.missing files.new name.now }
        ensures faults { F.faults files.old name.now ≤ F.faults files.new name.now }
    {
        let Some(size) = files.size(name)? else {
            return Err(DumpError::NoFile);
        };
        let headers = read_headers(alloc, files, name, size)?;
        let segments = segments(alloc, size, headers.count, headers.bytes.as_slice())?;
        Ok(Dump {
            alloc,
            name: String::from_str(alloc, name)?,
            size,
            segments,
            pages: LruCache::new(alloc, NonZeroUsize::new(PAGES).unwrap())?,
        })
    }

    /// The word at a place of memory, or None where no segment holds it whole, or where the file has fewer bytes now than
    /// when it was opened. The first segment of the table that holds the place serves: this project's own rule.
    pub fn word<F: Files>(&mut self, files: &mut F, pa: u64) -> Result<Option<u64>, ReadFailed>
        requires { pa % 8 ≡ 0 }
        ensures same { F.holds files.new ≡ F.holds files.old }
        ensures unchanged { IsSame self.old self.new }
        ensures nowhere { serving self.old.segments pa ≡ None → result ≡ Ok None }
        ensures word { IfOk result (IsWord (F.holds files.old self.old.name) self.old
            (F.missing files.old self.old.name) (F.missing files.new self.old.name) pa) }
        ensures stands { (bytes : List ℕ) → F.holds files.old self.old.name ≡ Bytes bytes → StandsFor bytes self.old → StandsFor bytes self.new }
        ensures missing { F.missing files.old self.old.name ≤ F.missing files.new self.old.name }
        ensures cause { HasCause (F.faults files.old self.old.name) (F.faults files.new self.old.name) result }
    {
        let Some(segment) = serving(self.segments.as_slice(), pa) else {
            return Ok(None);
        };
        let file = Paged {
            alloc: self.alloc,
            name: self.name.as_str(),
            size: self.size,
        };
        let at = segment.offset + (pa - segment.address);
        word_at(files, &file, &mut self.pages, at)
    }
}
