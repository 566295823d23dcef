ghost use Rattle.std.specs.Prelude.{◌≡◌, ◌≤◌, ◌+◌, ◌*◌, ◌%◌, ◌⊎◌, length, take, drop, true, false, IfOk, IsTrue};
ghost use Rattle.bitwords.specs.Causes.{HasCause};
ghost use Rattle.dump_file.specs.Held.{IsCut};
ghost use Rattle.dump_file.specs.Paging.{AreFull, AreAmong, IsAdded, IsPart, IsKeptPart, IsWordAt, StayOf};

use crate::files::{Files, ReadFailed};
use crate::fill::fill_from;
use byteorder::{ByteOrder, LittleEndian};
use lru::LruCache;
use std::alloc::Global;

/// The bytes of a page of a file. A page begins at a multiple of it.
const PAGE: u64 = 4096;

/// A file that is read in pages: its name, and its size in bytes.
#[derive(Clone, Copy)]
pub struct Paged<'a> {
    pub alloc: Global,
    pub name: &'a str,
    pub size: u64,
}

/// Fills a slice from a place of a page on.
fn copy_part(page: &[u8], offset: usize, into: &mut [u8])
    requires { offset + length into.old ≤ length page.now }
    ensures { into.new ≡ take (length into.new) (drop offset page.now) }
{
    let end = offset + into.len();
    into.copy_from_slice(&page[offset..end]);
}

/// Fills a slice from a place of a file on, by the page that is kept, and answers whether it is.
fn kept_part(file: &Paged, pages: &mut LruCache<u64, Vec<u8>>, at: u64, into: &mut [u8]) -> bool
    requires full { AreFull file.now.size pages.old.entries }
    requires inside { at + length into.old ≤ file.now.size }
    requires page { at % 4096 + length into.old ≤ 4096 }
    ensures part { IsTrue result → IsKeptPart pages.old.entries at into.new }
    ensures among { AreAmong pages.old.entries pages.new.entries }
{
    let Some(page) = pages.get(&(at / PAGE)) else {
        return false;
    };
    copy_part(page.as_slice(), (at % PAGE) as usize, into);
    true
}

/// Keeps a page, where there is memory for it.
fn keep(pages: &mut LruCache<u64, Vec<u8>>, number: u64, page: Vec<u8>)
    ensures { IsAdded pages.old.entries pages.new.entries number page.items }
{
    let _ = pages.put(number, page);
}

/// Fills a slice from a place of a file on, by a page that is read, and answers whether its bytes came. The page is kept
/// where all of it came and there is memory for it.
fn read_part<F: Files>(
    files: &mut F,
    file: &Paged,
    pages: &mut LruCache<u64, Vec<u8>>,
    at: u64,
    into: &mut [u8],
) -> Result<bool, ReadFailed>
    requires full { AreFull file.now.size pages.old.entries }
    requires inside { at + length into.old ≤ file.now.size }
    requires page { at % 4096 + length into.old ≤ 4096 }
    ensures came { IfOk result (λ came. IsTrue came → IsCut (F.reads file.now.name.now) files.old files.new at into.new) }
    ensures same { F.holds files.new ≡ F.holds files.old }
    ensures full { AreFull file.now.size pages.new.entries }
    ensures part { IfOk result (IsPart (F.holds files.old file.now.name.now) file.now.size pages.old.entries
        (F.missing files.old file.now.name.now) (F.missing files.new file.now.name.now) at into.new) }
    ensures stay { StayOf (F.holds files.old file.now.name.now) file.now.size pages.old.entries pages.new.entries }
    ensures missing { F.missing files.old file.now.name.now ≤ F.missing files.new file.now.name.now }
    ensures cause { HasCause (F.faults files.old file.now.name.now) (F.faults files.new file.now.name.now) result }
{
    let offset = (at % PAGE) as usize;
    let start = at - at % PAGE;
    let size = PAGE.min(file.size - start) as usize;
    let Ok(mut page) = vec![in file.alloc; 0u8; size] else {
        return Ok(fill_from(files, file.name, at, into)? == into.len());
    };
    let count = fill_from(files, file.name, start, page.as_mut_slice())?;
    if count < offset + into.len() {
        return Ok(false);
    }
    copy_part(page.as_slice(), offset, into);
    if count < size {
        return Ok(true);
    }
    keep(pages, at / PAGE, page);
    Ok(true)
}

/// Fills a slice from a place of a file on, by the one page that holds it, and answers whether its bytes came.
fn part<F: Files>(
    files: &mut F,
    file: &Paged,
    pages: &mut LruCache<u64, Vec<u8>>,
    at: u64,
    into: &mut [u8],
) -> Result<bool, ReadFailed>
    requires full { AreFull file.now.size pages.old.entries }
    requires inside { at + length into.old ≤ file.now.size }
    requires page { at % 4096 + length into.old ≤ 4096 }
    ensures came { IfOk result (λ came. IsTrue came →
        IsKeptPart pages.old.entries at into.new ⊎ IsCut (F.reads file.now.name.now) files.old files.new at into.new) }
    ensures same { F.holds files.new ≡ F.holds files.old }
    ensures full { AreFull file.now.size pages.new.entries }
    ensures part { IfOk result (IsPart (F.holds files.old file.now.name.now) file.now.size pages.old.entries
        (F.missing files.old file.now.name.now) (F.missing files.new file.now.name.now) at into.new) }
    ensures stay { StayOf (F.holds files.old file.now.name.now) file.now.size pages.old.entries pages.new.entries }
    ensures missing { F.missing files.old file.now.name.now ≤ F.missing files.new file.now.name.now }
    ensures cause { HasCause (F.faults files.old file.now.name.now) (F.faults files.new file.now.name.now) result }
{
    if kept_part(file, pages, at, into) {
        return Ok(true);
    }
    read_part(files, file, pages, at, into)
}

/// Fills a slice from a place of a file on, by the one or two pages that hold it, and answers whether its bytes came.
fn bytes_at<F: Files>(
    files: &mut F,
    file: &Paged,
    pages: &mut LruCache<u64, Vec<u8>>,
    at: u64,
    into: &mut [u8],
) -> Result<bool, ReadFailed>
    requires full { AreFull file.now.size pages.old.entries }
    requires inside { at + length into.old ≤ file.now.size }
    requires short { length into.old ≤ 4096 }
    ensures same { F.holds files.new ≡ F.holds files.old }
    ensures full { AreFull file.now.size pages.new.entries }
    ensures part { IfOk result (IsPart (F.holds files.old file.now.name.now) file.now.size pages.old.entries
        (F.missing files.old file.now.name.now) (F.missing files.new file.now.name.now) at into.new) }
    ensures stay { StayOf (F.holds files.old file.now.name.now) file.now.size pages.old.entries pages.new.entries }
    ensures missing { F.missing files.old file.now.name.now ≤ F.missing files.new file.now.name.now }
    ensures cause { HasCause (F.faults files.old file.now.name.now) (F.faults files.new file.now.name.now) result }
{
    let front = (PAGE - at % PAGE) as usize;
    if into.len() <= front {
        return part(files, file, pages, at, into);
    }
    let (first, second) = into.split_at_mut(front);
    if !part(files, file, pages, at, first)? {
        return Ok(false);
    }
    part(files, file, pages, at + front as u64, second)
}

/// The eight bytes from a place of a file on, as a number, or None where they didn't come.
pub fn word_at<F: Files>(
    files: &mut F,
    file: &Paged,
    pages: &mut LruCache<u64, Vec<u8>>,
    at: u64,
) -> Result<Option<u64>, ReadFailed>
    requires full { AreFull file.now.size pages.old.entries }
    requires inside { at + 8 ≤ file.now.size }
    ensures same { F.holds files.new ≡ F.holds files.old }
    ensures full { AreFull file.now.size pages.new.entries }
    ensures word { IfOk result (IsWordAt (F.holds files.old file.now.name.now) file.now.size pages.old.entries
        (F.missing files.old file.now.name.now) (F.missing files.new file.now.name.now) at) }
    ensures stay { StayOf (F.holds files.old file.now.name.now) file.now.size pages.old.entries pages.new.entries }
    ensures missing { F.missing files.old file.now.name.now ≤ F.missing files.new file.now.name.now }
    ensures cause { HasCause (F.faults files.old file.now.name.now) (F.faults files.new file.now.name.now) result }
{
    let mut bytes = [0u8; 8];
    if !bytes_at(files, file, pages, at, &mut bytes)? {
        return Ok(None);
    }
    Ok(Some(LittleEndian::read_u64(&bytes)))
}
