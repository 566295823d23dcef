ghost use Rattle.std.specs.Prelude.{◌≡◌, ◌≤◌, ◌+◌, ◌*◌, length, Some, None, if◌then◌else◌, IfOk};
ghost use Rattle.byteorder.specs.Endian.{little_from};
ghost use Rattle.dump_file.specs.DumpOf.{table_of, table_in, is_loaded, segment_of, segments_of};
ghost use Rattle.dump_file.specs.Opening.{GivesTable, GivesSegments};

use crate::dump::Segment;
use crate::refusal::{DumpError, DumpField, DumpRefusal};
use byteorder::{ByteOrder, LittleEndian};
use std::alloc::Global;

/// The bytes of the file's header.
pub const HEADER: usize = 64;

/// The bytes of a program header.
pub const ENTRY: usize = 56;

/// Where the table of program headers begins, in bytes, and how many there are.
#[derive(Clone, Copy)]
pub struct TableAt {
    pub place: u64,
    pub count: u16,
}

fn half(bytes: &[u8], at: usize) -> u16
    requires { at + 2 ≤ length bytes.now }
    ensures { result ≡ little_from at 2 bytes.now }
{
    LittleEndian::read_u16(&bytes[at..])
}

fn word(bytes: &[u8], at: usize) -> u32
    requires { at + 4 ≤ length bytes.now }
    ensures { result ≡ little_from at 4 bytes.now }
{
    LittleEndian::read_u32(&bytes[at..])
}

fn long(bytes: &[u8], at: usize) -> u64
    requires { at + 8 ≤ length bytes.now }
    ensures { result ≡ little_from at 8 bytes.now }
{
    LittleEndian::read_u64(&bytes[at..])
}

/// The table that a header names, where it ends within the file. The sum of its place and its size is a plain number.
fn table_in(head: &[u8; 64], size: u64) -> Result<TableAt, DumpRefusal>
    ensures table { GivesTable result (table_in head.now size) }
    ensures within { IfOk result (λ t. t.place + 56 * t.count ≤ size) }
{
    let count = half(head, 56);
    if count == 0 {
        return Ok(TableAt { place: 0, count: 0 });
    }
    if half(head, 54) != 56 {
        return Err(DumpRefusal::WrongKind {
            field: DumpField::EntrySize,
        });
    }
    let place = long(head, 32);
    if place as u128 + 56 * count as u128 > size as u128 {
        return Err(DumpRefusal::BadTable);
    }
    Ok(TableAt { place, count })
}

/// The table of a file of this size, in bytes, that begins with this header, or the first refusal. Which dumps are
/// refused, with what, is this project's own rule.
pub fn table_at(head: &[u8; 64], size: u64) -> Result<TableAt, DumpRefusal>
    requires { 64 ≤ size }
    ensures table { GivesTable result (table_of head.now size) }
    ensures within { IfOk result (λ t. t.place + 56 * t.count ≤ size) }
{
    if !head.starts_with(b"\x7fELF") {
        return Err(DumpRefusal::NotElf);
    }
    let wrong = |field| Err(DumpRefusal::WrongKind { field });
    if head[4] != 2 {
        return wrong(DumpField::Class);
    }
    if head[5] != 1 {
        return wrong(DumpField::Encoding);
    }
    if half(head, 16) != 4 {
        return wrong(DumpField::Kind);
    }
    if half(head, 18) != 183 {
        return wrong(DumpField::Machine);
    }
    if half(head, 56) > 4096 {
        return Err(DumpRefusal::TooMany);
    }
    table_in(head, size)
}

/// The segment of a program header, where it is loaded and the file has bytes of it.
fn loaded(header: &[u8]) -> Option<Segment>
    requires { length header.now ≡ 56 }
    ensures { result ≡ (if is_loaded header.now then Some (segment_of header.now) else None) }
{
    let segment = Segment {
        address: long(header, 24),
        offset: long(header, 8),
        size: long(header, 32),
    };
    if word(header, 0) == 1 && segment.size > 0 {
        Some(segment)
    } else {
        None
    }
}

/// The segments of so many program headers of a file of this size, in bytes, or the first refusal.
pub fn segments(
    alloc: Global,
    size: u64,
    count: u16,
    table: &[u8],
) -> Result<Vec<Segment>, DumpError>
    requires { length table.now ≡ 56 * count }
    ensures { GivesSegments size (segments_of size 0 count table.now) result }
{
    let mut segments = Vec::new(alloc);
    for index in 0..count {
        let at = ENTRY * index as usize;
        let Some(segment) = loaded(&table[at..at + ENTRY]) else {
            continue;
        };
        if segment.offset as u128 + segment.size as u128 > size as u128 {
            let segment = index as u32;
            return Err(DumpError::from(DumpRefusal::PastEnd { segment }));
        }
        segments.push(segment)?;
    }
    Ok(segments)
}
