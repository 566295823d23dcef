//! Ranges of memory, each a start and a length in bytes.
ghost use Rattle.std.specs.Prelude.{◌≡◌, ◌+◌, ◌-◌, ◌^◌, min, nat_lt};
ghost use Rattle.phys_mem.specs.Memory.{is_aligned};
ghost use Rattle.phys_mem.specs.Ranges.{is_range, share_byte, bytes_of};
ghost use Rattle.phys_mem.specs.Words.{holds_word};

/// The bytes of a word.
pub const WORD: u64 = 8;

/// Where the physical addresses end.
const END: u64 = 1 << 52;

/// Whether a place is a multiple of eight bytes.
pub fn is_aligned(place: u64) -> bool
    ensures { result ≡ is_aligned place }
{
    place % WORD == 0
}

/// Whether a range has whole words, at least one, and ends at `2 ^ 52` at the latest.
pub fn is_range(start: u64, length: u64) -> bool
    ensures { result ≡ is_range (start, length) }
{
    is_aligned(start) && is_aligned(length) && length > 0 && length <= END && start <= END - length
}

/// Whether a byte lies below the end of a range.
fn is_below_end(place: u64, range: (u64, u64)) -> bool
    ensures { result ≡ nat_lt place (range.0 + range.1) }
{
    place < range.0 || place - range.0 < range.1
}

/// Whether two ranges have a byte in common.
pub fn share_byte(one: (u64, u64), other: (u64, u64)) -> bool
    ensures { result ≡ share_byte one other }
{
    is_below_end(one.0, other) && is_below_end(other.0, one)
}

/// Whether the eight bytes at a place lie in a range.
pub fn holds_word(range: (u64, u64), place: u64) -> bool
    ensures { result ≡ holds_word range place }
{
    range.0 <= place && range.1 >= WORD && place - range.0 <= range.1 - WORD
}

/// The bytes of all ranges, or u64::MAX where they are more.
pub fn bytes_in(ranges: &[(u64, u64)]) -> u64
    ensures { result ≡ min (bytes_of ranges.now) (2 ^ 64 - 1) }
{
    let mut sum = 0u64;
    for range in ranges {
        sum = sum.saturating_add(range.1);
    }
    sum
}
