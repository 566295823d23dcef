//! Which lists of ranges are refused.
ghost use Rattle.std.specs.Prelude.{◌≡◌, All, [], not, IfOk, IfNone, MatchResult};
ghost use Rattle.phys_mem.specs.Ranges.{share_byte, first_place, bad_place, overlap_behind, is_too_large, refusal_of, refusal_in};
ghost use Rattle.phys_mem.specs.Words.{IsWhole, AreHeld};

use crate::ranges::{bytes_in, is_range, share_byte};
use crate::refusal::PhysError;

/// The most ranges.
const MOST_RANGES: usize = 16;

/// The most bytes of all ranges: 64 MiB.
const MOST_BYTES: u64 = 64 << 20;

/// The first range that is none.
fn bad_place(ranges: &[(u64, u64)]) -> Option<usize>
    ensures place { result ≡ bad_place ranges.now }
    ensures whole { IfNone result (All IsWhole ranges.now) }
{
    for (place, &(start, length)) in ranges.iter().enumerate() {
        if !is_range(start, length) {
            return Some(place);
        }
    }
    None
}

/// The first range that shares a byte with a range.
fn first_sharing(ranges: &[(u64, u64)], range: (u64, u64)) -> Option<usize>
    ensures { result ≡ first_place (λ other. share_byte other range) 0 ranges.now }
{
    for (place, &other) in ranges.iter().enumerate() {
        if share_byte(other, range) {
            return Some(place);
        }
    }
    None
}

/// The least pair of ranges that share a byte, by its second and then its first.
fn overlap(ranges: &[(u64, u64)]) -> Option<(usize, usize)>
    ensures { result ≡ overlap_behind [] ranges.now }
{
    for (second, &range) in ranges.iter().enumerate() {
        if let Some(first) = first_sharing(&ranges[..second], range) {
            return Some((first, second));
        }
    }
    None
}

/// Whether there are too many ranges, or too many bytes.
fn is_too_large(ranges: &[(u64, u64)]) -> bool
    ensures { result ≡ is_too_large ranges.now }
{
    ranges.len() > MOST_RANGES || bytes_in(ranges) > MOST_BYTES
}

/// Refuses what is no memory.
#[tactic(auto, unfolding(crate::specs::Ranges::refusal_of))]
pub fn check(ranges: &[(u64, u64)]) -> Result<(), PhysError>
    ensures refusal { MatchResult result (λ _. refusal_of ranges.now ≡ None) (λ e. refusal_of ranges.now ≡ refusal_in e) }
    ensures fits { IfOk result (λ _. AreHeld ranges.now) }
{
    if let Some(place) = bad_place(ranges) {
        return Err(PhysError::BadRange { place });
    }
    if let Some((first, second)) = overlap(ranges) {
        return Err(PhysError::Overlap { first, second });
    }
    if is_too_large(ranges) {
        return Err(PhysError::TooLarge);
    }
    Ok(())
}
