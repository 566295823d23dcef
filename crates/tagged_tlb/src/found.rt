//! The rows that match, of which the two that were made first count.
ghost use Rattle.std.specs.Prelude.{◌≡◌};
ghost use Rattle.tagged_tlb.specs.Rows.{is_older};
ghost use Rattle.tagged_tlb.specs.Slots.{is_hit, made_of, was_made};
ghost use Rattle.tagged_tlb.specs.Found.{met, looked, first_hit};

use crate::head::{Head, hits};
use crate::row::{Made, Sought};

/// Where a row stands: its set, and its place there in the order of rank.
#[derive(Clone, Copy)]
pub struct Slot {
    pub set: usize,
    pub way: usize,
}

/// A row that matches: where it stands and when it was made.
#[derive(Clone, Copy)]
pub struct Seen {
    pub slot: Slot,
    pub made: Made,
}

/// No row that matches, one, or the two that were made first.
#[derive(Clone, Copy)]
pub enum Found {
    Nothing,
    One { only: Seen },
    Two { first: Seen, second: Seen },
}

/// Whether a row was made before another.
fn is_older(a: Made, b: Made) -> bool
    ensures { result ≡ is_older a b }
{
    a.step < b.step || (a.step == b.step && a.order < b.order)
}

/// One more row that matches.
fn meet(found: Found, seen: Seen) -> Found
    ensures { result ≡ met found seen }
{
    match found {
        Found::Nothing => Found::One { only: seen },
        Found::One { only } => {
            if is_older(seen.made, only.made) {
                Found::Two {
                    first: seen,
                    second: only,
                }
            } else {
                Found::Two {
                    first: only,
                    second: seen,
                }
            }
        }
        Found::Two { first, second } => {
            if is_older(seen.made, first.made) {
                Found::Two {
                    first: seen,
                    second: first,
                }
            } else if is_older(seen.made, second.made) {
                Found::Two {
                    first,
                    second: seen,
                }
            } else {
                found
            }
        }
    }
}

/// What was found, and the rows of a set that match besides, as those of a class.
pub(crate) fn look(
    heads: &[Head],
    set: usize,
    sought: &Sought,
    class: u32,
    start: u64,
    found: Found,
) -> Found
    ensures { result ≡ looked (is_hit sought.now class start) made_of set 0 found heads.now }
{
    let mut found = found;
    for (way, head) in heads.iter().enumerate() {
        if hits(sought, class, start, head) {
            found = meet(
                found,
                Seen {
                    slot: Slot { set, way },
                    made: head.made,
                },
            );
        }
    }
    found
}

/// The place of the first row of a set that matches, as one of a class.
pub(crate) fn first_way(heads: &[Head], sought: &Sought, class: u32, start: u64) -> Option<usize>
    ensures { result ≡ first_hit (is_hit sought.now class start) 0 heads.now }
{
    for (way, head) in heads.iter().enumerate() {
        if hits(sought, class, start, head) {
            return Some(way);
        }
    }
    None
}

/// The place of the first row of a set that was made so.
pub(crate) fn way_of(heads: &[Head], made: Made) -> Option<usize>
    ensures { result ≡ first_hit (was_made made) 0 heads.now }
{
    for (way, head) in heads.iter().enumerate() {
        if made.step == head.made.step && made.order == head.made.order {
            return Some(way);
        }
    }
    None
}
