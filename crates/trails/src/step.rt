use crate::{Event, Outcome, Trail};

/// How an access came out, under the ASID and VMID of its moment. `second` is there exactly where the outcome is Conflict.
/// `old` says that `first` has an item of an earlier moment. `stale` says that the outcome isn't Conflict and that an item
/// of `first` differs from now: its place holds another value, or the register gives another base. `evicted` counts the
/// rows that were evicted.
#[derive(Drop)]
pub struct Answer {
    pub asid: u16,
    pub vmid: u16,
    pub outcome: Outcome,
    pub first: Trail,
    pub second: Option<Trail>,
    pub old: bool,
    pub stale: bool,
    pub evicted: u32,
}

/// An event and its answer, which is there exactly for Access and Prefetch.
#[derive(Drop)]
pub struct Step {
    pub event: Event,
    pub answer: Option<Answer>,
}
