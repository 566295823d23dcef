/// How many rows the caches of a core hold.
#[derive(Clone, Copy, Debug, PartialEq, Eq)]
pub enum Size {
    NoRows,
    Small,
    Medium,
    Large,
}

/// Which row leaves a full set: the one that was used or made longest ago, the one that was made first, or the one that the
/// core's next draw names. The draws of a core begin at `start` plus its number.
#[derive(Clone, Copy, Debug, PartialEq, Eq)]
pub enum Policy {
    Lru,
    Fifo,
    Random { start: u64 },
}
