use stage1_walk::From1;
use trails::Outcome;

/// What a kept trail gives: how the access comes out on its first `len` items, or the table of stage 1 that comes next.
#[derive(Clone, Copy)]
pub enum Replay {
    Ended { len: usize, outcome: Outcome },
    More { from: From1 },
    Other,
}
