use crate::walk::From2;
use walk_spec::Leaf2;

/// What a kept chain of stage 2 gives: a leaf with no item left over, or the table of the word that it needs next.
#[derive(Clone, Copy)]
pub enum Replay2 {
    Ended { leaf: Leaf2 },
    More { from: From2 },
    Other,
}
