//! The rows that a step makes, told from its trail.
#![tactic(auto)]

mod gather;
mod making;
mod small;
mod word;

pub use gather::{Stand, Walked, rows_made};
pub use making::NewRow;
pub use small::rows_are_small;
pub use word::{Means, Word};
