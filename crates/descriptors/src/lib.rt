//! What a descriptor word means at a level.
#![tactic(auto)]

mod kinds;
mod words;

pub use kinds::{Kind1, Kind2};
pub use words::{decode1, decode2, means1, means2, table1, table2};
