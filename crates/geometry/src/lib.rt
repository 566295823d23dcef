//! Levels, indices, sizes and runs of translation tables.
#![tactic(auto)]

mod cases;
mod levels;
mod places;
mod runs;

pub use levels::{block_allowed, class_at, entry_class, index, start_level1, start_level2, suits2};
pub use places::{goes_to, leaf_class, place, serves_run};
pub use runs::run_class;
