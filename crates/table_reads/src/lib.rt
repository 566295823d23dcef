//! One table of one stage: the numbers of a stage, the place of a word and its read, and the base of a start table.
#![tactic(auto)]

mod bases;
mod lead;
mod levels;
mod reads;
mod sizes;
mod supply;

pub use bases::{is_too_large, keep_base, start_base};
pub use lead::Lead;
pub use levels::{MOST_LEFT, Walker, fault, left_below, level};
pub use reads::{place, place_below, read};
pub use sizes::{Sizes, is_sized};
pub use supply::Supply;
