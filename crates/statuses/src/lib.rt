//! How a call of the program ends: its status, and the line of each refusal.
#![tactic(auto)]

mod refusals;
mod status;

pub use refusals::error_line;
pub use status::{Status, Why, no_file};
