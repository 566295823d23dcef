//! Memory types and shareability of both stages.
#![tactic(auto)]

mod kinds;
pub mod laws;
pub mod types;

pub use kinds::{Cache, Device, MemType, Share};
