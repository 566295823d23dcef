//! What each stage permits: rights of EL0 and EL1 to read, write and fetch.
#![tactic(auto)]

mod bits;
pub mod laws;
mod names;
mod rights;
mod set;

pub use bits::{Bits1, El, Kind, TableBits};
pub use rights::{allows1, allows2, both, perms1, perms2};
pub use set::Perms;
