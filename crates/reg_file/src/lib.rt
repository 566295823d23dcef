//! Register files: the values of the registers as a TOML document.
#![tactic(auto)]

mod entries;
mod name;
mod reading;
mod refusals;

pub use name::Name;
pub use reading::{MOST_BYTES, read};
pub use refusals::{RegError, RegRefusal};
