//! Invalidations of translations: what a TLBI gives, and which cached rows it covers.
#![tactic(auto)]

mod covering;
mod decoding;
mod inval;
pub mod laws;
mod operands;

pub use covering::covers;
pub use decoding::decode;
pub use inval::{Inval, Tag};
