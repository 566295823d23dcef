//! The walk of both stages, as definitions: what is read for an access, in which order, and what it leads to.
#![tactic(auto)]

mod entry;
mod leaf;
mod region;

pub use entry::{Entry1, Table1};
pub use leaf::{Fields1, Fields2, Leaf1, Leaf2};
pub use region::Region;
