//! The caches of one core: a cache of each kind of rows, in the shapes of the core's size, and what chooses the row that leaves.
#![tactic(auto)]

mod caches;
mod finds;
mod kinds;

pub use caches::Caches;
