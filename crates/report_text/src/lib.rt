//! The report of a run, written from its log.
#![tactic(auto)]

mod counts;
mod lines;
mod page;
mod tally;
mod writing;

pub use tally::Tally;
pub use writing::Report;
