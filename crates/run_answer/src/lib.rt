//! A trace that is read from a file and run while its report is written.
#![tactic(auto)]

mod drilled;
mod run;

pub use drilled::{drill, sum_up};
pub use run::{play, ready, trace};
