//! A machine of cores that runs a trace, without its log (`Runner`) and with it (`Machine`).
#![tactic(auto)]

mod act;
mod machine;
mod runner;
mod seat;

pub use machine::Machine;
pub use runner::Runner;
pub use seat::Seat;
