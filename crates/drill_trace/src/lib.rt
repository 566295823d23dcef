//! The drill: a trace of random events, for trying what runs cost.
#![tactic(auto)]

mod drill;

pub use drill::made_trace;
