//! Faults of a translation and their status codes.
#![tactic(auto)]

mod fault;

pub use fault::{Class, Fault, Stage, fsc};
