//! One core: its registers with the writes that wait, and its accesses to memory.
#![tactic(auto)]

mod cpu;
mod fill;
mod judge;

pub use cpu::{Cpu, MOST_QUEUED};
