//! Fields of 64-bit words and bounded addresses.
#![tactic(auto)]

mod addr;
mod fields;

pub use addr::Addr;
pub use fields::{align_down, field, flag, power};

/// Memory was refused. No contract says when.
#[derive(Clone, Copy, Debug, PartialEq, Eq)]
pub struct NoMemory;
