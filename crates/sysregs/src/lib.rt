//! System registers of the EL1&0 regime, their fields, and the ones that are refused.
#![tactic(auto)]

mod equality;
pub mod fields;
mod names;
mod ops;
mod regs;
mod sides;

pub use equality::same_config;
pub use ops::{OpForm, Scope};
pub use regs::{Config, Field, Op, Reg, Regs, Side, Tg, Unsupported};
pub use sides::side;
