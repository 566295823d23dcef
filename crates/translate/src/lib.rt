//! The translation of an access through both stages.
#![tactic(auto)]

mod begin;
mod deep;
pub mod parts;
pub mod replay;
mod replayed;
mod stage1;
mod stage2;
mod stand;
mod start;
mod tables;
mod under;
mod whole;

pub use begin::Begin1;
pub use replayed::Replay;
pub use tables::{walk1_from, walk2_from};
pub use under::InForce;
pub use whole::{output, translate, translate_at};
