//! Physical memory: ranges of words.
#![tactic(auto)]

mod checks;
mod paged_words;
mod phys;
pub mod ranges;
mod refusal;

pub use phys::Phys;
pub use refusal::PhysError;
