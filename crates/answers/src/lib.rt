//! What each command answers, and its text.
#![tactic(auto)]

mod answer;
pub mod drill;
mod dump_words;
pub mod explain;
mod image;
pub mod raw;
pub mod run;

pub use answer::{Answer, Walked, put_answer};
pub use dump_words::DumpWords;
pub use image::Image;
