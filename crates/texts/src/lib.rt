//! Numbers and names in texts: read from a word, and written into a line.
#![tactic(auto)]

mod digits;
mod line;
mod numbers;
mod room;

pub use line::{LINE, Line, SHOWN, TAIL, Tail};
pub use numbers::number;
