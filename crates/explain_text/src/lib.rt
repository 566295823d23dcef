//! Sinks, and the lines in which a walk is printed.
#![tactic(auto)]

mod answer;
mod lines;
mod outcomes;
mod parts;
mod sink;

pub use answer::{access_line, explain, put_access};
pub use lines::{
    absent_line, fault_line, item_line, item_lines, put_absent, put_fault, put_item, put_items,
};
pub use outcomes::{outcome_line, put_outcome};
pub use sink::{Adapter, FailingMemory, QuietMemory, Sink, WriteFailed};
