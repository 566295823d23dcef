//! The trace language: the events of a machine's cores as lines of words, read with the first refusal, and written.
#![tactic(auto)]

mod cuts;
mod events;
mod header;
mod lines;
mod names;
mod parsing;
mod places;
mod printing;
mod reading;
mod refusals;
mod trace;

pub use header::{Policy, Size};
pub use parsing::{MOST_BYTES, parse};
pub use printing::{parse_of_print, print};
pub use refusals::{LineRefusal, Phase, TraceError, TraceRefusal};
pub use trace::Trace;
