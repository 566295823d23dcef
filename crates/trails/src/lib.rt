//! What a walk reads and how it may end: items, trails, accesses and outcomes; and the events and steps of a trace.
#![tactic(auto)]

mod event;
mod item;
mod outcome;
mod slot;
mod step;
mod trail;

pub use event::{Barrier, Event, Origin};
pub use item::{Item, What};
pub use outcome::{Access, Outcome, Stop};
pub use slot::StepSlot;
pub use step::{Answer, Step};
pub use trail::{MOST_ITEMS, Trail};
