//! The walk through stage 1.
#![tactic(auto)]

mod kept;
mod sizes;
mod step;
mod supply;
mod under;
mod walk;

pub use kept::{entry1, fits_entry, step_kept};
pub use sizes::{sized1, sizes1};
pub use supply::Supply1;
pub use under::Under1;
pub use walk::{From1, walk1, walk1_under};
