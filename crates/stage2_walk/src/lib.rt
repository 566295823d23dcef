//! The walk through stage 2.
#![tactic(auto)]

mod refusals;
mod replay;
mod replayed;
mod sizes;
mod stand;
mod step;
mod under;
mod walk;

pub use refusals::{enter2, sized2};
pub use replay::replay2;
pub use replayed::Replay2;
pub use sizes::sizes2;
pub use stand::{Stood2, stand2};
pub use step::{Last2, end2};
pub use under::Under2;
pub use walk::{From2, walk2, walk2_down, walk2_under};
