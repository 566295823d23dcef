//! What the words of the command line ask for.
#![tactic(auto)]

mod command;
mod drill;
mod explain;
mod matched;
mod raw;
mod run;

pub use command::{Command, read_command};
pub use drill::DrillArgs;
pub use explain::ExplainArgs;
pub use raw::RawArgs;
pub use run::RunArgs;
