//! The one call that does all that the program does.
#![tactic(auto)]

mod call;

pub use call::vmsa;
