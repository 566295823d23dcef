//! Laws of the walk's definitions: the items of a walk serve every address of the region that its last word speaks of. Each
//! law stands on a function that does nothing.
#![tactic(auto)]

mod shift;

pub use shift::{stage2_shifts, table1_shifts, table2_shifts, walk_shifts};
