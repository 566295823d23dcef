//! Caches of translations: rows in sets, which stand for the one list of all rows of a core in the order of rank.
#![tactic(auto)]

mod chooser;
mod found;
mod head;
mod row;
mod set;
mod stages;
mod tlb;

pub use chooser::Chooser;
pub use found::{Found, Seen, Slot};
pub use row::{Key, Kind, LentRow, Made, Row, Sought};
pub use tlb::Tlb;
