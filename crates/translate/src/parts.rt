//! The parts of a walk, for a walk that begins in the middle.
mod ends;
mod refusals;
mod roots;

pub use ends::{descriptor_read, finish};
pub(crate) use refusals::{enter1, off1, refusal};
pub use refusals::{begin1, begin2};
pub(crate) use roots::{base_of1, base_of2, keep_root, start_table, walker1};
pub use roots::{root1, root2};
