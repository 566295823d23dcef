//! Files that are read by name, and dumps of memory: ELF64 cores that are read a page at a time.
#![tactic(auto)]

mod counts;
mod dump;
mod files;
mod fill;
mod header;
mod pages;
mod real;
mod refusal;

pub use counts::Counts;
pub use dump::{Dump, Segment};
pub use files::{FailingFiles, Files, MemoryFile, MemoryFiles, ReadFailed};
pub use fill::fill_from;
pub use real::{RealFiles, read_file};
pub use refusal::{DumpError, DumpField, DumpRefusal};
