use attributes::{MemType, Share};
use permissions::{Bits1, Perms};

/// Where stage 1 ended. It covers `2 ^ class` bytes: a run, where the Contiguous bit counts, or an entry. `out` is where
/// the address goes, in bytes.
#[derive(Clone, Copy)]
pub struct Leaf1 {
    pub out: u64,
    pub class: u32,
    pub level: i8,
    pub perms: Perms,
    pub mem: MemType,
    pub sh: Share,
    pub global: bool,
}

/// Where stage 2 ended. It covers `2 ^ class` bytes: a run, where the Contiguous bit counts, or an entry. `pa` is where
/// the IPA goes, in bytes.
#[derive(Clone, Copy)]
pub struct Leaf2 {
    pub pa: u64,
    pub class: u32,
    pub level: i8,
    pub perms: Perms,
    pub mem: MemType,
    pub sh: Share,
}

/// The fields of a stage 1 block or page that tell what it gives. `out` is its address in bytes; numbers are raw codes.
#[derive(Clone, Copy)]
pub struct Fields1 {
    pub out: u64,
    pub attr_index: u32,
    pub sh: u32,
    pub bits: Bits1,
    pub global: bool,
    pub contiguous: bool,
}

/// The fields of a stage 2 block or page that tell what it gives. `out` is its address in bytes; numbers are raw codes.
#[derive(Clone, Copy)]
pub struct Fields2 {
    pub out: u64,
    pub mem_attr: u32,
    pub xn: u32,
    pub sh: u32,
    pub read: bool,
    pub write: bool,
    pub dbm: bool,
    pub contiguous: bool,
}
