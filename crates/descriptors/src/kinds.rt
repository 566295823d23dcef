use permissions::{Bits1, TableBits};

/// What a stage 1 word means. Addresses are in bytes; numbers are the fields' raw codes.
#[derive(Clone, Copy)]
pub enum Kind1 {
    Invalid,
    Table {
        next: u64,
        bits: TableBits,
    },
    Leaf {
        out: u64,
        attr_index: u32,
        bits: Bits1,
        sh: u32,
        af: bool,
        global: bool,
        contiguous: bool,
    },
}

/// What a stage 2 word means. Addresses are in bytes; numbers are the fields' raw codes.
#[derive(Clone, Copy)]
pub enum Kind2 {
    Invalid,
    Table {
        next: u64,
    },
    Leaf {
        out: u64,
        mem_attr: u32,
        read: bool,
        write: bool,
        xn: u32,
        sh: u32,
        af: bool,
        dbm: bool,
        contiguous: bool,
    },
}
