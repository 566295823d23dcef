use fault_codes::Stage;

/// Whether a walk was given a table's base or read a descriptor word.
#[derive(Clone, Copy, Debug, Default, PartialEq, Eq)]
pub enum What {
    #[default]
    Base,
    Word,
}

/// One thing that a walk used: the base of a table to start from, or a word that was read. `pa` is where it lies, in bytes
/// of physical memory, and `value` what a word holds; of a base both are the table's address. `level` is that of the table.
#[derive(Clone, Copy, Debug, Default, PartialEq, Eq)]
pub struct Item {
    pub pa: u64,
    pub value: u64,
    pub moment: u32,
    pub stage: Stage,
    pub level: i8,
    pub what: What,
}

/// What an item takes in bytes: two words of 8, a moment of 4, three fields of 1, and 1 that fills up the third word. A log
/// keeps many trails, so it is no more.
const ITEM_BYTES: usize = 24;

const _: () = prove!(std::mem::size_of::<Item>() == ITEM_BYTES);
