use permissions::TableBits;

/// A stage 1 table: its address in bytes, and the joined bits of the tables on the way to it.
#[derive(Clone, Copy)]
pub struct Table1 {
    pub address: u64,
    pub bits: TableBits,
}

/// What stage 1 asks for: the word with so many levels left at a place in bytes, which is an IPA where stage 2 is on.
/// It carries the address that it is read for, VA bits 55 to 0, and the table that it stands in.
#[derive(Clone, Copy)]
pub struct Entry1 {
    pub table: Table1,
    pub place: u64,
    pub address: u64,
    pub left: u32,
}
