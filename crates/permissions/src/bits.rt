/// The exception level of an access.
#[derive(Clone, Copy, Debug, PartialEq, Eq)]
pub enum El {
    El0,
    El1,
}

/// What an access does. A fetch is an instruction fetch.
#[derive(Clone, Copy, Debug, PartialEq, Eq)]
pub enum Kind {
    Read,
    Write,
    Fetch,
}

/// The bits of a stage 1 leaf that bear on permissions: AP[1], AP[2], DBM, PXN and UXN.
#[derive(Clone, Copy)]
pub struct Bits1 {
    pub el0: bool,
    pub read_only: bool,
    pub dbm: bool,
    pub pxn: bool,
    pub uxn: bool,
}

/// The bits of stage 1 tables that bear on permissions: APTable, PXNTable and UXNTable.
#[derive(Clone, Copy)]
pub struct TableBits {
    pub no_el0: bool,
    pub read_only: bool,
    pub pxn: bool,
    pub uxn: bool,
}
