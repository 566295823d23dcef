use fault_codes::Stage;
use sysregs::Op;

/// What a TLBI gives. `start` and `count` are bytes of address space: of virtual addresses for an operation of stage 1, of
/// IPAs for one of stage 2. A granule has `2 ^ granule` bytes; it is there for a range form with a valid TG alone.
/// `issued` is the number of the event.
#[derive(Clone, Copy)]
pub struct Inval {
    pub start: u64,
    pub count: u64,
    pub granule: Option<u32>,
    pub issued: u32,
    pub asid: u16,
    pub vmid: u16,
    pub op: Op,
    pub issuer: u8,
    pub broadcast: bool,
}

/// What an invalidation looks at in a cached row: `2 ^ class` bytes of addresses from `start` on, those of a table's entry,
/// of a stage 2 leaf or run, or of a whole stage 1 leaf or run. A row of stage 2 has ASID 0, and only a row of a stage 1 leaf
/// can be global.
#[derive(Clone, Copy)]
pub struct Tag {
    pub start: u64,
    pub class: u32,
    pub granule: u32,
    pub asid: u16,
    pub vmid: u16,
    pub stage: Stage,
    pub table: bool,
    pub global: bool,
}
