use crate::Access;
use sysregs::{Op, Reg};

/// Which accesses a DSB waits for.
#[derive(Clone, Copy, Debug, PartialEq, Eq)]
pub enum Barrier {
    Nsh,
    Ish,
    Sy,
}

/// The exception level that issues a TLBI.
#[derive(Clone, Copy, Debug, PartialEq, Eq)]
pub enum Origin {
    El1,
    El2,
}

/// One step of a trace, done by the core that it names. A store writes eight bytes at `pa`, in bytes of physical memory.
/// `shared` says that a TLBI has the IS form; an operation without an operand has operand 0. Settle lets the oldest
/// register write of the core take effect, and Deliver the oldest invalidation that has reached it.
#[derive(Clone, Copy, Debug, PartialEq, Eq)]
pub enum Event {
    Store {
        core: u8,
        pa: u64,
        value: u64,
    },
    Msr {
        core: u8,
        reg: Reg,
        value: u64,
    },
    Settle {
        core: u8,
    },
    Isb {
        core: u8,
    },
    Tlbi {
        core: u8,
        from: Origin,
        op: Op,
        shared: bool,
        operand: u64,
    },
    Dsb {
        core: u8,
        kind: Barrier,
    },
    Deliver {
        core: u8,
    },
    Access {
        core: u8,
        access: Access,
    },
    Prefetch {
        core: u8,
        access: Access,
    },
}
