use attributes::{MemType, Share};
use fault_codes::{Fault, Stage};
use permissions::{El, Kind, Perms};

/// An access to a virtual address. `pan` is PSTATE.PAN.
#[derive(Clone, Copy, Debug, PartialEq, Eq)]
pub struct Access {
    pub va: u64,
    pub el: El,
    pub kind: Kind,
    pub pan: bool,
}

/// How a translation ends. Absent names the place that memory lacks.
#[derive(Clone, Copy, Debug, PartialEq, Eq)]
pub enum Outcome {
    Mapped {
        pa: u64,
        perms: Perms,
        mem: MemType,
        sh: Share,
    },
    Faulted {
        fault: Fault,
    },
    Absent {
        stage: Stage,
        level: i8,
        pa: u64,
        s1ptw: bool,
    },
    Conflict,
}

/// Why a walk stopped before a leaf.
#[derive(Clone, Copy)]
pub enum Stop {
    Fault {
        fault: Fault,
    },
    Absent {
        stage: Stage,
        level: i8,
        pa: u64,
        s1ptw: bool,
    },
    Conflict,
}
