use sysregs::Unsupported;

/// Why a line is refused. Places of words count from 1.
#[derive(Clone, Copy, Debug)]
pub enum LineRefusal {
    NotText,
    LongLine,
    AfterEnd,
    NoHeader,
    TooMany,
    BadWord { place: u32 },
    BadNumber { place: u32 },
    OutOfRange { place: u32 },
    Unsupported { at: Unsupported },
    NotAtEl1,
}

/// Why a text is no trace. Lines count from 1, and so do the places of words. `size` is in bytes.
#[derive(Clone, Copy, Debug, PartialEq, Eq)]
pub enum TraceRefusal {
    TooLarge { size: u64 },
    NotText { line: u32 },
    LongLine { line: u32 },
    BadWord { line: u32, place: u32 },
    BadNumber { line: u32, place: u32 },
    OutOfRange { line: u32, place: u32 },
    Unsupported { line: u32, at: Unsupported },
    NotAtEl1 { line: u32 },
    TooMany { line: u32 },
    NoHeader,
    NoEnd,
    AfterEnd { line: u32 },
}

/// Why there is no trace: the text is refused, or memory is.
#[derive(Clone, Copy, Debug)]
pub enum TraceError {
    Refused { why: TraceRefusal },
    NoMemory,
}

/// Which line is due: `cores`, a `memory` line or `caches`, `policy`, an event or `end`, or none.
#[derive(Clone, Copy)]
pub enum Phase {
    Cores,
    Ranges,
    Policy,
    Events,
    Ended,
}
