ghost use Rattle.std.specs.Prelude.{◌≡◌, ◌⊎◌};
ghost use Rattle.statuses.specs.Status.{number_of_status};

use dump_file::DumpRefusal;
use reg_file::{Name, RegRefusal};
use std::alloc::Global;
use sysregs::Unsupported;
use trace_lang::TraceRefusal;

/// Why what is asked for is refused.
#[derive(Debug, Drop)]
pub enum Why {
    /// A register value of the command line sets a field that is not supported.
    Word { at: Unsupported },
    /// The register file is refused.
    Regs { why: RegRefusal },
    /// The dump is refused.
    Dump { why: DumpRefusal },
    /// The trace is refused.
    Trace { why: TraceRefusal },
}

/// How a call of the program ends.
#[derive(Debug, Drop)]
pub enum Status {
    /// The whole answer was written.
    Done,
    /// The words are no command.
    Usage,
    /// There is no file of that name.
    NoFile { name: Name },
    /// What is asked for is refused.
    Refused { why: Why },
    /// A file could not be read.
    ReadFault,
    /// The answer or the line of a refusal could not be written.
    WriteFault,
    /// Memory was refused.
    NoMemory,
}

impl From<RegRefusal> for Status {
    fn from(why: RegRefusal) -> Status
        ensures { result ≡ Status.Refused (Why.Regs why) }
    {
        Status::Refused {
            why: Why::Regs { why },
        }
    }
}

impl From<DumpRefusal> for Status {
    fn from(why: DumpRefusal) -> Status
        ensures { result ≡ Status.Refused (Why.Dump why) }
    {
        Status::Refused {
            why: Why::Dump { why },
        }
    }
}

impl From<TraceRefusal> for Status {
    fn from(why: TraceRefusal) -> Status
        ensures { result ≡ Status.Refused (Why.Trace why) }
    {
        Status::Refused {
            why: Why::Trace { why },
        }
    }
}

/// The refusal of a file that isn't there.
pub fn no_file(alloc: Global, name: &str) -> Status
    ensures { (result ≡ Status.NoMemory) ⊎ (result ≡ Status.NoFile name.now) }
{
    match Name::of(alloc, name) {
        Ok(name) => Status::NoFile { name },
        Err(_) => Status::NoMemory,
    }
}

impl Status {
    /// The exit status of the process.
    pub fn number(&self) -> u8
        ensures { result ≡ number_of_status self.now }
    {
        match self {
            Status::Done => 0,
            Status::Usage => 2,
            Status::NoFile { .. } => 3,
            Status::Refused { .. } => 4,
            Status::ReadFault => 5,
            Status::WriteFault => 6,
            Status::NoMemory => 7,
        }
    }
}
