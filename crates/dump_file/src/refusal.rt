use crate::files::ReadFailed;
use std::alloc::{AllocError, AllocFailed};

/// What is wrong with a kind of file.
#[derive(Clone, Copy, Debug, PartialEq, Eq)]
pub enum DumpField {
    Class,
    Encoding,
    Kind,
    Machine,
    EntrySize,
}

/// Why a dump is refused.
#[derive(Clone, Copy, Debug, PartialEq, Eq)]
pub enum DumpRefusal {
    /// It is no ELF file.
    NotElf,
    /// It is not of 64 bits, not little-endian, no core, not of AArch64, or its program headers have not 56 bytes.
    WrongKind { field: DumpField },
    /// The table of program headers doesn't end within the file.
    BadTable,
    /// It has more than 4,096 program headers.
    TooMany,
    /// A segment doesn't end within the file. It is named by its place in the table, counted from 0.
    PastEnd { segment: u32 },
}

/// Why a dump is not opened.
#[derive(Clone, Copy, Debug, PartialEq, Eq)]
pub enum DumpError {
    /// There is no file of that name.
    NoFile,
    /// The file is no dump that is read here.
    Refused { why: DumpRefusal },
    /// The file could not be read.
    ReadFault,
    /// Memory was refused.
    NoMemory,
}

impl From<DumpRefusal> for DumpError {
    ghost use Rattle.std.specs.Prelude.{◌≡◌};
    ghost use Rattle.dump_file.specs.declared.refusal.DumpError.TheVariants.{Refused};

    ghost from_gives = { λ why e. e ≡ Refused why };

    fn from(why: DumpRefusal) -> DumpError {
        DumpError::Refused { why }
    }
}

impl From<ReadFailed> for DumpError {
    ghost use Rattle.std.specs.Prelude.{◌≡◌};
    ghost use Rattle.dump_file.specs.declared.refusal.DumpError.TheVariants.{ReadFault};

    ghost from_gives = { λ _ e. e ≡ ReadFault };

    fn from(_: ReadFailed) -> DumpError {
        DumpError::ReadFault
    }
}

impl From<AllocError> for DumpError {
    ghost use Rattle.std.specs.Prelude.{◌≡◌};
    ghost use Rattle.dump_file.specs.declared.refusal.DumpError.TheVariants.{NoMemory};

    ghost from_gives = { λ _ e. e ≡ NoMemory };

    fn from(_: AllocError) -> DumpError {
        DumpError::NoMemory
    }
}

impl<T: Drop> From<AllocFailed<T>> for DumpError {
    ghost use Rattle.std.specs.Prelude.{◌≡◌};
    ghost use Rattle.dump_file.specs.declared.refusal.DumpError.TheVariants.{NoMemory};

    ghost from_gives = { λ _ e. e ≡ NoMemory };

    fn from(_: AllocFailed<T>) -> DumpError {
        DumpError::NoMemory
    }
}
