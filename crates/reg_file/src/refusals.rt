ghost use Rattle.std.specs.Prelude.{◌≡◌, Err};

use crate::name::Name;
use sysregs::{Reg, Unsupported};

/// Why a register file is refused. Where more than one reason holds, the first in the order in which they stand here is
/// the answer (this project's own rule).
#[derive(Debug, Drop)]
pub enum RegRefusal {
    /// The file has more than `MOST_BYTES` bytes: `size` of them.
    TooLarge { size: u64 },
    /// The bytes are no UTF-8, or the text is no TOML document. A document nests at most 80 deep.
    NotToml,
    /// A key of the document names no register. It is the first such key in the order of the keys' bytes.
    Unknown { key: Name },
    /// A register of stage 1 has no key.
    Missing { reg: Reg },
    /// The value at a register's key is no number below 2 ^ 64.
    BadValue { reg: Reg },
    /// A register's value sets a field that is not supported.
    Unsupported { at: Unsupported },
}

/// Why a register file gives no registers.
#[derive(Debug, Drop)]
pub enum RegError {
    /// The file is refused.
    Refused { why: RegRefusal },
    /// Memory was refused.
    NoMemory,
}

pub fn refused<T>(why: RegRefusal) -> Result<T, RegError>
    ensures { result ≡ Err (RegError.Refused why) }
{
    Err(RegError::Refused { why })
}
