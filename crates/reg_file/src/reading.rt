ghost use Rattle.std.specs.Prelude.{◌≡◌, IfOk, IfErr, Ok};
ghost use Rattle.sysregs.specs.Refused.{AreAccepted};
ghost use Rattle.texts.specs.Results.{Fails, Gives};
ghost use Rattle.reg_file.specs.RegisterFile.{reg_refusal, regs_of};

use crate::entries::from_table;
use crate::refusals::{RegError, RegRefusal, refused};
use std::alloc::Global;
use std::str;
use sysregs::Regs;

/// The most bytes of a register file: 64 KiB.
pub const MOST_BYTES: usize = 65536;

fn registers(alloc: Global, bytes: &[u8]) -> Result<Regs, RegError>
    ensures { Gives reg_refusal (λ regs. regs) result (regs_of bytes.now) }
{
    if bytes.len() > MOST_BYTES {
        return refused(RegRefusal::TooLarge {
            size: bytes.len() as u64,
        });
    }
    let Ok(text) = str::from_utf8(bytes) else {
        return refused(RegRefusal::NotToml);
    };
    match toml::table_from_str(alloc, text) {
        Ok(table) => from_table(alloc, &table),
        Err(e) if e.is_memory() => Err(RegError::NoMemory),
        Err(_) => refused(RegRefusal::NotToml),
    }
}

/// The registers of a register file: a TOML document whose keys are names of registers in lower case (this project's
/// own rule). A value is an integer that isn't negative, or a string with a number as on the command line. The five
/// registers of stage 1 must be there, and the three of stage 2 are 0 where they are absent. The reasons of a refusal
/// come in the order of `RegRefusal`, and registers of one reason in the order of `Reg`.
pub fn read(alloc: Global, bytes: &[u8]) -> Result<Regs, RegError>
    ensures registers { IfOk result (λ regs. regs_of bytes.now ≡ Ok regs) }
    ensures accepted { IfOk result AreAccepted }
    ensures refused { IfErr result (λ e. Fails (reg_refusal e) (regs_of bytes.now)) }
{
    registers(alloc, bytes)
}
