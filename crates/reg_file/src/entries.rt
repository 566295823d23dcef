ghost use Rattle.std.specs.Prelude.{◌≡◌, option_map, find, is_none, Some, None, IfOk, IfErr};
ghost use Rattle.toml.specs.View.{view, table_view};
ghost use Rattle.sysregs.specs.Names.{reg_key};
ghost use Rattle.texts.specs.Results.{Gives};
ghost use Rattle.reg_file.specs.RegisterFile.{is_known, number_from, number_at, first_unknown, entry, needed_regs, all_regs};
ghost use Rattle.reg_file.specs.RegisterFile.{reg_refusal, none_is, numbers_in, refused_at, first_refused, regs_in};
ghost use Rattle.reg_file.specs.declared.refusals.RegRefusal.TheVariants as why;

use crate::name::Name;
use crate::refusals::{RegError, RegRefusal, refused};
use std::alloc::Global;
use sysregs::fields::check_reg;
use sysregs::{Reg, Regs};
use texts::number;
use toml::{Table, Value};

/// The registers that a file must have.
const NEEDED: [Reg; 5] = [
    Reg::SctlrEl1,
    Reg::TcrEl1,
    Reg::Ttbr0El1,
    Reg::Ttbr1El1,
    Reg::MairEl1,
];

/// All registers.
const ALL: [Reg; 8] = [
    Reg::SctlrEl1,
    Reg::TcrEl1,
    Reg::Ttbr0El1,
    Reg::Ttbr1El1,
    Reg::MairEl1,
    Reg::HcrEl2,
    Reg::VtcrEl2,
    Reg::VttbrEl2,
];

fn known(key: &str) -> bool
    ensures { result ≡ is_known key.now }
{
    for reg in ALL {
        if key == reg.key() {
            return true;
        }
    }
    false
}

/// Refuses the first key that names no register.
fn all_known(alloc: Global, table: &Table) -> Result<(), RegError>
    ensures { Gives reg_refusal (λ u. u) result (none_is why.Unknown (first_unknown (table_view table.now))) }
{
    for (key, _value) in table.iter() {
        if !known(key.as_str()) {
            return match Name::of(alloc, key.as_str()) {
                Ok(key) => refused(RegRefusal::Unknown { key }),
                Err(_) => Err(RegError::NoMemory),
            };
        }
    }
    Ok(())
}

fn entry<'a>(table: &'a Table, reg: Reg) -> Option<&'a Value>
    ensures { option_map (λ v. view v.now) result ≡ entry (table_view table.now) reg }
{
    table.get(reg.key())
}

/// Refuses the first register that must be there and isn't.
fn all_there(table: &Table) -> Result<(), RegError>
    ensures { Gives reg_refusal (λ u. u) result (none_is why.Missing (find (λ reg. is_none (entry (table_view table.now) reg)) needed_regs)) }
{
    for reg in NEEDED {
        if entry(table, reg).is_none() {
            return refused(RegRefusal::Missing { reg });
        }
    }
    Ok(())
}

fn number_in(value: &Value) -> Option<u64>
    ensures { result ≡ number_from (view value.now) }
{
    match value {
        Value::Integer(n) => u64::try_from(*n).ok(),
        Value::String(text) => number(text.as_bytes()),
        _ => None,
    }
}

/// The number of a register, which is 0 where its key is absent.
fn number_at(table: &Table, reg: Reg) -> Option<u64>
    ensures { result ≡ number_at (table_view table.now) reg }
{
    match entry(table, reg) {
        Some(value) => number_in(value),
        None => Some(0),
    }
}

fn value_at(table: &Table, reg: Reg) -> Result<u64, RegError>
    ensures good { IfOk result (λ n. number_at (table_view table.now) reg ≡ Some n) }
    ensures bad { IfErr result (λ e. (number_at (table_view table.now) reg ≡ None) × (e ≡ RegError.Refused (why.BadValue reg))) }
{
    match number_at(table, reg) {
        Some(n) => Ok(n),
        None => refused(RegRefusal::BadValue { reg }),
    }
}

fn numbers(table: &Table) -> Result<Regs, RegError>
    ensures { Gives reg_refusal (λ regs. regs) result (numbers_in (table_view table.now)) }
{
    Ok(Regs {
        sctlr_el1: value_at(table, Reg::SctlrEl1)?,
        tcr_el1: value_at(table, Reg::TcrEl1)?,
        ttbr0_el1: value_at(table, Reg::Ttbr0El1)?,
        ttbr1_el1: value_at(table, Reg::Ttbr1El1)?,
        mair_el1: value_at(table, Reg::MairEl1)?,
        hcr_el2: value_at(table, Reg::HcrEl2)?,
        vtcr_el2: value_at(table, Reg::VtcrEl2)?,
        vttbr_el2: value_at(table, Reg::VttbrEl2)?,
    })
}

fn supported(reg: Reg, value: u64) -> Result<(), RegError>
    ensures { Gives reg_refusal (λ u. u) result (none_is why.Unsupported (refused_at reg value)) }
{
    match check_reg(reg, value) {
        Ok(()) => Ok(()),
        Err(at) => refused(RegRefusal::Unsupported { at }),
    }
}

/// Refuses the first register that sets a refused field.
fn all_supported(regs: &Regs) -> Result<(), RegError>
    ensures { Gives reg_refusal (λ u. u) result (none_is why.Unsupported (first_refused regs.now all_regs)) }
{
    supported(Reg::SctlrEl1, regs.sctlr_el1)?;
    supported(Reg::TcrEl1, regs.tcr_el1)?;
    supported(Reg::Ttbr0El1, regs.ttbr0_el1)?;
    supported(Reg::Ttbr1El1, regs.ttbr1_el1)?;
    supported(Reg::MairEl1, regs.mair_el1)?;
    supported(Reg::HcrEl2, regs.hcr_el2)?;
    supported(Reg::VtcrEl2, regs.vtcr_el2)?;
    supported(Reg::VttbrEl2, regs.vttbr_el2)
}

/// The registers of a table.
pub fn from_table(alloc: Global, table: &Table) -> Result<Regs, RegError>
    ensures { Gives reg_refusal (λ regs. regs) result (regs_in (table_view table.now)) }
{
    all_known(alloc, table)?;
    all_there(table)?;
    let regs = numbers(table)?;
    all_supported(&regs)?;
    Ok(regs)
}
