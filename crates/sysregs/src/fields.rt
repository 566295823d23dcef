//! The fields of the registers.
ghost use Rattle.std.specs.Prelude.{◌≡◌, ◌<◌, ◌≤◌, ◌^◌, Some, None, IfOk, MatchResult};
ghost use Rattle.sysregs.specs.Registers.{tg0_of, tg1_of, granule_of, config_of, InRange, id_in, asid_of, vmid_of};
ghost use Rattle.sysregs.specs.Registers.{size_named, output_size, base_field, ttbr_base, vttbr_base};
ghost use Rattle.sysregs.specs.Refused.{refused_field, msr_refused_field};

use crate::regs::{Config, Field, Reg, Regs, Side, Tg, Unsupported};
use bitwords::{field, flag};

/// TG0 of `TCR_EL1` or `VTCR_EL2`. The reserved code is read as 4 KB.
fn tg0(code: u64) -> Tg
    ensures { result ≡ tg0_of code }
{
    match code {
        1 => Tg::K64,
        2 => Tg::K16,
        _ => Tg::K4,
    }
}

/// TG1 of `TCR_EL1`. The reserved code is read as 4 KB.
fn tg1(code: u64) -> Tg
    ensures { result ≡ tg1_of code }
{
    match code {
        1 => Tg::K16,
        3 => Tg::K64,
        _ => Tg::K4,
    }
}

/// The eight attributes of `MAIR_EL1`, a byte each.
fn mair(regs: &Regs) -> u64
    ensures is { result ≡ regs.now.mair_el1 }
    ensures in_word { result < 2 ^ 64 }
{
    regs.mair_el1
}

/// The fields that steer a walk.
pub fn config(regs: &Regs) -> Config
    ensures is { result ≡ config_of regs.now }
    ensures in_range { InRange result }
{
    Config {
        mair: mair(regs),
        t0sz: field::<5, 0>(regs.tcr_el1) as u32,
        t1sz: field::<21, 16>(regs.tcr_el1) as u32,
        sh0: field::<13, 12>(regs.tcr_el1) as u32,
        sh1: field::<29, 28>(regs.tcr_el1) as u32,
        ips: field::<34, 32>(regs.tcr_el1) as u32,
        t2sz: field::<5, 0>(regs.vtcr_el2) as u32,
        sl0: field::<7, 6>(regs.vtcr_el2) as u32,
        sl2: field::<33, 33>(regs.vtcr_el2) as u32,
        ps: field::<18, 16>(regs.vtcr_el2) as u32,
        tg0: tg0(field::<15, 14>(regs.tcr_el1)),
        tg1: tg1(field::<31, 30>(regs.tcr_el1)),
        tg2: tg0(field::<15, 14>(regs.vtcr_el2)),
        m: flag::<0>(regs.sctlr_el1),
        i: flag::<12>(regs.sctlr_el1),
        wxn: flag::<19>(regs.sctlr_el1),
        epan: flag::<57>(regs.sctlr_el1),
        epd0: flag::<7>(regs.tcr_el1),
        epd1: flag::<23>(regs.tcr_el1),
        tbi0: flag::<37>(regs.tcr_el1),
        tbi1: flag::<38>(regs.tcr_el1),
        tbid0: flag::<51>(regs.tcr_el1),
        tbid1: flag::<52>(regs.tcr_el1),
        e0pd0: flag::<55>(regs.tcr_el1),
        e0pd1: flag::<56>(regs.tcr_el1),
        hpd0: flag::<41>(regs.tcr_el1),
        hpd1: flag::<42>(regs.tcr_el1),
        ha1: flag::<39>(regs.tcr_el1),
        hd1: flag::<40>(regs.tcr_el1),
        vm: flag::<0>(regs.hcr_el2),
        ptw: flag::<2>(regs.hcr_el2),
        ha2: flag::<21>(regs.vtcr_el2),
        hd2: flag::<22>(regs.vtcr_el2),
    }
}

/// An ASID or VMID in bits 63:48, of which the upper eight count only where `wide`.
fn id(w: u64, wide: bool) -> u16
    ensures { result ≡ id_in w wide }
{
    if wide {
        field::<63, 48>(w) as u16
    } else {
        field::<55, 48>(w) as u16
    }
}

/// The ASID in force.
pub fn asid(regs: &Regs) -> u16
    ensures { result ≡ asid_of regs.now }
{
    let ttbr = if flag::<22>(regs.tcr_el1) {
        regs.ttbr1_el1
    } else {
        regs.ttbr0_el1
    };
    id(ttbr, flag::<36>(regs.tcr_el1))
}

/// The VMID in force.
pub fn vmid(regs: &Regs) -> u16
    ensures { result ≡ vmid_of regs.now }
{
    id(regs.vttbr_el2, flag::<19>(regs.vtcr_el2))
}

/// The output size in bits that IPS or PS gives with a granule, from 32 to 52.
pub fn output_size(granule: Tg, code: u32) -> u32
    requires { code < 8 }
    ensures value { result ≡ output_size (granule_of granule) code }
    ensures small { (32 ≤ result) × (result ≤ 52) }
{
    let named = match code {
        0 => 32,
        1 => 36,
        2 => 40,
        3 => 42,
        4 => 44,
        5 => 48,
        _ => 52,
    };
    match granule {
        Tg::K64 => named,
        Tg::K4 | Tg::K16 => named.min(48),
    }
}

/// The base in a TTBR or VTTBR.
fn base(granule: Tg, code: u32, w: u64) -> u64
    ensures { result ≡ base_field (granule_of granule) code w }
{
    if granule == Tg::K64 && code >= 6 {
        return (field::<5, 2>(w) << 48) | (field::<47, 6>(w) << 6);
    }
    field::<47, 1>(w) << 1
}

/// The base of a side's start table in bytes, not yet aligned to the table's size.
pub fn base1(regs: &Regs, side: Side) -> u64
    ensures { result ≡ ttbr_base regs.now side }
{
    let config = config(regs);
    match side {
        Side::Low => base(config.tg0, config.ips, regs.ttbr0_el1),
        Side::High => base(config.tg1, config.ips, regs.ttbr1_el1),
    }
}

/// The base of the stage 2 start table in bytes, not yet aligned to the table's size.
pub fn base2(regs: &Regs) -> u64
    ensures { result ≡ vttbr_base regs.now }
{
    let config = config(regs);
    base(config.tg2, config.ps, regs.vttbr_el2)
}

/// Refuses exactly where the value sets a refused field of the register, and names the lowest.
pub fn check_reg(reg: Reg, value: u64) -> Result<(), Unsupported>
    ensures { MatchResult result (λ _. refused_field reg value ≡ None) (λ e. (e.reg ≡ reg) × (refused_field reg value ≡ Some e.field)) }
{
    let field = match reg {
        Reg::SctlrEl1 if flag::<25>(value) => Field::Ee,
        Reg::TcrEl1 if flag::<59>(value) => Field::Ds,
        Reg::HcrEl2 if flag::<12>(value) => Field::Dc,
        Reg::HcrEl2 if flag::<27>(value) => Field::Tge,
        Reg::HcrEl2 if flag::<32>(value) => Field::Cd,
        Reg::HcrEl2 if flag::<33>(value) => Field::Id,
        Reg::HcrEl2 if flag::<46>(value) => Field::Fwb,
        Reg::VtcrEl2 if flag::<32>(value) => Field::Ds,
        _ => return Ok(()),
    };
    Err(Unsupported { reg, field })
}

/// Refuses a register write of a trace exactly where it sets a field that a run doesn't support, and names the lowest.
/// What `check_reg` refuses is refused here too.
pub fn check_msr(reg: Reg, value: u64) -> Result<(), Unsupported>
    ensures refusal { MatchResult result (λ _. msr_refused_field reg value ≡ None) (λ e. (e.reg ≡ reg)
        × (msr_refused_field reg value ≡ Some e.field)) }
    ensures accepted { IfOk result (λ _. refused_field reg value ≡ None) }
{
    let field = match reg {
        Reg::TcrEl1 if flag::<39>(value) => Field::Ha,
        Reg::TcrEl1 if flag::<40>(value) => Field::Hd,
        Reg::VtcrEl2 if flag::<21>(value) => Field::Ha,
        Reg::VtcrEl2 if flag::<22>(value) => Field::Hd,
        _ => return check_reg(reg, value),
    };
    Err(Unsupported { reg, field })
}
