ghost use Rattle.std.specs.Prelude.{◌≡◌};
ghost use Rattle.sysregs.specs.Registers.{zero_regs, set_of, granule_of};

/// A register that steers translation in the EL1&0 regime.
#[derive(Clone, Copy, Debug, PartialEq, Eq)]
pub enum Reg {
    SctlrEl1,
    TcrEl1,
    Ttbr0El1,
    Ttbr1El1,
    MairEl1,
    HcrEl2,
    VtcrEl2,
    VttbrEl2,
}

/// The values of these registers.
#[derive(Clone, Copy, Debug, PartialEq, Eq)]
pub struct Regs {
    pub sctlr_el1: u64,
    pub tcr_el1: u64,
    pub ttbr0_el1: u64,
    pub ttbr1_el1: u64,
    pub mair_el1: u64,
    pub hcr_el2: u64,
    pub vtcr_el2: u64,
    pub vttbr_el2: u64,
}

impl Regs {
    /// All registers 0.
    pub fn zero() -> Regs
        ensures { result ≡ zero_regs }
    {
        Regs {
            sctlr_el1: 0,
            tcr_el1: 0,
            ttbr0_el1: 0,
            ttbr1_el1: 0,
            mair_el1: 0,
            hcr_el2: 0,
            vtcr_el2: 0,
            vttbr_el2: 0,
        }
    }

    /// Changes one register.
    pub fn set(&mut self, reg: Reg, value: u64)
        ensures { self.new ≡ set_of self.old reg value }
    {
        match reg {
            Reg::SctlrEl1 => self.sctlr_el1 = value,
            Reg::TcrEl1 => self.tcr_el1 = value,
            Reg::Ttbr0El1 => self.ttbr0_el1 = value,
            Reg::Ttbr1El1 => self.ttbr1_el1 = value,
            Reg::MairEl1 => self.mair_el1 = value,
            Reg::HcrEl2 => self.hcr_el2 = value,
            Reg::VtcrEl2 => self.vtcr_el2 = value,
            Reg::VttbrEl2 => self.vttbr_el2 = value,
        }
    }
}

/// An operation of TLBI, without its broadcast.
#[derive(Clone, Copy, Debug, PartialEq, Eq)]
pub enum Op {
    Vmalle1,
    Vae1,
    Vaae1,
    Vale1,
    Vaale1,
    Aside1,
    Ipas2e1,
    Ipas2le1,
    Vmalls12e1,
    Alle1,
    Rvae1,
    Rvaae1,
    Rvale1,
    Rvaale1,
    Ripas2e1,
    Ripas2le1,
}

/// The half of the virtual addresses that VA bit 55 names: the low one is translated by `TTBR0_EL1`, the high one by
/// `TTBR1_EL1`.
#[derive(Clone, Copy)]
pub enum Side {
    Low,
    High,
}

/// A translation granule of 4, 16 or 64 KB.
#[derive(Clone, Copy, PartialEq, Eq)]
pub enum Tg {
    K4,
    K16,
    K64,
}

impl Tg {
    /// The granule has `2 ^ granule` bytes.
    pub fn granule(self) -> u32
        ensures { result ≡ granule_of self }
    {
        match self {
            Tg::K4 => 12,
            Tg::K16 => 14,
            Tg::K64 => 16,
        }
    }
}

/// The register fields that steer a walk. A trailing 0 or 1 names the half of the addresses that a field of `TCR_EL1`
/// serves, but `ha1` and `hd1` serve both; a trailing 2 marks a field of `VTCR_EL2`. Each number is the field's raw code.
#[derive(Clone, Copy)]
pub struct Config {
    pub mair: u64,
    pub t0sz: u32,
    pub t1sz: u32,
    pub sh0: u32,
    pub sh1: u32,
    pub ips: u32,
    pub t2sz: u32,
    pub sl0: u32,
    pub sl2: u32,
    pub ps: u32,
    pub tg0: Tg,
    pub tg1: Tg,
    pub tg2: Tg,
    pub m: bool,
    pub i: bool,
    pub wxn: bool,
    pub epan: bool,
    pub epd0: bool,
    pub epd1: bool,
    pub tbi0: bool,
    pub tbi1: bool,
    pub tbid0: bool,
    pub tbid1: bool,
    pub e0pd0: bool,
    pub e0pd1: bool,
    pub hpd0: bool,
    pub hpd1: bool,
    pub ha1: bool,
    pub hd1: bool,
    pub vm: bool,
    pub ptw: bool,
    pub ha2: bool,
    pub hd2: bool,
}

/// A field that is refused where it is set.
#[derive(Clone, Copy, Debug, PartialEq, Eq)]
pub enum Field {
    Ee,
    Dc,
    Tge,
    Cd,
    Id,
    Fwb,
    Ds,
    Ha,
    Hd,
}

/// A register whose value sets a refused field.
#[derive(Clone, Copy, Debug, PartialEq, Eq)]
pub struct Unsupported {
    pub reg: Reg,
    pub field: Field,
}
