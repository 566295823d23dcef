ghost use Rattle.std.specs.Prelude.{◌≡◌, ◌≤◌, length};
ghost use Rattle.sysregs.specs.Names.{reg_text, reg_key, field_text};

use crate::regs::{Field, Reg};

impl Reg {
    /// The register's name in capitals, as `TCR_EL1`.
    pub fn name(self) -> &'static str
        ensures text { result.now ≡ reg_text self }
        ensures short { length result.now ≤ 9 }
    {
        match self {
            Reg::SctlrEl1 => "SCTLR_EL1",
            Reg::TcrEl1 => "TCR_EL1",
            Reg::Ttbr0El1 => "TTBR0_EL1",
            Reg::Ttbr1El1 => "TTBR1_EL1",
            Reg::MairEl1 => "MAIR_EL1",
            Reg::HcrEl2 => "HCR_EL2",
            Reg::VtcrEl2 => "VTCR_EL2",
            Reg::VttbrEl2 => "VTTBR_EL2",
        }
    }

    /// The register's name in lower case, as `tcr_el1`.
    pub fn key(self) -> &'static str
        ensures text { result.now ≡ reg_key self }
        ensures short { length result.now ≤ 9 }
    {
        match self {
            Reg::SctlrEl1 => "sctlr_el1",
            Reg::TcrEl1 => "tcr_el1",
            Reg::Ttbr0El1 => "ttbr0_el1",
            Reg::Ttbr1El1 => "ttbr1_el1",
            Reg::MairEl1 => "mair_el1",
            Reg::HcrEl2 => "hcr_el2",
            Reg::VtcrEl2 => "vtcr_el2",
            Reg::VttbrEl2 => "vttbr_el2",
        }
    }
}

impl Field {
    /// The field's name in capitals, as `DS`.
    pub fn name(self) -> &'static str
        ensures text { result.now ≡ field_text self }
        ensures short { length result.now ≤ 3 }
    {
        match self {
            Field::Ee => "EE",
            Field::Dc => "DC",
            Field::Tge => "TGE",
            Field::Cd => "CD",
            Field::Id => "ID",
            Field::Fwb => "FWB",
            Field::Ds => "DS",
            Field::Ha => "HA",
            Field::Hd => "HD",
        }
    }
}
