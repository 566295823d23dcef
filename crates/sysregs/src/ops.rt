ghost use Rattle.std.specs.Prelude.{◌≡◌, ◌≤◌, length};
ghost use Rattle.sysregs.specs.Ops.{op_text, form_of, has_operand, is_of_el1};

use crate::regs::Op;

/// The cached rows among which an operation of TLBI looks.
#[derive(Clone, Copy, Debug, PartialEq, Eq)]
pub enum Scope {
    /// All rows, of every VMID. All other scopes are of one VMID.
    All,
    /// Both stages.
    Vmid,
    /// Stage 1.
    Stage1,
    /// Stage 1 of one ASID, without the global rows.
    Asid,
    /// Stage 1 of one page, named by `VA[55:12]` in bits 43:0 of the operand.
    PageVa,
    /// Stage 2 of one page, named by `IPA[51:12]` in bits 39:0.
    PageIpa,
    /// Stage 1 of a range of virtual addresses.
    RangeVa,
    /// Stage 2 of a range of IPAs.
    RangeIpa,
}

impl Scope {
    /// Whether an operation of this scope has an operand.
    pub fn has_operand(self) -> bool
        ensures { result ≡ has_operand self }
    {
        !matches!(self, Scope::All | Scope::Vmid | Scope::Stage1)
    }

    /// Whether EL1 may issue the operation. `HCR_EL2.FB` makes the local form of just these broadcast there.
    pub fn is_of_el1(self) -> bool
        ensures { result ≡ is_of_el1 self }
    {
        matches!(
            self,
            Scope::Stage1 | Scope::Asid | Scope::PageVa | Scope::RangeVa
        )
    }
}

/// What an operation of TLBI does by its name.
#[derive(Clone, Copy, Debug, PartialEq, Eq)]
pub struct OpForm {
    pub scope: Scope,
    /// Of the rows that aren't global it takes those of one ASID, which bits 63:48 of the operand name.
    pub asid: bool,
    /// It spares tables.
    pub last_level: bool,
}

fn row(name: &'static str, scope: Scope, asid: bool, last_level: bool) -> (&'static str, OpForm)
    ensures name { result.0.now ≡ name.now }
    ensures form { result.1 ≡ record { scope = scope; asid = asid; last_level = last_level } }
{
    (
        name,
        OpForm {
            scope,
            asid,
            last_level,
        },
    )
}

impl Op {
    /// The operation's name without its IS, and what it does.
    fn row(self) -> (&'static str, OpForm)
        ensures text { result.0.now ≡ op_text self }
        ensures short { length result.0.now ≤ 10 }
        ensures form { result.1 ≡ form_of self }
    {
        match self {
            Op::Vmalle1 => row("VMALLE1", Scope::Stage1, false, false),
            Op::Vae1 => row("VAE1", Scope::PageVa, true, false),
            Op::Vaae1 => row("VAAE1", Scope::PageVa, false, false),
            Op::Vale1 => row("VALE1", Scope::PageVa, true, true),
            Op::Vaale1 => row("VAALE1", Scope::PageVa, false, true),
            Op::Aside1 => row("ASIDE1", Scope::Asid, true, false),
            Op::Ipas2e1 => row("IPAS2E1", Scope::PageIpa, false, false),
            Op::Ipas2le1 => row("IPAS2LE1", Scope::PageIpa, false, true),
            Op::Vmalls12e1 => row("VMALLS12E1", Scope::Vmid, false, false),
            Op::Alle1 => row("ALLE1", Scope::All, false, false),
            Op::Rvae1 => row("RVAE1", Scope::RangeVa, true, false),
            Op::Rvaae1 => row("RVAAE1", Scope::RangeVa, false, false),
            Op::Rvale1 => row("RVALE1", Scope::RangeVa, true, true),
            Op::Rvaale1 => row("RVAALE1", Scope::RangeVa, false, true),
            Op::Ripas2e1 => row("RIPAS2E1", Scope::RangeIpa, false, false),
            Op::Ripas2le1 => row("RIPAS2LE1", Scope::RangeIpa, false, true),
        }
    }

    /// The operation's name in capitals without its IS, as `VAE1`.
    pub fn name(self) -> &'static str
        ensures text { result.now ≡ op_text self }
        ensures short { length result.now ≤ 10 }
    {
        self.row().0
    }

    /// What the operation does.
    pub fn form(self) -> OpForm
        ensures { result ≡ form_of self }
    {
        self.row().1
    }
}
