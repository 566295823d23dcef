//! What a TLBI gives.
ghost use Rattle.std.specs.Prelude.{◌≡◌};
ghost use Rattle.tlbi_ops.specs.Operands.{inval_of, is_broadcast};

use crate::inval::Inval;
use crate::operands::{addresses, asid, granule};
use bitwords::flag;
use sysregs::fields::vmid;
use sysregs::{Op, Regs, Scope};

/// Whether every core is reached.
fn is_broadcast(scope: Scope, shared: bool, at_el1: bool, regs: &Regs) -> bool
    ensures { result ≡ is_broadcast scope shared at_el1 regs.now }
{
    shared || (at_el1 && flag::<9>(regs.hcr_el2) && scope.is_of_el1())
}

/// What a core's TLBI gives, by its registers in force. `shared` is the IS form, `issued` the number of the event.
#[tactic(auto, unfolding(crate::specs::Operands::inval_of))]
pub fn decode(
    op: Op,
    shared: bool,
    at_el1: bool,
    operand: u64,
    regs: &Regs,
    issuer: u8,
    issued: u32,
) -> Inval
    ensures { result ≡ inval_of op shared at_el1 operand regs.now issuer issued }
{
    let form = op.form();
    let extent = addresses(form.scope, operand);
    Inval {
        start: extent.start,
        count: extent.count,
        granule: granule(form.scope, operand),
        issued,
        asid: asid(regs, form, operand),
        vmid: vmid(regs),
        op,
        issuer,
        broadcast: is_broadcast(form.scope, shared, at_el1, regs),
    }
}
