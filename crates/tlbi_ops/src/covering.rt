//! Which cached rows an invalidation covers.
ghost use Rattle.std.specs.Prelude.{◌≡◌, ◌+◌, ◌^◌, nat_lt};
ghost use Rattle.tlbi_ops.specs.Covers.{shares_address, is_of_granule, holds_va, holds_ipa, is_in, suits_asid, suits_level, suits_vmid, takes, covers};

use crate::inval::{Inval, Tag};
use fault_codes::Stage;
use sysregs::{OpForm, Scope};

/// Whether the row's region reaches beyond where the invalidation starts.
fn ends_behind(start: u64, tag: &Tag) -> bool
    ensures { result ≡ nat_lt start (tag.now.start + 2 ^ tag.now.class) }
{
    tag.class >= 64 || start.saturating_sub(tag.start) >> tag.class == 0
}

/// Whether the addresses of the invalidation and of the row have one in common.
fn shares_address(inval: &Inval, tag: &Tag) -> bool
    ensures { result ≡ shares_address inval.now tag.now }
{
    tag.start.saturating_sub(inval.start) < inval.count && ends_behind(inval.start, tag)
}

/// Whether the row was read with the granule of the range.
fn in_granule(inval: &Inval, tag: &Tag) -> bool
    ensures { result ≡ is_of_granule inval.now.granule tag.now }
{
    match inval.granule {
        Some(granule) => granule == tag.granule,
        None => false,
    }
}

/// Whether it is a stage 1 row that has an address in common.
fn holds_va(inval: &Inval, tag: &Tag) -> bool
    ensures { result ≡ holds_va inval.now tag.now }
{
    tag.stage == Stage::S1 && shares_address(inval, tag)
}

/// Whether it is a stage 2 row that has an address in common.
fn holds_ipa(inval: &Inval, tag: &Tag) -> bool
    ensures { result ≡ holds_ipa inval.now tag.now }
{
    tag.stage == Stage::S2 && shares_address(inval, tag)
}

/// Whether the row is one of the scope, whatever its VMID.
fn is_in(scope: Scope, inval: &Inval, tag: &Tag) -> bool
    ensures { result ≡ is_in scope inval.now tag.now }
{
    match scope {
        Scope::All | Scope::Vmid => true,
        Scope::Stage1 => tag.stage == Stage::S1,
        Scope::Asid => tag.stage == Stage::S1 && !tag.global,
        Scope::PageVa => holds_va(inval, tag),
        Scope::PageIpa => holds_ipa(inval, tag),
        Scope::RangeVa => in_granule(inval, tag) && holds_va(inval, tag),
        Scope::RangeIpa => in_granule(inval, tag) && holds_ipa(inval, tag),
    }
}

/// Whether the row is global or of the ASID that the operand names, where it names one.
fn suits_asid(form: OpForm, inval: &Inval, tag: &Tag) -> bool
    ensures { result ≡ suits_asid form inval.now tag.now }
{
    !form.asid || tag.global || inval.asid == tag.asid
}

/// Whether the row is no table, where the operation spares tables.
fn suits_level(form: OpForm, tag: &Tag) -> bool
    ensures { result ≡ suits_level form tag.now }
{
    !(form.last_level && tag.table)
}

/// Whether an operation of this form takes the row, whatever its VMID.
fn takes(form: OpForm, inval: &Inval, tag: &Tag) -> bool
    ensures { result ≡ takes form inval.now tag.now }
{
    is_in(form.scope, inval, tag) && suits_asid(form, inval, tag) && suits_level(form, tag)
}

/// Whether the operation is of every VMID, or the row of its own.
fn suits_vmid(scope: Scope, inval: &Inval, tag: &Tag) -> bool
    ensures { result ≡ suits_vmid scope inval.now tag.now }
{
    scope == Scope::All || inval.vmid == tag.vmid
}

/// Whether the invalidation covers the row.
#[tactic(auto, unfolding(crate::specs::Covers::covers))]
pub fn covers(inval: &Inval, tag: &Tag) -> bool
    ensures { result ≡ covers inval.now tag.now }
{
    let form = inval.op.form();
    suits_vmid(form.scope, inval, tag) && takes(form, inval, tag)
}
