//! What an operand names: an ASID, addresses, and the granule of a range.
ghost use Rattle.std.specs.Prelude.{◌≡◌, ◌≤◌, ◌<◌, ◌*◌, ◌^◌, min, ◌-◌, IfSome};
ghost use Rattle.sysregs.specs.declared.ops.Scope.TheVariants.{RangeVa, RangeIpa};
ghost use Rattle.tlbi_ops.specs.Operands.{asid_named, range_granule, range_bytes, cut_at, start_va, start_ipa, extent_by, granule_by};

use bitwords::{field, flag, power};
use sysregs::{OpForm, Regs, Scope};

/// So many bytes of address space from a start.
#[derive(Clone, Copy)]
pub struct Extent {
    pub start: u64,
    pub count: u64,
}

/// Where the virtual addresses that an invalidation tells apart end: after VA bit 55.
const END_VA: u64 = 1 << 56;

/// Where the IPAs end.
const END_IPA: u64 = 1 << 52;

/// The bytes of a page that is named by itself.
const PAGE: u64 = 4096;

/// The ASID that an operand names, of eight bits where the issuer's ASIDs have eight; 0 where the operation names none.
pub fn asid(regs: &Regs, form: OpForm, operand: u64) -> u16
    ensures { result ≡ asid_named regs.now form operand }
{
    if !form.asid {
        return 0;
    }
    if flag::<36>(regs.tcr_el1) {
        field::<63, 48>(operand) as u16
    } else {
        field::<55, 48>(operand) as u16
    }
}

/// The granule of a range has `2 ^ granule` bytes. None for the reserved code.
fn granule_in(operand: u64) -> Option<u32>
    ensures is { result ≡ range_granule operand }
    ensures small { IfSome result (λ g. g ≤ 16) }
{
    match field::<47, 46>(operand) {
        1 => Some(12),
        2 => Some(14),
        3 => Some(16),
        _ => None,
    }
}

/// The granule of a range, and None of another operand.
pub fn granule(scope: Scope, operand: u64) -> Option<u32>
    ensures { result ≡ granule_by operand scope }
{
    match scope {
        Scope::RangeVa | Scope::RangeIpa => granule_in(operand),
        _ => None,
    }
}

/// The bytes of a range, at most `2 ^ 37`.
fn range_bytes(granule: u32, operand: u64) -> u64
    requires { granule ≤ 16 }
    ensures { result ≡ range_bytes granule operand }
{
    let granules = (field::<43, 39>(operand) + 1) << (5 * field::<45, 44>(operand) as u32 + 1);
    granules << granule
}

/// Where a range of IPAs starts.
fn ipa_start(granule: u32, operand: u64) -> u64
    requires { granule ≤ 16 }
    ensures { result ≡ start_ipa granule operand }
{
    field::<36, 0>(operand) << granule
}

/// Where a range of virtual addresses starts: its top bit is extended up to bit 55.
fn va_start(granule: u32, operand: u64) -> u64
    requires { granule ≤ 16 }
    ensures { result ≡ start_va granule operand }
{
    let start = field::<36, 0>(operand) << granule;
    if flag::<36>(operand) {
        start + (END_VA - power(37 + granule))
    } else {
        start
    }
}

/// A range from a start on, which ends at the latest where the address space ends.
fn cut(end: u64, start: u64, count: u64) -> Extent
    ensures { result ≡ cut_at end start count }
{
    Extent {
        start,
        count: count.min(end.saturating_sub(start)),
    }
}

/// No address.
fn nothing() -> Extent
    ensures { result ≡ record { start = 0; count = 0 } }
{
    Extent { start: 0, count: 0 }
}

/// The virtual addresses of a range.
fn range_va(operand: u64) -> Extent
    ensures { result ≡ extent_by operand RangeVa }
{
    let Some(granule) = granule_in(operand) else {
        return nothing();
    };
    let start = va_start(granule, operand);
    cut(END_VA, start, range_bytes(granule, operand))
}

/// The IPAs of a range.
fn range_ipa(operand: u64) -> Extent
    ensures { result ≡ extent_by operand RangeIpa }
{
    let Some(granule) = granule_in(operand) else {
        return nothing();
    };
    let start = ipa_start(granule, operand);
    cut(END_IPA, start, range_bytes(granule, operand))
}

/// The addresses of an operand; all, where the operation names none.
pub fn addresses(scope: Scope, operand: u64) -> Extent
    ensures { result ≡ extent_by operand scope }
{
    match scope {
        Scope::PageVa => Extent {
            start: PAGE * field::<43, 0>(operand),
            count: PAGE,
        },
        Scope::PageIpa => Extent {
            start: PAGE * field::<39, 0>(operand),
            count: PAGE,
        },
        Scope::RangeVa => range_va(operand),
        Scope::RangeIpa => range_ipa(operand),
        _ => Extent {
            start: 0,
            count: END_VA,
        },
    }
}
