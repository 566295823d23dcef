//! What each stage refuses before its base.
ghost use Rattle.std.specs.Prelude.{◌≡◌, ◌≤◌, ◌<◌, ◌+◌, ◌-◌, ◌^◌, ◌==◌, pos};
ghost use Rattle.std.specs.Prelude.{◌≤ℤ◌, if◌then◌else◌, IsTrue, IfSome, IfOk};
ghost use Rattle.bitwords.specs.Fields.{bits_of, bit};
ghost use Rattle.sysregs.specs.Registers.{InRange};
ghost use Rattle.sysregs.specs.Sides.{side_of};
ghost use Rattle.table_reads.specs.Numbers.{AreSound, is_sized1};
ghost use Rattle.walk_spec.specs.BothStages.{top_bit, is_fetch, is_el0, is_refused1, is_refused_off};
ghost use Rattle.stage1_walk.specs.Sized.{IsSized1};
ghost use Rattle.translate.specs.Parts.{begin1_of, begin2_of, off1_of, enter1_of};

use crate::begin::Begin1;
use bitwords::{flag, power};
use fault_codes::{Class, Fault, Stage};
use permissions::{El, Kind};
use stage1_walk::sized1;
use stage2_walk::{enter2, sized2};
use sysregs::{Config, Side};
use table_reads::{MOST_LEFT, Sizes, Walker, fault, level};
use trails::Access;

pub(crate) fn is_fetch(kind: Kind) -> bool
    ensures { result ≡ is_fetch kind }
{
    matches!(kind, Kind::Fetch)
}

fn is_el0(el: El) -> bool
    ensures { result ≡ is_el0 el }
{
    matches!(el, El::El0)
}

/// The highest VA bit that counts: 55 where the upper byte is a tag, else 63.
fn top_bit(config: &Config, access: &Access) -> u32
    ensures value { result ≡ top_bit config.now access.now }
    ensures small { 55 ≤ result × result ≤ 63 }
{
    let side = sysregs::side(access.va);
    if config.tbi(side) & !(is_fetch(access.kind) & config.tbid(side)) {
        55
    } else {
        63
    }
}

/// Whether VA bits `top` down to `input` are all equal to bit 55.
fn is_extended(va: u64, top: u32, input: u32) -> bool
    requires { 12 ≤ input × input ≤ 52 × 55 ≤ top × top ≤ 63 }
    ensures { result ≡ (bits_of va top input == (if bit va 55 then 2 ^ (top - input + 1) - 1 else 0)) }
{
    let size = power(top - input + 1);
    let upper = va / power(input) % size;
    upper == if flag::<55>(va) { size - 1 } else { 0 }
}

/// Whether stage 1 refuses an access before any table, whose TxSZ is in range.
#[tactic(auto, unfolding(walk_spec::specs::BothStages::is_refused1))]
fn is_refused(config: &Config, access: &Access, side: Side, sizes: &Sizes) -> bool
    requires side { side ≡ side_of access.now.va }
    requires sized { IsTrue (is_sized1 config.now side) }
    requires sizes { sizes.now ≡ Rattle.table_reads.specs.Numbers.sizes1 config.now side }
    requires sound { AreSound sizes.now }
    ensures { result ≡ is_refused1 config.now access.now }
{
    let in_range = is_extended(access.va, top_bit(config, access), sizes.input);
    !in_range | (is_el0(access.el) & config.e0pd(side)) | config.epd(side)
}

/// Whether an access of more than 52 bits of address is refused while stage 1 is off.
fn is_refused_off(config: &Config, access: &Access) -> bool
    ensures { result ≡ is_refused_off config.now access.now }
{
    let size = power(top_bit(config, access) - 52 + 1);
    access.va / power(52) % size != 0
}

/// A fault before any table.
pub(crate) fn refusal(stage: Stage, s1ptw: bool, class: Class) -> Fault
    ensures { result ≡ Rattle.translate.specs.Parts.refusal stage s1ptw class }
{
    let walker = Walker {
        moment: 0,
        stage,
        s1ptw,
    };
    fault(&walker, class, MOST_LEFT)
}

/// The output of stage 1 in bytes while it is off, or the fault of an access that it refuses.
pub(crate) fn off1(config: &Config, access: &Access) -> Result<u64, Fault>
    ensures { result ≡ off1_of config.now access.now }
{
    if is_refused_off(config, access) {
        return Err(refusal(Stage::S1, false, Class::AddressSize));
    }
    Ok(access.va % (1 << 52))
}

/// What stage 1 checks before its base while it is on, with the numbers of the access's side where they are in range:
/// the numbers, or the fault of an access that it refuses.
pub(crate) fn enter1(
    config: &Config,
    access: &Access,
    side: Side,
    sizes: Option<Sizes>,
) -> Result<Sizes, Fault>
    requires side { side ≡ side_of access.now.va }
    requires sized { IsSized1 config.now side sizes }
    requires sound { IfSome sizes AreSound }
    ensures value { result ≡ enter1_of config.now access.now }
    ensures sound { IfOk result AreSound }
{
    match sizes {
        Some(sizes) if !is_refused(config, access, side, &sizes) => Ok(sizes),
        _ => Err(refusal(Stage::S1, false, Class::Translation)),
    }
}

/// What stage 1 checks before its base: the output of a stage that is off, or the side and its start level, or the
/// fault of an access that is refused.
pub fn begin1(config: &Config, access: &Access) -> Result<Begin1, Fault>
    requires { InRange config.now }
    ensures { result ≡ begin1_of config.now access.now }
{
    if !config.m {
        return match off1(config, access) {
            Ok(ipa) => Ok(Begin1::Off { ipa }),
            Err(fault) => Err(fault),
        };
    }
    let side = sysregs::side(access.va);
    match enter1(config, access, side, sized1(config, side)) {
        Ok(sizes) => Ok(Begin1::On {
            side,
            level: level(sizes.start),
        }),
        Err(fault) => Err(fault),
    }
}

/// What stage 2 checks before its base: the start level, or the fault of an IPA that is refused. `ptw` marks the place
/// of a stage 1 descriptor.
pub fn begin2(config: &Config, ipa: u64, ptw: bool) -> Result<i8, Fault>
    requires { InRange config.now }
    ensures { result ≡ begin2_of config.now ipa ptw }
{
    match enter2(sized2(config), ipa, ptw) {
        Ok(sizes) => Ok(level(sizes.start)),
        Err(fault) => Err(fault),
    }
}
