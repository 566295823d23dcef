ghost use Rattle.std.specs.Prelude.{◌≡◌, ◌<◌, pos, ◌≤ℤ◌, IfSome, IfOk, IfErr};
ghost use Rattle.geometry.specs.Tables.{most_left, is_suited_at};
ghost use Rattle.sysregs.specs.Registers.{InRange, granule_of};
ghost use Rattle.fault_codes.specs.Status.{HasStatus};
ghost use Rattle.fault_codes.specs.declared.fault.Stage.TheVariants.{S2};
ghost use Rattle.table_reads.specs.Numbers.{AreSound, is_sized2};
ghost use Rattle.table_reads.specs.Items.{fault_at};
ghost use Rattle.stage2_walk.specs.Entered.{IsSized2, enter2_of};

use crate::sizes::{sizes2, start_level};
use bitwords::power;
use fault_codes::{Class, Fault, Stage};
use geometry::{case_table, suits2};
use sysregs::{Config, Tg};
use table_reads::{MOST_LEFT, Sizes, Walker, fault, is_sized};

/// Whether a stage 2 input size suits a start level.
fn is_suited(tg: Tg, start: i8, input: u32) -> bool
    requires least { pos 0 ≤ℤ start }
    requires most { start ≤ℤ pos 3 }
    ensures { result ≡ is_suited_at (granule_of tg) start input }
{
    case_table!(granule tg; suits2(start, input))
}

/// Whether stage 2's sizes are in range and suit each other.
#[tactic(auto, using(geometry::proofs::Sizes::start2_within, crate::proofs::Starts::left_below_of))]
fn has_sizes(config: &Config) -> bool
    requires { InRange config.now }
    ensures { result ≡ is_sized2 config.now }
{
    let Some(start) = start_level(config.tg2, config.sl0, config.sl2) else {
        return false;
    };
    if !is_sized(config.tg2, config.t2sz) {
        return false;
    }
    is_suited(config.tg2, start, 64 - config.t2sz)
}

/// The numbers of stage 2, where its sizes are in range and suit each other.
pub fn sized2(config: &Config) -> Option<Sizes>
    requires { InRange config.now }
    ensures sized { IsSized2 config.now result }
    ensures sound { IfSome result AreSound }
{
    if has_sizes(config) {
        Some(sizes2(config))
    } else {
        None
    }
}

/// A fault before any word.
pub(crate) fn refusal(s1ptw: bool, class: Class) -> Fault
    ensures value { result ≡ fault_at S2 s1ptw class most_left }
    ensures status { HasStatus result }
{
    let walker = Walker {
        moment: 0,
        stage: Stage::S2,
        s1ptw,
    };
    fault(&walker, class, MOST_LEFT)
}

/// What stage 2 checks before any table, with its numbers where they are in range and suit each other: the numbers, or
/// the fault of an IPA that is refused. `s1ptw` marks the place of a stage 1 descriptor.
pub fn enter2(sizes: Option<Sizes>, ipa: u64, s1ptw: bool) -> Result<Sizes, Fault>
    requires { IfSome sizes AreSound }
    ensures entered { (c : Config) → IsSized2 c sizes → result ≡ enter2_of c ipa s1ptw }
    ensures sound { IfOk result AreSound }
    ensures status { IfErr result HasStatus }
{
    match sizes {
        Some(sizes) if ipa < power(sizes.input) => Ok(sizes),
        _ => Err(refusal(s1ptw, Class::Translation)),
    }
}
