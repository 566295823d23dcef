ghost use Rattle.std.specs.Prelude.{◌≡◌, ◌≤◌, ◌<◌, ◌^◌, ◌%◌, if◌then◌else◌, None, IfOk, IfErr};
ghost use Rattle.geometry.specs.Tables.{most_left};
ghost use Rattle.sysregs.specs.Registers.{granule_of};
ghost use Rattle.fault_codes.specs.Status.{HasStatus, HasLevel};
ghost use Rattle.fault_codes.specs.declared.fault.Class.TheVariants.{Permission, AddressSize};
ghost use Rattle.descriptors.specs.Meaning.{means2_of};
ghost use Rattle.descriptors.specs.Bounds.{IsBounded2};
ghost use Rattle.table_reads.specs.Places;
ghost use Rattle.walk_spec.specs.Stage2.{fault2, leaf2_of, step2, step2_by};
ghost use Rattle.stage2_walk.specs.Under.{IsUnder, asked_under};
ghost use Rattle.stage2_walk.specs.SoundSteps.{IsSoundStep, IsSoundLeaf, GoesDown, IsLast, IsTarget, leaf_at, EndsIn, kind_of};

use crate::under::Under2;
use attributes::types::{s2_attr, share};
use bitwords::{field, flag};
use descriptors::{Kind2, means2, table2};
use fault_codes::{Class, Fault};
use geometry::{case_table, goes_to, leaf_class};
use permissions::perms2;
use sysregs::{Config, Tg};
use table_reads::{Lead, fault, is_too_large, level};
use walk_spec::{Fields2, Leaf2};

/// The last word that a walk reads, which leads down to no table: its value, its place in bytes, and how many levels are left.
#[derive(Clone, Copy)]
pub struct Last2 {
    pub word: u64,
    pub place: u64,
    pub left: u32,
}

/// What a word means, and that it keeps to its bounds.
#[inline(always)]
#[tactic(auto, using(descriptors::proofs::Bounds::bounded2))]
pub(crate) fn meaning<const G: u32>(left: u32, word: u64, config: &Config) -> Kind2
    requires granule { G ≡ granule_of config.now.tg2 }
    requires left { left ≤ most_left }
    ensures value { result ≡ means2_of config.now left word }
    ensures bounded { IsBounded2 left result }
{
    means2::<G>(word, left, config)
}

/// What a block or page gives whose word stands at a place.
#[tactic(auto, using(geometry::proofs::Leaves::leaf_class_least, geometry::proofs::Leaves::goes_to_eights))]
#[inline(always)]
fn leaf<const G: u32>(under: &Under2, left: u32, place: u64, fields: &Fields2) -> Leaf2
    requires granule { G ≡ granule_of under.now.config.now.tg2 }
    requires under { IsUnder under.now }
    requires left { left ≤ most_left }
    requires fields { fields.now.out < 2 ^ 52 × fields.now.mem_attr < 16 × fields.now.xn < 4 × fields.now.sh < 4 }
    ensures value { result ≡ leaf2_of (asked_under under.now) left place fields.now }
    ensures eights { result.pa % 8 ≡ under.now.ipa % 8 }
    ensures level { HasLevel Permission result.level }
{
    let dirty = under.config.ha2 & under.config.hd2;
    let class = leaf_class::<G>(
        under.sizes.input,
        left,
        fields.out,
        fields.contiguous,
        place,
    );
    Leaf2 {
        pa: goes_to(fields.out, class, under.ipa),
        class,
        level: level(left),
        perms: perms2(fields.read, fields.write, fields.xn, fields.dbm, dirty),
        mem: s2_attr(fields.mem_attr),
        sh: share(fields.sh),
    }
}

/// A step that ends in a fault.
#[inline(always)]
fn stop(under: &Under2, class: Class, left: u32) -> Lead<Leaf2, u64>
    requires { left ≤ most_left }
    ensures value { result ≡ Lead.Stopped (fault2 (asked_under under.now) class left) }
    ensures sound { IsSoundStep left under.now.ipa result }
{
    Lead::Stopped {
        fault: fault(&under.walker(), class, left),
    }
}

/// Where a table leads.
#[inline(always)]
fn down(under: &Under2, left: u32, next: u64) -> Lead<Leaf2, u64>
    requires under { IsUnder under.now }
    requires left { 0 < left × left ≤ most_left }
    requires table { next < 2 ^ 52 × next % 8 ≡ 0 }
    ensures value { result ≡ (if Places.is_too_large under.now.sizes next then Lead.Stopped (fault2 (asked_under under.now) AddressSize left)
        else Lead.Down next) }
    ensures sound { IsSoundStep left under.now.ipa result }
{
    if is_too_large(&under.sizes, next) {
        stop(under, Class::AddressSize, left)
    } else {
        Lead::Down { table: next }
    }
}

/// Where a block or page leads whose word stands at a place. `af` is its access flag.
#[inline(always)]
fn reach<const G: u32>(
    under: &Under2,
    left: u32,
    place: u64,
    af: bool,
    fields: &Fields2,
) -> Lead<Leaf2, u64>
    requires granule { G ≡ granule_of under.now.config.now.tg2 }
    requires under { IsUnder under.now }
    requires left { left ≤ most_left }
    requires fields { fields.now.out < 2 ^ 52 × fields.now.mem_attr < 16 × fields.now.xn < 4 × fields.now.sh < 4 }
    ensures value { result ≡ step2_by (asked_under under.now) left place (kind_of af fields.now) }
    ensures sound { IsSoundStep left under.now.ipa result }
{
    if is_too_large(&under.sizes, fields.out) {
        return stop(under, Class::AddressSize, left);
    }
    if !(af | under.config.ha2) {
        return stop(under, Class::AccessFlag, left);
    }
    Lead::Reached {
        leaf: leaf::<G>(under, left, place, fields),
    }
}

/// What a word leads to that stands at a place, with so many levels left.
#[tactic(auto, unfolding(walk_spec::specs::Stage2::step2))]
#[inline(always)]
pub(crate) fn step_by<const G: u32>(
    under: &Under2,
    left: u32,
    place: u64,
    word: u64,
) -> Lead<Leaf2, u64>
    requires granule { G ≡ granule_of under.now.config.now.tg2 }
    requires under { IsUnder under.now }
    requires left { left ≤ most_left }
    ensures value { result ≡ step2 (asked_under under.now) left place word }
    ensures sound { IsSoundStep left under.now.ipa result }
{
    match meaning::<G>(left, word, under.config) {
        Kind2::Invalid => stop(under, Class::Translation, left),
        Kind2::Table { next } => down(under, left, next),
        Kind2::Leaf {
            out,
            mem_attr,
            read,
            write,
            xn,
            sh,
            af,
            dbm,
            contiguous,
        } => {
            let fields = Fields2 {
                out,
                mem_attr,
                xn,
                sh,
                read,
                write,
                dbm,
                contiguous,
            };
            reach::<G>(under, left, place, af, &fields)
        }
    }
}

/// The table that a word leads down to, with so many levels left; None where it leads to a leaf or a fault.
#[tactic(auto, unfolding(walk_spec::specs::Stage2::step2), using(descriptors::proofs::Bounds::bounded2))]
#[inline(always)]
pub(crate) fn table_below<const G: u32>(under: &Under2, left: u32, word: u64) -> Option<u64>
    requires granule { G ≡ granule_of under.now.config.now.tg2 }
    requires under { IsUnder under.now }
    requires left { left ≤ most_left }
    ensures { GoesDown (λ place. step2 (asked_under under.now) left place word) left result }
{
    match table2::<G>(word, left, under.config) {
        Some(table) if !is_too_large(&under.sizes, table) => Some(table),
        _ => None,
    }
}

/// Where the last word of a walk sends the IPA, and the class of its entry or run.
#[derive(Clone, Copy)]
struct Target {
    pa: u64,
    class: u32,
}

/// Where the last word of a walk sends the IPA.
#[inline(always)]
fn target_of<const G: u32>(under: &Under2, last: &Last2) -> Result<Target, Fault>
    requires granule { G ≡ granule_of under.now.config.now.tg2 }
    requires under { IsUnder under.now }
    requires last { IsLast (asked_under under.now) last.now }
    ensures value { IsTarget (asked_under under.now) last.now (step2 (asked_under under.now) last.now.left last.now.place last.now.word) result }
    ensures status { IfErr result HasStatus }
    ensures eights { IfOk result (λ t. t.pa % 8 ≡ under.now.ipa % 8) }
{
    match step_by::<G>(under, last.left, last.place, last.word) {
        Lead::Down { .. } => unreachable!(),
        Lead::Reached { leaf } => Ok(Target {
            pa: leaf.pa,
            class: leaf.class,
        }),
        Lead::Stopped { fault } => Err(fault),
    }
}

/// What the leaf of a word gives that leads to this target. But for the target the granule plays no part.
#[inline(always)]
fn leaf_at(under: &Under2, last: &Last2, target: &Target) -> Leaf2
    requires left { last.now.left ≤ most_left }
    ensures value { result ≡ leaf_at (asked_under under.now) last.now target.now.pa target.now.class }
    ensures level { HasLevel Permission result.level }
{
    let word = last.word;
    let dirty = under.config.ha2 & under.config.hd2;
    let xn = field::<54, 53>(word) as u32;
    Leaf2 {
        pa: target.pa,
        class: target.class,
        level: level(last.left),
        perms: perms2(
            flag::<6>(word),
            flag::<7>(word),
            xn,
            flag::<51>(word),
            dirty,
        ),
        mem: s2_attr(field::<5, 2>(word) as u32),
        sh: share(field::<9, 8>(word) as u32),
    }
}

/// What the last word gives that a walk reads.
#[inline(always)]
pub fn end2(under: &Under2, last: &Last2) -> Result<Leaf2, Fault>
    requires under { IsUnder under.now }
    requires last { IsLast (asked_under under.now) last.now }
    ensures value { EndsIn (step2 (asked_under under.now) last.now.left last.now.place last.now.word) result }
    ensures status { IfErr result HasStatus }
    ensures sound { IfOk result (IsSoundLeaf under.now.ipa) }
{
    match case_table!(granule under.config.tg2; target_of(under, last)) {
        Ok(target) => Ok(leaf_at(under, last, &target)),
        Err(fault) => Err(fault),
    }
}
