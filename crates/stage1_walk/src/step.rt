ghost use Rattle.std.specs.Prelude.{◌≡◌, ◌≤◌, ◌<◌, ◌^◌, ◌%◌, true, if◌then◌else◌, None, IfErr};
ghost use Rattle.geometry.specs.Tables.{most_left};
ghost use Rattle.sysregs.specs.Registers.{granule_of};
ghost use Rattle.sysregs.specs.Sides.{tg_of, hpd_of};
ghost use Rattle.permissions.specs.Rights.{joined, is_uxn};
ghost use Rattle.attributes.specs.Memory.{attr_byte};
ghost use Rattle.fault_codes.specs.Status.{HasStatus};
ghost use Rattle.fault_codes.specs.declared.fault.Class.TheVariants.{AddressSize};
ghost use Rattle.table_reads.specs.Places;
ghost use Rattle.descriptors.specs.Meaning.{table_bits, means1_of};
ghost use Rattle.descriptors.specs.Bounds.{IsBounded1};
ghost use Rattle.walk_spec.specs.Stage1.{fault1, leaf1_of, judged1, step1, step1_by};
ghost use Rattle.stage1_walk.specs.Under.{IsUnder, regime_under, asked_under};
ghost use Rattle.stage1_walk.specs.SoundSteps.{IsSoundStep, kind_of, GoesDown, EndsIn};
ghost use Rattle.trails.specs.Printed.{HasTextStop};

use crate::under::Under1;
use attributes::types::{mair, share};
use bitwords::{flag, power};
use descriptors::{Kind1, means1, table1};
use fault_codes::{Class, Fault, Stage};
use geometry::{goes_to, leaf_class};
use permissions::{TableBits, allows1, perms1};
use sysregs::{Config, Side};
use table_reads::{Lead, Walker, is_too_large, level};
use trails::{Access, Stop};
use walk_spec::{Entry1, Fields1, Leaf1, Table1};

/// A fault with so many levels left.
fn fault(class: Class, left: u32) -> Fault
    requires { left ≤ most_left }
    ensures value { result ≡ fault1 class left }
    ensures status { HasStatus result }
{
    let walker = Walker {
        moment: 0,
        stage: Stage::S1,
        s1ptw: false,
    };
    table_reads::fault(&walker, class, left)
}

/// What a word means, and that it keeps to its bounds.
#[inline(always)]
#[tactic(auto, using(descriptors::proofs::Bounds::bounded1))]
pub(crate) fn meaning<const G: u32>(left: u32, word: u64, config: &Config, side: Side) -> Kind1
    requires granule { G ≡ granule_of (tg_of config.now side) }
    requires left { left ≤ most_left }
    ensures value { result ≡ means1_of config.now side left word }
    ensures bounded { IsBounded1 left result }
{
    means1::<G>(word, left, config, side)
}

/// The byte of `MAIR_EL1` that AttrIndx names.
fn attr_byte(mair: u64, index: u32) -> u8
    requires { index < 8 }
    ensures { result ≡ attr_byte mair index }
{
    (mair / power(8 * index) % 256) as u8
}

fn joined(bits: TableBits, more: TableBits) -> TableBits
    ensures { result ≡ joined bits more }
{
    TableBits {
        no_el0: bits.no_el0 | more.no_el0,
        read_only: bits.read_only | more.read_only,
        pxn: bits.pxn | more.pxn,
        uxn: bits.uxn | more.uxn,
    }
}

/// What a block or page gives whose word stands at a physical place.
#[inline(always)]
fn leaf<const G: u32>(under: &Under1, entry: &Entry1, place: u64, fields: &Fields1) -> Leaf1
    requires granule { G ≡ granule_of (tg_of under.now.config.now under.now.side) }
    requires under { IsUnder under.now }
    requires left { entry.now.left ≤ most_left }
    requires fields { fields.now.out < 2 ^ 52 × fields.now.attr_index < 8 × fields.now.sh < 4 }
    ensures { result ≡ leaf1_of (regime_under under.now) entry.now place fields.now }
{
    let config = under.config;
    let class = leaf_class::<G>(
        under.sizes.input,
        entry.left,
        fields.out,
        fields.contiguous,
        place,
    );
    Leaf1 {
        out: goes_to(fields.out, class, entry.address),
        class,
        level: level(entry.left),
        perms: perms1(
            fields.bits,
            entry.table.bits,
            config.ha1 & config.hd1,
            config.wxn,
        ),
        mem: mair(attr_byte(config.mair, fields.attr_index)),
        sh: share(fields.sh),
        global: fields.global,
    }
}

/// A leaf that stage 1 permits the access, or a permission fault. `uxn` is the joined UXN.
#[inline(always)]
fn permit(
    config: &Config,
    access: &Access,
    left: u32,
    uxn: bool,
    leaf: Leaf1,
) -> Lead<Leaf1, Table1>
    requires { left ≤ most_left }
    ensures value { result ≡ judged1 config.now true access.now left uxn leaf }
    ensures sound { IsSoundStep left result }
{
    if allows1(
        leaf.perms,
        uxn,
        access.el,
        access.kind,
        access.pan,
        config.epan,
    ) {
        Lead::Reached { leaf }
    } else {
        stop(Class::Permission, left)
    }
}

/// A step that ends in a fault.
#[inline(always)]
fn stop(class: Class, left: u32) -> Lead<Leaf1, Table1>
    requires { left ≤ most_left }
    ensures value { result ≡ Lead.Stopped (fault1 class left) }
    ensures sound { IsSoundStep left result }
{
    Lead::Stopped {
        fault: fault(class, left),
    }
}

/// Where a table leads. `bits` are the word's own.
#[inline(always)]
fn down(under: &Under1, entry: &Entry1, next: u64, bits: TableBits) -> Lead<Leaf1, Table1>
    requires under { IsUnder under.now }
    requires left { 0 < entry.now.left × entry.now.left ≤ most_left }
    requires table { next < 2 ^ 52 × next % 8 ≡ 0 }
    ensures value { result ≡ (if Places.is_too_large under.now.sizes next then Lead.Stopped (fault1 AddressSize entry.now.left)
        else Lead.Down (record { address = next; bits = joined entry.now.table.bits bits })) }
    ensures sound { IsSoundStep entry.now.left result }
{
    if is_too_large(&under.sizes, next) {
        return stop(Class::AddressSize, entry.left);
    }
    Lead::Down {
        table: Table1 {
            address: next,
            bits: joined(entry.table.bits, bits),
        },
    }
}

/// Where a block or page leads whose word stands at a physical place, for an access that is judged. `af` is its access flag.
#[inline(always)]
fn reach<const G: u32>(
    under: &Under1,
    entry: &Entry1,
    place: u64,
    af: bool,
    fields: &Fields1,
) -> Lead<Leaf1, Table1>
    requires granule { G ≡ granule_of (tg_of under.now.config.now under.now.side) }
    requires under { IsUnder under.now }
    requires left { entry.now.left ≤ most_left }
    requires fields { fields.now.out < 2 ^ 52 × fields.now.attr_index < 8 × fields.now.sh < 4 }
    ensures value { result ≡ step1_by (asked_under under.now) entry.now place (kind_of af fields.now) }
    ensures sound { IsSoundStep entry.now.left result }
{
    if is_too_large(&under.sizes, fields.out) {
        return stop(Class::AddressSize, entry.left);
    }
    if !(af | under.config.ha1) {
        return stop(Class::AccessFlag, entry.left);
    }
    let uxn = fields.bits.uxn | entry.table.bits.uxn;
    let leaf = leaf::<G>(under, entry, place, fields);
    permit(under.config, under.access, entry.left, uxn, leaf)
}

/// What the word of an entry leads to, which stands at a physical place, for an access that is judged.
#[tactic(auto, unfolding(walk_spec::specs::Stage1::step1))]
#[inline(always)]
pub(crate) fn step_by<const G: u32>(
    under: &Under1,
    entry: &Entry1,
    place: u64,
    word: u64,
) -> Lead<Leaf1, Table1>
    requires granule { G ≡ granule_of (tg_of under.now.config.now under.now.side) }
    requires under { IsUnder under.now }
    requires left { entry.now.left ≤ most_left }
    ensures value { result ≡ step1 (asked_under under.now) entry.now place word }
    ensures sound { IsSoundStep entry.now.left result }
{
    match meaning::<G>(entry.left, word, under.config, under.side) {
        Kind1::Invalid => stop(Class::Translation, entry.left),
        Kind1::Table { next, bits } => down(under, entry, next, bits),
        Kind1::Leaf {
            out,
            attr_index,
            bits,
            sh,
            af,
            global,
            contiguous,
        } => {
            let fields = Fields1 {
                out,
                attr_index,
                sh,
                bits,
                global,
                contiguous,
            };
            reach::<G>(under, entry, place, af, &fields)
        }
    }
}

/// The address of the table that the word of an entry leads down to; None where it leads to a leaf or a fault.
#[tactic(auto, unfolding(walk_spec::specs::Stage1::step1), using(descriptors::proofs::Bounds::bounded1, crate::proofs::Above::own_bits))]
#[inline(always)]
pub(crate) fn table_below<const G: u32>(under: &Under1, entry: &Entry1, word: u64) -> Option<u64>
    requires granule { G ≡ granule_of (tg_of under.now.config.now under.now.side) }
    requires under { IsUnder under.now }
    requires left { entry.now.left ≤ most_left }
    ensures { GoesDown (λ place. step1 (asked_under under.now) entry.now place word) entry.now
        (table_bits (hpd_of under.now.config.now under.now.side) word) result }
{
    match table1::<G>(word, entry.left, under.config, under.side) {
        Some((address, _)) if !is_too_large(&under.sizes, address) => Some(address),
        _ => None,
    }
}

/// The bits of some table descriptors joined, by the bits of all their words, behind those of the tables above.
#[inline(always)]
#[tactic(auto)]
pub(crate) fn bits_of(config: &Config, side: Side, above: TableBits, words: u64) -> TableBits
    ensures { result ≡ joined above (table_bits (hpd_of config.now side) words) }
{
    let counts = !config.hpd(side);
    TableBits {
        no_el0: above.no_el0 | (flag::<61>(words) & counts),
        read_only: above.read_only | (flag::<62>(words) & counts),
        pxn: above.pxn | (flag::<59>(words) & counts),
        uxn: above.uxn | (flag::<60>(words) & counts),
    }
}

/// What the word of an entry gives that leads down to no table.
#[inline(always)]
pub(crate) fn end_by<const G: u32>(
    under: &Under1,
    entry: &Entry1,
    place: u64,
    word: u64,
) -> Result<Leaf1, Stop>
    requires granule { G ≡ granule_of (tg_of under.now.config.now under.now.side) }
    requires under { IsUnder under.now }
    requires left { entry.now.left ≤ most_left }
    requires end { GoesDown (λ p. step1 (asked_under under.now) entry.now p word) entry.now
        (table_bits (hpd_of under.now.config.now under.now.side) word) None }
    ensures value { EndsIn (step1 (asked_under under.now) entry.now place word) result }
    ensures text { IfErr result HasTextStop }
{
    match step_by::<G>(under, entry, place, word) {
        Lead::Down { .. } => unreachable!(),
        Lead::Reached { leaf } => Ok(leaf),
        Lead::Stopped { fault } => Err(Stop::Fault { fault }),
    }
}
