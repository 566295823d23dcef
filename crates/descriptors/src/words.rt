ghost use Rattle.std.specs.Prelude.{◌≡◌, ◌≤◌, ◌<◌, ◌*◌, ◌^◌};
ghost use Rattle.bitwords.specs.Fields.{bits_of};
ghost use Rattle.geometry.specs.Tables.{IsGranule, most_left, has_block};
ghost use Rattle.sysregs.specs.Registers.{granule_of};
ghost use Rattle.sysregs.specs.Sides.{tg_of};
ghost use Rattle.descriptors.specs.Meaning.{address_in, shape_of, table_bits, leaf_bits, means1_of, means2_of, IsTableOf1, IsTableOf2};

use crate::kinds::{Kind1, Kind2};
use bitwords::{align_down, field, flag};
use geometry::{case_table, class_at};
use permissions::{Bits1, TableBits};
use sysregs::{Config, Side};

/// The shape of a word, for both stages.
#[derive(Clone, Copy)]
enum Shape {
    Nothing,
    Pointer,
    Mapping,
}

/// Bits 47 to the class of an address.
#[tactic(auto, using(crate::proofs::Addresses::low_address))]
fn low_address(w: u64, class: u32) -> u64
    requires { class ≤ 47 }
    ensures value { result ≡ bits_of w 47 class * 2 ^ class }
    ensures below { result < 2 ^ 48 }
{
    align_down(field::<47, 0>(w), class)
}

/// An address from its class up. With a granule of 64 KB bits 15:12 of the word are address bits 51:48.
#[inline(always)]
fn address<const G: u32>(w: u64, class: u32) -> u64
    requires granule { IsGranule G }
    requires class { class ≤ 47 }
    ensures { result ≡ address_in G w class }
{
    let low = low_address(w, class);
    if G == 16 {
        (field::<15, 12>(w) << 48) | low
    } else {
        low
    }
}

/// Whether the level with so many levels left has blocks.
#[inline(always)]
fn has_blocks<const G: u32>(left: u32) -> bool
    requires granule { IsGranule G }
    requires left { left ≤ most_left }
    ensures { result ≡ has_block G left }
{
    case_table!((G, left); (12, 1 | 2) => true, (14, 1) => true, (16, 1 | 2) => true; else false)
}

#[inline(always)]
fn shape_by<const G: u32>(w: u64, left: u32) -> Shape
    requires granule { IsGranule G }
    requires left { left ≤ most_left }
    ensures { result ≡ shape_of G left w }
{
    if !flag::<0>(w) {
        return Shape::Nothing;
    }
    if flag::<1>(w) {
        if left == 0 {
            Shape::Mapping
        } else {
            Shape::Pointer
        }
    } else if has_blocks::<G>(left) {
        Shape::Mapping
    } else {
        Shape::Nothing
    }
}

/// The table that a stage 2 word points to with so many levels left; None where it is no word of a table.
#[tactic(auto, unfolding(crate::specs::Meaning::means2_of))]
#[inline(always)]
pub fn table2<const G: u32>(w: u64, left: u32, config: &Config) -> Option<u64>
    requires granule { G ≡ granule_of config.now.tg2 }
    requires left { left ≤ most_left }
    ensures { IsTableOf2 (means2_of config.now left w) result }
{
    if left > 0 && flag::<0>(w) && flag::<1>(w) {
        Some(address::<G>(w, G))
    } else {
        None
    }
}

/// APTable, PXNTable and UXNTable, all read as 0 with HPD.
fn table_bits(w: u64, hpd: bool) -> TableBits
    ensures { result ≡ table_bits hpd w }
{
    TableBits {
        no_el0: flag::<61>(w) & !hpd,
        read_only: flag::<62>(w) & !hpd,
        pxn: flag::<59>(w) & !hpd,
        uxn: flag::<60>(w) & !hpd,
    }
}

/// The table that a stage 1 word points to with so many levels left, and its bits, in the tables of a side; None where it is no
/// word of a table.
#[tactic(auto, unfolding(crate::specs::Meaning::means1_of))]
#[inline(always)]
pub fn table1<const G: u32>(
    w: u64,
    left: u32,
    config: &Config,
    side: Side,
) -> Option<(u64, TableBits)>
    requires granule { G ≡ granule_of (tg_of config.now side) }
    requires left { left ≤ most_left }
    ensures { IsTableOf1 (means1_of config.now side left w) result }
{
    if left > 0 && flag::<0>(w) && flag::<1>(w) {
        Some((address::<G>(w, G), table_bits(w, config.hpd(side))))
    } else {
        None
    }
}

/// AP[2:1], DBM, PXN and UXN.
fn leaf_bits(w: u64) -> Bits1
    ensures { result ≡ leaf_bits w }
{
    Bits1 {
        el0: flag::<6>(w),
        read_only: flag::<7>(w),
        dbm: flag::<51>(w),
        pxn: flag::<53>(w),
        uxn: flag::<54>(w),
    }
}

/// What a stage 1 word means with so many levels left, in the tables of a side, which picks HPD.
#[tactic(auto, unfolding(crate::specs::Meaning::means1_of), using(crate::proofs::Bounds::mapping_class))]
#[inline(always)]
pub fn means1<const G: u32>(w: u64, left: u32, config: &Config, side: Side) -> Kind1
    requires granule { G ≡ granule_of (tg_of config.now side) }
    requires left { left ≤ most_left }
    ensures { result ≡ means1_of config.now side left w }
{
    match shape_by::<G>(w, left) {
        Shape::Nothing => Kind1::Invalid,
        Shape::Pointer => Kind1::Table {
            next: address::<G>(w, G),
            bits: table_bits(w, config.hpd(side)),
        },
        Shape::Mapping => Kind1::Leaf {
            out: address::<G>(w, class_at::<G>(left)),
            attr_index: field::<4, 2>(w) as u32,
            bits: leaf_bits(w),
            sh: field::<9, 8>(w) as u32,
            af: flag::<10>(w),
            global: !flag::<11>(w),
            contiguous: flag::<52>(w),
        },
    }
}

/// What a stage 1 word means with `LEFT` levels left, in the tables of a side.
pub fn decode1<const G: u32, const LEFT: u32>(w: u64, config: &Config, side: Side) -> Kind1
    requires granule { G ≡ granule_of (tg_of config.now side) }
    requires left { LEFT ≤ most_left }
    ensures { result ≡ means1_of config.now side LEFT w }
{
    means1::<G>(w, LEFT, config, side)
}

/// What a stage 2 word means with so many levels left.
#[tactic(auto, unfolding(crate::specs::Meaning::means2_of), using(crate::proofs::Bounds::mapping_class))]
#[inline(always)]
pub fn means2<const G: u32>(w: u64, left: u32, config: &Config) -> Kind2
    requires granule { G ≡ granule_of config.now.tg2 }
    requires left { left ≤ most_left }
    ensures { result ≡ means2_of config.now left w }
{
    match shape_by::<G>(w, left) {
        Shape::Nothing => Kind2::Invalid,
        Shape::Pointer => Kind2::Table {
            next: address::<G>(w, G),
        },
        Shape::Mapping => Kind2::Leaf {
            out: address::<G>(w, class_at::<G>(left)),
            mem_attr: field::<5, 2>(w) as u32,
            read: flag::<6>(w),
            write: flag::<7>(w),
            xn: field::<54, 53>(w) as u32,
            sh: field::<9, 8>(w) as u32,
            af: flag::<10>(w),
            dbm: flag::<51>(w),
            contiguous: flag::<52>(w),
        },
    }
}

/// What a stage 2 word means with `LEFT` levels left.
pub fn decode2<const G: u32, const LEFT: u32>(w: u64, config: &Config) -> Kind2
    requires granule { G ≡ granule_of config.now.tg2 }
    requires left { LEFT ≤ most_left }
    ensures { result ≡ means2_of config.now LEFT w }
{
    means2::<G>(w, LEFT, config)
}
