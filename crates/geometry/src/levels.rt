ghost use Rattle.std.specs.Prelude.{◌≡◌, ◌≤◌, ◌<◌, ◌+◌, ◌-◌, ◌*◌, ◌/◌, ◌%◌, ◌^◌, pos, ◌≤ℤ◌};
ghost use Rattle.geometry.specs.Tables.{IsGranule, most_left, class_of, start_level1, start_level2, is_suited_at, has_block};

use crate::case_table;

/// The stage 1 start level for a TxSZ, or None where it is out of its range.
pub fn start_level1<const G: u32>(txsz: u32) -> Option<i8>
    requires granule { IsGranule G }
    ensures { result ≡ start_level1 G txsz }
{
    let (least, most) = case_table!(G; 16 => (12, 47); else (16, 48));
    if txsz < least || txsz > most {
        return None;
    }
    let left = (64 - txsz - 1 - G) / (G - 3);
    Some(3 - left as i8)
}

/// The stage 2 start level for SL0 (`VTCR_EL2`), or None where the code is invalid. SL2 is ignored.
pub fn start_level2<const G: u32>(sl0: u32, sl2: u32) -> Option<i8>
    requires granule { IsGranule G }
    requires sl0 { sl0 < 4 }
    requires sl2 { sl2 < 2 }
    ensures { result ≡ start_level2 G sl0 }
{
    case_table!((G, sl0);
        (12, 0) => Some(2),
        (12, 1) => Some(1),
        (12, 2) => Some(0),
        (12, 3) => Some(3),
        (14, 0) => Some(3),
        (14, 1) => Some(2),
        (14, 2) => Some(1),
        (16, 0) => Some(3),
        (16, 1) => Some(2),
        (16, 2) => Some(1);
        else None)
}

/// Whether an input size in bits suits a stage 2 start level.
pub fn suits2<const G: u32>(start: i8, iasize: u32) -> bool
    requires granule { IsGranule G }
    requires low { pos 0 ≤ℤ start }
    requires high { start ≤ℤ pos 3 }
    ensures { result ≡ is_suited_at G start iasize }
{
    let least = (3 - start) as u32 * (G - 3) + G + 1;
    least <= iasize && iasize <= least + (G - 3) - 1 + 4
}

/// Which entry of its table an address selects with so many levels left: input bits `top - 1` down to the entry's class.
#[inline(always)]
#[tactic(auto, using(crate::proofs::Indices::masked_low))]
pub(crate) fn index_at<const G: u32>(left: u32, address: u64, top: u32) -> u64
    requires granule { IsGranule G }
    requires left { left ≤ most_left }
    requires top { top ≤ 56 }
    ensures { result ≡ address % 2 ^ top / 2 ^ class_of G left }
{
    (address & ((1 << top) - 1)) >> class_at::<G>(left)
}

/// Which entry of its table an address selects: input bits `top - 1` down to the entry's class.
pub fn index<const G: u32, const LEFT: u32>(address: u64, top: u32) -> u64
    requires granule { IsGranule G }
    requires left { LEFT ≤ most_left }
    requires top { top ≤ 56 }
    ensures { result ≡ address % 2 ^ top / 2 ^ class_of G LEFT }
{
    index_at::<G>(LEFT, address, top)
}

/// The class of an entry with so many levels left: the entry covers `2 ^ class` bytes of input.
pub fn class_at<const G: u32>(left: u32) -> u32
    requires granule { IsGranule G }
    requires left { left ≤ most_left }
    ensures { result ≡ class_of G left }
{
    G + left * (G - 3)
}

/// The class of an entry with `LEFT` levels left.
pub fn entry_class<const G: u32, const LEFT: u32>() -> u32
    requires granule { IsGranule G }
    requires left { LEFT ≤ most_left }
    ensures { result ≡ class_of G LEFT }
{
    class_at::<G>(LEFT)
}

/// Whether the level has blocks.
pub fn block_allowed<const G: u32, const LEFT: u32>() -> bool
    requires granule { IsGranule G }
    requires left { LEFT ≤ most_left }
    ensures { result ≡ has_block G LEFT }
{
    case_table!((G, LEFT); (12, 1 | 2) => true, (14, 1) => true, (16, 1 | 2) => true; else false)
}
