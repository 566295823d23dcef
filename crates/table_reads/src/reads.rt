ghost use Rattle.std.specs.Prelude.{◌≡◌, ◌+◌, ◌/◌, ◌≤◌, ◌<◌, ◌^◌, ◌%◌, length};
ghost use Rattle.bitwords.specs.Causes.{Rose};
ghost use Rattle.geometry.specs.Tables.{IsGranule, most_left, stride, class_of};
ghost use Rattle.trails.specs.Lengths.{most_items};
ghost use Rattle.table_reads.specs.declared.sizes.Sizes.{Sizes};
ghost use Rattle.table_reads.specs.Numbers.{AreSound};
ghost use Rattle.table_reads.specs.Places.{place_of};
ghost use Rattle.table_reads.specs.Memory.{HasRead};

use crate::levels::Walker;
use crate::sizes::Sizes;
use crate::supply::Supply;
use bitwords::power;
use geometry::class_at;
use trails::{Item, Stop, Trail, What};

/// The place in bytes of the word that an address selects in a table.
#[tactic(auto, unfolding(crate::specs::Places::place_of))]
#[inline(always)]
pub fn place<const G: u32>(sizes: &Sizes, left: u32, table: u64, address: u64) -> u64
    requires granule { G ≡ sizes.now.granule }
    requires sound { AreSound sizes.now }
    requires left { left ≤ sizes.now.start }
    requires table { table < 2 ^ 52 × table % 8 ≡ 0 }
    ensures value { result ≡ place_of sizes.now left table address }
    ensures aligned { result % 8 ≡ 0 }
{
    geometry::place::<G>(sizes.input, sizes.start, left, table, address)
}

/// Which entry of a table below the start table an address selects.
#[tactic(auto, using(crate::proofs::Below::index_is, crate::proofs::Below::index_small))]
#[inline(always)]
fn index_below<const G: u32>(left: u32, address: u64) -> u64
    requires granule { IsGranule G }
    requires left { left < most_left }
    ensures value { result ≡ address % 2 ^ (class_of G left + stride G) / 2 ^ class_of G left }
    ensures below { result < 2 ^ 13 }
{
    (address >> class_at::<G>(left)) % power(G - 3)
}

/// The place in bytes of the word that an address selects in a table below the start table, whatever the other numbers of the
/// stage are.
#[tactic(auto, unfolding(crate::specs::Places::place_of), using(crate::proofs::Below::top_is))]
#[inline(always)]
pub fn place_below<const G: u32>(left: u32, table: u64, address: u64) -> u64
    requires granule { IsGranule G }
    requires left { left < most_left }
    requires table { table < 2 ^ 52 × table % 8 ≡ 0 }
    ensures value { (n : Sizes) → n.granule ≡ G → left < n.start → result ≡ place_of n left table address }
    ensures aligned { result % 8 ≡ 0 }
{
    table + 8 * index_below::<G>(left, address)
}

/// Reads the word of a level at a place and appends its item.
#[inline(always)]
pub fn read<S: Supply>(
    walker: &Walker,
    level: i8,
    place: u64,
    supply: &mut S,
    trail: &mut Trail,
) -> Result<u64, Stop>
    requires aligned { place % 8 ≡ 0 }
    requires room { length trail.old < most_items }
    ensures same { S.memory supply.new ≡ S.memory supply.old }
    ensures later { S.faults supply.old ≤ S.faults supply.new }
    ensures kept { S.keeps supply.old supply.new }
    ensures read { HasRead (S.memory supply.old) (Rose (S.faults supply.old) (S.faults supply.new)) walker.now level place trail.old trail.new result }
{
    match supply.word(place) {
        Some(value) => {
            trail.push(Item {
                pa: place,
                value,
                moment: walker.moment,
                stage: walker.stage,
                level,
                what: What::Word,
            });
            Ok(value)
        }
        None => Err(Stop::Absent {
            stage: walker.stage,
            level,
            pa: place,
            s1ptw: walker.s1ptw,
        }),
    }
}
