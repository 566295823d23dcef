ghost use Rattle.std.specs.Prelude.{◌≡◌, ◌≤◌, ◌<◌, ◌*◌, ◌/◌, ◌%◌, ◌^◌, [], ◌∷◌, ◌++◌, length};
ghost use Rattle.trails.specs.Lengths.{most_items};
ghost use Rattle.table_reads.specs.Numbers.{AreSound};
ghost use Rattle.table_reads.specs.Places.{aligned_base};
ghost use Rattle.table_reads.specs.Items.{base_item};

use crate::levels::{Walker, level};
use crate::sizes::Sizes;
use bitwords::{align_down, power};
use trails::{Item, Trail, What};

/// The word with its lowest `3 + bits` bits read as 0: a multiple of the size of `2 ^ bits` entries.
#[tactic(auto, using(crate::proofs::Alignment::by_size, crate::proofs::Alignment::size_fits, crate::proofs::Alignment::size_eight))]
fn by_entries(base: u64, bits: u32) -> u64
    requires { base < 2 ^ 52 × bits ≤ 52 }
    ensures value { result ≡ base / (8 * 2 ^ bits) * (8 * 2 ^ bits) }
    ensures below { result < 2 ^ 52 }
    ensures eights { result % 8 ≡ 0 }
{
    align_down(base, 3 + bits)
}

/// The base of the start table: a register's base with the bits below the table's size read as 0.
pub fn start_base(sizes: &Sizes, base: u64) -> u64
    requires sound { AreSound sizes.now }
    requires base { base < 2 ^ 52 }
    ensures value { result ≡ aligned_base sizes.now base }
    ensures below { result < 2 ^ 52 }
    ensures eights { result % 8 ≡ 0 }
{
    let class = sizes.granule + sizes.start * (sizes.granule - 3);
    by_entries(base, sizes.input - class)
}

/// Whether an address does not fit the output size.
pub fn is_too_large(sizes: &Sizes, address: u64) -> bool
    requires { AreSound sizes.now }
    ensures { result ≡ Rattle.table_reads.specs.Places.is_too_large sizes.now address }
{
    address >= power(sizes.output)
}

/// Appends the item of a base.
pub fn keep_base(walker: &Walker, sizes: &Sizes, base: u64, trail: &mut Trail)
    requires sound { AreSound sizes.now }
    requires room { length trail.old < most_items }
    ensures { trail.new ≡ trail.old ++ base_item walker.now.moment walker.now.stage sizes.now base ∷ [] }
{
    trail.push(Item {
        pa: base,
        value: base,
        moment: walker.moment,
        stage: walker.stage,
        level: level(sizes.start),
        what: What::Base,
    });
}
