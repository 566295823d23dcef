ghost use Rattle.std.specs.Prelude.{◌≡◌, ◌+◌, ◌-◌, ◌*◌, ◌≤◌, ◌<◌, ◌^◌, ◌%◌, length, true, IsFalse, IfErr};
ghost use Rattle.geometry.specs.Tables.{most_left, left_below, level_of};
ghost use Rattle.sysregs.specs.Registers.{InRange, granule_of};
ghost use Rattle.sysregs.specs.Sides.{side_of, tg_of};
ghost use Rattle.trails.specs.Lengths.{most_items, most_per_word};
ghost use Rattle.trails.specs.Printed.{HasTextStop};
ghost use Rattle.walk_spec.specs.BothStages.{asked, is_refused1};
ghost use Rattle.stage1_walk.specs.Under.{IsUnder, asked_under};
ghost use Rattle.stage1_walk.specs.Clauses.{IsTableOf, table_from};
ghost use Rattle.stage1_walk.specs.Gave.{Gave, IsLastPlace, Walked1};

use crate::step::{bits_of, end_by, table_below};
use crate::supply::Supply1;
use crate::under::Under1;
use permissions::TableBits;
use sysregs::Config;
use table_reads::{left_below, level, place, place_below};
use trails::{Access, Stop, Trail};
use walk_spec::{Entry1, Leaf1, Table1};

/// A stage 1 table to walk from: its level, its base in bytes, and the joined bits of the tables above it.
#[derive(Clone, Copy)]
pub struct From1 {
    pub base: u64,
    pub level: i8,
    pub tables: TableBits,
}

/// The physical place of the last item.
fn last_place(trail: &Trail) -> u64
    requires { 0 < length trail.now }
    ensures { IsLastPlace trail.now result }
{
    match trail.items().split_last() {
        Some((item, _)) => item.pa,
        None => unreachable!(),
    }
}

/// The word of an entry.
#[inline(always)]
fn word_of<S: Supply1>(entry: &Entry1, supply: &mut S, trail: &mut Trail) -> Result<u64, Stop>
    requires left { entry.now.left ≤ most_left }
    requires aligned { entry.now.place % 8 ≡ 0 }
    requires room { length trail.old + most_per_word ≤ most_items }
    ensures gave { Gave (S.gives supply.old (level_of entry.now.left) entry.now.place) trail.old trail.new result supply.new }
    ensures text { IfErr result HasTextStop }
{
    supply.word_at(level(entry.left), entry.place, trail)
}

/// The walk from a table with so many levels left down to a leaf, under numbers that are at hand, over any supply of its
/// words.
pub fn walk1_under<const G: u32, S: Supply1>(
    under: &Under1,
    mut left: u32,
    table: Table1,
    supply: &mut S,
    trail: &mut Trail,
) -> Result<Leaf1, Stop>
    requires granule { G ≡ granule_of (tg_of under.now.config.now under.now.side) }
    requires under { IsUnder under.now }
    requires left { left ≤ under.now.sizes.start }
    requires table { table.address < 2 ^ 52 × table.address % 8 ≡ 0 }
    requires room { length trail.old + most_per_word * (left + 1) ≤ most_items }
    ensures most { length trail.new ≤ length trail.old + most_per_word * (left + 1) }
    ensures text { IfErr result HasTextStop }
    ensures walked { Walked1 S.gives (asked_under under.now) left table supply.old trail.old trail.new result supply.new }
{
    let mut place = place::<G>(&under.sizes, left, table.address, under.address);
    let mut address = table.address;
    let mut words = 0;
    loop {
        let entry = Entry1 {
            table: Table1 {
                address,
                bits: bits_of(under.config, under.side, table.bits, words),
            },
            place,
            address: under.address,
            left,
        };
        let word = word_of(&entry, supply, trail)?;
        match table_below::<G>(under, &entry, word) {
            Some(next) => {
                address = next;
                words |= word;
                left -= 1;
                place = place_below::<G>(left, address, under.address);
            }
            None => return end_by::<G>(under, &entry, last_place(trail), word),
        }
    }
}

/// The walk through stage 1 from a table down to a leaf, over any supply of its words, which appends their items.
pub fn walk1<const G: u32, S: Supply1>(
    config: &Config,
    access: &Access,
    from: &From1,
    supply: &mut S,
    trail: &mut Trail,
) -> Result<Leaf1, Stop>
    requires config { InRange config.now }
    requires granule { G ≡ granule_of (tg_of config.now (side_of access.now.va)) }
    requires accepted { IsFalse (is_refused1 config.now access.now) }
    requires table { IsTableOf config.now (side_of access.now.va) from.now }
    requires room { length trail.old + most_per_word * (left_below from.now.level + 1) ≤ most_items }
    ensures most { length trail.new ≤ length trail.old + most_per_word * (left_below from.now.level + 1) }
    ensures text { IfErr result HasTextStop }
    ensures walked { Walked1 S.gives (asked config.now true access.now) (left_below from.now.level) (table_from from.now)
        supply.old trail.old trail.new result supply.new }
{
    let under = Under1::accepted(config, access);
    let table = Table1 {
        address: from.base,
        bits: from.tables,
    };
    walk1_under::<G, S>(&under, left_below(from.level), table, supply, trail)
}
