ghost use Rattle.std.specs.Prelude.{◌≡◌, ◌<◌, IsTrue, unwrap_or};
ghost use Rattle.geometry.specs.Tables.{start_level2, start_left2};
ghost use Rattle.sysregs.specs.Registers.{InRange, granule_of};
ghost use Rattle.table_reads.specs.Numbers.{AreSound, is_sized2};

use geometry::{case_table, start_level2};
use sysregs::fields::output_size;
use sysregs::{Config, Tg};
use table_reads::{Sizes, left_below};

/// The start level for SL0, or None where the code is invalid.
pub(crate) fn start_level(tg: Tg, sl0: u32, sl2: u32) -> Option<i8>
    requires sl0 { sl0 < 4 }
    requires sl2 { sl2 < 2 }
    ensures { result ≡ start_level2 (granule_of tg) sl0 }
{
    case_table!(granule tg; start_level2(sl0, sl2))
}

/// How many levels are left below the start level; an invalid code has none.
#[tactic(auto, using(geometry::proofs::Sizes::start2_within))]
fn start_left(config: &Config) -> u32
    requires { InRange config.now }
    ensures { result ≡ unwrap_or (start_left2 (granule_of config.now.tg2) config.now.sl0) 0 }
{
    match start_level(config.tg2, config.sl0, config.sl2) {
        Some(level) => left_below(level),
        None => 0,
    }
}

/// The numbers of stage 2, whose sizes are in range and suit each other.
#[tactic(auto, unfolding(table_reads::specs::Numbers::sizes2))]
pub fn sizes2(config: &Config) -> Sizes
    requires config { InRange config.now }
    requires sized { IsTrue (is_sized2 config.now) }
    ensures value { result ≡ Rattle.table_reads.specs.Numbers.sizes2 config.now }
    ensures granule { result.granule ≡ granule_of config.now.tg2 }
    ensures sound { AreSound result }
{
    Sizes {
        granule: config.tg2.granule(),
        input: 64 - config.t2sz,
        output: output_size(config.tg2, config.ps),
        start: start_left(config),
    }
}
