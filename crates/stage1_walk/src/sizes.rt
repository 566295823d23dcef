ghost use Rattle.std.specs.Prelude.{◌≡◌, IsTrue, IfSome};
ghost use Rattle.sysregs.specs.Registers.{InRange, granule_of};
ghost use Rattle.sysregs.specs.Sides.{tg_of};
ghost use Rattle.table_reads.specs.Numbers.{AreSound, is_sized1};
ghost use Rattle.stage1_walk.specs.Sized.{IsSized1};

use sysregs::fields::output_size;
use sysregs::{Config, Side};
use table_reads::{Sizes, is_sized};

/// The numbers of stage 1 for a side whose TxSZ is in range.
#[tactic(auto, unfolding(table_reads::specs::Numbers::sizes1))]
pub fn sizes1(config: &Config, side: Side) -> Sizes
    requires config { InRange config.now }
    requires txsz { IsTrue (is_sized1 config.now side) }
    ensures value { result ≡ Rattle.table_reads.specs.Numbers.sizes1 config.now side }
    ensures granule { result.granule ≡ granule_of (tg_of config.now side) }
    ensures sound { AreSound result }
{
    let tg = config.tg(side);
    let granule = tg.granule();
    let input = 64 - config.txsz(side);
    Sizes {
        granule,
        input,
        output: output_size(tg, config.ips),
        start: (input - 1 - granule) / (granule - 3),
    }
}

/// The numbers of stage 1 for a side, where its TxSZ is in range.
pub fn sized1(config: &Config, side: Side) -> Option<Sizes>
    requires { InRange config.now }
    ensures sized { IsSized1 config.now side result }
    ensures sound { IfSome result AreSound }
{
    if is_sized(config.tg(side), config.txsz(side)) {
        Some(sizes1(config, side))
    } else {
        None
    }
}
