ghost use Rattle.std.specs.Prelude.{◌≡◌};
ghost use Rattle.sysregs.specs.Registers.{InRange, config_of};
ghost use Rattle.translate.specs.Checked.{IsStart1, IsStart2};

use crate::parts::{base_of1, base_of2};
use stage1_walk::sized1;
use stage2_walk::sized2;
use sysregs::{Config, Regs, Side};
use table_reads::Sizes;

/// What registers decide of a stage before any address: its numbers, where they are in range, and then the base of its
/// start table in bytes, else 0.
#[derive(Clone, Copy)]
pub(crate) struct Start {
    pub sizes: Option<Sizes>,
    pub base: u64,
}

/// What registers decide of stage 1 for a side.
pub(crate) fn start1(regs: &Regs, config: &Config, side: Side) -> Start
    requires fields { config.now ≡ config_of regs.now }
    requires range { InRange config.now }
    ensures { IsStart1 regs.now side result }
{
    match sized1(config, side) {
        Some(sizes) => Start {
            base: base_of1(regs, side, &sizes),
            sizes: Some(sizes),
        },
        None => Start {
            base: 0,
            sizes: None,
        },
    }
}

/// What registers decide of stage 2.
pub(crate) fn start2(regs: &Regs, config: &Config) -> Start
    requires fields { config.now ≡ config_of regs.now }
    requires range { InRange config.now }
    ensures { IsStart2 regs.now result }
{
    match sized2(config) {
        Some(sizes) => Start {
            base: base_of2(regs, &sizes),
            sizes: Some(sizes),
        },
        None => Start {
            base: 0,
            sizes: None,
        },
    }
}
