//! Stage 2 over a chain that was kept.
ghost use Rattle.std.specs.Prelude.{◌≡◌, false};
ghost use Rattle.sysregs.specs.Registers.{InRange};
ghost use Rattle.sysregs.specs.declared.regs.Side.{Side};
ghost use Rattle.walk_spec.specs.Stage1.{stands2};
ghost use Rattle.stage2_walk.specs.Replayed.{IsReplayed2, HasTable2};

use crate::replayed::Replay2;
use crate::stand::{Stood2, stand2};
use sysregs::Config;
use trails::Item;

/// Stage 2 for an IPA over a kept chain, from its base on. The moments of the items don't count, nor whether the IPA is
/// the place of a stage 1 descriptor.
pub fn replay2(config: &Config, ipa: u64, chain: &[Item]) -> Replay2
    requires config { InRange config.now }
    ensures replayed { (s : Side) → IsReplayed2 result (stands2 config.now s false ipa chain.now) }
    ensures table { HasTable2 config.now result }
{
    match stand2(config, ipa, false, chain, 0) {
        Stood2::Found { leaf, at } => {
            if at == chain.len() {
                Replay2::Ended { leaf }
            } else {
                Replay2::Other
            }
        }
        Stood2::Within { from } => Replay2::More { from },
        Stood2::Refused { .. } | Stood2::Before | Stood2::Unfit => Replay2::Other,
    }
}
