ghost use Rattle.std.specs.Prelude.{◌≡◌};
ghost use Rattle.geometry.specs.Tables.{is_txsz, start_level1};
ghost use Rattle.sysregs.specs.Registers.{granule_of};

use geometry::{case_table, start_level1};
use sysregs::Tg;

/// The numbers of a stage: the granule has `2 ^ granule` bytes, `input` and `output` are sizes in bits, and `start` is
/// how many levels are left below the start level.
#[derive(Clone, Copy)]
pub struct Sizes {
    pub granule: u32,
    pub input: u32,
    pub output: u32,
    pub start: u32,
}

/// The start level of stage 1 for a TxSZ, or None where it is out of its range.
fn start_level(tg: Tg, txsz: u32) -> Option<i8>
    ensures { result ≡ start_level1 (granule_of tg) txsz }
{
    case_table!(granule tg; start_level1(txsz))
}

/// Whether TxSZ is in its range, which is that of both stages.
pub fn is_sized(tg: Tg, txsz: u32) -> bool
    ensures { result ≡ is_txsz (granule_of tg) txsz }
{
    start_level(tg, txsz).is_some()
}
