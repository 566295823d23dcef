ghost use Rattle.std.specs.Prelude.{◌≡◌, IsFalse};
ghost use Rattle.sysregs.specs.Registers.{InRange};
ghost use Rattle.sysregs.specs.Sides.{side_of};
ghost use Rattle.table_reads.specs.Numbers;
ghost use Rattle.table_reads.specs.Numbers.{AreSound};
ghost use Rattle.walk_spec.specs.Stage1.{untagged};
ghost use Rattle.walk_spec.specs.BothStages.{is_refused1};
ghost use Rattle.stage1_walk.specs.Under.{IsUnder, IsUnderFor};

use crate::sizes::sizes1;
use sysregs::{Config, Side};
use table_reads::Sizes;
use trails::Access;

/// What a walk through stage 1 is done under: the register fields with the numbers that they give for the access's side,
/// and what is asked. `address` is the access's without its tag.
#[derive(Clone, Copy)]
pub struct Under1<'a> {
    pub config: &'a Config,
    pub access: &'a Access,
    pub address: u64,
    pub sizes: Sizes,
    pub side: Side,
}

/// The address as indices and offsets see it, without what stands above bit 55.
fn untagged(va: u64) -> u64
    ensures { result ≡ untagged va }
{
    va % (1 << 56)
}

impl<'a> Under1<'a> {
    /// What a walk of an access is done under, with the numbers of its side.
    pub fn of(config: &'a Config, access: &'a Access, side: Side, sizes: Sizes) -> Under1<'a>
        requires side { side ≡ side_of access.now.va }
        requires sizes { sizes ≡ Numbers.sizes1 config.now side }
        requires sound { AreSound sizes }
        ensures under { IsUnder result }
        ensures value { IsUnderFor config.now access.now result }
    {
        Under1 {
            config,
            access,
            address: untagged(access.va),
            sizes,
            side,
        }
    }
    /// What a walk of an access that is not refused is done under.
    pub fn accepted(config: &'a Config, access: &'a Access) -> Under1<'a>
        requires config { InRange config.now }
        requires accepted { IsFalse (is_refused1 config.now access.now) }
        ensures under { IsUnder result }
        ensures value { IsUnderFor config.now access.now result }
    {
        let side = sysregs::side(access.va);
        Under1::of(config, access, side, sizes1(config, side))
    }
}
