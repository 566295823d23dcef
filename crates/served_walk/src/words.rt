//! Physical memory as a supply of descriptor words.

use phys_mem::Phys;
use table_reads::Supply;

/// Physical memory that is read alone. It never fails.
#[derive(Drop)]
pub struct Words<'a> {
    pub phys: &'a Phys,
}

impl<'a> Supply for Words<'a> {
    ghost use Rattle.std.specs.Prelude.{Some};
    ghost use Rattle.phys_mem.specs.Words.{memory_of};

    ghost memory = { λ s. Some (memory_of s.phys.now) };

    ghost faults = { λ s. 0 };

    ghost keeps = { λ s t. Unit {0} };

    ghost keeps_here = { λ s. tt };

    ghost keeps_then = { λ s t u a b. tt };

    fn word(&mut self, pa: u64) -> Option<u64> {
        self.phys.load(pa)
    }
}
