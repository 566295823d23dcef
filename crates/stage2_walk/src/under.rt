ghost use Rattle.std.specs.Prelude.{◌≡◌};
ghost use Rattle.stage2_walk.specs.Under.{walker_under};

use fault_codes::Stage;
use sysregs::Config;
use table_reads::{Sizes, Walker};

/// What a walk through stage 2 is done under: the register fields with the numbers that they give, and what is asked.
/// `s1ptw` marks the place of a stage 1 descriptor, and the items get this moment.
#[derive(Clone, Copy)]
pub struct Under2<'a> {
    pub config: &'a Config,
    pub ipa: u64,
    pub sizes: Sizes,
    pub moment: u32,
    pub s1ptw: bool,
}

impl<'a> Under2<'a> {
    /// Stage 2 with this mark at this moment.
    pub fn walker(&self) -> Walker
        ensures { result ≡ walker_under self.now }
    {
        Walker {
            moment: self.moment,
            stage: Stage::S2,
            s1ptw: self.s1ptw,
        }
    }
}
