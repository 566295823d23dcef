//! Stage 2 from its base.
ghost use Rattle.std.specs.Prelude.{◌≡◌, ◌+◌, ◌≤◌, length, IfOk, IfErr};
ghost use Rattle.bitwords.specs.Causes.{Rose};
ghost use Rattle.fault_codes.specs.Status.{HasStatus};
ghost use Rattle.trails.specs.Lengths.{most_items, most_items2};
ghost use Rattle.walk_spec.specs.Stage2.{step2};
ghost use Rattle.walk_spec.specs.Walked.{HasLineStop};
ghost use Rattle.stage2_walk.specs.SoundSteps.{IsSoundLeaf, EndsIn};
ghost use Rattle.translate.specs.Deep.{asked2_of, HasLast, Came2};

use crate::parts::keep_root;
use crate::tables::walk2_last;
use crate::under::Under;
use fault_codes::Fault;
use stage2_walk::{Last2, Under2, end2, enter2};
use table_reads::Supply;
use trails::{Stop, Trail};
use walk_spec::Leaf2;

/// Stage 2 for an IPA down to its last word. `ptw` marks the place of a stage 1 descriptor.
#[inline(always)]
pub(crate) fn stage2_last<S: Supply>(
    under: &Under,
    ipa: u64,
    ptw: bool,
    supply: &mut S,
    trail: &mut Trail,
) -> Result<Last2, Stop>
    requires room { length trail.old + most_items2 ≤ most_items }
    ensures same { S.memory supply.new ≡ S.memory supply.old }
    ensures later { S.faults supply.old ≤ S.faults supply.new }
    ensures kept { S.keeps supply.old supply.new }
    ensures most { length trail.new ≤ length trail.old + most_items2 }
    ensures line { IfErr result HasLineStop }
    ensures came { Came2 (S.memory supply.old) (Rose (S.faults supply.old) (S.faults supply.new))
        under.now ptw ipa trail.old trail.new result }
{
    let start = under.start2();
    let sizes = match enter2(start.sizes, ipa, ptw) {
        Ok(sizes) => sizes,
        Err(fault) => return Err(Stop::Fault { fault }),
    };
    let walk = Under2 {
        config: under.config(),
        ipa,
        sizes,
        moment: under.moment(),
        s1ptw: ptw,
    };
    if let Err(fault) = keep_root(&walk.walker(), &sizes, start.base, trail) {
        return Err(Stop::Fault { fault });
    }
    walk2_last(&walk, sizes.start, start.base, supply, trail)
}

/// What the last word of stage 2 gives for an IPA.
#[inline(always)]
pub(crate) fn stage2_end(under: &Under, ipa: u64, ptw: bool, last: &Last2) -> Result<Leaf2, Fault>
    requires last { HasLast under.now ptw ipa last.now }
    ensures value { EndsIn (step2 (asked2_of under.now.regs ptw ipa) last.now.left last.now.place last.now.word) result }
    ensures status { IfErr result HasStatus }
    ensures sound { IfOk result (IsSoundLeaf ipa) }
{
    let Some(sizes) = under.start2().sizes else {
        unreachable!();
    };
    let walk = Under2 {
        config: under.config(),
        ipa,
        sizes,
        moment: under.moment(),
        s1ptw: ptw,
    };
    end2(&walk, last)
}
