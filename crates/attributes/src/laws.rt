//! Laws of the combination of both stages. Each is a contract of a function that does nothing.
ghost use Rattle.attributes.specs.Laws.{WeakerCacheability, StrongerDevice, HintsOfStage1, TaggedWriteBack};
ghost use Rattle.attributes.specs.Laws.{UncachedIsOuterShareable, CachedIsWider, WriteBackLeavesStage1};

/// The outer and the inner cacheability are the weaker of both stages, and Device where either is Device.
#[tactic(auto, using(crate::proofs::LawProofs::weaker_of_both))]
pub fn weaker_cacheability()
    ensures { WeakerCacheability }
{}

/// The kind of Device memory is the stronger of both stages, and Normal memory counts as weaker than all.
#[tactic(auto, using(crate::proofs::LawProofs::stronger_of_both))]
pub fn stronger_device()
    ensures { StrongerDevice }
{}

/// The hints are those of stage 1 wherever the memory is still cached.
#[tactic(auto, using(crate::proofs::LawProofs::hints_of_both))]
pub fn hints_of_stage_1()
    ensures { HintsOfStage1 }
{}

/// Memory is tagged exactly where stage 1 is tagged and both cacheabilities of the result are write-back.
#[tactic(auto, using(crate::proofs::LawProofs::tagged_of_both))]
pub fn tagged_write_back()
    ensures { TaggedWriteBack }
{}

/// Device memory and wholly Non-cacheable memory is Outer Shareable.
#[tactic(auto, using(crate::proofs::LawProofs::uncached))]
pub fn uncached_is_outer_shareable()
    ensures { UncachedIsOuterShareable }
{}

/// Other memory has the wider shareability of both stages.
#[tactic(auto, using(crate::proofs::LawProofs::cached))]
pub fn cached_is_wider()
    ensures { CachedIsWider }
{}

/// A stage 2 that is write-back and Non-shareable leaves what stage 1 says.
#[tactic(auto, using(crate::proofs::LawProofs::left_alone))]
pub fn write_back_leaves_stage_1()
    ensures { WriteBackLeavesStage1 }
{}
