//! The stages of which rows may be there.
ghost use Rattle.std.specs.Prelude.{◌≡◌};
ghost use Rattle.tagged_tlb.specs.Stages.{with_stage, takes_stage1, takes_stage2, may_take};

use fault_codes::Stage;
use sysregs::Scope;
use tlbi_ops::Inval;

/// Whether a row of stage 1, and whether one of stage 2, may be in a cache.
#[derive(Clone, Copy)]
pub(crate) struct Stages {
    pub(crate) stage1: bool,
    pub(crate) stage2: bool,
}

/// The stages with that of one more row.
pub(crate) fn with_stage(stages: Stages, stage: Stage) -> Stages
    ensures { result ≡ with_stage stages stage }
{
    match stage {
        Stage::S1 => Stages {
            stage1: true,
            stage2: stages.stage2,
        },
        Stage::S2 => Stages {
            stage1: stages.stage1,
            stage2: true,
        },
    }
}

/// Whether an operation of a scope may take rows of stage 1.
fn takes_stage1(scope: Scope) -> bool
    ensures { result ≡ takes_stage1 scope }
{
    match scope {
        Scope::All => true,
        Scope::Vmid => true,
        Scope::Stage1 => true,
        Scope::Asid => true,
        Scope::PageVa => true,
        Scope::PageIpa => false,
        Scope::RangeVa => true,
        Scope::RangeIpa => false,
    }
}

/// Whether an operation of a scope may take rows of stage 2.
fn takes_stage2(scope: Scope) -> bool
    ensures { result ≡ takes_stage2 scope }
{
    match scope {
        Scope::All => true,
        Scope::Vmid => true,
        Scope::Stage1 => false,
        Scope::Asid => false,
        Scope::PageVa => false,
        Scope::PageIpa => true,
        Scope::RangeVa => false,
        Scope::RangeIpa => true,
    }
}

/// Whether an invalidation may take a row of these stages.
pub(crate) fn may_take(stages: Stages, inval: &Inval) -> bool
    ensures { result ≡ may_take stages inval.now }
{
    let scope = inval.op.form().scope;
    (stages.stage1 && takes_stage1(scope)) || (stages.stage2 && takes_stage2(scope))
}
