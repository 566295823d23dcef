//! The machine in the middle of a trace, with its log.
ghost use Rattle.std.specs.Prelude.{◌≡◌, ◌<◌, ◌+◌, [], ◌∷◌, ◌++◌, length, take, slice_get, Some, IfOk};
ghost use Rattle.trails.specs.declared.step.Step.{Step as TheStep};
ghost use Rattle.trace_lang.specs.Traces.{IsTrace};
ghost use Rattle.machine_spec.specs.Allowed.{IsAllowed};
ghost use Rattle.machine_spec.specs.Machine.{run_of, world_after};
ghost use Rattle.trails.specs.Printed.{HaveTexts};
ghost use Rattle.machine.specs.Runs.{IsMachineOf};

use crate::runner::Runner;
use bitwords::NoMemory;
use std::alloc::Global;
use std::marker::Model;
use trace_lang::Trace;
use trails::{Step, StepSlot};

/// A machine in the middle of a trace, with the log of the steps that were done.
#[derive(Drop)]
pub struct Machine {
    runner: Runner,
    log: Vec<Step>,
}

impl Model for Machine {
    ghost use Rattle.std.specs.Prelude.{◌≡◌, ◌≤◌, length, vec_capacity};
    ghost use Rattle.machine.specs.Runs.{MachineState};

    ghost Value = { MachineState };

    ghost view = { λ s. s.runner };

    ghost invariant = { λ s. (s.log.items ≡ s.runner.log) × (length s.runner.trace.events ≤ vec_capacity s.log) };
}

impl Machine {
    /// The machine before the first event of a trace. All memory of the run is taken here.
    pub fn opened(alloc: Global, trace: Trace) -> Result<Machine, NoMemory>
        ensures limits { IsTrace trace }
        ensures trace { IfOk result (λ m. m.trace ≡ trace) }
        ensures log { IfOk result (λ m. m.log ≡ []) }
        ensures machine { IfOk result (λ m. IsMachineOf m (world_after trace.header [])) }
    {
        let Ok(log) = Vec::with_capacity(alloc, trace.events().len()) else {
            return Err(NoMemory);
        };
        let runner = Runner::opened(alloc, trace)?;
        Ok(Machine { runner, log })
    }

    /// How many events are left.
    pub fn left(&self) -> usize
        ensures { result + length self.now.log ≡ length self.now.trace.events }
    {
        self.runner.left()
    }

    /// The steps that were done.
    pub fn log(&self) -> &[Step]
        ensures { result.now ≡ self.now.log }
    {
        self.log.as_slice()
    }

    /// Does the next event. Its step is allowed behind the log before it.
    pub fn step(&mut self)
        requires { length self.old.log < length self.old.trace.events }
        ensures trace { self.new.trace ≡ self.old.trace }
        ensures log { (s : TheStep) × (self.new.log ≡ self.old.log ++ s ∷ []) × (slice_get self.old.trace.events (length self.old.log) ≡ Some s.event)
            × IsAllowed self.old.trace.header self.old.log s }
        ensures run { self.new.log ≡ run_of self.old.trace.header (take (length self.new.log) self.old.trace.events) }
        ensures machine { IsMachineOf self.new (world_after self.old.trace.header (take (length self.new.log) self.old.trace.events)) }
        ensures texts { HaveTexts self.new.log }
    {
        let mut slot = StepSlot::new();
        self.runner.step(&mut slot);
        self.log.push_reserved(slot.into_step());
    }
}
