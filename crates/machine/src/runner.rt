//! The machine in the middle of a trace. It keeps no step.
ghost use Rattle.std.specs.Prelude.{◌≡◌, ◌<◌, ◌≤◌, ◌+◌, [], ◌∷◌, ◌++◌, length, take, replicate};
ghost use Rattle.std.specs.Prelude.{slice_get, Some, None, IfOk};
ghost use Rattle.phys_mem.specs.Words.{memory_of};
ghost use Rattle.phys_mem.specs.Memory.{zeros};
ghost use Rattle.phys_mem.specs.Ranges.{refusal_in};
ghost use Rattle.trace_lang.specs.Traces.{RangesFitBehind, IsTrace};
ghost use Rattle.machine_spec.specs.Allowed.{IsAllowed};
ghost use Rattle.machine_spec.specs.Header.{Header};
ghost use Rattle.machine_spec.specs.Machine.{no_core, run_of, world_after};
ghost use Rattle.machine.specs.Seats.{AreSeatsOf};
ghost use Rattle.trails.specs.Printed.{HaveTexts};
ghost use Rattle.machine.specs.Runs.{IsMachineOf};

use crate::act::act_and_answer;
use crate::seat::Seat;
use bitwords::NoMemory;
use machine_laws::runs_are_allowed;
use made_rows::rows_are_small;
use phys_mem::{Phys, PhysError};
use served_walk::rows_can_serve;
use std::alloc::Global;
use std::marker::Model;
use trace_lang::{Policy, Size, Trace};
use trails::StepSlot;

/// A machine in the middle of a trace. It counts the events that were done and keeps no step: a contract sees the log of
/// these events.
#[derive(Drop)]
pub struct Runner {
    trace: Trace,
    phys: Phys,
    seats: Vec<Seat>,
    done: usize,
}

impl Model for Runner {
    ghost use Rattle.std.specs.Prelude.{◌≡◌, length};
    ghost use Rattle.machine.specs.Runs.{MachineState, IsRun, log_at};

    ghost Value = { MachineState };

    ghost view = { λ s. record { trace = s.trace; log = log_at s.trace s.done; phys = s.phys; seats = s.seats.items } };

    ghost invariant = { λ s. IsRun (record { trace = s.trace; log = log_at s.trace s.done; phys = s.phys; seats = s.seats.items })
        × (length s.seats.items ≡ s.trace.header.cores) × (s.phys.ranges ≡ s.trace.header.ranges) × (s.done ≡ length (log_at s.trace s.done)) };
}

/// Want of memory, where nothing else is refused.
fn shortage(why: PhysError) -> NoMemory
    requires { refusal_in why ≡ None }
{
    match why {
        PhysError::NoMemory => NoMemory,
        PhysError::BadRange { .. } => unreachable!(),
        PhysError::Overlap { .. } => unreachable!(),
        PhysError::TooLarge => unreachable!(),
    }
}

/// Memory of the ranges of a trace, all 0.
fn memory(alloc: Global, ranges: &[(u64, u64)]) -> Result<Phys, NoMemory>
    requires few { length ranges.now ≤ 16 }
    requires fit { RangesFitBehind [] ranges.now }
    ensures memory { IfOk result (λ p. memory_of p ≡ zeros ranges.now) }
    ensures ranges { IfOk result (λ p. p.ranges ≡ ranges.now) }
{
    match Phys::of(alloc, ranges) {
        Ok(phys) => Ok(phys),
        Err(why) => Err(shortage(why)),
    }
}

/// So many cores at first.
fn seats_of(alloc: Global, cores: u8, size: Size, policy: Policy) -> Result<Vec<Seat>, NoMemory>
    ensures count { IfOk result (λ v. length v.items ≡ cores) }
    ensures each { IfOk result (λ v. (h : Header) → h.size ≡ size → h.policy ≡ policy → AreSeatsOf h (replicate cores no_core) v.items) }
{
    let Ok(mut seats) = Vec::with_capacity(alloc, cores as usize) else {
        return Err(NoMemory);
    };
    for number in 0..cores {
        let seat = Seat::opened(alloc, number, size, policy)?;
        seats.push_reserved(seat);
    }
    Ok(seats)
}

impl Runner {
    /// The machine before the first event of a trace. All memory of the run is taken here.
    pub fn opened(alloc: Global, trace: Trace) -> Result<Runner, NoMemory>
        ensures limits { IsTrace trace }
        ensures trace { IfOk result (λ m. m.trace ≡ trace) }
        ensures log { IfOk result (λ m. m.log ≡ []) }
        ensures machine { IfOk result (λ m. IsMachineOf m (world_after trace.header [])) }
    {
        let phys = memory(alloc, trace.ranges())?;
        let seats = seats_of(alloc, trace.cores(), trace.size(), trace.policy())?;
        Ok(Runner {
            trace,
            phys,
            seats,
            done: 0,
        })
    }

    /// How many events are left.
    pub fn left(&self) -> usize
        ensures { result + length self.now.log ≡ length self.now.trace.events }
    {
        self.trace.events().len() - self.done
    }

    /// Does the next event, and leaves its step in a slot. It is allowed behind the log before it.
    pub fn step(&mut self, slot: &mut StepSlot)
        requires { length self.old.log < length self.old.trace.events }
        ensures trace { self.new.trace ≡ self.old.trace }
        ensures log { self.new.log ≡ self.old.log ++ slot.new ∷ [] }
        ensures event { slice_get self.old.trace.events (length self.old.log) ≡ Some slot.new.event }
        ensures allowed { IsAllowed self.old.trace.header self.old.log slot.new }
        ensures run { self.new.log ≡ run_of self.old.trace.header (take (length self.new.log) self.old.trace.events) }
        ensures machine { IsMachineOf self.new (world_after self.old.trace.header (take (length self.new.log) self.old.trace.events)) }
        ensures texts { HaveTexts self.new.log }
    {
        runs_are_allowed();
        rows_can_serve();
        rows_are_small();
        let k = self.done;
        let event = self.trace.events()[k];
        self.done += 1;
        let seats = self.seats.as_mut_slice();
        act_and_answer(&mut self.phys, seats, k as u32, &event, slot);
    }
}
