ghost use Rattle.std.specs.Prelude.{◌≡◌, ◌<◌, ◌^◌, IfSome};
ghost use Rattle.machine_spec.specs.Summary.{no_steps, with_event, with_outcome, with_marks, with_answer};
ghost use Rattle.report_text.specs.Bounds.{CanCount, HasRoom};

use std::marker::Model;
use trails::{Answer, Event, Outcome, StepSlot};

/// The numbers of a summary, counted while a log is written.
#[derive(Drop)]
pub struct Counts {
    pub accesses: u64,
    pub prefetches: u64,
    pub mapped: u64,
    pub faulted: u64,
    pub conflicts: u64,
    pub old_answers: u64,
    pub stale_answers: u64,
    pub evicted: u64,
}

impl Model for Counts {
    ghost use Rattle.machine_spec.specs.Summary.{Summary};

    ghost Value = { Summary };

    ghost view = { λ s. record {
      accesses = s.accesses;
      prefetches = s.prefetches;
      mapped = s.mapped;
      faulted = s.faulted;
      conflicts = s.conflicts;
      old = s.old_answers;
      stale = s.stale_answers;
      evicted = s.evicted;
    } };
}

impl Counts {
    /// The numbers of an empty log.
    pub fn none() -> Counts
        ensures { result ≡ no_steps }
    {
        Counts {
            accesses: 0,
            prefetches: 0,
            mapped: 0,
            faulted: 0,
            conflicts: 0,
            old_answers: 0,
            stale_answers: 0,
            evicted: 0,
        }
    }

    fn event(&mut self, event: &Event)
        requires { CanCount self.old }
        ensures { self.new ≡ with_event self.old event.now }
    {
        match event {
            Event::Access { .. } => self.accesses += 1,
            Event::Prefetch { .. } => self.prefetches += 1,
            Event::Store { .. }
            | Event::Msr { .. }
            | Event::Settle { .. }
            | Event::Isb { .. }
            | Event::Tlbi { .. }
            | Event::Dsb { .. }
            | Event::Deliver { .. } => {}
        }
    }

    /// A place that memory lacks is a fault.
    fn outcome(&mut self, outcome: &Outcome)
        requires { CanCount self.old }
        ensures { self.new ≡ with_outcome self.old outcome.now }
    {
        match outcome {
            Outcome::Mapped { .. } => self.mapped += 1,
            Outcome::Faulted { .. } | Outcome::Absent { .. } => self.faulted += 1,
            Outcome::Conflict => self.conflicts += 1,
        }
    }

    fn marks(&mut self, answer: &Answer)
        requires { CanCount self.old }
        ensures counted { self.new ≡ with_marks self.old answer.now }
        ensures range { answer.now.evicted < 2 ^ 32 }
    {
        if answer.old {
            self.old_answers += 1;
        }
        if answer.stale {
            self.stale_answers += 1;
        }
        self.evicted += answer.evicted as u64;
    }

    /// Counts a step.
    pub fn step(&mut self, step: &StepSlot)
        requires { HasRoom self.old }
        ensures counted { self.new ≡ with_answer (with_event self.old step.now.event) step.now.answer }
        ensures range { IfSome step.now.answer (λ a. a.evicted < 2 ^ 32) }
    {
        self.event(&step.event);
        if step.is_answered {
            self.outcome(&step.answer.outcome);
            self.marks(&step.answer);
        }
    }
}
