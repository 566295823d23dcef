ghost use Rattle.std.specs.Prelude.{◌≡◌, None};

use crate::{Answer, Event, Outcome, Step, Trail};
use std::marker::Model;

/// The room of a step, used again for each: an answer is written where that of an earlier step stood. It is one of this
/// step only where `is_answered` says so.
#[derive(Drop)]
pub struct StepSlot {
    pub answer: Answer,
    pub event: Event,
    pub is_answered: bool,
}

impl Model for StepSlot {
    ghost use Rattle.std.specs.Prelude.{Some, None, if◌then◌else◌};
    ghost use Rattle.trails.specs.declared.step.Step.{Step};

    ghost Value = { Step };

    ghost view = { λ s. record { event = s.event; answer = if s.is_answered then Some s.answer else None } };
}

impl StepSlot {
    /// Room for steps, without an answer.
    pub fn new() -> StepSlot
        ensures { result.answer ≡ None }
    {
        StepSlot {
            answer: Answer {
                asid: 0,
                vmid: 0,
                outcome: Outcome::Conflict,
                first: Trail::none(),
                second: None,
                old: false,
                stale: false,
                evicted: 0,
            },
            event: Event::Deliver { core: 0 },
            is_answered: false,
        }
    }

    /// The step that stands in it.
    pub fn into_step(self) -> Step
        ensures { result ≡ self }
    {
        if self.is_answered {
            return Step {
                event: self.event,
                answer: Some(self.answer),
            };
        }
        Step {
            event: self.event,
            answer: None,
        }
    }
}
