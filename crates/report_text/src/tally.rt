ghost use Rattle.std.specs.Prelude.{◌≡◌, ◌<◌, ◌+◌, ◌^◌};
ghost use Rattle.bitwords.specs.Causes.{HasCause};
ghost use Rattle.explain_text.specs.Written.{Wrote};
ghost use Rattle.machine_spec.specs.Summary.{no_steps, with_event, with_answer};
ghost use Rattle.report_text.specs.Report.{summary_text};

use crate::counts::Counts;
use crate::lines::put_summary_line;
use explain_text::{Sink, WriteFailed};
use std::marker::Model;
use texts::{LINE, Line};
use trails::StepSlot;

/// What the steps of a run come to in numbers, counted while they are done.
#[derive(Drop)]
pub struct Tally {
    counts: Counts,
    steps: u64,
}

impl Model for Tally {
    ghost use Rattle.std.specs.Prelude.{◌*◌, ◌^◌, ◌-◌};
    ghost use Rattle.report_text.specs.Bounds.{Within};
    ghost use Rattle.report_text.specs.Reports.{TallyState};

    ghost Value = { TallyState };

    ghost view = { λ s. record { counted = s.counts; steps = s.steps } };

    ghost invariant = { λ s. Within (3 * s.steps) ((2 ^ 32 - 1) * s.steps) s.counts };
}

impl Tally {
    /// The numbers of no steps.
    pub fn new() -> Tally
        ensures counted { result.counted ≡ no_steps }
        ensures steps { result.steps ≡ 0 }
    {
        Tally {
            counts: Counts::none(),
            steps: 0,
        }
    }

    /// How many steps were counted.
    pub fn steps(&self) -> u64
        ensures { result ≡ self.now.steps }
    {
        self.steps
    }

    pub(crate) fn counts(&self) -> &Counts
        ensures { result.now ≡ self.now.counted }
    {
        &self.counts
    }

    /// Counts the next step.
    pub fn step(&mut self, step: &StepSlot)
        requires { self.old.steps < 2 ^ 32 }
        ensures counted { self.new.counted ≡ with_answer (with_event self.old.counted step.now.event) step.now.answer }
        ensures steps { self.new.steps ≡ self.old.steps + 1 }
    {
        self.counts.step(step);
        self.steps += 1;
    }

    /// Writes the summary line.
    pub fn put<O: Sink>(&self, out: &mut O) -> Result<(), WriteFailed>
        ensures text { Wrote (O.written out.old) (O.written out.new) result (summary_text self.now.counted) }
        ensures cause { HasCause (O.faults out.old) (O.faults out.new) result }
    {
        let mut line = Line::<LINE>::new();
        put_summary_line(&mut line, &self.counts);
        out.put(line.bytes())
    }
}
