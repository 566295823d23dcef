ghost use Rattle.std.specs.Prelude.{◌≡◌, ◌<◌, ◌+◌, ◌^◌, List, Option, ℕ, []};
ghost use Rattle.bitwords.specs.Causes.{HasCause};
ghost use Rattle.trails.specs.declared.step.Step.{Step as TheStep};
ghost use Rattle.explain_text.specs.Written.{Wrote};
ghost use Rattle.report_text.specs.Report.{report_text};
ghost use Rattle.trails.specs.Printed.{HasTextInRun};
ghost use Rattle.report_text.specs.Reports.{IsReportOf, GoesOn};

use crate::page::{PAGE, put_step, put_summary};
use crate::tally::Tally;
use explain_text::{Sink, WriteFailed};
use std::marker::Model;
use texts::Line;
use trails::StepSlot;

/// The report of a run, which is written while its steps are done: for each access and prefetch its lines, and at the end
/// the summary line. It goes out in pieces of at least 48 KiB but for the last. The form is this project's own rule.
#[derive(Drop)]
pub struct Report {
    page: Line<PAGE>,
    tally: Tally,
}

impl Model for Report {
    ghost use Rattle.std.specs.Prelude.{◌+◌, ◌≤◌, length};
    ghost use Rattle.texts.specs.declared.line.TheConstants.{LINE};
    ghost use Rattle.report_text.specs.declared.page.TheConstants.{PAGE};
    ghost use Rattle.report_text.specs.Reports.{ReportState};

    ghost Value = { ReportState };

    ghost view = { λ s. record { waits = s.page; counted = s.tally.counted; steps = s.tally.steps } };

    ghost invariant = { λ s. length s.page + LINE ≤ PAGE };
}

impl Report {
    /// A report without steps.
    pub fn new() -> Report
        ensures { (now : Option (List ℕ)) → IsReportOf now now result [] }
    {
        Report {
            page: Line::new(),
            tally: Tally::new(),
        }
    }

    /// Writes the lines of the next step. After an error a first part of the report was written.
    pub fn step<O: Sink>(&mut self, out: &mut O, step: &StepSlot) -> Result<(), WriteFailed>
        requires printable { HasTextInRun step.now.answer }
        requires few { self.old.steps < 2 ^ 32 }
        ensures text { (before : Option (List ℕ)) (log : List TheStep) → IsReportOf before (O.written out.old) self.old log →
            GoesOn before (O.written out.new) result self.new log step.now }
        ensures steps { self.new.steps ≡ self.old.steps + 1 }
        ensures cause { HasCause (O.faults out.old) (O.faults out.new) result }
    {
        let number = self.tally.steps();
        self.tally.step(step);
        put_step(&mut self.page, out, number, step)
    }

    /// Writes the summary line, and all that waits.
    pub fn end<O: Sink>(&mut self, out: &mut O) -> Result<(), WriteFailed>
        ensures text { (before : Option (List ℕ)) (log : List TheStep) → IsReportOf before (O.written out.old) self.old log →
            Wrote before (O.written out.new) result (report_text log) }
        ensures cause { HasCause (O.faults out.old) (O.faults out.new) result }
    {
        put_summary(&mut self.page, out, self.tally.counts())
    }
}
