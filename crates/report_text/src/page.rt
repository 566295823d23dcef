ghost use Rattle.std.specs.Prelude.{◌≡◌, ◌≤◌, ◌+◌, [], OnOk, length};
ghost use Rattle.bitwords.specs.Causes.{HasCause};
ghost use Rattle.report_text.specs.Report.{step_text, summary_text};
ghost use Rattle.trails.specs.Printed.{HasTextInRun};
ghost use Rattle.report_text.specs.Waits.{Adds, HandsOn};

use crate::counts::Counts;
use crate::lines::{put_step_lines, put_summary_line};
use explain_text::{Sink, WriteFailed};
use texts::{LINE, Line};
use trails::StepSlot;

/// The room of a page in bytes. What waits on a page is handed on before there is no room for the lines of one more step.
pub const PAGE: usize = 64 * 1024;

/// How many bytes wait at least before they are handed on.
const LEAST: usize = PAGE - LINE;

/// Hands on what waits where that is at least so many bytes. After an error nothing waits.
fn pass_on<O: Sink>(page: &mut Line<PAGE>, out: &mut O, least: usize) -> Result<(), WriteFailed>
    ensures text { HandsOn (O.written out.old) (O.written out.new) result page.old page.new }
    ensures empty { least ≡ 0 → OnOk result (page.new ≡ []) }
    ensures room { length page.new ≤ least }
    ensures cause { HasCause (O.faults out.old) (O.faults out.new) result }
{
    if page.bytes().len() < least {
        return Ok(());
    }
    let handed = out.put(page.bytes());
    page.clear();
    handed
}

/// Puts the lines of a step on a page, and hands it on where enough waits.
pub fn put_step<O: Sink>(
    page: &mut Line<PAGE>,
    out: &mut O,
    number: u64,
    step: &StepSlot,
) -> Result<(), WriteFailed>
    requires printable { HasTextInRun step.now.answer }
    requires room { length page.old + LINE ≤ PAGE }
    ensures text { Adds (O.written out.old) (O.written out.new) result page.old page.new (step_text number step.now) }
    ensures room { length page.new + LINE ≤ PAGE }
    ensures cause { HasCause (O.faults out.old) (O.faults out.new) result }
{
    put_step_lines(page, number, step);
    pass_on(page, out, LEAST)
}

/// Puts the summary line on a page, and hands on all that waits.
pub fn put_summary<O: Sink>(
    page: &mut Line<PAGE>,
    out: &mut O,
    counts: &Counts,
) -> Result<(), WriteFailed>
    requires { length page.old + LINE ≤ PAGE }
    ensures text { Adds (O.written out.old) (O.written out.new) result page.old page.new (summary_text counts.now) }
    ensures empty { OnOk result (page.new ≡ []) }
    ensures room { length page.new + LINE ≤ PAGE }
    ensures cause { HasCause (O.faults out.old) (O.faults out.new) result }
{
    put_summary_line(page, counts);
    pass_on(page, out, 0)
}
