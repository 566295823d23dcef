//! The drill: a made trace that is run for its summary alone.
ghost use Rattle.std.specs.Prelude.{◌≡◌, IfOk};
ghost use Rattle.bitwords.specs.Causes.{HasCause};
ghost use Rattle.explain_text.specs.Written.{Wrote};
ghost use Rattle.run_answer.specs.Run.{IsDrillText, IsReady, summary_line};

use bitwords::NoMemory;
use drill_trace::made_trace;
use explain_text::{Sink, WriteFailed};
use machine::Runner;
use machine_laws::runs_keep_their_promise;
use report_text::Tally;
use std::alloc::Global;
use trails::StepSlot;

/// The machine before the first event of the drill whose draws begin at a number.
pub fn drill(alloc: Global, start: u64) -> Result<Runner, NoMemory>
    ensures text { IfOk result (λ m. IsDrillText start (summary_line m)) }
    ensures printable { IfOk result (λ m. IsReady m) }
{
    runs_keep_their_promise();
    Runner::opened(alloc, made_trace(alloc, start)?)
}

/// Runs a machine to the end of its trace, and writes the last line of its report.
pub fn sum_up<O: Sink>(out: &mut O, machine: &mut Runner) -> Result<(), WriteFailed>
    requires { IsReady machine.old }
    ensures text { Wrote (O.written out.old) (O.written out.new) result (summary_line machine.old) }
    ensures cause { HasCause (O.faults out.old) (O.faults out.new) result }
{
    let mut tally = Tally::new();
    let mut slot = StepSlot::new();
    for k in 0..machine.left() {
        machine.step(&mut slot);
        tally.step(&slot);
    }
    tally.put(out)
}
