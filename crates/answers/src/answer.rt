ghost use Rattle.std.specs.Prelude.{◌≡◌, ◌≤◌, ◌+◌, ◌++◌, length};
ghost use Rattle.bitwords.specs.Causes.{HasCause};
ghost use Rattle.explain_text.specs.Written.{Wrote};
ghost use Rattle.walk_spec.specs.Walked.{HasLine};
ghost use Rattle.answers.specs.Texts.{raw_outcome_text, raw_text};
ghost use Rattle.answers.specs.Due.{answer_text, HasAnswerText};

use explain_text::{Sink, WriteFailed, explain, put_absent, put_fault, put_items};
use machine::Runner;
use run_answer::{play, sum_up};
use sysregs::Regs;
use texts::{LINE, Line};
use trails::{Access, Outcome, Trail};

/// What a walk comes to: its outcome, and the items that it used.
#[derive(Drop)]
pub struct Walked {
    pub outcome: Outcome,
    pub trail: Trail,
}

/// What a command answers.
#[derive(Drop)]
pub enum Answer {
    /// An EL1 read over an image.
    Raw {
        va: u64,
        walked: Walked,
    },
    /// An access over a dump.
    Explain {
        regs: Regs,
        access: Access,
        walked: Walked,
    },
    /// A trace that is run while its report is written: the machine before the first event.
    Run {
        machine: Runner,
    },
    /// A drill, of which the last line is written: the machine before the first event.
    Drill {
        machine: Runner,
    },
}

/// Puts the last line of an EL1 read over an image.
fn put_raw_outcome(line: &mut Line<LINE>, outcome: &Outcome)
    requires printable { HasLine outcome.now }
    requires room { length line.old + 160 ≤ LINE }
    ensures { line.new ≡ line.old ++ raw_outcome_text outcome.now }
{
    match outcome {
        Outcome::Mapped { pa, .. } => {
            line.text(b"mapped ");
            line.hex(*pa);
            line.text(b"\n");
        }
        Outcome::Faulted { fault } => put_fault(line, fault),
        Outcome::Absent {
            stage,
            level,
            pa,
            s1ptw,
        } => put_absent(line, *stage, *level, *pa, *s1ptw),
        Outcome::Conflict => unreachable!(),
    }
}

/// The text of an EL1 read over an image.
fn raw_lines<O: Sink>(out: &mut O, va: u64, walked: &Walked) -> Result<(), WriteFailed>
    requires { HasLine walked.now.outcome }
    ensures text { Wrote (O.written out.old) (O.written out.new) result (raw_text va walked.now.trail walked.now.outcome) }
    ensures cause { HasCause (O.faults out.old) (O.faults out.new) result }
{
    let mut line = Line::<LINE>::new();
    line.text(b"access ");
    line.hex(va);
    line.text(b" el1 read\n");
    put_items(&mut line, walked.trail.items(), false);
    put_raw_outcome(&mut line, &walked.outcome);
    out.put(line.bytes())
}

/// Writes the text of an answer at once, that of a run in pages while it runs, and that of a drill behind its run.
pub fn put_answer<O: Sink>(out: &mut O, answer: Answer) -> Result<(), WriteFailed>
    requires { HasAnswerText answer }
    ensures text { Wrote (O.written out.old) (O.written out.new) result (answer_text answer) }
    ensures cause { HasCause (O.faults out.old) (O.faults out.new) result }
{
    match answer {
        Answer::Raw { va, walked } => raw_lines(out, va, &walked),
        Answer::Explain {
            regs,
            access,
            walked,
        } => explain(out, &regs, &access, &walked.outcome, &walked.trail),
        Answer::Run { mut machine } => play(out, &mut machine),
        Answer::Drill { mut machine } => sum_up(out, &mut machine),
    }
}
