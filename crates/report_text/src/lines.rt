ghost use Rattle.std.specs.Prelude.{◌≡◌, ◌≤◌, ◌+◌, ◌++◌, length, true};
ghost use Rattle.explain_text.specs.Explained.{outcome_text};
ghost use Rattle.trails.specs.Printed.{printed, HasText, HasTextInRun};
ghost use Rattle.report_text.specs.Report.{event_text, second_text, answer_text, step_text, outcomes_text, marks_text, summary_text};

use crate::counts::Counts;
use explain_text::{put_access, put_items, put_outcome};
use texts::Line;
use trails::{Access, Answer, Event, StepSlot, Trail};

/// Puts the second trail of a conflict, behind the line `or`.
fn put_second<const ROOM: usize>(line: &mut Line<ROOM>, second: &Option<Trail>)
    requires { length line.old + 6800 ≤ ROOM }
    ensures text { line.new ≡ line.old ++ second_text second.now }
    ensures room { length line.new ≤ length line.old + 6800 }
{
    if let Some(trail) = second {
        line.literal(b"or\n");
        put_items(line, trail.items(), true);
    }
}

/// Puts the lines of an answer.
fn put_answer<const ROOM: usize>(line: &mut Line<ROOM>, answer: &Answer)
    requires printable { HasText (printed true answer.now.outcome) }
    requires room { length line.old + 13760 ≤ ROOM }
    ensures text { line.new ≡ line.old ++ answer_text answer.now }
    ensures room { length line.new ≤ length line.old + 13760 }
{
    put_items(line, answer.first.items(), true);
    put_second(line, &answer.second);
    put_outcome(line, &answer.outcome, true);
}

/// Puts the line of an event.
#[inline]
fn put_event<const ROOM: usize>(
    line: &mut Line<ROOM>,
    number: u64,
    core: u8,
    word: &str,
    access: &Access,
    answer: &Answer,
)
    requires word { length word.now ≤ 8 }
    requires room { length line.old + 160 ≤ ROOM }
    ensures text { line.new ≡ line.old ++ event_text number core word.now access.now answer.now.asid answer.now.vmid }
    ensures room { length line.new ≤ length line.old + 160 }
{
    line.literal(b"event ");
    line.decimal(number);
    line.literal(b" core ");
    line.decimal(core as u64);
    line.literal(b" ");
    line.text(word.as_bytes());
    put_access(line, access, answer.asid, answer.vmid);
    line.literal(b"\n");
}

/// Puts the lines of an event that is answered.
#[inline]
fn put_answered<const ROOM: usize>(
    line: &mut Line<ROOM>,
    number: u64,
    core: u8,
    word: &str,
    access: &Access,
    answer: &Answer,
)
    requires word { length word.now ≤ 8 }
    requires printable { HasText (printed true answer.now.outcome) }
    requires room { length line.old + 14000 ≤ ROOM }
    ensures text { line.new ≡ line.old ++ (event_text number core word.now access.now answer.now.asid answer.now.vmid ++ answer_text answer.now) }
    ensures room { length line.new ≤ length line.old + 14000 }
{
    put_event(line, number, core, word, access, answer);
    put_answer(line, answer);
}

/// Puts the lines of a step. Only an access and a prefetch have some.
pub fn put_step_lines<const ROOM: usize>(line: &mut Line<ROOM>, number: u64, step: &StepSlot)
    requires printable { HasTextInRun step.now.answer }
    requires room { length line.old + 14000 ≤ ROOM }
    ensures text { line.new ≡ line.old ++ step_text number step.now }
    ensures room { length line.new ≤ length line.old + 14000 }
{
    if !step.is_answered {
        return;
    }
    let answer = &step.answer;
    match &step.event {
        Event::Access { core, access } => {
            put_answered(line, number, *core, "access", access, answer)
        }
        Event::Prefetch { core, access } => {
            put_answered(line, number, *core, "prefetch", access, answer)
        }
        Event::Store { .. }
        | Event::Msr { .. }
        | Event::Settle { .. }
        | Event::Isb { .. }
        | Event::Tlbi { .. }
        | Event::Dsb { .. }
        | Event::Deliver { .. } => {}
    }
}

/// Puts the front of the summary line.
fn put_outcome_counts<const ROOM: usize>(line: &mut Line<ROOM>, counts: &Counts)
    requires { length line.old + 160 ≤ ROOM }
    ensures text { line.new ≡ line.old ++ outcomes_text counts.now }
    ensures room { length line.new ≤ length line.old + 160 }
{
    line.literal(b"summary accesses ");
    line.decimal(counts.accesses);
    line.literal(b" prefetches ");
    line.decimal(counts.prefetches);
    line.literal(b" mapped ");
    line.decimal(counts.mapped);
    line.literal(b" faulted ");
    line.decimal(counts.faulted);
    line.literal(b" conflicts ");
    line.decimal(counts.conflicts);
}

/// Puts the end of the summary line.
fn put_mark_counts<const ROOM: usize>(line: &mut Line<ROOM>, counts: &Counts)
    requires { length line.old + 90 ≤ ROOM }
    ensures { line.new ≡ line.old ++ marks_text counts.now }
{
    line.literal(b" old ");
    line.decimal(counts.old_answers);
    line.literal(b" stale ");
    line.decimal(counts.stale_answers);
    line.literal(b" evicted ");
    line.decimal(counts.evicted);
    line.literal(b"\n");
}

/// Puts the summary line.
pub fn put_summary_line<const ROOM: usize>(line: &mut Line<ROOM>, counts: &Counts)
    requires { length line.old + 250 ≤ ROOM }
    ensures { line.new ≡ line.old ++ summary_text counts.now }
{
    put_outcome_counts(line, counts);
    put_mark_counts(line, counts);
}
