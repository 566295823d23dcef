ghost use Rattle.std.specs.Prelude.{◌≡◌, map, string_bytes, IfOk};
ghost use Rattle.explain_text.specs.Written.{writing_of};
ghost use Rattle.dump_file.specs.Held.{reading_of};
ghost use Rattle.commands.specs.Command.{command_of};
ghost use Rattle.answers.specs.Answers.{IsDue};
ghost use Rattle.top_call.specs.Clauses.{Tells};
ghost use Rattle.top_call.specs.Clauses.{UsageWhere, RefusedWhere, NoFileWhere, ReadFaultWhere, WriteFaultWhere, DoneWhere, IsQuiet, IsComplete};
ghost use Rattle.answers.specs.Due.{due_of, HasAnswerText};

use answers::drill::drill;
use answers::explain::explain;
use answers::raw::raw;
use answers::run::run;
use answers::{Answer, put_answer};
use commands::{Command, read_command};
use dump_file::Files;
use explain_text::Sink;
use statuses::{Status, error_line};
use std::alloc::Global;

/// What is due, before anything is written: an answer, or a refusal.
fn due<F: Files>(alloc: Global, words: &[String], files: &mut F) -> Result<Answer, Status>
    ensures outcome { IfOk result HasAnswerText }
    ensures due { IsDue (reading_of F.holds F.faults F.missing files.old files.new) (command_of (map string_bytes words.now)) (due_of result) }
{
    match read_command(alloc, words) {
        Err(_) => Err(Status::NoMemory),
        Ok(None) => Err(Status::Usage),
        Ok(Some(Command::Raw(asked))) => raw(alloc, &asked, files),
        Ok(Some(Command::Explain(asked))) => explain(alloc, &asked, files),
        Ok(Some(Command::Run(asked))) => run(alloc, &asked, files),
        Ok(Some(Command::Drill(asked))) => drill(alloc, &asked),
    }
}

/// Writes what is due.
fn tell<O: Sink, E: Sink>(out: &mut O, err: &mut E, due: Result<Answer, Status>) -> Status
    requires { IfOk due HasAnswerText }
    ensures { Tells (writing_of O.written O.faults out.old out.new) (writing_of E.written E.faults err.old err.new) (due_of due) result }
{
    match due {
        Ok(answer) => match put_answer(out, answer) {
            Ok(()) => Status::Done,
            Err(_) => Status::WriteFault,
        },
        Err(status) => match error_line(err, &status) {
            Ok(()) => status,
            Err(_) => Status::WriteFault,
        },
    }
}

/// Does all that the program does. `words` are the words after the program's name.
pub fn vmsa<F: Files, O: Sink, E: Sink>(
    alloc: Global,
    words: &[String],
    files: &mut F,
    out: &mut O,
    err: &mut E,
) -> Status
    ensures usage { UsageWhere (writing_of E.written E.faults err.old err.new) (command_of (map string_bytes words.now)) result }
    ensures refused { RefusedWhere (reading_of F.holds F.faults F.missing files.old files.new) (writing_of E.written E.faults err.old err.new)
        (command_of (map string_bytes words.now)) result }
    ensures no_file { NoFileWhere (reading_of F.holds F.faults F.missing files.old files.new) (writing_of E.written E.faults err.old err.new)
        (command_of (map string_bytes words.now)) result }
    ensures read_fault { ReadFaultWhere (reading_of F.holds F.faults F.missing files.old files.new) (command_of (map string_bytes words.now)) result }
    ensures write_fault { WriteFaultWhere (reading_of F.holds F.faults F.missing files.old files.new) (writing_of O.written O.faults out.old out.new)
        (writing_of E.written E.faults err.old err.new) (command_of (map string_bytes words.now)) result }
    ensures done { DoneWhere (reading_of F.holds F.faults F.missing files.old files.new) (writing_of O.written O.faults out.old out.new)
        (writing_of E.written E.faults err.old err.new) (command_of (map string_bytes words.now)) result }
    ensures quiet { IsQuiet (writing_of O.written O.faults out.old out.new) (writing_of E.written E.faults err.old err.new) result }
    ensures complete { IsComplete (reading_of F.holds F.faults F.missing files.old files.new) (writing_of O.written O.faults out.old out.new)
        (writing_of E.written E.faults err.old err.new) (command_of (map string_bytes words.now)) result }
{
    tell(out, err, due(alloc, words, files))
}
