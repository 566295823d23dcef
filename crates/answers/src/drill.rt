//! A drill.
ghost use Rattle.std.specs.Prelude.{IfOk, Some};
ghost use Rattle.dump_file.specs.Held.{Reading};
ghost use Rattle.commands.specs.Asked.{Asked, drill_words_of};
ghost use Rattle.answers.specs.Answers.{IsDue};
ghost use Rattle.answers.specs.Due.{due_of, HasAnswerText};

use crate::answer::Answer;
use commands::DrillArgs;
use statuses::Status;
use std::alloc::Global;

/// What comes of a drill. It reads no file.
pub fn drill(alloc: Global, asked: &DrillArgs) -> Result<Answer, Status>
    ensures outcome { IfOk result HasAnswerText }
    ensures due { (r : Reading) → IsDue r (Some (Asked.Drill (drill_words_of asked.now))) (due_of result) }
{
    match run_answer::drill(alloc, asked.start) {
        Ok(machine) => Ok(Answer::Drill { machine }),
        Err(_) => Err(Status::NoMemory),
    }
}
