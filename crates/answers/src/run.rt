//! A trace that is run.
ghost use Rattle.std.specs.Prelude.{IfOk, Some};
ghost use Rattle.dump_file.specs.Held.{reading_of};
ghost use Rattle.commands.specs.Asked.{Asked, run_words_of};
ghost use Rattle.answers.specs.Answers.{IsDue};
ghost use Rattle.answers.specs.Due.{due_of, HasAnswerText};

use crate::answer::Answer;
use commands::RunArgs;
use dump_file::Files;
use run_answer::{ready, trace};
use statuses::Status;
use std::alloc::Global;

/// What comes of a run.
pub fn run<F: Files>(alloc: Global, asked: &RunArgs, files: &mut F) -> Result<Answer, Status>
    ensures outcome { IfOk result HasAnswerText }
    ensures due { IsDue (reading_of F.holds F.faults F.missing files.old files.new) (Some (Asked.Run (run_words_of asked.now))) (due_of result) }
{
    let trace = trace(alloc, asked.trace, files)?;
    match ready(alloc, trace) {
        Ok(machine) => Ok(Answer::Run { machine }),
        Err(_) => Err(Status::NoMemory),
    }
}
