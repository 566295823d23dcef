ghost use Rattle.std.specs.Prelude.{◌≡◌, IfOk, map, string_bytes, true, option_map, codes};
ghost use Rattle.std.specs.List.{list_all};
ghost use Rattle.clap.specs.Simple.{app_of};
ghost use Rattle.commands.specs.Asked.{run_words_of};
ghost use Rattle.commands.specs.Command.{is_plain, run_asked};
ghost use Rattle.commands.specs.Clap.{run_app, run_by};

use crate::matched::{matched, named, text_of, with_needed};
use bitwords::NoMemory;
use clap::Command;
use std::alloc::{AllocError, Global};

/// A run of a trace: the file's name.
#[derive(Clone, Copy, Debug, PartialEq, Eq)]
pub struct RunArgs<'a> {
    pub trace: &'a str,
}

fn run_command<'a>(alloc: Global) -> Result<Command<'a>, AllocError>
    ensures { IfOk result (λ command. app_of command ≡ run_app) }
{
    with_needed(alloc, named(alloc, "run"), "TRACE")
}

fn run_from<'a>(trace: Option<&'a str>) -> Option<RunArgs<'a>>
    ensures { option_map run_words_of result ≡ run_by (option_map (λ text. text.now) trace.entry) }
{
    Some(RunArgs { trace: trace? })
}

/// The word behind `run`: TRACE. None where there are others.
pub fn run(alloc: Global, words: &[String]) -> Result<Option<RunArgs<'_>>, NoMemory>
    requires { list_all is_plain (map string_bytes words.now) ≡ true }
    ensures { IfOk result (λ args. option_map run_words_of args ≡ run_asked (map string_bytes words.now)) }
{
    let Ok(command) = run_command(alloc) else {
        return Err(NoMemory);
    };
    match matched(command, words)? {
        None => Ok(None),
        Some(m) => Ok(run_from(text_of(&m, "TRACE"))),
    }
}
