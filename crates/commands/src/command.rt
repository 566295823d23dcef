ghost use Rattle.std.specs.Prelude.{◌≡◌, IfOk, map, string_bytes, true, option_map};
ghost use Rattle.std.specs.List.{list_all};
ghost use Rattle.commands.specs.Asked.{asked_of};
ghost use Rattle.commands.specs.Command.{command_of, is_plain, named};

use crate::drill::{DrillArgs, drill};
use crate::explain::{ExplainArgs, explain};
use crate::raw::{RawArgs, raw};
use crate::run::{RunArgs, run};
use bitwords::NoMemory;
use std::alloc::Global;

/// A command and its arguments.
#[derive(Clone, Copy, Debug, PartialEq, Eq)]
pub enum Command<'a> {
    Raw(RawArgs<'a>),
    Explain(ExplainArgs<'a>),
    Run(RunArgs<'a>),
    Drill(DrillArgs),
}

fn plain(word: &str) -> bool
    ensures { result ≡ is_plain word.now }
{
    !word.is_empty() && word.as_bytes()[0] != b'-'
}

fn all_plain(words: &[String]) -> bool
    ensures { result ≡ list_all is_plain (map string_bytes words.now) }
{
    for word in words {
        if !plain(word.as_str()) {
            return false;
        }
    }
    true
}

/// The command that the first of plain words names, with its arguments.
fn named_command(alloc: Global, words: &[String]) -> Result<Option<Command<'_>>, NoMemory>
    requires { list_all is_plain (map string_bytes words.now) ≡ true }
    ensures { IfOk result (λ command. option_map asked_of command ≡ named (map string_bytes words.now)) }
{
    let Some((name, rest)) = words.split_first() else {
        return Ok(None);
    };
    if name.as_str() == "raw" {
        Ok(raw(alloc, rest)?.map(Command::Raw))
    } else if name.as_str() == "explain" {
        Ok(explain(alloc, rest)?.map(Command::Explain))
    } else if name.as_str() == "run" {
        Ok(run(alloc, rest)?.map(Command::Run))
    } else if name.as_str() == "drill" {
        match drill(alloc, rest)? {
            Some(args) => Ok(Some(Command::Drill(args))),
            None => Ok(None),
        }
    } else {
        Ok(None)
    }
}

/// What the words after the program's name ask for: `raw IMAGE TCR TTBR0 VA`,
/// `explain REGS DUMP VA EL KIND [pan]`, `run TRACE` or `drill N`. None where they are no command. An empty word, or one that begins with `-`, stands in none.
pub fn read_command(alloc: Global, words: &[String]) -> Result<Option<Command<'_>>, NoMemory>
    ensures { IfOk result (λ command. option_map asked_of command ≡ command_of (map string_bytes words.now)) }
{
    if !all_plain(words) {
        return Ok(None);
    }
    named_command(alloc, words)
}
