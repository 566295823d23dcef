ghost use Rattle.std.specs.Prelude.{◌≡◌, IfOk, map, string_bytes, true, option_map, codes};
ghost use Rattle.std.specs.List.{list_all};
ghost use Rattle.clap.specs.Simple.{app_of};
ghost use Rattle.commands.specs.Asked.{drill_words_of};
ghost use Rattle.commands.specs.Command.{is_plain, drill_asked};
ghost use Rattle.commands.specs.Clap.{drill_app, drill_by};

use crate::matched::{matched, named, number_in, text_of, with_needed};
use bitwords::NoMemory;
use clap::Command;
use std::alloc::{AllocError, Global};

/// A drill: the number with which its draws begin.
#[derive(Clone, Copy, Debug, PartialEq, Eq)]
pub struct DrillArgs {
    pub start: u64,
}

fn drill_command<'a>(alloc: Global) -> Result<Command<'a>, AllocError>
    ensures { IfOk result (λ command. app_of command ≡ drill_app) }
{
    with_needed(alloc, named(alloc, "drill"), "N")
}

fn drill_from(start: Option<u64>) -> Option<DrillArgs>
    ensures { option_map drill_words_of result ≡ drill_by start }
{
    Some(DrillArgs { start: start? })
}

/// The word behind `drill`: N. None where there are others.
pub fn drill(alloc: Global, words: &[String]) -> Result<Option<DrillArgs>, NoMemory>
    requires { list_all is_plain (map string_bytes words.now) ≡ true }
    ensures { IfOk result (λ args. option_map drill_words_of args ≡ drill_asked (map string_bytes words.now)) }
{
    let Ok(command) = drill_command(alloc) else {
        return Err(NoMemory);
    };
    match matched(command, words)? {
        None => Ok(None),
        Some(m) => Ok(drill_from(number_in(text_of(&m, "N")))),
    }
}
