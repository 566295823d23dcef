ghost use Rattle.std.specs.Prelude.{◌≡◌, IfOk, map, string_bytes, true, option_map, codes};
ghost use Rattle.clap.specs.Simple.{app_of, is_simple, with_rule};
ghost use Rattle.clap.specs.Faults.{is_simple_and_free};
ghost use Rattle.clap.specs.Walk.{first_of, rows_of};
ghost use Rattle.clap.specs.Matches.{found_of};
ghost use Rattle.commands.specs.Clap.{IsMatched, bare, needed, number_by};

use bitwords::NoMemory;
use clap::error::ErrorKind;
use clap::{Arg, ArgMatches, Command};
use std::alloc::{AllocError, Global};
use texts::number;

/// A command that reads the words behind its name, without arguments so far.
pub fn named<'a>(alloc: Global, name: &'a str) -> Command<'a>
    ensures { app_of result ≡ bare name.now }
{
    Command::new(alloc, name)
        .no_binary_name(true)
        .disable_help_flag(true)
}

/// A command with one argument more, which has to be there.
pub fn with_needed<'a>(
    alloc: Global,
    command: Command<'a>,
    name: &'a str,
) -> Result<Command<'a>, AllocError>
    ensures { IfOk result (λ more. app_of more ≡ with_rule (app_of command.entry) (needed name.now)) }
{
    command.arg(Arg::new(alloc, name).required(true))
}

/// A command with two arguments more, which have to be there.
pub fn with_two<'a>(
    alloc: Global,
    command: Command<'a>,
    first: &'a str,
    second: &'a str,
) -> Result<Command<'a>, AllocError>
    ensures { IfOk result (λ more. app_of more ≡ with_rule (with_rule (app_of command.entry) (needed first.now)) (needed second.now)) }
{
    let command = with_needed(alloc, command, first)?;
    with_needed(alloc, command, second)
}

/// What a command makes of words, or None where it finds a fault in them.
pub fn matched<'a>(
    command: Command<'a>,
    words: &'a [String],
) -> Result<Option<ArgMatches<'a>>, NoMemory>
    requires simple { is_simple (app_of command) ≡ true }
    requires free { is_simple_and_free (app_of command) ≡ true }
    ensures { IfOk result (IsMatched (app_of command.entry) (map string_bytes words.now)) }
{
    match command.try_get_matches_from(words) {
        Ok(matches) => Ok(Some(matches)),
        Err(error) => match error.kind() {
            ErrorKind::OutOfMemory => Err(NoMemory),
            _ => Ok(None),
        },
    }
}

/// The text of an argument, where it was given.
pub fn text_of<'a>(matches: &ArgMatches<'a>, name: &str) -> Option<&'a str>
    ensures { option_map (λ text. text.now) result ≡ first_of name.now (rows_of (found_of matches.now)) }
{
    matches.get_str(name)
}

/// The number that a text is, where there is a text and it is one.
pub fn number_in(text: Option<&str>) -> Option<u64>
    ensures { result ≡ number_by (option_map (λ text. text.now) text.entry) }
{
    number(text?.as_bytes())
}
