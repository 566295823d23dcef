ghost use Rattle.std.specs.Prelude.{◌≡◌, ◌≤◌, IfOk, length, map, string_bytes, true, option_map, option_and_then};
ghost use Rattle.std.specs.List.{list_all};
ghost use Rattle.clap.specs.Simple.{app_of};
ghost use Rattle.permissions.specs.AccessNames.{el_of, kind_of};
ghost use Rattle.commands.specs.Asked.{explain_words_of};
ghost use Rattle.commands.specs.Command.{is_plain, explain_asked, access_with};
ghost use Rattle.clap.specs.Walk.{rows_of};
ghost use Rattle.clap.specs.Matches.{found_of};
ghost use Rattle.commands.specs.Clap.{access_in, with_access, explain_app, explain_by, pan_by};

use crate::matched::{matched, named, number_in, text_of, with_needed, with_two};
use bitwords::NoMemory;
use clap::{Arg, ArgMatches, Command};
use permissions::{El, Kind};
use std::alloc::{AllocError, Global};
use trails::Access;

/// An access over a dump: the names of the register file and of the dump, and the access.
#[derive(Clone, Copy, Debug, PartialEq, Eq)]
pub struct ExplainArgs<'a> {
    pub registers: &'a str,
    pub dump: &'a str,
    pub access: Access,
}

/// The exception level: `el0` or `el1`.
fn el(text: Option<&str>) -> Option<El>
    ensures { result ≡ option_and_then el_of (option_map (λ text. text.now) text.entry) }
{
    El::named(text?.as_bytes())
}

/// The kind of access: `read`, `write` or `fetch`.
fn kind(text: Option<&str>) -> Option<Kind>
    ensures { result ≡ option_and_then kind_of (option_map (λ text. text.now) text.entry) }
{
    Kind::named(text?.as_bytes())
}

/// Whether PSTATE.PAN is set: `pan`, or no word.
fn pan(text: Option<&str>) -> Option<bool>
    ensures { result ≡ pan_by (option_map (λ text. text.now) text.entry) }
{
    match text {
        None => Some(false),
        Some("pan") => Some(true),
        Some(_) => None,
    }
}

fn access(va: Option<u64>, el: Option<El>, kind: Option<Kind>, pan: Option<bool>) -> Option<Access>
    ensures { result ≡ access_with va el kind pan }
{
    Some(Access {
        va: va?,
        el: el?,
        kind: kind?,
        pan: pan?,
    })
}

/// A command with the arguments of an access more.
fn with_access<'a>(alloc: Global, command: Command<'a>) -> Result<Command<'a>, AllocError>
    ensures { IfOk result (λ more. app_of more ≡ with_access (app_of command.entry)) }
{
    let command = with_two(alloc, command, "VA", "EL")?;
    let command = with_needed(alloc, command, "KIND")?;
    command.arg(Arg::new(alloc, "pan"))
}

fn explain_command<'a>(alloc: Global) -> Result<Command<'a>, AllocError>
    ensures { IfOk result (λ command. app_of command ≡ explain_app) }
{
    let command = with_two(alloc, named(alloc, "explain"), "REGS", "DUMP")?;
    with_access(alloc, command)
}

fn explain_from<'a>(
    registers: Option<&'a str>,
    dump: Option<&'a str>,
    access: Option<Access>,
) -> Option<ExplainArgs<'a>>
    ensures { option_map explain_words_of result ≡
        explain_by (option_map (λ text. text.now) registers.entry) (option_map (λ text. text.now) dump.entry) access }
{
    Some(ExplainArgs {
        registers: registers?,
        dump: dump?,
        access: access?,
    })
}

/// The access that the matches of `explain` name.
fn access_of(m: &ArgMatches<'_>) -> Option<Access>
    ensures { result ≡ access_in (rows_of (found_of m.now)) }
{
    access(
        number_in(text_of(m, "VA")),
        el(text_of(m, "EL")),
        kind(text_of(m, "KIND")),
        pan(text_of(m, "pan")),
    )
}

/// The words behind `explain`, where they are not too many.
fn explain_few(alloc: Global, words: &[String]) -> Result<Option<ExplainArgs<'_>>, NoMemory>
    requires plain { list_all is_plain (map string_bytes words.now) ≡ true }
    requires few { length words.now ≤ 6 }
    ensures { IfOk result (λ args. option_map explain_words_of args ≡ explain_asked (map string_bytes words.now)) }
{
    let Ok(command) = explain_command(alloc) else {
        return Err(NoMemory);
    };
    match matched(command, words)? {
        None => Ok(None),
        Some(m) => Ok(explain_from(text_of(&m, "REGS"), text_of(&m, "DUMP"), access_of(&m))),
    }
}

/// The words behind `explain`: REGS DUMP VA EL KIND, and `pan` or not. None where they are others.
pub fn explain(alloc: Global, words: &[String]) -> Result<Option<ExplainArgs<'_>>, NoMemory>
    requires { list_all is_plain (map string_bytes words.now) ≡ true }
    ensures { IfOk result (λ args. option_map explain_words_of args ≡ explain_asked (map string_bytes words.now)) }
{
    if words.len() > 6 {
        return Ok(None);
    }
    explain_few(alloc, words)
}
