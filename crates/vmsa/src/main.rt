//! Translates an address through a dump or an image of memory, or runs a trace: `vmsa explain REGS DUMP VA EL KIND [pan]`,
//! `vmsa raw IMAGE TCR TTBR0 VA`, `vmsa run TRACE`.
#![tactic(auto)]

ghost use Rattle.std.specs.Prelude.{◌≡◌, ◌≢◌, ℕ, [], drop, map, string_bytes, IfOk, MatchResult};
ghost use Rattle.std.specs.IoError.{error_kind};
ghost use Rattle.std.specs.Process.{exit_status};
ghost use Rattle.std.specs.Vec.Iter.{into_iter_items};
ghost use Rattle.std.specs.declared.io.ErrorKind.TheVariants.{InvalidData};
ghost use Rattle.dump_file.specs.Held.{reading_of};
ghost use Rattle.explain_text.specs.Written.{writing_of, GotNothing};
ghost use Rattle.commands.specs.Command.{command_of};
ghost use Rattle.top_call.specs.Clauses.{IsAnswer};
ghost use Rattle.statuses.specs.Status.{number_of_status, Exits};

use dump_file::{Files, RealFiles};
use explain_text::{Adapter, Sink};
use statuses::Status;
use std::alloc::Global;
use std::process::ExitCode;
use std::{env, io};
use top_call::vmsa;

/// The words after the first, which is the program's name.
fn after_name(alloc: Global, all: env::Args) -> io::Result<Vec<String>>
    ensures { IfOk result (λ words. words.items ≡ drop 1 (into_iter_items all)) }
{
    let mut rest = all;
    let _name = rest.next();
    Ok(rest.collect(alloc)?)
}

/// What stands for words that could not be taken: where one isn't UTF-8 no words, which are no command. Want of memory
/// stays an error.
fn no_words(alloc: Global, error: io::Error) -> io::Result<Vec<String>>
    ensures { MatchResult result (λ words. (error_kind error ≡ InvalidData) × (words.items ≡ []))
        (λ e. (error_kind error ≢ InvalidData) × (e ≡ error)) }
{
    if error.kind() == io::ErrorKind::InvalidData {
        Ok(Vec::new(alloc))
    } else {
        Err(error)
    }
}

/// The words of the command line, without the program's name.
fn taken_words(alloc: Global, all: io::Result<env::Args>) -> io::Result<Vec<String>>
    ensures { MatchResult all (λ all. IfOk result (λ words. words.items ≡ drop 1 (into_iter_items all)))
        (λ error. MatchResult result (λ words. (error_kind error ≡ InvalidData) × (words.items ≡ []))
        (λ e. (error_kind error ≢ InvalidData) × (e ≡ error))) }
{
    match all {
        Ok(all) => after_name(alloc, all),
        Err(error) => no_words(alloc, error),
    }
}

/// The exit status of the process.
fn exit_code(status: &Status) -> ExitCode
    ensures { exit_status result ≡ number_of_status status.now }
{
    ExitCode::from(status.number())
}

/// Does all that the program does, and tells its exit status. Where memory for the words is refused it is that of
/// NoMemory, and nothing is written.
fn ended<F: Files, O: Sink, E: Sink>(
    alloc: Global,
    words: &io::Result<Vec<String>>,
    files: &mut F,
    out: &mut O,
    err: &mut E,
) -> ExitCode
    ensures { MatchResult words.now
        (λ words. Exits (exit_status result)
        (IsAnswer (reading_of F.holds F.faults F.missing files.old files.new) (writing_of O.written O.faults out.old out.new)
        (writing_of E.written E.faults err.old err.new) (command_of (map string_bytes words.items))))
        (λ _. Exits (exit_status result) (λ status. (status ≡ Status.NoMemory) × GotNothing (writing_of O.written O.faults out.old out.new)
        × GotNothing (writing_of E.written E.faults err.old err.new))) }
{
    match words {
        Ok(words) => exit_code(&vmsa(alloc, words.as_slice(), files, out, err)),
        Err(_) => exit_code(&Status::NoMemory),
    }
}

/// The word at a place, or an empty one.
fn word(words: &io::Result<Vec<String>>, place: usize) -> &str {
    match words {
        Ok(words) => words.get(place).map_or("", |word| word.as_str()),
        Err(_) => "",
    }
}

/// Failures are counted by the names of files, which are the first two words behind a command's name.
fn main(rt: HostRuntime) -> ExitCode {
    let alloc = rt.alloc();
    let words = taken_words(alloc, env::args(&rt));
    let mut out = Adapter::new(rt.stdout());
    let mut err = Adapter::new(rt.stderr());
    let mut files = RealFiles::new(rt, alloc, word(&words, 1), word(&words, 2));
    ended(alloc, &words, &mut files, &mut out, &mut err)
}
