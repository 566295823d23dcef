ghost use Rattle.std.specs.Prelude.{◌≡◌, IfOk, map, string_bytes, true, option_map, codes};
ghost use Rattle.std.specs.List.{list_all};
ghost use Rattle.clap.specs.Simple.{app_of};
ghost use Rattle.commands.specs.Asked.{raw_words_of};
ghost use Rattle.commands.specs.Command.{is_plain, raw_asked};
ghost use Rattle.commands.specs.Clap.{raw_app, raw_by};

use crate::matched::{matched, named, number_in, text_of, with_two};
use bitwords::NoMemory;
use clap::Command;
use std::alloc::{AllocError, Global};

/// An EL1 read over an image: the file's name, the two registers and the virtual address.
#[derive(Clone, Copy, Debug, PartialEq, Eq)]
pub struct RawArgs<'a> {
    pub image: &'a str,
    pub tcr: u64,
    pub ttbr0: u64,
    pub va: u64,
}

fn raw_command<'a>(alloc: Global) -> Result<Command<'a>, AllocError>
    ensures { IfOk result (λ command. app_of command ≡ raw_app) }
{
    let command = with_two(alloc, named(alloc, "raw"), "IMAGE", "TCR")?;
    with_two(alloc, command, "TTBR0", "VA")
}

fn raw_from<'a>(
    image: Option<&'a str>,
    tcr: Option<u64>,
    ttbr0: Option<u64>,
    va: Option<u64>,
) -> Option<RawArgs<'a>>
    ensures { option_map raw_words_of result ≡ raw_by (option_map (λ text. text.now) image.entry) tcr ttbr0 va }
{
    Some(RawArgs {
        image: image?,
        tcr: tcr?,
        ttbr0: ttbr0?,
        va: va?,
    })
}

/// The words behind `raw`: IMAGE TCR TTBR0 VA. None where they are others.
pub fn raw(alloc: Global, words: &[String]) -> Result<Option<RawArgs<'_>>, NoMemory>
    requires { list_all is_plain (map string_bytes words.now) ≡ true }
    ensures { IfOk result (λ args. option_map raw_words_of args ≡ raw_asked (map string_bytes words.now)) }
{
    let Ok(command) = raw_command(alloc) else {
        return Err(NoMemory);
    };
    match matched(command, words)? {
        None => Ok(None),
        Some(m) => Ok(raw_from(
            text_of(&m, "IMAGE"),
            number_in(text_of(&m, "TCR")),
            number_in(text_of(&m, "TTBR0")),
            number_in(text_of(&m, "VA")),
        )),
    }
}
