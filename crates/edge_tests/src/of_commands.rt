use commands::{Command, ExplainArgs, RawArgs, RunArgs, read_command};
use permissions::{El, Kind};
use std::alloc::{AllocError, Global};
use std::test::Fail;
use trails::Access;

fn words_of(alloc: Global, text: &str) -> Result<Vec<String>, AllocError> {
    let mut words = Vec::new(alloc);
    for word in text.split(' ') {
        words.push(String::from_str(alloc, word)?)?;
    }
    Ok(words)
}

const READ: Access = Access {
    va: 7,
    el: El::El1,
    kind: Kind::Read,
    pan: false,
};

/// A command line, and what it asks for.
const COMMANDS: [(&str, Option<Command<'static>>); 24] = [
    (
        "raw explain 0x10 4096 0x0",
        Some(Command::Raw(RawArgs {
            image: "explain",
            tcr: 16,
            ttbr0: 0x1000,
            va: 0,
        })),
    ),
    (
        "explain r d 0x40201abc el1 read",
        Some(Command::Explain(ExplainArgs {
            registers: "r",
            dump: "d",
            access: Access {
                va: 0x4020_1abc,
                ..READ
            },
        })),
    ),
    (
        "explain r d 7 el1 read pan",
        Some(Command::Explain(ExplainArgs {
            registers: "r",
            dump: "d",
            access: Access { pan: true, ..READ },
        })),
    ),
    ("explain r d 7 el2 read", None),
    ("explain r d 7 el1 fetch pan x", None),
    ("explain r d 7 el1 execute", None),
    ("explain r d 7 el1 read npan", None),
    ("explain r d 7 EL1 read", None),
    ("explain r d 0x el1 read", None),
    ("explain r d 7 el1", None),
    ("explain r -d 7 el1 read", None),
    ("explain", None),
    ("raw image 0x10 0x1000", None),
    ("raw image 0x10 0x1000 0x0 0x0", None),
    ("raw image 0x10 0x1000 -1", None),
    ("raw image 0x10 0x1000 --", None),
    ("raw --help 0x10 0x1000 0x0", None),
    (
        "run explain",
        Some(Command::Run(RunArgs { trace: "explain" })),
    ),
    ("run", None),
    ("run trace trace", None),
    ("run -", None),
    ("running trace", None),
    ("", None),
    ("explain r d 7  read", None),
];

#[test]
fn commands(rt: HostRuntime) -> Result<(), Fail> {
    for &(text, expected) in COMMANDS.as_slice() {
        let words = words_of(rt.alloc(), text)?;
        assert!(rt; read_command(rt.alloc(), words.as_slice()) == Ok(expected));
    }
    Ok(())
}
