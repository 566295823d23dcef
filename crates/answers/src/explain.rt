//! An access over a dump.
ghost use Rattle.std.specs.Prelude.{◌≡◌, ◌≤◌, ◌<◌, Ok, IfOk, IfErr, Some, List, ℕ};
ghost use Rattle.bitwords.specs.Causes.{Rose};
ghost use Rattle.sysregs.specs.Refused.{AreAccepted};
ghost use Rattle.walk_spec.specs.Walked.{HasLine, IsFresh, WalkedWhole};
ghost use Rattle.reg_file.specs.RegisterFile.{regs_of};
ghost use Rattle.dump_file.specs.Held.{Bytes, GaveWhole, reading_of};
ghost use Rattle.dump_file.specs.Counted.{OthersStay};
ghost use Rattle.dump_file.specs.Kept.{StandsFor};
ghost use Rattle.dump_file.specs.Dumps.{IsOpened};
ghost use Rattle.dump_file.specs.Opening.{IsOfSize};
ghost use Rattle.commands.specs.Asked.{Asked, explain_words_of};
ghost use Rattle.answers.specs.Supplies.{dump_memory};
ghost use Rattle.answers.specs.Explain.{AreRegisters, IsTextOver};
ghost use Rattle.statuses.specs.Stops.{Form, Stops, IsOfWhatCame};
ghost use Rattle.answers.specs.Answers.{IsDue};
ghost use Rattle.answers.specs.Due.{answer_text, due_of, HasAnswerText};

use crate::answer::{Answer, Walked};
use crate::dump_words::DumpWords;
use commands::ExplainArgs;
use dump_file::{Dump, DumpError, Files, fill_from};
use reg_file::{MOST_BYTES, RegError, RegRefusal, read};
use statuses::{Status, no_file};
use std::alloc::Global;
use sysregs::Regs;
use trails::{Access, Outcome, Trail};
use translate::translate;

/// Room for a register file, and one byte more, which shows that it is too large.
const ROOM: usize = MOST_BYTES + 1;

/// The registers of a file that is there, of so many bytes.
fn registers_in<F: Files>(
    alloc: Global,
    name: &str,
    size: u64,
    files: &mut F,
) -> Result<Regs, Status>
    requires { IsOfSize (F.holds files.old name.now) size }
    ensures same { F.holds files.new ≡ F.holds files.old }
    ensures registers { IfOk result (AreRegisters (F.holds files.old name.now)) }
    ensures accepted { IfOk result AreAccepted }
    ensures came { IfOk result (λ regs. GaveWhole (F.reads name.now) files.new (λ bytes. regs_of bytes ≡ Ok regs)) }
    ensures refused { IfErr result (IsOfWhatCame Form.AsRegisters (F.reads name.now) files.new) }
    ensures error { IfErr result (Stops (reading_of F.holds F.faults F.missing files.old files.new) record { form = Form.AsRegisters; name = name.now }) }
    ensures missing { F.missing files.old name.now ≤ F.missing files.new name.now }
    ensures later { F.faults files.old name.now ≤ F.faults files.new name.now }
    ensures others { OthersStay name.now (F.faults files.old) (F.faults files.new) (F.missing files.old) (F.missing files.new) }
{
    if size > MOST_BYTES as u64 {
        return Err(Status::from(RegRefusal::TooLarge { size }));
    }
    let mut bytes = [0u8; ROOM];
    let Ok(count) = fill_from(files, name, 0, &mut bytes) else {
        return Err(Status::ReadFault);
    };
    match read(alloc, &bytes[..count]) {
        Ok(regs) => Ok(regs),
        Err(RegError::Refused { why }) => Err(Status::from(why)),
        Err(RegError::NoMemory) => Err(Status::NoMemory),
    }
}

/// The registers of a register file.
#[tactic(auto, using(dump_file::proofs::Counting::others_then))]
fn registers<F: Files>(alloc: Global, name: &str, files: &mut F) -> Result<Regs, Status>
    ensures same { F.holds files.new ≡ F.holds files.old }
    ensures registers { IfOk result (AreRegisters (F.holds files.old name.now)) }
    ensures accepted { IfOk result AreAccepted }
    ensures came { IfOk result (λ regs. GaveWhole (F.reads name.now) files.new (λ bytes. regs_of bytes ≡ Ok regs)) }
    ensures refused { IfErr result (IsOfWhatCame Form.AsRegisters (F.reads name.now) files.new) }
    ensures error { IfErr result (Stops (reading_of F.holds F.faults F.missing files.old files.new) record { form = Form.AsRegisters; name = name.now }) }
    ensures missing { F.missing files.old name.now ≤ F.missing files.new name.now }
    ensures later { F.faults files.old name.now ≤ F.faults files.new name.now }
    ensures others { OthersStay name.now (F.faults files.old) (F.faults files.new) (F.missing files.old) (F.missing files.new) }
{
    match files.size(name) {
        Err(_) => Err(Status::ReadFault),
        Ok(None) => Err(no_file(alloc, name)),
        Ok(Some(size)) => registers_in(alloc, name, size, files),
    }
}

/// The dump of a file.
fn dump<F: Files>(alloc: Global, name: &str, files: &mut F) -> Result<Dump, Status>
    ensures same { F.holds files.new ≡ F.holds files.old }
    ensures dump { IfOk result (λ d. (d.name ≡ name.now) × IsOpened (F.holds files.old name.now) d) }
    ensures error { IfErr result (Stops (reading_of F.holds F.faults F.missing files.old files.new) record { form = Form.AsDump; name = name.now }) }
    ensures missing { F.missing files.old name.now ≤ F.missing files.new name.now }
    ensures later { F.faults files.old name.now ≤ F.faults files.new name.now }
{
    match Dump::of(alloc, files, name) {
        Ok(dump) => Ok(dump),
        Err(DumpError::NoFile) => Err(no_file(alloc, name)),
        Err(DumpError::Refused { why }) => Err(Status::from(why)),
        Err(DumpError::ReadFault) => Err(Status::ReadFault),
        Err(DumpError::NoMemory) => Err(Status::NoMemory),
    }
}

/// The walk over a dump. A read that fails counts in the words.
fn walk<F: Files>(regs: &Regs, access: &Access, words: &mut DumpWords<F>) -> (Outcome, Trail)
    requires { AreAccepted regs.now }
    ensures same_reference { words.new.files.ghost_name ≡ words.old.files.ghost_name }
    ensures later { F.faults words.old.files.now words.old.dump.now.name ≤ F.faults words.new.files.now words.old.dump.now.name }
    ensures failed { words.old.failures < words.new.failures →
        Rose (F.faults words.old.files.now words.old.dump.now.name) (F.faults words.new.files.now words.old.dump.now.name) }
    ensures counted { words.old.failures ≤ words.new.failures }
    ensures missing { F.missing words.old.files.now words.old.dump.now.name ≤ F.missing words.new.files.now words.old.dump.now.name }
    ensures outcome { HasLine result.0 }
    ensures walked { WalkedWhole regs.now access.now 0
        (dump_memory (F.holds words.old.files.now words.old.dump.now.name) words.old.dump.now.segments)
        (Rose words.old.failures words.new.failures) result.1 result.0 }
    ensures fresh { IsFresh regs.now access.now 0
        (dump_memory (F.holds words.old.files.now words.old.dump.now.name) words.old.dump.now.segments)
        (Rose words.old.failures words.new.failures) result.1 result.0 }
{
    translate(regs, access, words)
}

/// The answer over a dump that is open.
fn answer_over<F: Files>(
    regs: Regs,
    access: Access,
    dump: &mut Dump,
    files: &mut F,
) -> Result<Answer, Status>
    requires accepted { AreAccepted regs }
    requires opened { IsOpened (F.holds files.old dump.old.name) dump.old }
    ensures later { F.faults files.old dump.old.name ≤ F.faults files.new dump.old.name }
    ensures missing { F.missing files.old dump.old.name ≤ F.missing files.new dump.old.name }
    ensures outcome { IfOk result HasAnswerText }
    ensures text { IfOk result (λ a. IsTextOver (F.holds files.old dump.old.name) regs access (answer_text a)) }
    ensures fault { IfErr result (λ s. (s ≡ Status.ReadFault) × Rose (F.faults files.old dump.old.name) (F.faults files.new dump.old.name)) }
{
    let mut words = DumpWords {
        dump,
        files,
        failures: 0,
    };
    let (outcome, trail) = walk(&regs, &access, &mut words);
    if words.failures > 0 {
        return Err(Status::ReadFault);
    }
    Ok(Answer::Explain {
        regs,
        access,
        walked: Walked { outcome, trail },
    })
}

/// What comes of an access over a dump.
pub fn explain<F: Files>(
    alloc: Global,
    asked: &ExplainArgs,
    files: &mut F,
) -> Result<Answer, Status>
    ensures outcome { IfOk result HasAnswerText }
    ensures due { IsDue (reading_of F.holds F.faults F.missing files.old files.new) (Some (Asked.Explain (explain_words_of asked.now))) (due_of result) }
{
    let regs = registers(alloc, asked.registers, files)?;
    let mut dump = dump(alloc, asked.dump, files)?;
    answer_over(regs, asked.access, &mut dump, files)
}
