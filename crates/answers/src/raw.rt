//! An EL1 read over an image.
ghost use Rattle.std.specs.Prelude.{◌≡◌, ◌⊎◌, ◌≤◌, ◌<◌, IfOk, IfErr, None, Some};
ghost use Rattle.bitwords.specs.Causes.{Rose};
ghost use Rattle.sysregs.specs.Refused.{AreAccepted};
ghost use Rattle.walk_spec.specs.Walked.{HasLine, IsFresh, WalkedWhole};
ghost use Rattle.dump_file.specs.Held.{reading_of};
ghost use Rattle.commands.specs.Asked.{Asked, raw_words_of};
ghost use Rattle.answers.specs.Supplies.{image_memory};
ghost use Rattle.answers.specs.Texts.{raw_regs, raw_access, raw_text};
ghost use Rattle.answers.specs.Raw.{IsRawTextThere};
ghost use Rattle.answers.specs.Answers.{IsDue, words_refusal};
ghost use Rattle.answers.specs.Due.{answer_text, due_of, HasAnswerText};

use crate::answer::{Answer, Walked};
use crate::image::Image;
use commands::RawArgs;
use dump_file::Files;
use permissions::{El, Kind};
use statuses::{Status, Why, no_file};
use std::alloc::Global;
use sysregs::fields::check_reg;
use sysregs::{Reg, Regs};
use trails::{Access, Outcome, Trail};
use translate::translate;

/// Stage 1 alone.
fn registers(tcr: u64, ttbr0: u64) -> Regs
    ensures { result ≡ raw_regs tcr ttbr0 }
{
    Regs {
        sctlr_el1: 1,
        tcr_el1: tcr,
        ttbr0_el1: ttbr0,
        ..Regs::zero()
    }
}

fn access(va: u64) -> Access
    ensures { result ≡ raw_access va }
{
    Access {
        va,
        el: El::El1,
        kind: Kind::Read,
        pan: false,
    }
}

/// The walk over an image. A read that fails counts in the image.
fn walk<F: Files>(asked: &RawArgs, image: &mut Image<F>) -> (Outcome, Trail)
    requires { words_refusal (Asked.Raw (raw_words_of asked.now)) ≡ None }
    ensures same_reference { image.new.files.ghost_name ≡ image.old.files.ghost_name }
    ensures later { F.faults image.old.files.now image.old.name.now ≤ F.faults image.new.files.now image.old.name.now }
    ensures failed { image.old.failures < image.new.failures →
        Rose (F.faults image.old.files.now image.old.name.now) (F.faults image.new.files.now image.old.name.now) }
    ensures counted { image.old.failures ≤ image.new.failures }
    ensures outcome { HasLine result.0 }
    ensures walked { WalkedWhole (raw_regs asked.now.tcr asked.now.ttbr0) (raw_access asked.now.va) 0
        (image_memory (F.holds image.old.files.now image.old.name.now))
        (Rose image.old.failures image.new.failures) result.1 result.0 }
    ensures fresh { IsFresh (raw_regs asked.now.tcr asked.now.ttbr0) (raw_access asked.now.va) 0
        (image_memory (F.holds image.old.files.now image.old.name.now))
        (Rose image.old.failures image.new.failures) result.1 result.0 }
{
    translate(&registers(asked.tcr, asked.ttbr0), &access(asked.va), image)
}

/// The answer over a file that is there.
fn answer_over<F: Files>(asked: &RawArgs, files: &mut F) -> Result<Answer, Status>
    requires { words_refusal (Asked.Raw (raw_words_of asked.now)) ≡ None }
    ensures later { F.faults files.old asked.now.image.now ≤ F.faults files.new asked.now.image.now }
    ensures outcome { IfOk result HasAnswerText }
    ensures text { IfOk result (λ a. IsRawTextThere (F.holds files.old asked.now.image.now) (raw_words_of asked.now) (answer_text a)) }
    ensures fault { IfErr result (λ s. (s ≡ Status.ReadFault) × Rose (F.faults files.old asked.now.image.now) (F.faults files.new asked.now.image.now)) }
{
    let mut image = Image {
        name: asked.image,
        files,
        failures: 0,
    };
    let (outcome, trail) = walk(asked, &mut image);
    if image.failures > 0 {
        return Err(Status::ReadFault);
    }
    let va = asked.va;
    let walked = Walked { outcome, trail };
    Ok(Answer::Raw { va, walked })
}

/// What comes of a read whose words are accepted.
fn read_image<F: Files>(alloc: Global, asked: &RawArgs, files: &mut F) -> Result<Answer, Status>
    requires { words_refusal (Asked.Raw (raw_words_of asked.now)) ≡ None }
    ensures outcome { IfOk result HasAnswerText }
    ensures due { IsDue (reading_of F.holds F.faults F.missing files.old files.new) (Some (Asked.Raw (raw_words_of asked.now))) (due_of result) }
{
    match files.size(asked.image) {
        Err(_) => Err(Status::ReadFault),
        Ok(None) => Err(no_file(alloc, asked.image)),
        Ok(Some(_)) => answer_over(asked, files),
    }
}

/// What comes of an EL1 read over an image.
pub fn raw<F: Files>(alloc: Global, asked: &RawArgs, files: &mut F) -> Result<Answer, Status>
    ensures outcome { IfOk result HasAnswerText }
    ensures due { IsDue (reading_of F.holds F.faults F.missing files.old files.new) (Some (Asked.Raw (raw_words_of asked.now))) (due_of result) }
{
    if let Err(at) = check_reg(Reg::TcrEl1, asked.tcr) {
        return Err(Status::Refused {
            why: Why::Word { at },
        });
    }
    read_image(alloc, asked, files)
}
