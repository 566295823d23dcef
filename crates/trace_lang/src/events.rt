ghost use Rattle.std.specs.Prelude.{◌≡◌, map};
ghost use Rattle.texts.specs.Results.{Gives};
ghost use Rattle.trace_lang.specs.Traces.{may_issue};
ghost use Rattle.trace_lang.specs.Events.{store, msr, tlbi, dsb, access, prefetch, core_at, place_at};
ghost use Rattle.trace_lang.specs.Events.{operand_at, access_at, pan_at, event_by, event_of};
ghost use Rattle.trace_lang.specs.Views.{header_of, line_refusal};

use crate::LineRefusal;
use crate::names::{self, Verb};
use crate::places::{LineError, in_range, no_word_at, number_at, refused, word_at, word_or};
use crate::reading::Head;
use permissions::{El, Kind};
use phys_mem::ranges::is_aligned;
use sysregs::Op;
use sysregs::fields::check_msr;
use trails::{Access, Event, Origin};

/// The number of a core.
fn core_at(head: &Head, words: &[&[u8]]) -> Result<u8, LineError>
    ensures { Gives line_refusal (λ n. n) result (core_at (header_of head.now) (map (λ w. w.now) words.now)) }
{
    let n = number_at(words, 2)?;
    let n = in_range(2, n < head.cores as u64, n)?;
    Ok(n as u8)
}

/// The place of a store.
fn place_at(head: &Head, words: &[&[u8]]) -> Result<u64, LineError>
    ensures { Gives line_refusal (λ n. n) result (place_at (header_of head.now) (map (λ w. w.now) words.now)) }
{
    let place = number_at(words, 3)?;
    in_range(3, is_aligned(place) && head.is_within(place), place)
}

fn store(head: &Head, core: u8, words: &[&[u8]]) -> Result<Event, LineError>
    ensures { Gives line_refusal (λ e. e) result (event_by (header_of head.now) (map (λ w. w.now) words.now) core store) }
{
    let pa = place_at(head, words)?;
    let value = number_at(words, 4)?;
    no_word_at(words, 5)?;
    Ok(Event::Store { core, pa, value })
}

fn msr(head: &Head, core: u8, words: &[&[u8]]) -> Result<Event, LineError>
    ensures { Gives line_refusal (λ e. e) result (event_by (header_of head.now) (map (λ w. w.now) words.now) core msr) }
{
    let word = word_at(words, 3)?;
    let reg = word_or(3, names::register_named(word))?;
    let value = number_at(words, 4)?;
    no_word_at(words, 5)?;
    match check_msr(reg, value) {
        Ok(()) => Ok(Event::Msr { core, reg, value }),
        Err(at) => refused(LineRefusal::Unsupported { at }),
    }
}

/// Whether an exception level may issue an operation.
fn may_issue(from: Origin, op: Op) -> bool
    ensures { result ≡ may_issue from op }
{
    from == Origin::El2 || op.form().scope.is_of_el1()
}

/// The operand of an operation, which is 0 where it has none.
fn operand_at(op: Op, words: &[&[u8]]) -> Result<u64, LineError>
    ensures { Gives line_refusal (λ n. n) result (operand_at op (map (λ w. w.now) words.now)) }
{
    if op.form().scope.has_operand() {
        let operand = number_at(words, 5)?;
        no_word_at(words, 6)?;
        return Ok(operand);
    }
    no_word_at(words, 5)?;
    Ok(0)
}

fn tlbi(head: &Head, core: u8, words: &[&[u8]]) -> Result<Event, LineError>
    ensures { Gives line_refusal (λ e. e) result (event_by (header_of head.now) (map (λ w. w.now) words.now) core tlbi) }
{
    let word = word_at(words, 3)?;
    let from = word_or(3, names::origin_named(word))?;
    let word = word_at(words, 4)?;
    let (op, shared) = word_or(4, names::operation_named(word))?;
    let operand = operand_at(op, words)?;
    if !may_issue(from, op) {
        return refused(LineRefusal::NotAtEl1);
    }
    Ok(Event::Tlbi {
        core,
        from,
        op,
        shared,
        operand,
    })
}

fn dsb(head: &Head, core: u8, words: &[&[u8]]) -> Result<Event, LineError>
    ensures { Gives line_refusal (λ e. e) result (event_by (header_of head.now) (map (λ w. w.now) words.now) core dsb) }
{
    let word = word_at(words, 3)?;
    let kind = word_or(3, names::barrier_named(word))?;
    no_word_at(words, 4)?;
    Ok(Event::Dsb { core, kind })
}

/// An access that is made with PAN clear.
fn access_at(words: &[&[u8]]) -> Result<Access, LineError>
    ensures { Gives line_refusal (λ a. a) result (access_at (map (λ w. w.now) words.now)) }
{
    let word = word_at(words, 3)?;
    let el = word_or(3, El::named(word))?;
    let word = word_at(words, 4)?;
    let kind = word_or(4, Kind::named(word))?;
    let va = number_at(words, 5)?;
    Ok(Access {
        va,
        el,
        kind,
        pan: false,
    })
}

/// Whether the word `pan` stands behind an access.
fn pan_at(words: &[&[u8]]) -> Result<bool, LineError>
    ensures { Gives line_refusal (λ p. p) result (pan_at (map (λ w. w.now) words.now)) }
{
    if words.len() < 6 {
        return Ok(false);
    }
    let word = word_at(words, 6)?;
    let pan = word_or(6, names::pan_named(word))?;
    no_word_at(words, 7)?;
    Ok(pan)
}

fn access(head: &Head, core: u8, words: &[&[u8]]) -> Result<Event, LineError>
    ensures { Gives line_refusal (λ e. e) result (event_by (header_of head.now) (map (λ w. w.now) words.now) core access) }
{
    let asked = access_at(words)?;
    let pan = pan_at(words)?;
    let access = Access { pan, ..asked };
    Ok(Event::Access { core, access })
}

fn prefetch(head: &Head, core: u8, words: &[&[u8]]) -> Result<Event, LineError>
    ensures { Gives line_refusal (λ e. e) result (event_by (header_of head.now) (map (λ w. w.now) words.now) core prefetch) }
{
    let access = access_at(words)?;
    no_word_at(words, 6)?;
    Ok(Event::Prefetch { core, access })
}

/// The event of a line.
pub fn event(head: &Head, words: &[&[u8]]) -> Result<Event, LineError>
    ensures { Gives line_refusal (λ e. e) result (event_of (header_of head.now) (map (λ w. w.now) words.now)) }
{
    let word = word_at(words, 1)?;
    let verb = word_or(1, names::verb_named(word))?;
    let core = core_at(head, words)?;
    match verb {
        Verb::Store => store(head, core, words),
        Verb::Msr => msr(head, core, words),
        Verb::Tlbi => tlbi(head, core, words),
        Verb::Dsb => dsb(head, core, words),
        Verb::Access => access(head, core, words),
        Verb::Prefetch => prefetch(head, core, words),
        Verb::Settle => {
            no_word_at(words, 3)?;
            Ok(Event::Settle { core })
        }
        Verb::Isb => {
            no_word_at(words, 3)?;
            Ok(Event::Isb { core })
        }
        Verb::Deliver => {
            no_word_at(words, 3)?;
            Ok(Event::Deliver { core })
        }
    }
}
