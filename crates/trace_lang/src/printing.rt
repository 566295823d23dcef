//! The canonical text of a trace.
ghost use Rattle.std.specs.Prelude.{◌≡◌, ◌++◌, flat_map, All, IfOk, Ok};
ghost use Rattle.trace_lang.specs.Traces.{Parts, IsTrace};
ghost use Rattle.trace_lang.specs.Lines.{trace_of};
ghost use Rattle.trace_lang.specs.Canonical.{line_of, range_words, event_words, header_text, text_of};
ghost use Rattle.trace_lang.specs.Limits.{HasWords, HasStart};

use crate::Trace;
use crate::lines::{caches_line, cores_line, event_line, policy_line, range_line};
use bitwords::NoMemory;
use std::alloc::Global;
use texts::{LINE, Line};
use trails::Event;

/// Puts a line behind the text that stands.
fn put(text: &mut Vec<u8>, line: &[u8]) -> Result<(), NoMemory>
    ensures { IfOk result (λ _. text.new.items ≡ text.old.items ++ line.now) }
{
    match text.extend_from_slice(line) {
        Ok(()) => Ok(()),
        Err(_) => Err(NoMemory),
    }
}

fn put_ranges(
    text: &mut Vec<u8>,
    line: &mut Line<LINE>,
    ranges: &[(u64, u64)],
) -> Result<(), NoMemory>
    ensures { IfOk result (λ _. text.new.items ≡ text.old.items ++ flat_map (λ r. line_of (range_words r)) ranges.now) }
{
    for range in ranges {
        range_line(line, range.0, range.1);
        put(text, line.bytes())?;
    }
    Ok(())
}

fn put_header(text: &mut Vec<u8>, line: &mut Line<LINE>, trace: &Trace) -> Result<(), NoMemory>
    ensures text { IfOk result (λ _. text.new.items ≡ text.old.items ++ header_text trace.now.header) }
    ensures start { IfOk result (λ _. HasStart trace.now.header.policy) }
{
    cores_line(line, trace.cores());
    put(text, line.bytes())?;
    put_ranges(text, line, trace.ranges())?;
    caches_line(line, trace.size());
    put(text, line.bytes())?;
    policy_line(line, trace.policy());
    put(text, line.bytes())
}

fn put_events(text: &mut Vec<u8>, line: &mut Line<LINE>, events: &[Event]) -> Result<(), NoMemory>
    ensures text { IfOk result (λ _. text.new.items ≡ text.old.items ++ flat_map (λ e. line_of (event_words e)) events.now) }
    ensures words { IfOk result (λ _. All HasWords events.now) }
{
    for event in events {
        event_line(line, event);
        put(text, line.bytes())?;
    }
    Ok(())
}

/// The canonical text of a trace: one space between words, numbers of cores in decimal and all others as `0x` and
/// lower-case hexadecimal digits, and no line that is skipped (this project's own rule). `parse` reads it back.
/// NoMemory comes where memory is refused.
pub fn print(alloc: Global, trace: &Trace) -> Result<Vec<u8>, NoMemory>
    ensures text { IfOk result (λ v. v.items ≡ text_of trace.now) }
    ensures again { IfOk result (λ v. trace_of v.items ≡ Ok trace.now) }
{
    let mut text = Vec::new(alloc);
    let mut line = Line::<LINE>::new();
    put_header(&mut text, &mut line, trace)?;
    put_events(&mut text, &mut line, trace.events())?;
    put(&mut text, b"end\n")?;
    Ok(text)
}

/// The canonical text of a trace is read back as that trace, where its numbers are below 2 ^ 64.
pub fn parse_of_print()
    ensures { (t : Parts) → IsTrace t → HasStart t.header.policy → All HasWords t.events → trace_of (text_of t) ≡ Ok t }
{}
