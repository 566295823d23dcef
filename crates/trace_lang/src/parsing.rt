ghost use Rattle.std.specs.Prelude.{◌≡◌, ◌≤◌, length, IfOk, Err};
ghost use Rattle.std.specs.List.{slice_split};
ghost use Rattle.texts.specs.Results.{Gives};
ghost use Rattle.trace_lang.specs.Words.{is_end};
ghost use Rattle.trace_lang.specs.Lines.{no_lines, refused_in, lines_met, ended_in, most_text, trace_of};
ghost use Rattle.trace_lang.specs.Limits.{KeepsLimits};
ghost use Rattle.trace_lang.specs.Views.{state_of, trace_refusal};

use crate::cuts::{cut_line, without_return};
use crate::places::LineError;
use crate::reading::{Head, Reading};
use crate::{LineRefusal, Phase, Trace, TraceError, TraceRefusal};
use std::alloc::Global;

/// The most bytes of a trace: 16 MiB.
pub const MOST_BYTES: usize = 1 << 24;

fn refused<T>(why: TraceRefusal) -> Result<T, TraceError>
    ensures { result ≡ Err (TraceError.Refused why) }
{
    Err(TraceError::Refused { why })
}

/// The refusal of a line, with its number.
fn refused_in(line: u32, why: LineRefusal) -> TraceRefusal
    ensures { result ≡ refused_in line why }
{
    match why {
        LineRefusal::NotText => TraceRefusal::NotText { line },
        LineRefusal::LongLine => TraceRefusal::LongLine { line },
        LineRefusal::AfterEnd => TraceRefusal::AfterEnd { line },
        LineRefusal::NoHeader => TraceRefusal::NoHeader,
        LineRefusal::TooMany => TraceRefusal::TooMany { line },
        LineRefusal::BadWord { place } => TraceRefusal::BadWord { line, place },
        LineRefusal::BadNumber { place } => TraceRefusal::BadNumber { line, place },
        LineRefusal::OutOfRange { place } => TraceRefusal::OutOfRange { line, place },
        LineRefusal::Unsupported { at } => TraceRefusal::Unsupported { line, at },
        LineRefusal::NotAtEl1 => TraceRefusal::NotAtEl1 { line },
    }
}

fn read_lines(alloc: Global, bytes: &[u8]) -> Result<Reading, TraceError>
    requires { length bytes.now ≤ most_text }
    ensures read { Gives trace_refusal state_of result (lines_met no_lines 1 (slice_split is_end bytes.now)) }
    ensures limits { IfOk result (λ r. KeepsLimits (state_of r)) }
{
    let mut reading = Reading::new(alloc);
    let mut words = Vec::new(alloc);
    let mut number = 1u32;
    let mut rest = Some(bytes);
    while let Some(text) = rest {
        let (line, behind) = cut_line(text);
        match reading.line(&mut words, without_return(line)) {
            Ok(()) => {}
            Err(LineError::NoMemory) => return Err(TraceError::NoMemory),
            Err(LineError::Refused { why }) => return refused(refused_in(number, why)),
        }
        number += 1;
        rest = behind;
    }
    Ok(reading)
}

fn ended(reading: Reading) -> Result<Trace, TraceError>
    requires { KeepsLimits (state_of reading) }
    ensures trace { Gives trace_refusal (λ t. t) result (ended_in reading.phase (state_of reading)) }
    ensures same { IfOk result (λ t. t ≡ (state_of reading).trace) }
{
    let Reading {
        head,
        events,
        phase,
    } = reading;
    let Head {
        ranges,
        policy,
        size,
        cores,
    } = head;
    match phase {
        Phase::Cores | Phase::Ranges | Phase::Policy => refused(TraceRefusal::NoHeader),
        Phase::Events => refused(TraceRefusal::NoEnd),
        Phase::Ended => Ok(Trace::of(cores, ranges, size, policy, events)),
    }
}

/// Reads a trace of at most `MOST_BYTES` bytes, or tells its first refusal (this project's own rule). Lines are read in
/// order, and one is refused first for a byte that is no text or for more than 200 bytes, then where no such line is due,
/// then for its words from the left, then for a word too many, and last for what its words say together: a range that
/// shares a byte with an earlier one, a register field that is not supported, an operation that EL1 may not issue.
pub fn parse(alloc: Global, bytes: &[u8]) -> Result<Trace, TraceError>
    ensures { Gives trace_refusal (λ t. t) result (trace_of bytes.now) }
{
    if bytes.len() > MOST_BYTES {
        return refused(TraceRefusal::TooLarge {
            size: bytes.len() as u64,
        });
    }
    ended(read_lines(alloc, bytes)?)
}
