//! A trace that is run.
ghost use Rattle.std.specs.Prelude.{◌≡◌, ◌≤◌, ◌<◌, ◌+◌, ℕ, Ok, IfOk, IfErr};
ghost use Rattle.bitwords.specs.Causes.{HasCause};
ghost use Rattle.dump_file.specs.Held.{InTurns, GaveWhole, reading_of};
ghost use Rattle.dump_file.specs.Opening.{IsOfSize};
ghost use Rattle.trace_lang.specs.declared.parsing.TheConstants.{MOST_BYTES};
ghost use Rattle.explain_text.specs.Written.{Wrote};
ghost use Rattle.trace_lang.specs.Lines.{trace_of};
ghost use Rattle.run_answer.specs.Run.{IsTraceOf, IsReport, run_text, IsReady, IsWhole, FailsBy};
ghost use Rattle.statuses.specs.Stops.{Form, Stops, IsOfWhatCame};

use bitwords::NoMemory;
use dump_file::{Files, fill_from};
use explain_text::{Sink, WriteFailed};
use machine::Runner;
use machine_laws::runs_keep_their_promise;
use report_text::Report;
use statuses::{Status, no_file};
use std::alloc::Global;
use trace_lang::{MOST_BYTES, Trace, TraceError, TraceRefusal, parse};
use trails::StepSlot;

/// Room for the first read of a file that tells no size, as a device.
const FIRST_ROOM: usize = 64 * 1024;

/// Room for a trace file of so many bytes, and for one more, behind which none come.
fn room(size: u64) -> usize
    requires { size ≤ MOST_BYTES }
    ensures above { size < result }
    ensures most { result ≤ MOST_BYTES + 1 }
{
    if size == 0 {
        FIRST_ROOM
    } else {
        size as usize + 1
    }
}

/// What a file has in so much room.
fn bytes_in<F: Files>(
    alloc: Global,
    name: &str,
    room: usize,
    files: &mut F,
) -> Result<Vec<u8>, Status>
    requires { room ≤ MOST_BYTES + 1 }
    ensures same { F.holds files.new ≡ F.holds files.old }
    ensures whole { IfOk result (λ bytes. IsWhole (F.holds files.old name.now) room bytes.items) }
    ensures turns { IfOk result (λ bytes. InTurns (F.reads name.now) 0 files.old bytes.items files.new) }
    ensures error { IfErr result (FailsBy (F.faults files.old name.now) (F.faults files.new name.now)) }
    ensures missing { F.missing files.old name.now ≤ F.missing files.new name.now }
    ensures later { F.faults files.old name.now ≤ F.faults files.new name.now }
{
    let Ok(mut bytes) = vec![in alloc; 0u8; room] else {
        return Err(Status::NoMemory);
    };
    let Ok(count) = fill_from(files, name, 0, bytes.as_mut_slice()) else {
        return Err(Status::ReadFault);
    };
    bytes.truncate(count);
    Ok(bytes)
}

/// All that a file has, up to the largest trace and one byte more. Where it fills the room that it was given, it is read again
/// in twice the room.
fn bytes_of<F: Files>(
    alloc: Global,
    name: &str,
    size: u64,
    files: &mut F,
) -> Result<Vec<u8>, Status>
    requires size { IsOfSize (F.holds files.old name.now) size }
    requires most { size ≤ MOST_BYTES }
    ensures same { F.holds files.new ≡ F.holds files.old }
    ensures whole { IfOk result (λ bytes. (room : ℕ) × (size < room) × IsWhole (F.holds files.old name.now) room bytes.items) }
    ensures came { IfOk result (λ v. GaveWhole (F.reads name.now) files.new (λ bytes. v.items ≡ bytes)) }
    ensures error { IfErr result (FailsBy (F.faults files.old name.now) (F.faults files.new name.now)) }
    ensures missing { F.missing files.old name.now ≤ F.missing files.new name.now }
    ensures later { F.faults files.old name.now ≤ F.faults files.new name.now }
{
    let mut room = room(size);
    while room <= MOST_BYTES {
        let bytes = bytes_in(alloc, name, room, files)?;
        if bytes.len() < room {
            return Ok(bytes);
        }
        room = (2 * room).min(MOST_BYTES + 1);
    }
    bytes_in(alloc, name, room, files)
}

/// The trace of a file that is there, of so many bytes.
fn trace_in<F: Files>(alloc: Global, name: &str, size: u64, files: &mut F) -> Result<Trace, Status>
    requires { IsOfSize (F.holds files.old name.now) size }
    ensures same { F.holds files.new ≡ F.holds files.old }
    ensures trace { IfOk result (IsTraceOf (F.holds files.old name.now)) }
    ensures came { IfOk result (λ t. GaveWhole (F.reads name.now) files.new (λ bytes. trace_of bytes ≡ Ok t)) }
    ensures refused { IfErr result (IsOfWhatCame Form.AsTrace (F.reads name.now) files.new) }
    ensures error { IfErr result (Stops (reading_of F.holds F.faults F.missing files.old files.new) record { form = Form.AsTrace; name = name.now }) }
    ensures missing { F.missing files.old name.now ≤ F.missing files.new name.now }
    ensures later { F.faults files.old name.now ≤ F.faults files.new name.now }
{
    if size > MOST_BYTES as u64 {
        return Err(Status::from(TraceRefusal::TooLarge { size }));
    }
    let bytes = bytes_of(alloc, name, size, files)?;
    match parse(alloc, bytes.as_slice()) {
        Ok(trace) => Ok(trace),
        Err(TraceError::Refused { why }) => Err(Status::from(why)),
        Err(TraceError::NoMemory) => Err(Status::NoMemory),
    }
}

/// The trace of a file.
pub fn trace<F: Files>(alloc: Global, name: &str, files: &mut F) -> Result<Trace, Status>
    ensures same { F.holds files.new ≡ F.holds files.old }
    ensures trace { IfOk result (IsTraceOf (F.holds files.old name.now)) }
    ensures came { IfOk result (λ t. GaveWhole (F.reads name.now) files.new (λ bytes. trace_of bytes ≡ Ok t)) }
    ensures refused { IfErr result (IsOfWhatCame Form.AsTrace (F.reads name.now) files.new) }
    ensures error { IfErr result (Stops (reading_of F.holds F.faults F.missing files.old files.new) record { form = Form.AsTrace; name = name.now }) }
    ensures missing { F.missing files.old name.now ≤ F.missing files.new name.now }
    ensures later { F.faults files.old name.now ≤ F.faults files.new name.now }
{
    match files.size(name) {
        Err(_) => Err(Status::ReadFault),
        Ok(None) => Err(no_file(alloc, name)),
        Ok(Some(size)) => trace_in(alloc, name, size, files),
    }
}

/// The machine before the first event of a trace.
pub fn ready(alloc: Global, trace: Trace) -> Result<Runner, NoMemory>
    ensures report { IfOk result (λ m. IsReport trace (run_text m)) }
    ensures printable { IfOk result (λ m. IsReady m) }
{
    runs_keep_their_promise();
    Runner::opened(alloc, trace)
}

/// Runs a machine to the end of its trace. The report is written meanwhile, each step while it is at hand.
pub fn play<O: Sink>(out: &mut O, machine: &mut Runner) -> Result<(), WriteFailed>
    requires { IsReady machine.old }
    ensures text { Wrote (O.written out.old) (O.written out.new) result (run_text machine.old) }
    ensures cause { HasCause (O.faults out.old) (O.faults out.new) result }
{
    let mut report = Report::new();
    let mut slot = StepSlot::new();
    for k in 0..machine.left() {
        machine.step(&mut slot);
        report.step(out, &slot)?;
    }
    report.end(out)
}
