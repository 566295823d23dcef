ghost use Rattle.std.specs.Prelude.{◌≡◌, ◌≤◌, ◌+◌, ◌++◌, length};
ghost use Rattle.bitwords.specs.Causes.{HasCause};
ghost use Rattle.explain_text.specs.Written.{Wrote};
ghost use Rattle.statuses.specs.ErrText.{field_name_text, registers_text, wrong_text, dump_text, line_why, word_why, trace_text, why_text, line_text, err_text};

use crate::status::{Status, Why};
use dump_file::{DumpField, DumpRefusal};
use explain_text::{Sink, WriteFailed};
use reg_file::RegRefusal;
use sysregs::Unsupported;
use texts::{LINE, Line};
use trace_lang::TraceRefusal;

/// `REG.FIELD`.
fn field_name(line: &mut Line<LINE>, at: &Unsupported)
    requires { length line.old + 13 ≤ LINE }
    ensures text { line.new ≡ line.old ++ field_name_text at.now }
    ensures room { length line.new ≤ length line.old + 13 }
{
    line.text(at.reg.name().as_bytes());
    line.text(b".");
    line.text(at.field.name().as_bytes());
}

/// Why a register file is refused.
fn registers(line: &mut Line<LINE>, why: &RegRefusal)
    requires { length line.old + 72 ≤ LINE }
    ensures text { line.new ≡ line.old ++ registers_text why.now }
    ensures room { length line.new ≤ length line.old + 72 }
{
    match why {
        RegRefusal::TooLarge { .. } => line.text(b"too large"),
        RegRefusal::NotToml => line.text(b"not toml"),
        RegRefusal::Unknown { key } => {
            line.text(b"unknown ");
            line.shown(key.text().as_bytes());
        }
        RegRefusal::Missing { reg } => {
            line.text(b"missing ");
            line.text(reg.key().as_bytes());
        }
        RegRefusal::BadValue { reg } => {
            line.text(b"bad value ");
            line.text(reg.key().as_bytes());
        }
        RegRefusal::Unsupported { at } => {
            line.text(b"unsupported ");
            field_name(line, at);
        }
    }
}

/// What is wrong with the kind of a dump.
fn wrong(line: &mut Line<LINE>, field: DumpField)
    requires { length line.old + 16 ≤ LINE }
    ensures text { line.new ≡ line.old ++ wrong_text field }
    ensures room { length line.new ≤ length line.old + 16 }
{
    match field {
        DumpField::Class => line.text(b"wrong class"),
        DumpField::Encoding => line.text(b"wrong encoding"),
        DumpField::Kind => line.text(b"wrong kind"),
        DumpField::Machine => line.text(b"wrong machine"),
        DumpField::EntrySize => line.text(b"wrong entry size"),
    }
}

/// Why a dump is refused.
fn dump(line: &mut Line<LINE>, why: DumpRefusal)
    requires { length line.old + 37 ≤ LINE }
    ensures text { line.new ≡ line.old ++ dump_text why }
    ensures room { length line.new ≤ length line.old + 37 }
{
    match why {
        DumpRefusal::NotElf => line.text(b"not elf"),
        DumpRefusal::WrongKind { field } => wrong(line, field),
        DumpRefusal::BadTable => line.text(b"bad table"),
        DumpRefusal::TooMany => line.text(b"too many segments"),
        DumpRefusal::PastEnd { segment } => {
            line.text(b"segment ");
            line.decimal(segment as u64);
            line.text(b" past end");
        }
    }
}

/// A refusal of a line of a trace.
fn trace_line(line: &mut Line<LINE>, number: u32, text: &[u8])
    requires { length line.old + length text.now + 27 ≤ LINE }
    ensures text { line.new ≡ line.old ++ line_why number text.now }
    ensures room { length line.new ≤ length line.old + length text.now + 27 }
{
    line.text(b"line ");
    line.decimal(number as u64);
    line.text(b": ");
    line.text(text);
}

/// A refusal of a word of a line.
fn trace_word(line: &mut Line<LINE>, number: u32, text: &[u8], place: u32)
    requires { length line.old + length text.now + 48 ≤ LINE }
    ensures text { line.new ≡ line.old ++ word_why number text.now place }
    ensures room { length line.new ≤ length line.old + length text.now + 48 }
{
    trace_line(line, number, text);
    line.text(b" ");
    line.decimal(place as u64);
}

/// Why a trace is refused.
fn trace(line: &mut Line<LINE>, why: &TraceRefusal)
    requires { length line.old + 60 ≤ LINE }
    ensures text { line.new ≡ line.old ++ trace_text why.now }
    ensures room { length line.new ≤ length line.old + 60 }
{
    match *why {
        TraceRefusal::TooLarge { .. } => line.text(b"too large"),
        TraceRefusal::NotText { line: n } => trace_line(line, n, b"not text"),
        TraceRefusal::LongLine { line: n } => trace_line(line, n, b"long line"),
        TraceRefusal::BadWord { line: n, place } => trace_word(line, n, b"bad word", place),
        TraceRefusal::BadNumber { line: n, place } => trace_word(line, n, b"bad number", place),
        TraceRefusal::OutOfRange { line: n, place } => {
            trace_word(line, n, b"out of range", place)
        }
        TraceRefusal::Unsupported { line: n, at } => {
            trace_line(line, n, b"unsupported ");
            field_name(line, &at);
        }
        TraceRefusal::NotAtEl1 { line: n } => trace_line(line, n, b"not at el1"),
        TraceRefusal::TooMany { line: n } => trace_line(line, n, b"too many"),
        TraceRefusal::NoHeader => line.text(b"no header"),
        TraceRefusal::NoEnd => line.text(b"no end"),
        TraceRefusal::AfterEnd { line: n } => trace_line(line, n, b"after end"),
    }
}

/// What is refused, and why.
fn refused(line: &mut Line<LINE>, why: &Why)
    requires { length line.old + 83 ≤ LINE }
    ensures text { line.new ≡ line.old ++ why_text why.now }
    ensures room { length line.new ≤ length line.old + 83 }
{
    match why {
        Why::Word { at } => {
            line.text(b"raw: unsupported ");
            field_name(line, at);
        }
        Why::Regs { why } => {
            line.text(b"registers: ");
            registers(line, why);
        }
        Why::Dump { why } => {
            line.text(b"dump: ");
            dump(line, *why);
        }
        Why::Trace { why } => {
            line.text(b"trace: ");
            trace(line, why);
        }
    }
}

/// A line that is one fixed text.
fn static_line<E: Sink>(err: &mut E, text: &[u8]) -> Result<(), WriteFailed>
    ensures text { Wrote (E.written err.old) (E.written err.new) result text.now }
    ensures cause { HasCause (E.faults err.old) (E.faults err.new) result }
{
    err.put(text)
}

/// The line for a file that is not there.
fn no_file_line<E: Sink>(err: &mut E, name: &str) -> Result<(), WriteFailed>
    ensures text { Wrote (E.written err.old) (E.written err.new) result (err_text (Status.NoFile name.now)) }
    ensures cause { HasCause (E.faults err.old) (E.faults err.new) result }
{
    let mut line = Line::<LINE>::new();
    line.text(b"vmsa: no file ");
    line.shown(name.as_bytes());
    line.text(b"\n");
    err.put(line.bytes())
}

/// The line for what is refused.
fn refused_line<E: Sink>(err: &mut E, why: &Why) -> Result<(), WriteFailed>
    ensures text { Wrote (E.written err.old) (E.written err.new) result (err_text (Status.Refused why.now)) }
    ensures cause { HasCause (E.faults err.old) (E.faults err.new) result }
{
    let mut line = Line::<LINE>::new();
    line.text(b"vmsa: ");
    refused(&mut line, why);
    line.text(b"\n");
    err.put(line.bytes())
}

/// How the program is called: a line for each command.
const USAGE: &[u8] =
    b"usage: vmsa raw IMAGE TCR TTBR0 VA\nusage: vmsa explain REGS DUMP VA EL KIND [pan]\nusage: vmsa run TRACE\n\
      usage: vmsa drill N\n";

/// The lines of a status. Done and WriteFault have none.
pub fn error_line<E: Sink>(err: &mut E, status: &Status) -> Result<(), WriteFailed>
    ensures text { Wrote (E.written err.old) (E.written err.new) result (err_text status.now) }
    ensures cause { HasCause (E.faults err.old) (E.faults err.new) result }
{
    match status {
        Status::Done | Status::WriteFault => Ok(()),
        Status::Usage => static_line(err, USAGE),
        Status::NoFile { name } => no_file_line(err, name.text()),
        Status::Refused { why } => refused_line(err, why),
        Status::ReadFault => static_line(err, b"vmsa: read fault\n"),
        Status::NoMemory => static_line(err, b"vmsa: out of memory\n"),
    }
}
