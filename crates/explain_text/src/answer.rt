ghost use Rattle.std.specs.Prelude.{◌≡◌, ◌≤◌, ◌+◌, ◌++◌, [], length, codes, flat_map, false};
ghost use Rattle.bitwords.specs.Causes.{HasCause};
ghost use Rattle.sysregs.specs.Registers.{asid_of, vmid_of};
ghost use Rattle.explain_text.specs.Written.{Wrote};
ghost use Rattle.explain_text.specs.Texts.{item_text};
ghost use Rattle.explain_text.specs.Explained.{access_text, outcome_text, explain_text};
ghost use Rattle.trails.specs.Printed.{HasText};

use crate::lines::put_items;
use crate::outcomes::put_outcome;
use crate::parts;
use crate::sink::{Sink, WriteFailed};
use sysregs::Regs;
use sysregs::fields::{asid, vmid};
use texts::{LINE, Line};
use trails::{Access, Outcome, Trail};

/// Puts an access without the word before it: ` 0x40201abc el1 read asid 0x1 vmid 0x0`. The form is this project's own
/// rule.
pub fn put_access<const ROOM: usize>(line: &mut Line<ROOM>, access: &Access, asid: u16, vmid: u16)
    requires { length line.old + 90 ≤ ROOM }
    ensures text { line.new ≡ line.old ++ access_text [] access.now asid vmid }
    ensures room { length line.new ≤ length line.old + 90 }
{
    line.literal(b" 0x");
    line.hex_digits(access.va);
    parts::el(line, access.el);
    parts::kind(line, access.kind);
    line.when(access.pan, b" pan");
    line.headed(b" asid 0x", asid as u64);
    line.headed(b" vmid 0x", vmid as u64);
}

/// The line of an access without its end, as `access 0x40201abc el1 read asid 0x1 vmid 0x0`, with another word in place of
/// `access`. The form is this project's own rule.
#[tactic(auto, using(crate::proofs::Sinks::fails_first, crate::proofs::Sinks::goes_on))]
pub fn access_line<O: Sink>(
    out: &mut O,
    word: &str,
    access: &Access,
    asid: u16,
    vmid: u16,
) -> Result<(), WriteFailed>
    ensures text { Wrote (O.written out.old) (O.written out.new) result (access_text word.now access.now asid vmid) }
    ensures cause { HasCause (O.faults out.old) (O.faults out.new) result }
{
    out.put(word.as_bytes())?;
    let mut line = Line::<LINE>::new();
    put_access(&mut line, access, asid, vmid);
    out.put(line.bytes())
}

/// The text of one access: its line, the items of its walk in order, and the line of its outcome. The form is this
/// project's own rule.
pub fn explain<O: Sink>(
    out: &mut O,
    regs: &Regs,
    access: &Access,
    outcome: &Outcome,
    trail: &Trail,
) -> Result<(), WriteFailed>
    requires { HasText outcome.now }
    ensures text { Wrote (O.written out.old) (O.written out.new) result (explain_text regs.now access.now trail.now outcome.now) }
    ensures cause { HasCause (O.faults out.old) (O.faults out.new) result }
{
    let mut line = Line::<LINE>::new();
    line.literal(b"access");
    put_access(&mut line, access, asid(regs), vmid(regs));
    line.literal(b"\n");
    put_items(&mut line, trail.items(), false);
    put_outcome(&mut line, outcome, false);
    out.put(line.bytes())
}
