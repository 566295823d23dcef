ghost use Rattle.std.specs.Prelude.{◌≡◌, ◌≤◌, ◌+◌, ◌++◌, length, codes};
ghost use Rattle.bitwords.specs.Causes.{HasCause};
ghost use Rattle.explain_text.specs.Written.{Wrote};
ghost use Rattle.explain_text.specs.Mapped.{mapped_text};
ghost use Rattle.explain_text.specs.Explained.{outcome_text};
ghost use Rattle.trails.specs.Printed.{printed, HasText};

use crate::lines::{put_absent, put_fault};
use crate::parts;
use crate::sink::{Sink, WriteFailed};
use attributes::{MemType, Share};
use fault_codes::{Class, Fault};
use permissions::{El, Perms};
use texts::{LINE, Line};
use trails::Outcome;

/// Puts the line of an access that is mapped. `pa` is in bytes.
fn put_mapped<const ROOM: usize>(
    line: &mut Line<ROOM>,
    pa: u64,
    perms: Perms,
    mem: MemType,
    share: Share,
)
    requires { length line.old + 160 ≤ ROOM }
    ensures text { line.new ≡ line.old ++ mapped_text pa perms mem share }
    ensures room { length line.new ≤ length line.old + 160 }
{
    line.headed(b"mapped 0x", pa);
    line.literal(b" el0 ");
    parts::rights(line, perms, El::El0);
    line.literal(b" el1 ");
    parts::rights(line, perms, El::El1);
    line.literal(b" ");
    parts::mem(line, mem);
    line.literal(b" ");
    parts::share(line, share);
    line.literal(b"\n");
}

/// Puts the line of an outcome. In a run a word that memory lacks is printed as an external abort. The
/// forms are this project's own rule.
pub fn put_outcome<const ROOM: usize>(line: &mut Line<ROOM>, outcome: &Outcome, in_run: bool)
    requires printable { HasText (printed in_run outcome.now) }
    requires room { length line.old + 160 ≤ ROOM }
    ensures text { line.new ≡ line.old ++ outcome_text in_run outcome.now }
    ensures room { length line.new ≤ length line.old + 160 }
{
    match outcome {
        Outcome::Mapped { pa, perms, mem, sh } => put_mapped(line, *pa, *perms, *mem, *sh),
        Outcome::Faulted { fault } => put_fault(line, fault),
        Outcome::Absent {
            stage,
            level,
            pa,
            s1ptw,
        } => {
            if in_run {
                put_fault(
                    line,
                    &Fault {
                        stage: *stage,
                        level: *level,
                        class: Class::External,
                        s1ptw: *s1ptw,
                    },
                );
                return;
            }
            put_absent(line, *stage, *level, *pa, *s1ptw);
        }
        Outcome::Conflict => line.literal(b"conflict fsc 0x30\n"),
    }
}

/// The line of an outcome. In a run a word that memory lacks is printed as an external abort. The forms are this
/// project's own rule.
pub fn outcome_line<O: Sink>(
    out: &mut O,
    outcome: &Outcome,
    in_run: bool,
) -> Result<(), WriteFailed>
    requires { HasText (printed in_run outcome.now) }
    ensures text { Wrote (O.written out.old) (O.written out.new) result (outcome_text in_run outcome.now) }
    ensures cause { HasCause (O.faults out.old) (O.faults out.new) result }
{
    let mut line = Line::<LINE>::new();
    put_outcome(&mut line, outcome, in_run);
    out.put(line.bytes())
}
