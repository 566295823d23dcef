//! The lines of a trace's text. Each takes the place of what stands in a line that is used again.
ghost use Rattle.std.specs.Prelude.{◌≡◌, ◌≤◌, ◌<◌, ◌^◌, ◌+◌, [], ◌∷◌, ◌++◌, length, codes, decimal, if◌then◌else◌};
ghost use Rattle.sysregs.specs.Names.{reg_text};
ghost use Rattle.sysregs.specs.Ops.{form_of, has_operand};
ghost use Rattle.texts.specs.Texts.{hex_text};
ghost use Rattle.trace_lang.specs.Canonical.{line_of, origin_text, op_word, barrier_text, access_words, event_words, range_words, size_text, policy_words};
ghost use Rattle.trace_lang.specs.Limits.{HasWords, HasStart};

use crate::names::{barrier_name, origin_name, size_name};
use crate::{Policy, Size};
use sysregs::{Op, Reg};
use texts::{LINE, Line};
use trails::{Access, Barrier, Event, Origin};

/// Begins a line anew with its first word.
fn begin(line: &mut Line<LINE>, first: &[u8])
    requires { length first.now ≤ LINE }
    ensures text { line.new ≡ first.now }
    ensures room { length line.new ≡ length first.now }
{
    line.clear();
    line.text(first);
}

/// Begins a line anew with its first word and the number of a core.
fn begin_core(line: &mut Line<LINE>, first: &[u8], core: u8)
    requires { length first.now + 21 ≤ LINE }
    ensures text { line.new ≡ first.now ++ (codes " " ++ decimal core) }
    ensures room { length line.new ≤ length first.now + 21 }
{
    begin(line, first);
    line.text(b" ");
    line.decimal(core as u64);
}

/// Ends a line.
fn end(line: &mut Line<LINE>)
    requires { length line.old + 1 ≤ LINE }
    ensures { line.new ≡ line.old ++ codes "\n" }
{
    line.text(b"\n");
}

/// Puts a word behind a space.
fn word(line: &mut Line<LINE>, word: &[u8])
    requires { length line.old + length word.now + 1 ≤ LINE }
    ensures text { line.new ≡ line.old ++ (codes " " ++ word.now) }
    ensures room { length line.new ≡ length line.old + length word.now + 1 }
{
    line.text(b" ");
    line.text(word);
}

/// Puts a number as `0x` and hexadecimal digits behind a space.
fn number(line: &mut Line<LINE>, n: u64)
    requires { length line.old + 19 ≤ LINE }
    ensures text { line.new ≡ line.old ++ (codes " " ++ hex_text n) }
    ensures room { length line.new ≤ length line.old + 19 }
{
    line.text(b" ");
    line.hex(n);
}

/// Puts the operand of an operation that has one.
fn operand(line: &mut Line<LINE>, op: Op, operand: u64)
    requires { length line.old + 19 ≤ LINE }
    ensures text { line.new ≡ line.old ++ (if has_operand (form_of op).scope then codes " " ++ hex_text operand else []) }
    ensures room { length line.new ≤ length line.old + 19 }
{
    if op.form().scope.has_operand() {
        number(line, operand);
    }
}

/// The line of a TLBI.
fn tlbi_line(line: &mut Line<LINE>, core: u8, from: Origin, op: Op, shared: bool, n: u64)
    ensures text { line.new ≡ line_of (codes "tlbi" ∷ decimal core ∷ origin_text from ∷ op_word op shared
        ∷ (if has_operand (form_of op).scope then hex_text n ∷ [] else [])) }
{
    begin_core(line, b"tlbi", core);
    word(line, origin_name(from));
    word(line, op.name().as_bytes());
    line.when(shared, b"IS");
    operand(line, op, n);
    end(line);
}

/// The line of an access that begins with a word.
fn access_line(line: &mut Line<LINE>, first: &[u8], core: u8, access: Access)
    requires { length first.now ≤ 20 }
    ensures text { line.new ≡ line_of (first.now ∷ decimal core ∷ access_words access) }
    ensures words { access.va < 2 ^ 64 }
{
    begin_core(line, first, core);
    word(line, access.el.name().as_bytes());
    word(line, access.kind.name().as_bytes());
    number(line, access.va);
    line.when(access.pan, b" pan");
    end(line);
}

/// The line of an event that has no words but the first and its core.
fn short_line(line: &mut Line<LINE>, first: &[u8], core: u8)
    requires { length first.now ≤ 20 }
    ensures text { line.new ≡ line_of (first.now ∷ decimal core ∷ []) }
{
    begin_core(line, first, core);
    end(line);
}

/// The line of a store of a value at a place.
fn store_line(line: &mut Line<LINE>, core: u8, pa: u64, value: u64)
    ensures text { line.new ≡ line_of (codes "store" ∷ decimal core ∷ hex_text pa ∷ hex_text value ∷ []) }
{
    begin_core(line, b"store", core);
    number(line, pa);
    number(line, value);
    end(line);
}

/// The line of a register write.
fn msr_line(line: &mut Line<LINE>, core: u8, reg: Reg, value: u64)
    ensures text { line.new ≡ line_of (codes "msr" ∷ decimal core ∷ reg_text reg ∷ hex_text value ∷ []) }
{
    begin_core(line, b"msr", core);
    word(line, reg.name().as_bytes());
    number(line, value);
    end(line);
}

/// The line of a DSB.
fn dsb_line(line: &mut Line<LINE>, core: u8, kind: Barrier)
    ensures text { line.new ≡ line_of (codes "dsb" ∷ decimal core ∷ barrier_text kind ∷ []) }
{
    begin_core(line, b"dsb", core);
    word(line, barrier_name(kind));
    end(line);
}

/// The line of an event.
pub fn event_line(line: &mut Line<LINE>, event: &Event)
    ensures text { line.new ≡ line_of (event_words event.now) }
    ensures words { HasWords event.now }
{
    match *event {
        Event::Store { core, pa, value } => store_line(line, core, pa, value),
        Event::Msr { core, reg, value } => msr_line(line, core, reg, value),
        Event::Settle { core } => short_line(line, b"settle", core),
        Event::Isb { core } => short_line(line, b"isb", core),
        Event::Tlbi {
            core,
            from,
            op,
            shared,
            operand,
        } => tlbi_line(line, core, from, op, shared, operand),
        Event::Dsb { core, kind } => dsb_line(line, core, kind),
        Event::Deliver { core } => short_line(line, b"deliver", core),
        Event::Access { core, access } => access_line(line, b"access", core, access),
        Event::Prefetch { core, access } => access_line(line, b"prefetch", core, access),
    }
}

/// The line that says how many cores there are.
pub fn cores_line(line: &mut Line<LINE>, cores: u8)
    ensures { line.new ≡ line_of (codes "cores" ∷ decimal cores ∷ []) }
{
    short_line(line, b"cores", cores)
}

/// The line of a range of memory: its start and its length in bytes.
pub fn range_line(line: &mut Line<LINE>, base: u64, size: u64)
    ensures { line.new ≡ line_of (range_words (base, size)) }
{
    begin(line, b"memory");
    number(line, base);
    number(line, size);
    end(line);
}

/// The line of the size of the caches.
pub fn caches_line(line: &mut Line<LINE>, size: Size)
    ensures { line.new ≡ line_of (codes "caches" ∷ size_text size ∷ []) }
{
    begin(line, b"caches");
    word(line, size_name(size));
    end(line);
}

/// The line of the policy of the caches.
pub fn policy_line(line: &mut Line<LINE>, policy: Policy)
    ensures text { line.new ≡ line_of (codes "policy" ∷ policy_words policy) }
    ensures start { HasStart policy }
{
    begin(line, b"policy");
    match policy {
        Policy::Lru => word(line, b"lru"),
        Policy::Fifo => word(line, b"fifo"),
        Policy::Random { start } => {
            word(line, b"random");
            number(line, start);
        }
    }
    end(line);
}
