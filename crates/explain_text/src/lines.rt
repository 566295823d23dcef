ghost use Rattle.std.specs.Prelude.{◌≡◌, ◌≤◌, ◌+◌, ◌*◌, ◌++◌, Bool, length, flat_map, codes};
ghost use Rattle.bitwords.specs.Causes.{HasCause};
ghost use Rattle.fault_codes.specs.Status.{HasStatus};
ghost use Rattle.explain_text.specs.Written.{Wrote};
ghost use Rattle.explain_text.specs.Texts.{item_text, moment_text, fault_text, absent_text};

use crate::parts;
use crate::sink::{Sink, WriteFailed};
use fault_codes::{Fault, Stage, fsc};
use texts::{LINE, Line, Tail};
use trails::{Item, What};

/// The end of an item's line: when it was read, where a run tells it.
fn item_tail(in_run: bool, moment: u32) -> Tail
    ensures { result ≡ moment_text in_run moment ++ codes "\n" }
{
    let mut tail = Tail::new();
    if in_run {
        tail.literal(b" moment ");
        tail.decimal(moment);
    }
    tail.literal(b"\n");
    tail
}

/// Puts the line of an item with such a tail.
#[inline(always)]
fn put_tailed<const ROOM: usize>(line: &mut Line<ROOM>, item: &Item, tail: &Tail)
    requires { length line.old + 160 ≤ ROOM }
    ensures text { (in_run : Bool) → tail.now ≡ moment_text in_run item.now.moment ++ codes "\n" →
        line.new ≡ line.old ++ item_text in_run item.now }
    ensures room { length line.new ≤ length line.old + 160 }
{
    if item.level < 0 || item.level > 3 {
        parts::name(line, item.stage, item.what);
        parts::level_at(line, item.level);
        line.hex_digits(item.pa);
        parts::value(line, item.what, item.value);
        line.tail(tail);
        return;
    }
    let level = item.level as u8;
    match item.what {
        What::Base => line.number(&parts::base_head(item.stage, level), item.pa, tail),
        What::Word => {
            let head = parts::word_head(item.stage, level);
            line.two_numbers(&head, item.pa, b" value 0x", item.value, tail);
        }
    }
}

/// The tail of items that were read at one moment.
#[derive(Drop)]
struct MomentTail {
    tail: Tail,
    moment: u32,
}

impl MomentTail {
    fn new(in_run: bool, moment: u32) -> MomentTail
        ensures tail { result.tail ≡ moment_text in_run moment ++ codes "\n" }
        ensures moment { result.moment ≡ moment }
    {
        MomentTail {
            tail: item_tail(in_run, moment),
            moment,
        }
    }

    /// Makes it the tail of a moment, which mostly it is.
    #[inline]
    fn turn_to(&mut self, in_run: bool, moment: u32)
        requires { self.old.tail ≡ moment_text in_run self.old.moment ++ codes "\n" }
        ensures tail { self.new.tail ≡ moment_text in_run moment ++ codes "\n" }
        ensures moment { self.new.moment ≡ moment }
    {
        if self.moment != moment {
            *self = MomentTail::new(in_run, moment);
        }
    }
}

/// Puts the line of an item, as `s1 base level 0 at 0x1000` or `s1 word level 3 at 0x4008 value 0x5403`. A run tells its
/// moment too. The form is this project's own rule.
pub fn put_item<const ROOM: usize>(line: &mut Line<ROOM>, item: &Item, in_run: bool)
    requires { length line.old + 160 ≤ ROOM }
    ensures text { line.new ≡ line.old ++ item_text in_run item.now }
    ensures room { length line.new ≤ length line.old + 160 }
{
    put_tailed(line, item, &item_tail(in_run, item.moment));
}

/// Puts the lines of items, in order. A run tells their moments too.
pub fn put_items<const ROOM: usize>(line: &mut Line<ROOM>, items: &[Item], in_run: bool)
    requires { length line.old + 160 * length items.now ≤ ROOM }
    ensures text { line.new ≡ line.old ++ flat_map (item_text in_run) items.now }
    ensures room { length line.new ≤ length line.old + 160 * length items.now }
{
    let Some(first) = items.first() else {
        return;
    };
    let mut ending = MomentTail::new(in_run, first.moment);
    for item in items {
        ending.turn_to(in_run, item.moment);
        put_tailed(line, item, &ending.tail);
    }
}

/// Puts the line of a fault, as `fault stage 1 level 3 permission fsc 0x0f`. The form is this project's own rule.
pub fn put_fault<const ROOM: usize>(line: &mut Line<ROOM>, fault: &Fault)
    requires status { HasStatus fault.now }
    requires room { length line.old + 160 ≤ ROOM }
    ensures text { line.new ≡ line.old ++ fault_text fault.now }
    ensures room { length line.new ≤ length line.old + 160 }
{
    line.literal(b"fault stage ");
    parts::stage(line, fault.stage);
    line.literal(b" level ");
    parts::level(line, fault.level);
    line.literal(b" ");
    parts::class(line, fault.class);
    line.literal(b" fsc ");
    line.byte(fsc(fault));
    line.when(fault.s1ptw, b" s1ptw");
    line.literal(b"\n");
}

/// Puts the line of a word that memory lacks, as `absent stage 1 level 2 at 0x2008`: `pa` is its place in bytes. The form
/// is this project's own rule.
pub fn put_absent<const ROOM: usize>(
    line: &mut Line<ROOM>,
    stage: Stage,
    level: i8,
    pa: u64,
    s1ptw: bool,
)
    requires { length line.old + 160 ≤ ROOM }
    ensures text { line.new ≡ line.old ++ absent_text stage level pa s1ptw }
    ensures room { length line.new ≤ length line.old + 160 }
{
    line.literal(b"absent stage ");
    parts::stage(line, stage);
    parts::level_at(line, level);
    line.hex_digits(pa);
    line.when(s1ptw, b" s1ptw");
    line.literal(b"\n");
}

/// The line of an item, as `s1 base level 0 at 0x1000` or `s1 word level 3 at 0x4008 value 0x5403`. A run tells its
/// moment too. The form is this project's own rule.
pub fn item_line<O: Sink>(out: &mut O, item: &Item, in_run: bool) -> Result<(), WriteFailed>
    ensures text { Wrote (O.written out.old) (O.written out.new) result (item_text in_run item.now) }
    ensures cause { HasCause (O.faults out.old) (O.faults out.new) result }
{
    let mut line = Line::<LINE>::new();
    put_item(&mut line, item, in_run);
    out.put(line.bytes())
}

/// The lines of items, in order. A run tells their moments too.
pub fn item_lines<O: Sink>(out: &mut O, items: &[Item], in_run: bool) -> Result<(), WriteFailed>
    ensures text { Wrote (O.written out.old) (O.written out.new) result (flat_map (item_text in_run) items.now) }
    ensures cause { HasCause (O.faults out.old) (O.faults out.new) result }
{
    for item in items {
        item_line(out, item, in_run)?;
    }
    Ok(())
}

/// The line of a fault, as `fault stage 1 level 3 permission fsc 0x0f`. The form is this project's own rule.
pub fn fault_line<O: Sink>(out: &mut O, fault: &Fault) -> Result<(), WriteFailed>
    requires { HasStatus fault.now }
    ensures text { Wrote (O.written out.old) (O.written out.new) result (fault_text fault.now) }
    ensures cause { HasCause (O.faults out.old) (O.faults out.new) result }
{
    let mut line = Line::<LINE>::new();
    put_fault(&mut line, fault);
    out.put(line.bytes())
}

/// The line of a word that memory lacks, as `absent stage 1 level 2 at 0x2008`: `pa` is its place in bytes. The form is
/// this project's own rule.
pub fn absent_line<O: Sink>(
    out: &mut O,
    stage: Stage,
    level: i8,
    pa: u64,
    s1ptw: bool,
) -> Result<(), WriteFailed>
    ensures text { Wrote (O.written out.old) (O.written out.new) result (absent_text stage level pa s1ptw) }
    ensures cause { HasCause (O.faults out.old) (O.faults out.new) result }
{
    let mut line = Line::<LINE>::new();
    put_absent(&mut line, stage, level, pa, s1ptw);
    out.put(line.bytes())
}
