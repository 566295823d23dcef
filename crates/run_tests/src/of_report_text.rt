ghost use Rattle.std.specs.Prelude.{◌≡◌, ◌≤◌, ◌+◌, length, true, OnOk, IfOk};
ghost use Rattle.trails.specs.Printed.{printed, HasText};
ghost use Rattle.trails.specs.Printed.{HasTextInRun, HaveTexts};

use attributes::{Device, MemType, Share};
use bitflags::Flags;
use explain_text::{FailingMemory, QuietMemory, Sink, WriteFailed};
use fault_codes::{Class, Fault, Stage};
use permissions::{El, Kind, Perms};
use report_text::Report;
use std::alloc::{AllocError, Global};
use trails::{Access, Answer, Event, Item, Outcome, StepSlot, Trail, What};

/// The numbers of a log without accesses.
const NONE: &str =
    "summary accesses 0 prefetches 0 mapped 0 faulted 0 conflicts 0 old 0 stale 0 evicted 0\n";

/// The report of the log below.
const TEXT: &str = "event 1 core 0 access 0x40201abc el1 read asid 0x0 vmid 0x0\n\
    s1 base level 0 at 0x1000 moment 8\n\
    s1 word level 3 at 0x4008 value 0x5403 moment 9\n\
    mapped 0x5abc el0 --x el1 rwx device-nGnRnE osh\n\
    event 2 core 1 prefetch 0x0 el0 fetch asid 0x2 vmid 0xab\n\
    fault stage 1 level 3 translation fsc 0x07\n\
    event 4 core 7 access 0x40201abc el1 write pan asid 0xffff vmid 0x0\n\
    s1 base level 0 at 0x1000 moment 8\n\
    fault stage 2 level 1 external fsc 0x15 s1ptw\n\
    event 5 core 0 access 0x40201abc el1 read asid 0x0 vmid 0x0\n\
    s1 base level 0 at 0x1000 moment 8\n\
    or\n\
    s1 word level 3 at 0x4008 value 0x5403 moment 9\n\
    conflict fsc 0x30\n\
    summary accesses 3 prefetches 1 mapped 1 faulted 2 conflicts 1 old 2 stale 1 evicted 7\n";

const BASE: Item = Item {
    pa: 0x1000,
    value: 0x1000,
    moment: 8,
    stage: Stage::S1,
    level: 0,
    what: What::Base,
};

const WORD: Item = Item {
    pa: 0x4008,
    value: 0x5403,
    moment: 9,
    stage: Stage::S1,
    level: 3,
    what: What::Word,
};

const READ: Access = Access {
    va: 0x4020_1abc,
    el: El::El1,
    kind: Kind::Read,
    pan: false,
};

fn mapped() -> Outcome
    ensures { HasText (printed true result) }
{
    Outcome::Mapped {
        pa: 0x5abc,
        perms: Perms::from_bits_retain(0b111_100),
        mem: MemType::Device {
            kind: Device::NGnRnE,
        },
        sh: Share::Osh,
    }
}

fn faulted() -> Outcome
    ensures { HasText (printed true result) }
{
    Outcome::Faulted {
        fault: Fault {
            stage: Stage::S1,
            level: 3,
            class: Class::Translation,
            s1ptw: false,
        },
    }
}

fn absent() -> Outcome
    ensures { HasText (printed true result) }
{
    Outcome::Absent {
        stage: Stage::S2,
        level: 1,
        pa: 0x8008,
        s1ptw: true,
    }
}

fn base() -> Trail
    ensures { length result ≡ 1 }
{
    let mut trail = Trail::none();
    trail.push(BASE);
    trail
}

fn base_and_word() -> Trail {
    let mut trail = base();
    trail.push(WORD);
    trail
}

fn word() -> Trail {
    let mut trail = Trail::none();
    trail.push(WORD);
    trail
}

/// An answer without rows evicted.
fn answer(asid: u16, vmid: u16, outcome: Outcome, first: Trail) -> Answer
    requires { HasText (printed true outcome) }
    ensures { HasText (printed true result.outcome) }
{
    Answer {
        asid,
        vmid,
        outcome,
        first,
        second: None,
        old: false,
        stale: false,
        evicted: 0,
    }
}

fn accessed(core: u8, access: Access, answer: Answer) -> StepSlot
    requires { HasText (printed true answer.outcome) }
    ensures { HasTextInRun result.answer }
{
    StepSlot {
        answer,
        event: Event::Access { core, access },
        is_answered: true,
    }
}

fn first_access() -> StepSlot
    ensures { HasTextInRun result.answer }
{
    let answer = Answer {
        evicted: 3,
        ..answer(0, 0, mapped(), base_and_word())
    };
    accessed(0, READ, answer)
}

fn prefetch() -> StepSlot
    ensures { HasTextInRun result.answer }
{
    let access = Access {
        va: 0,
        el: El::El0,
        kind: Kind::Fetch,
        pan: false,
    };
    let answer = Answer {
        old: true,
        evicted: 4,
        ..answer(2, 0xab, faulted(), Trail::none())
    };
    StepSlot {
        answer,
        event: Event::Prefetch { core: 1, access },
        is_answered: true,
    }
}

fn aborted() -> StepSlot
    ensures { HasTextInRun result.answer }
{
    let access = Access {
        kind: Kind::Write,
        pan: true,
        ..READ
    };
    let answer = Answer {
        stale: true,
        ..answer(0xffff, 0, absent(), base())
    };
    accessed(7, access, answer)
}

fn conflict() -> StepSlot
    ensures { HasTextInRun result.answer }
{
    let answer = Answer {
        second: Some(word()),
        old: true,
        ..answer(0, 0, Outcome::Conflict, base())
    };
    accessed(0, READ, answer)
}

/// A step that is not answered.
fn quiet(event: Event) -> StepSlot
    ensures { HasTextInRun result.answer }
{
    StepSlot {
        event,
        is_answered: false,
        ..StepSlot::new()
    }
}

fn put(log: &mut Vec<StepSlot>, step: StepSlot) -> Result<(), AllocError>
    requires step { HasTextInRun step.answer }
    requires log { HaveTexts log.old.items }
    ensures log { OnOk result (HaveTexts log.new.items) }
    ensures length { OnOk result (length log.new.items ≡ length log.old.items + 1) }
{
    log.push(step)?;
    Ok(())
}

/// A log with an answer of each kind.
fn six_steps(alloc: Global) -> Result<Vec<StepSlot>, AllocError>
    ensures { IfOk result (λ log. HaveTexts log.items × (length log.items ≤ 6)) }
{
    let mut log = Vec::new(alloc);
    put(
        &mut log,
        quiet(Event::Store {
            core: 0,
            pa: 0x4008,
            value: 0,
        }),
    )?;
    put(&mut log, first_access())?;
    put(&mut log, prefetch())?;
    put(&mut log, quiet(Event::Deliver { core: 0 }))?;
    put(&mut log, aborted())?;
    put(&mut log, conflict())?;
    Ok(log)
}

/// Writes the report of a log.
fn report<O: Sink>(out: &mut O, log: &[StepSlot]) -> Result<(), WriteFailed>
    requires printable { HaveTexts log.now }
    requires length { length log.now ≤ 700 }
{
    let mut report = Report::new();
    for step in log {
        report.step(out, step)?;
    }
    report.end(out)
}

#[test]
fn reports_a_run(rt: HostRuntime) -> Result<(), AllocError> {
    let alloc = rt.alloc();
    let log = six_steps(alloc)?;
    let mut out = QuietMemory::new(alloc);
    assert!(rt; report(&mut out, log.as_slice()).is_ok());
    assert!(rt; out.bytes.as_slice() == TEXT.as_bytes());
    let mut out = QuietMemory::new(alloc);
    assert!(rt; report(&mut out, &[]).is_ok());
    assert!(rt; out.bytes.as_slice() == NONE.as_bytes());
    Ok(())
}

/// A log whose report is handed on in three pieces: each access has 156 bytes.
fn many_accesses(alloc: Global) -> Result<Vec<StepSlot>, AllocError>
    ensures { IfOk result (λ log. HaveTexts log.items × (length log.items ≤ 700)) }
{
    let mut log = Vec::new(alloc);
    for _made in 0..700u16 {
        put(&mut log, first_access())?;
    }
    Ok(log)
}

/// The call that fails, how much of its piece it takes, and how much was written then.
#[test]
fn tells_that_a_write_failed(rt: HostRuntime) -> Result<(), AllocError> {
    let alloc = rt.alloc();
    let log = many_accesses(alloc)?;
    let mut whole = QuietMemory::new(alloc);
    assert!(rt; report(&mut whole, log.as_slice()).is_ok());
    for (call, taken) in [(0, 0), (0, 9), (1, 40), (2, 5)] {
        let mut fails = Vec::new(alloc);
        fails.push((call, taken))?;
        let mut out = FailingMemory::new(alloc, fails);
        assert!(rt; report(&mut out, log.as_slice()).is_err());
        assert!(rt; (out.calls, out.faults) == (call + 1, 1));
        assert!(rt; whole.bytes.as_slice().starts_with(out.bytes.as_slice()));
    }
    Ok(())
}
