use machine::{Machine, Runner};
use std::test::Fail;
use trace_lang::{Size, parse};
use trails::{Outcome, Step, StepSlot};

/// Two cores with 39-bit low addresses. A table at 0x1000 has a block of 1 GB at 0x80000000 for 0x40000000.
const RUN: &str = "cores 2
memory 0x1000 0x2000
caches none
policy fifo
msr 0 TTBR0_EL1 0x1000
msr 0 TCR_EL1 0x800019
msr 0 MAIR_EL1 0xff
msr 0 SCTLR_EL1 1
access 0 el1 read 0x40201abc
isb 0
access 0 el1 read 0x40201abc
store 1 0x1008 0x80000441
access 0 el1 read 0x40201abc
access 1 el1 read 0x40201abc
tlbi 0 el1 VMALLE1IS
store 1 0x1008 0xc0000441
access 0 el1 read 0x40201abc
deliver 1
dsb 0 ish
msr 0 SCTLR_EL1 0
access 0 el1 read 0x40201abc
settle 0
access 0 el1 read 0x40201abc
access 0 el1 read 0x4000000000
end
";

/// Where an access must be mapped to, and how many items it must have.
struct Want {
    pa: Option<u64>,
    items: usize,
}

/// The accesses of the run in order: before the ISB and of the other core without translation, then by an invalid word, by
/// the block, by the block that was stored last, and again without translation once the last write has settled.
const WANTED: [Want; 8] = [
    Want {
        pa: Some(0x4020_1abc),
        items: 0,
    },
    Want { pa: None, items: 2 },
    Want {
        pa: Some(0x8020_1abc),
        items: 2,
    },
    Want {
        pa: Some(0x4020_1abc),
        items: 0,
    },
    Want {
        pa: Some(0xc020_1abc),
        items: 2,
    },
    Want {
        pa: Some(0xc020_1abc),
        items: 2,
    },
    Want {
        pa: Some(0x4020_1abc),
        items: 0,
    },
    Want {
        pa: Some(0x40_0000_0000),
        items: 0,
    },
];

/// Where an outcome is mapped to.
fn place(outcome: &Outcome) -> Option<u64> {
    match outcome {
        Outcome::Mapped { pa, .. } => Some(*pa),
        _ => None,
    }
}

#[test]
fn runs_a_trace(rt: HostRuntime) -> Result<(), Fail> {
    let alloc = rt.alloc();
    let trace = parse(alloc, RUN.as_bytes())?;
    assert!(rt; trace.size() == Size::NoRows);
    let mut machine = Machine::opened(alloc, trace)?;
    for _turn in 0..machine.left() {
        if machine.left() > 0 {
            machine.step();
        }
    }
    assert!(rt; machine.left() == 0);
    let mut wanted = WANTED.iter();
    for (k, step) in machine.log().iter().enumerate() {
        if let Some(answer) = &step.answer {
            let want = wanted.next();
            assert!(rt; want.map(|w| w.pa) == Some(place(&answer.outcome)));
            assert!(rt; want.map(|w| w.items) == Some(answer.first.items().len()));
            for item in answer.first.items() {
                assert!(rt; item.moment as usize == k);
            }
        }
    }
    assert!(rt; wanted.next().is_none());
    Ok(())
}

/// Whether a slot has the step of a log: its event and what its answer says.
fn is_step(slot: &StepSlot, step: &Step) -> bool {
    let Some(answer) = &step.answer else {
        return slot.event == step.event && !slot.is_answered;
    };
    slot.event == step.event
        && slot.is_answered
        && slot.answer.outcome == answer.outcome
        && slot.answer.first.items() == answer.first.items()
        && slot.answer.second.is_none() == answer.second.is_none()
}

#[test]
fn a_runner_has_the_steps_of_the_log(rt: HostRuntime) -> Result<(), Fail> {
    let alloc = rt.alloc();
    let mut machine = Machine::opened(alloc, parse(alloc, RUN.as_bytes())?)?;
    let mut runner = Runner::opened(alloc, parse(alloc, RUN.as_bytes())?)?;
    let mut slot = StepSlot::new();
    for k in 0..runner.left() {
        if machine.left() > 0 && runner.left() > 0 {
            machine.step();
            runner.step(&mut slot);
        }
        let step = machine.log().get(k);
        assert!(rt; step.is_some_and(|step| is_step(&slot, step)));
    }
    assert!(rt; (machine.left(), runner.left()) == (0, 0));
    Ok(())
}

/// One core with small caches. Its block moves from 0x80000000 to 0xc0000000 without an invalidation, which comes late.
const MOVED: &str = "cores 1
memory 0x1000 0x1000
caches small
policy lru
store 0 0x1008 0x80000441
msr 0 TTBR0_EL1 0x1000
msr 0 TCR_EL1 0x800019
msr 0 MAIR_EL1 0xff
msr 0 SCTLR_EL1 1
isb 0
prefetch 0 el1 read 0x40201abc
store 0 0x1008 0xc0000441
access 0 el1 read 0x40201abc
tlbi 0 el1 VAE1 0x40201
access 0 el1 read 0x40201abc
dsb 0 nsh
access 0 el1 read 0x40201abc
end
";

/// Where each access goes, and whether its trail is old and stale.
const BY_BLOCK: [(u64, bool, bool); 4] = [
    (0x8020_1abc, false, false),
    (0x8020_1abc, true, true),
    (0x8020_1abc, true, true),
    (0xc020_1abc, false, false),
];

#[test]
fn an_old_block_serves_until_it_is_invalidated(rt: HostRuntime) -> Result<(), Fail> {
    let alloc = rt.alloc();
    let mut machine = Machine::opened(alloc, parse(alloc, MOVED.as_bytes())?)?;
    for _turn in 0..machine.left() {
        if machine.left() > 0 {
            machine.step();
        }
    }
    let mut wanted = BY_BLOCK.iter();
    for step in machine.log() {
        if let Some(answer) = &step.answer {
            let told = place(&answer.outcome).map(|pa| (pa, answer.old, answer.stale));
            assert!(rt; told == wanted.next().copied());
        }
    }
    assert!(rt; wanted.next().is_none());
    Ok(())
}
