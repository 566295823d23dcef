use cpu_model::{Cpu, MOST_QUEUED};
use permissions::{El, Kind};
use phys_mem::Phys;
use std::test::Fail;
use sysregs::Reg;
use trace_lang::{Policy, Size};
use trails::{Access, Outcome, StepSlot};

/// What is done to the registers of a core.
#[derive(Clone, Copy)]
enum Act {
    /// A write of TTBR0_EL1.
    Write(u64),
    Settle,
    Isb,
}

fn does(cpu: &mut Cpu, act: Act) {
    match act {
        Act::Write(value) => cpu.msr(Reg::Ttbr0El1, value),
        Act::Settle => cpu.settle(),
        Act::Isb => cpu.isb(),
    }
}

/// What is done, and TTBR0_EL1 after it.
const ACTS: [(Act, u64); 10] = [
    (Act::Settle, 0),
    (Act::Write(1), 0),
    (Act::Settle, 1),
    (Act::Write(2), 1),
    (Act::Write(3), 1),
    (Act::Settle, 2),
    (Act::Write(4), 2),
    (Act::Isb, 4),
    (Act::Settle, 4),
    (Act::Isb, 4),
];

#[test]
fn writes_wait(rt: HostRuntime) -> Result<(), Fail> {
    let mut cpu = Cpu::opened(rt.alloc(), 0, Size::NoRows, Policy::Fifo)?;
    for &(act, ttbr0) in ACTS.as_slice() {
        does(&mut cpu, act);
        assert!(rt; cpu.regs().ttbr0_el1 == ttbr0);
    }
    Ok(())
}

/// What is done to a full queue, and TTBR0_EL1 after it.
const FULL: [(Act, u64); 4] = [
    (Act::Write(65), 1),
    (Act::Write(66), 2),
    (Act::Settle, 3),
    (Act::Isb, 66),
];

#[test]
fn oldest_write_leaves_a_full_queue(rt: HostRuntime) -> Result<(), Fail> {
    let mut cpu = Cpu::opened(rt.alloc(), 0, Size::NoRows, Policy::Fifo)?;
    for value in 1..=MOST_QUEUED as u64 {
        cpu.msr(Reg::Ttbr0El1, value);
        assert!(rt; cpu.regs().ttbr0_el1 == 0);
    }
    for &(act, ttbr0) in FULL.as_slice() {
        does(&mut cpu, act);
        assert!(rt; cpu.regs().ttbr0_el1 == ttbr0);
    }
    Ok(())
}

#[test]
fn accesses_read_now(rt: HostRuntime) -> Result<(), Fail> {
    let alloc = rt.alloc();
    let mut phys = Phys::of(alloc, &[(0x1000, 0x1000)])?;
    let mut cpu = Cpu::opened(alloc, 0, Size::NoRows, Policy::Fifo)?;
    let access = Access {
        va: 0x4020_1abc,
        el: El::El1,
        kind: Kind::Read,
        pan: false,
    };
    cpu.msr(Reg::Ttbr0El1, 0x1000);
    cpu.msr(Reg::MairEl1, 0xff);
    let mut answer = StepSlot::new().answer;
    for (now, word) in [(0, 0), (1, 0), (7, 0x8000_0441)] {
        phys.store(0x1008, word);
        cpu.access(&phys, now, &access, &mut answer);
        assert!(rt;
            matches!(
                answer.outcome,
                Outcome::Mapped {
                    pa: 0x4020_1abc,
                    ..
                }
            )
        );
        assert!(rt; answer.first.items().len() == 0);
    }
    Ok(())
}
