//! A core with its inbox.
ghost use Rattle.std.specs.Prelude.{◌≡◌, ◌<◌, ℕ, List, length, fold, filter, if◌then◌else◌, IfOk, None, Some};
ghost use Rattle.sysregs.specs.Refused.{refused_field};
ghost use Rattle.trails.specs.declared.event.Event.TheVariants.{Dsb};
ghost use Rattle.trails.specs.Printed.{HasTextInRun};
ghost use Rattle.phys_mem.specs.Words.{memory_of};
ghost use Rattle.machine_spec.specs.Header.{Header};
ghost use Rattle.machine_spec.specs.Moments.{settled, drained, queued};
ghost use Rattle.machine_spec.specs.Invalidations.{is_wide, completes};
ghost use Rattle.tagged_tlb.specs.Sets.{Cache};
ghost use Rattle.machine_spec.specs.Machine.{Core, no_core, with_bank, killed, delivered, mailed, finished, visit_of, visited, accessed};
ghost use Rattle.cpu_model.specs.Cores.{HasOtherRows, AreCaches, CanServe};
ghost use Rattle.machine.specs.Seats.{IsSeatOf, world_with, with_room};

use bitwords::NoMemory;
use cpu_model::Cpu;
use phys_mem::Phys;
use std::alloc::Global;
use std::marker::Model;
use sysregs::{Reg, Regs};
use tlbi_ops::Inval;
use trace_lang::{Policy, Size};
use trails::{Access, Answer, Barrier};

/// The most invalidations that wait for a core.
const MOST_HELD: usize = 64;

/// A core, and the invalidations that have reached it and have not taken effect, oldest first.
#[derive(Drop)]
pub struct Seat {
    inbox: Vec<Inval>,
    cpu: Cpu,
}

impl Model for Seat {
    ghost use Rattle.std.specs.Prelude.{◌≤◌, vec_len, vec_capacity};
    ghost use Rattle.machine.specs.Seats.{SeatState};

    ghost Value = { SeatState };

    ghost view = { λ s. record { core = s.cpu; inbox = s.inbox.items } };

    ghost invariant = { λ s. (vec_len s.inbox ≤ 64) × (64 ≤ vec_capacity s.inbox) };
}

/// Whether a DSB waits for the other cores too.
fn is_wide(kind: Barrier) -> bool
    ensures { result ≡ is_wide kind }
{
    match kind {
        Barrier::Nsh => false,
        Barrier::Ish | Barrier::Sy => true,
    }
}

/// Whether a DSB of a core completes an invalidation.
#[tactic(auto, unfolding(machine_spec::specs::Invalidations::completes))]
fn completes(core: u8, kind: Barrier, inval: &Inval) -> bool
    ensures { result ≡ completes (Dsb core kind) inval.now }
{
    core == inval.issuer && (is_wide(kind) || !inval.broadcast)
}

/// An invalidation takes effect, where a DSB of a core completes it.
fn take_completed(cpu: &mut Cpu, inval: &Inval, core: u8, kind: Barrier)
    ensures rest { HasOtherRows cpu.old cpu.new }
    ensures rows { (h : Header) → (l : Cache) → AreCaches h cpu.old.number l cpu.old →
        AreCaches h cpu.old.number (if completes (Dsb core kind) inval.now then killed l inval.now else l) cpu.new }
{
    if completes(core, kind, inval) {
        cpu.take(inval);
    }
}

/// The invalidations that a DSB completes take effect, oldest first.
fn take_all(cpu: &mut Cpu, inbox: &[Inval], core: u8, kind: Barrier)
    ensures rest { HasOtherRows cpu.old cpu.new }
    ensures rows { (h : Header) → (l : Cache) → AreCaches h cpu.old.number l cpu.old →
        AreCaches h cpu.old.number (fold killed l (filter (completes (Dsb core kind)) inbox.now)) cpu.new }
{
    for inval in inbox {
        take_completed(cpu, inval, core, kind);
    }
}

impl Seat {
    /// A core of a number whose registers are all 0, whose caches are empty, and which no invalidation has reached.
    pub fn opened(alloc: Global, number: u8, size: Size, policy: Policy) -> Result<Seat, NoMemory>
        ensures { IfOk result (λ s. (h : Header) → h.size ≡ size → h.policy ≡ policy → IsSeatOf h number no_core s) }
    {
        let Ok(inbox) = Vec::with_capacity(alloc, MOST_HELD) else {
            return Err(NoMemory);
        };
        let cpu = Cpu::opened(alloc, number, size, policy)?;
        Ok(Seat { inbox, cpu })
    }

    /// The registers in force.
    pub fn regs(&self) -> &Regs
        ensures { result.now ≡ self.now.core.bank.regs }
    {
        self.cpu.regs()
    }

    /// A register write waits behind the others.
    pub fn msr(&mut self, reg: Reg, value: u64)
        requires { refused_field reg value ≡ None }
        ensures { (h : Header) → (c : ℕ) → (v : Core) → IsSeatOf h c v self.old → IsSeatOf h c (with_bank v (queued v.bank (reg, value))) self.new }
    {
        self.cpu.msr(reg, value);
    }

    /// The oldest register write takes effect.
    pub fn settle(&mut self)
        ensures { (h : Header) → (c : ℕ) → (v : Core) → IsSeatOf h c v self.old → IsSeatOf h c (with_bank v (settled v.bank)) self.new }
    {
        self.cpu.settle();
    }

    /// All register writes take effect, oldest first.
    pub fn isb(&mut self)
        ensures { (h : Header) → (c : ℕ) → (v : Core) → IsSeatOf h c v self.old → IsSeatOf h c (with_bank v (drained v.bank)) self.new }
    {
        self.cpu.isb();
    }

    /// The oldest invalidation takes effect, where there is one.
    pub fn deliver(&mut self)
        ensures { (h : Header) → (c : ℕ) → (v : Core) → IsSeatOf h c v self.old → IsSeatOf h c (delivered v) self.new }
    {
        if self.inbox.len() > 0 {
            let inval = self.inbox.remove(0);
            self.cpu.take(&inval);
        }
    }

    /// Where the inbox is full, its oldest invalidation takes effect.
    fn make_room(&mut self)
        ensures seat { (h : Header) → (c : ℕ) → (v : Core) → IsSeatOf h c v self.old → IsSeatOf h c (with_room v) self.new }
        ensures room { length self.new.inbox < 64 }
    {
        if self.inbox.len() == MOST_HELD {
            let oldest = self.inbox.remove(0);
            self.cpu.take(&oldest);
        }
    }

    /// An invalidation comes in. Where the inbox is full, its oldest takes effect first.
    pub fn post(&mut self, inval: Inval)
        ensures { (h : Header) → (c : ℕ) → (v : Core) → IsSeatOf h c v self.old → IsSeatOf h c (mailed v inval) self.new }
    {
        self.make_room();
        self.inbox.push_reserved(inval);
    }

    /// The invalidations that a DSB of a core completes take effect, oldest first, and leave.
    pub fn finish(&mut self, core: u8, kind: Barrier)
        ensures { (h : Header) → (c : ℕ) → (v : Core) → IsSeatOf h c v self.old → IsSeatOf h c (finished v (Dsb core kind)) self.new }
    {
        take_all(&mut self.cpu, self.inbox.as_slice(), core, kind);
        self.inbox.retain(|inval| !completes(core, kind, inval));
    }

    /// Writes the answer of an access at a moment, which is the number of the step, where an earlier one stood.
    pub fn access(&mut self, phys: &Phys, moment: u32, access: &Access, answer: &mut Answer)
        ensures answer { (h : Header) → (cores : List Core) → (c : ℕ) → (v : Core) → IsSeatOf h c v self.old → CanServe moment v.cache.rows →
            answer.new ≡ (visited (visit_of h (world_with moment (memory_of phys.now) cores) c v) access.now).answer }
        ensures core { (h : Header) → (cores : List Core) → (c : ℕ) → (v : Core) → IsSeatOf h c v self.old → CanServe moment v.cache.rows →
            IsSeatOf h c (accessed h (world_with moment (memory_of phys.now) cores) c v access.now) self.new }
        ensures text { (h : Header) → (c : ℕ) → (v : Core) → IsSeatOf h c v self.old → CanServe moment v.cache.rows
            → HasTextInRun (Some answer.new) }
    {
        self.cpu.access(phys, moment, access, answer);
    }
}
