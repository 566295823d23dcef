//! A core apart from its inbox.
ghost use Rattle.std.specs.Prelude.{◌≡◌, ◌≤◌, ◌<◌, List, fold, length, vec_len, vec_capacity, [], IfOk, None, Some, false, true};
ghost use Rattle.sysregs.specs.Refused.{refused_field};
ghost use Rattle.trails.specs.Lengths.{most_items};
ghost use Rattle.trails.specs.Printed.{HasTextInRun};
ghost use Rattle.phys_mem.specs.Words.{memory_of};
ghost use Rattle.tagged_tlb.specs.Shapes.{keeps_rows};
ghost use Rattle.tagged_tlb.specs.Sets.{Cache};
ghost use Rattle.machine_spec.specs.Header.{Header};
ghost use Rattle.machine_spec.specs.Moments.{written, settled, drained, queued, no_bank};
ghost use Rattle.machine_spec.specs.Machine.{killed, visited};
ghost use Rattle.walk_cache.specs.ByKind.{no_rows};
ghost use Rattle.cpu_model.specs.Cores.{cpu_with_bank, HasOtherRows, AreCaches, CanServe, visit_at};
ghost use Rattle.cpu_model.specs.Filled.{FilledBy};

use crate::fill::{Source, add_all};
use crate::judge::{is_conflict, is_mapping, is_old, is_stale};
use bitwords::NoMemory;
use made_rows::{NewRow, Walked, rows_made};
use phys_mem::Phys;
use served_walk::{Met, Scene, Words, served_access};
use std::alloc::Global;
use std::marker::Model;
use sysregs::fields::{asid, vmid};
use sysregs::{Reg, Regs, side};
use tlbi_ops::Inval;
use trace_lang::{Policy, Size};
use trails::{Access, Answer, MOST_ITEMS, Trail};
use translate::{InForce, translate_at};
use walk_cache::Caches;

/// The most register writes that wait.
pub const MOST_QUEUED: usize = 64;

/// The most rows that a step makes: one for each item of its trail, and a combined one.
const MOST_MADE: usize = MOST_ITEMS + 1;

/// A core: its registers in force, the writes that wait, oldest first, and its caches. `made` has room for the rows of a step.
#[derive(Drop)]
pub struct Cpu {
    queue: Vec<(Reg, u64)>,
    force: InForce,
    caches: Caches,
    made: Vec<NewRow>,
    number: u8,
}

impl Model for Cpu {
    ghost use Rattle.std.specs.Prelude.{◌≡◌, ◌≤◌, ◌<◌, vec_capacity};
    ghost use Rattle.trails.specs.Lengths.{most_items};
    ghost use Rattle.cpu_model.specs.Cores.{CoreState, IsBank};

    ghost Value = { CoreState };

    ghost view = { λ s. record {
      number = s.number;
      bank = record { regs = s.force; queue = s.queue.items };
      caches = s.caches;
    } };

    ghost invariant = { λ s. IsBank (record { regs = s.force; queue = s.queue.items }) × (64 ≤ vec_capacity s.queue)
        × (most_items < vec_capacity s.made) };
}

/// Lets writes take effect, oldest first.
fn write_all(force: &mut InForce, queue: &[(Reg, u64)])
    ensures { force.new ≡ fold written force.old queue.now }
{
    for &(reg, value) in queue {
        force.set(reg, value);
    }
}

/// Leaves no second trail. Where there was none, nothing is written.
fn no_second(second: &mut Option<Trail>)
    ensures { second.new ≡ None }
{
    if second.is_some() {
        *second = None;
    }
}

impl Cpu {
    /// A core of a number whose registers are all 0, with caches of a size that are empty. It takes all its memory now.
    pub fn opened(alloc: Global, number: u8, size: Size, policy: Policy) -> Result<Cpu, NoMemory>
        ensures number { IfOk result (λ c. c.number ≡ number) }
        ensures bank { IfOk result (λ c. c.bank ≡ no_bank) }
        ensures rows { IfOk result (λ c. (h : Header) → h.size ≡ size → h.policy ≡ policy → AreCaches h number no_rows c) }
    {
        let Ok(queue) = Vec::with_capacity(alloc, MOST_QUEUED) else {
            return Err(NoMemory);
        };
        let Ok(made) = Vec::with_capacity(alloc, MOST_MADE) else {
            return Err(NoMemory);
        };
        Ok(Cpu {
            queue,
            force: InForce::of(Regs::zero()),
            caches: Caches::opened(alloc, number, size, policy)?,
            made,
            number,
        })
    }

    /// The registers in force.
    pub fn regs(&self) -> &Regs
        ensures { result.now ≡ self.now.bank.regs }
    {
        self.force.regs()
    }

    /// The oldest write takes effect, where one waits.
    pub fn settle(&mut self)
        ensures { self.new ≡ cpu_with_bank self.old (settled self.old.bank) }
    {
        if self.queue.len() > 0 {
            let (reg, value) = self.queue.remove(0);
            self.force.set(reg, value);
        }
    }

    /// A write waits behind the others. Where the queue is full, its oldest takes effect first.
    pub fn msr(&mut self, reg: Reg, value: u64)
        requires { refused_field reg value ≡ None }
        ensures { self.new ≡ cpu_with_bank self.old (queued self.old.bank (reg, value)) }
    {
        if self.queue.len() == MOST_QUEUED {
            let (oldest, first) = self.queue.remove(0);
            self.force.set(oldest, first);
        }
        self.queue.push_reserved((reg, value));
    }

    /// All writes take effect, oldest first.
    pub fn isb(&mut self)
        ensures { self.new ≡ cpu_with_bank self.old (drained self.old.bank) }
    {
        write_all(&mut self.force, self.queue.as_slice());
        self.queue.clear();
    }

    /// An invalidation takes effect: the rows that it covers go.
    pub fn take(&mut self, inval: &Inval)
        ensures rest { HasOtherRows self.old self.new }
        ensures rows { (h : Header) → (l : Cache) → AreCaches h self.old.number l self.old →
            AreCaches h self.old.number (killed l inval.now) self.new }
    {
        self.caches.kill(inval);
    }

    /// An access without rows: the walk of that moment.
    fn walk(&mut self, phys: &Phys, moment: u32, access: &Access, answer: &mut Answer)
        requires { keeps_rows self.old.caches.size ≡ false }
        ensures answer { (h : Header) → (l : Cache) → AreCaches h self.old.number l self.old →
            answer.new ≡ (visited (visit_at h self.old l (memory_of phys.now) moment) access.now).answer }
        ensures rest { HasOtherRows self.old self.new }
        ensures rows { (h : Header) → (l : Cache) → AreCaches h self.old.number l self.old →
            AreCaches h self.old.number (visited (visit_at h self.old l (memory_of phys.now) moment) access.now).cache self.new }
    {
        let mut words = Words { phys };
        answer.first.cut(0);
        answer.outcome = translate_at(&self.force, access, moment, &mut words, &mut answer.first);
        no_second(&mut answer.second);
        answer.asid = asid(self.force.regs());
        answer.vmid = vmid(self.force.regs());
        answer.old = false;
        answer.stale = false;
        answer.evicted = 0;
    }

    /// The rows that served go last where the policy says so, and the rows of the step come, all by its trail. Answers how many
    /// rows were evicted.
    fn fill(&mut self, moment: u32, walked: &Walked, met: &Met) -> u32
        requires keeps { keeps_rows self.old.caches.size ≡ true }
        requires most { length walked.now.trail.now ≤ most_items }
        ensures filled { FilledBy self.old moment walked.now met.now.services.items result self.new.caches }
        ensures rest { HasOtherRows self.old self.new }
    {
        self.caches.touch_all(met.services.as_slice());
        self.made.clear();
        rows_made(&self.force, walked, moment, &mut self.made);
        let source = Source {
            force: &self.force,
            trail: walked.trail,
            step: moment,
        };
        add_all(&mut self.caches, &source, self.made.as_slice())
    }

    /// An access by rows, memory and registers.
    fn serve(&mut self, phys: &Phys, moment: u32, access: &Access, answer: &mut Answer)
        requires { keeps_rows self.old.caches.size ≡ true }
        ensures answer { (h : Header) → (l : Cache) → AreCaches h self.old.number l self.old → CanServe moment l.rows →
            answer.new ≡ (visited (visit_at h self.old l (memory_of phys.now) moment) access.now).answer }
        ensures rest { HasOtherRows self.old self.new }
        ensures rows { (h : Header) → (l : Cache) → AreCaches h self.old.number l self.old → CanServe moment l.rows →
            AreCaches h self.old.number (visited (visit_at h self.old l (memory_of phys.now) moment) access.now).cache self.new }
    {
        let scene = Scene {
            force: &self.force,
            finds: &self.caches,
            phys,
            moment,
        };
        let mut met = Met::none();
        answer.outcome = served_access(
            &scene,
            access,
            &mut met,
            &mut answer.first,
            &mut answer.second,
        );
        answer.asid = asid(self.force.regs());
        answer.vmid = vmid(self.force.regs());
        let trail = answer.first.items();
        answer.old = is_old(moment, trail);
        answer.stale = false;
        answer.evicted = 0;
        if is_conflict(&answer.outcome) {
            return;
        }
        answer.stale = is_stale(&self.force, side(access.va), phys, trail);
        let walked = Walked {
            access,
            trail,
            is_mapped: is_mapping(&answer.outcome),
        };
        answer.evicted = self.fill(moment, &walked, &met);
    }

    /// Writes the answer of an access at a moment, which is the number of the step, where an earlier one stood, and leaves the
    /// rows of the step. Both are what the definitions say for each list of rows that the caches may hold.
    pub fn access(&mut self, phys: &Phys, moment: u32, access: &Access, answer: &mut Answer)
        ensures answer { (h : Header) → (l : Cache) → AreCaches h self.old.number l self.old → CanServe moment l.rows →
            answer.new ≡ (visited (visit_at h self.old l (memory_of phys.now) moment) access.now).answer }
        ensures rest { HasOtherRows self.old self.new }
        ensures rows { (h : Header) → (l : Cache) → AreCaches h self.old.number l self.old → CanServe moment l.rows →
            AreCaches h self.old.number (visited (visit_at h self.old l (memory_of phys.now) moment) access.now).cache self.new }
        ensures text { (h : Header) → (l : Cache) → AreCaches h self.old.number l self.old → CanServe moment l.rows →
            HasTextInRun (Some answer.new) }
    {
        if self.caches.keep_rows() {
            self.serve(phys, moment, access, answer);
        } else {
            self.walk(phys, moment, access, answer);
        }
    }
}
