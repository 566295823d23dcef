//! One event on memory and on the cores.
ghost use Rattle.std.specs.Prelude.{◌≡◌, ◌<◌, ℕ, List, length, slice_index_or, Some, None};
ghost use Rattle.trails.specs.declared.event.Event.{Event as TheEvent};
ghost use Rattle.trails.specs.declared.event.Event.TheVariants.{Dsb};
ghost use Rattle.tlbi_ops.specs.Operands.{inval_of, reaches_core};
ghost use Rattle.phys_mem.specs.Words.{memory_of};
ghost use Rattle.machine_spec.specs.Header.{Header};
ghost use Rattle.machine_spec.specs.Moments.{stored};
ghost use Rattle.machine_spec.specs.Invalidations.{is_at_el1};
ghost use Rattle.machine_spec.specs.Machine.{Core, mailed_by, finished, answer_to};
ghost use Rattle.trace_lang.specs.Traces.{core_of};
ghost use Rattle.machine.specs.Seats.{no_seat, IsSeatOf, AreSeatsOf, world_with, AreMoved, CanAnswer};
ghost use Rattle.trails.specs.Printed.{HasTextInRun};
ghost use Rattle.machine.specs.Events.{asked_of, IsDoable};

use crate::seat::Seat;
use phys_mem::Phys;
use sysregs::Op;
use tlbi_ops::{Inval, decode};
use trails::{Access, Answer, Barrier, Event, Origin, StepSlot};

/// Whether a TLBI is issued at EL1.
fn is_at_el1(from: Origin) -> bool
    ensures { result ≡ is_at_el1 from }
{
    match from {
        Origin::El1 => true,
        Origin::El2 => false,
    }
}

/// Whether an invalidation reaches the core of a number.
fn reaches_core(inval: &Inval, number: usize) -> bool
    ensures { result ≡ reaches_core inval.now number }
{
    inval.broadcast || inval.issuer as usize == number
}

/// An invalidation comes in at a core, where it reaches that core.
fn post_at(seat: &mut Seat, number: usize, inval: &Inval)
    ensures { (h : Header) → (v : Core) → IsSeatOf h number v seat.old → IsSeatOf h number (mailed_by number v (Some inval.now)) seat.new }
{
    if reaches_core(inval, number) {
        seat.post(*inval);
    }
}

/// An invalidation comes in at the cores that it reaches.
fn post_all(seats: &mut [Seat], inval: &Inval)
    ensures { (h : Header) → (c : ℕ) → (v : Core) → c < length seats.old → IsSeatOf h c v (slice_index_or seats.old c no_seat) →
        IsSeatOf h c (mailed_by c v (Some inval.now)) (slice_index_or seats.new c no_seat) }
{
    for c in 0..seats.len() {
        post_at(&mut seats[c], c, inval);
    }
}

/// A TLBI of a core: its invalidation, by the registers in force of the core, comes in at the cores that it reaches.
fn issue(
    seats: &mut [Seat],
    core: u8,
    from: Origin,
    op: Op,
    shared: bool,
    operand: u64,
    moment: u32,
)
    requires { core < length seats.old }
    ensures { (h : Header) → (c : ℕ) → (v : Core) → c < length seats.old → IsSeatOf h c v (slice_index_or seats.old c no_seat) →
        IsSeatOf h c (mailed_by c v
        (Some (inval_of op shared (is_at_el1 from) operand (slice_index_or seats.old core no_seat).core.bank.regs core moment)))
        (slice_index_or seats.new c no_seat) }
{
    let regs = seats[core as usize].regs();
    let inval = decode(op, shared, is_at_el1(from), operand, regs, core, moment);
    post_all(seats, &inval);
}

/// The invalidations that a DSB of a core completes take effect at all cores.
fn finish_all(seats: &mut [Seat], core: u8, kind: Barrier)
    ensures { (h : Header) → (c : ℕ) → (v : Core) → c < length seats.old → IsSeatOf h c v (slice_index_or seats.old c no_seat) →
        IsSeatOf h c (finished v (Dsb core kind)) (slice_index_or seats.new c no_seat) }
{
    for seat in seats.iter_mut() {
        seat.finish(core, kind);
    }
}

/// The core and the access of an event that asks for one.
fn asked(event: &Event) -> Option<(u8, Access)>
    ensures { result ≡ asked_of event.now }
{
    match *event {
        Event::Access { core, access } => Some((core, access)),
        Event::Prefetch { core, access } => Some((core, access)),
        Event::Store { .. }
        | Event::Msr { .. }
        | Event::Settle { .. }
        | Event::Isb { .. }
        | Event::Tlbi { .. }
        | Event::Dsb { .. }
        | Event::Deliver { .. } => None,
    }
}

/// Writes the answer of an access that an event asks for, where an earlier one stood.
fn answer(
    phys: &Phys,
    seats: &mut [Seat],
    moment: u32,
    core: u8,
    access: &Access,
    answer: &mut Answer,
)
    requires { core < length seats.old }
    ensures answer { (h : Header) → (cores : List Core) → (e : TheEvent) → asked_of e ≡ Some (core, access.now) → AreSeatsOf h cores seats.old →
        CanAnswer moment cores → Some answer.new ≡ answer_to h (world_with moment (memory_of phys.now) cores) e }
    ensures cores { (h : Header) → (cores : List Core) → (e : TheEvent) → asked_of e ≡ Some (core, access.now) → AreSeatsOf h cores seats.old →
        CanAnswer moment cores → AreMoved h (world_with moment (memory_of phys.now) cores) e seats.new }
    ensures text { (h : Header) → (cores : List Core) → AreSeatsOf h cores seats.old → CanAnswer moment cores → HasTextInRun (Some answer.new) }
{
    seats[core as usize].access(phys, moment, access, answer);
}

/// Does an event that asks for no access.
#[tactic(auto, unfolding(machine_spec::specs::Moments::stored))]
fn act(phys: &mut Phys, seats: &mut [Seat], moment: u32, event: &Event)
    requires here { core_of event.now < length seats.old }
    requires doable { IsDoable (memory_of phys.old) event.now }
    requires quiet { asked_of event.now ≡ None }
    ensures memory { memory_of phys.new ≡ stored (memory_of phys.old) event.now }
    ensures ranges { phys.new.ranges ≡ phys.old.ranges }
    ensures cores { (h : Header) → (cores : List Core) → AreSeatsOf h cores seats.old →
        AreMoved h (world_with moment (memory_of phys.old) cores) event.now seats.new }
{
    match *event {
        Event::Store { pa, value, .. } => {
            phys.store(pa, value);
        }
        Event::Msr { core, reg, value } => seats[core as usize].msr(reg, value),
        Event::Settle { core } => seats[core as usize].settle(),
        Event::Isb { core } => seats[core as usize].isb(),
        Event::Tlbi {
            core,
            from,
            op,
            shared,
            operand,
        } => issue(seats, core, from, op, shared, operand, moment),
        Event::Dsb { core, kind } => finish_all(seats, core, kind),
        Event::Deliver { core } => seats[core as usize].deliver(),
        Event::Access { .. } | Event::Prefetch { .. } => unreachable!(),
    }
}

/// Does an event, and leaves its step in a slot: it is answered where it asks for an access.
pub fn act_and_answer(
    phys: &mut Phys,
    seats: &mut [Seat],
    moment: u32,
    event: &Event,
    slot: &mut StepSlot,
)
    requires here { core_of event.now < length seats.old }
    requires doable { IsDoable (memory_of phys.old) event.now }
    ensures memory { memory_of phys.new ≡ stored (memory_of phys.old) event.now }
    ensures ranges { phys.new.ranges ≡ phys.old.ranges }
    ensures answer { (h : Header) → (cores : List Core) → AreSeatsOf h cores seats.old → CanAnswer moment cores →
        slot.new.answer ≡ answer_to h (world_with moment (memory_of phys.old) cores) event.now }
    ensures cores { (h : Header) → (cores : List Core) → AreSeatsOf h cores seats.old → CanAnswer moment cores →
        AreMoved h (world_with moment (memory_of phys.old) cores) event.now seats.new }
    ensures event { slot.new.event ≡ event.now }
    ensures text { (h : Header) → (cores : List Core) → AreSeatsOf h cores seats.old → CanAnswer moment cores → HasTextInRun slot.new.answer }
{
    slot.event = *event;
    match asked(event) {
        Some((core, access)) => {
            answer(phys, seats, moment, core, &access, &mut slot.answer);
            slot.is_answered = true;
        }
        None => {
            act(phys, seats, moment, event);
            slot.is_answered = false;
        }
    }
}
