ghost use Rattle.std.specs.Prelude.{◌≡◌, ◌+◌, ◌*◌, ◌/◌, ◌%◌, ◌<◌, ◌≤◌, ◌^◌, ◌++◌, map, IfOk, vec_len, vec_capacity};
ghost use Rattle.trails.specs.declared.event.Event.TheVariants.{Store};
ghost use Rattle.drill_trace.specs.declared.drill.TheConstants.{DRAWN};
ghost use Rattle.drill_trace.specs.Drill.{word_place, page_place, top, level2_at, leaf_at, register_by, register_at, upto, setup};
ghost use Rattle.drill_trace.specs.Drill.{next, drawn, read_of, event_by, event_after, behind_event, events_from, drawn_events, drill_of};

use bitwords::NoMemory;
use permissions::{El, Kind};
use std::alloc::Global;
use sysregs::{Op, Reg};
use trace_lang::{Policy, Size, Trace};
use trails::{Access, Barrier, Event, Origin};

/// How many cores there are.
const CORES: u8 = 4;

/// Memory in bytes, from 0 on.
const MEMORY: u64 = 0x20_0000;

/// How many events set up tables and registers, and how many are drawn.
const SETUP: usize = 86;

const DRAWN: usize = 20_000;

/// Where the descriptor of page `j` of table `i` stands.
fn word_place(i: u64, j: u64) -> u64
    requires { (i < 4) × (j < 16) }
    ensures { result ≡ word_place i j }
{
    0x4000 + 0x1000 * i + 8 * j
}

/// Where page `j` of table `i` lies.
fn page_place(i: u64, j: u64) -> u64
    requires { (i < 16) × (j < 16) }
    ensures { result ≡ page_place i j }
{
    0x10_0000 + 0x1000 * (16 * i + j)
}

fn store(pa: u64, value: u64) -> Event
    ensures { result ≡ Store 0 pa value }
{
    Event::Store { core: 0, pa, value }
}

/// The descriptor of a page, counted over all tables.
fn leaf_at(k: u64) -> Event
    requires { k < 64 }
    ensures { result ≡ leaf_at k }
{
    let (i, j) = (k / 16, k % 16);
    let attributes = if k % 2 == 0 { 0x403 } else { 0xc03 };
    store(word_place(i, j), page_place(i, j) + attributes)
}

/// Stores the table of level 2.
fn put_level2(events: &mut Vec<Event>)
    requires { vec_len events.old + 4 ≤ vec_capacity events.old }
    ensures events { events.new.items ≡ events.old.items ++ map level2_at (upto 4) }
    ensures len { vec_len events.new ≡ vec_len events.old + 4 }
    ensures capacity { vec_capacity events.new ≡ vec_capacity events.old }
{
    for i in 0..4u64 {
        events.push_reserved(store(0x3000 + 8 * i, 0x4003 + 0x1000 * i));
    }
}

/// Stores the tables of level 3.
fn put_leaves(events: &mut Vec<Event>)
    requires { vec_len events.old + 64 ≤ vec_capacity events.old }
    ensures events { events.new.items ≡ events.old.items ++ map leaf_at (upto 64) }
    ensures len { vec_len events.new ≡ vec_len events.old + 64 }
    ensures capacity { vec_capacity events.new ≡ vec_capacity events.old }
{
    for k in 0..64u64 {
        events.push_reserved(leaf_at(k));
    }
}

/// A turn of a core that sets its registers.
fn register_by(core: u8, turn: u8) -> Event
    requires { (core < 4) × (turn < 4) }
    ensures { result ≡ register_by core turn }
{
    match turn {
        0 => Event::Msr {
            core,
            reg: Reg::TcrEl1,
            value: 0x10,
        },
        1 => Event::Msr {
            core,
            reg: Reg::Ttbr0El1,
            value: 0x1000 + (u64::from(core) + 1) * (1 << 48),
        },
        2 => Event::Msr {
            core,
            reg: Reg::SctlrEl1,
            value: 1,
        },
        _ => Event::Isb { core },
    }
}

/// Sets the registers of all cores.
fn put_registers(events: &mut Vec<Event>)
    requires { vec_len events.old + 16 ≤ vec_capacity events.old }
    ensures events { events.new.items ≡ events.old.items ++ map register_at (upto 16) }
    ensures len { vec_len events.new ≡ vec_len events.old + 16 }
    ensures capacity { vec_capacity events.new ≡ vec_capacity events.old }
{
    for k in 0..16u8 {
        events.push_reserved(register_by(k / 4, k % 4));
    }
}

/// A generator of numbers.
#[derive(Drop)]
struct Draws {
    last: u64,
}

impl Draws {
    /// The next number, below a count.
    fn below(&mut self, count: u64) -> u64
        requires { 0 < count }
        ensures last { self.new.last ≡ next self.old.last }
        ensures drawn { result ≡ drawn (next self.old.last) % count }
        ensures within { result < count }
    {
        self.last = self
            .last
            .wrapping_mul(6364136223846793005)
            .wrapping_add(1442695040888963407);
        self.last / (1 << 33) % count
    }
}

/// The event of four draws.
fn event_by(turn: u64, core: u8, i: u64, j: u64) -> Event
    requires { (turn < 16) × (core < 4) × (i < 4) × (j < 16) }
    ensures { result ≡ event_by turn core i j }
{
    let access = Access {
        va: 0x4000_0000 + 0x20_0000 * i + 0x1000 * j,
        el: El::El1,
        kind: Kind::Read,
        pan: false,
    };
    match turn {
        0..=9 => Event::Access { core, access },
        10 => Event::Prefetch { core, access },
        11 => Event::Store {
            core,
            pa: word_place(i, j),
            value: page_place(j, i) + 0x403,
        },
        12 => Event::Tlbi {
            core,
            from: Origin::El1,
            op: Op::Vaae1,
            shared: true,
            operand: access.va / 0x1000,
        },
        13 => Event::Dsb {
            core,
            kind: Barrier::Ish,
        },
        14 => Event::Deliver { core },
        _ => Event::Tlbi {
            core,
            from: Origin::El1,
            op: Op::Vmalle1,
            shared: false,
            operand: 0,
        },
    }
}

/// The next event that is drawn.
fn draw_event(draws: &mut Draws) -> Event
    ensures event { result ≡ event_after draws.old.last }
    ensures last { draws.new.last ≡ behind_event draws.old.last }
{
    let turn = draws.below(16);
    let core = draws.below(4);
    let i = draws.below(4);
    let j = draws.below(16);
    event_by(turn, core as u8, i, j)
}

/// Draws events.
fn put_drawn(events: &mut Vec<Event>, start: u64)
    requires { vec_len events.old + DRAWN ≤ vec_capacity events.old }
    ensures { events.new.items ≡ events.old.items ++ events_from drawn_events start }
{
    let mut draws = Draws { last: start };
    for _event in 0..DRAWN {
        events.push_reserved(draw_event(&mut draws));
    }
}

/// The trace of the drill whose draws begin at a number: four cores with small caches access 64 pages, and meanwhile their
/// descriptors change, with invalidations or without. It has 20,086 events.
pub fn made_trace(alloc: Global, start: u64) -> Result<Trace, NoMemory>
    ensures { IfOk result (λ t. t ≡ drill_of start) }
{
    let Ok(mut events) = Vec::with_capacity(alloc, SETUP + DRAWN) else {
        return Err(NoMemory);
    };
    events.push_reserved(store(0x1000, 0x2003));
    events.push_reserved(store(0x2008, 0x3003));
    put_level2(&mut events);
    put_leaves(&mut events);
    put_registers(&mut events);
    put_drawn(&mut events, start);
    let Ok(ranges) = vec![in alloc; (0, MEMORY)] else {
        return Err(NoMemory);
    };
    Ok(Trace::of(CORES, ranges, Size::Small, Policy::Fifo, events))
}
