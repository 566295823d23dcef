ghost use Rattle.std.specs.Prelude.{◌≡◌};
ghost use Rattle.trace_lang.specs.Traces.{IsTrace, parts_of};

use crate::{Policy, Size};
use std::marker::Model;
use trails::Event;

/// The events of a machine's cores in order, and what they are on: 1 to 8 cores, at most 16 ranges of memory that share
/// no byte, each with its start and its length in bytes, and the caches of a core with their policy (this project's own
/// rule).
#[derive(Drop)]
pub struct Trace {
    ranges: Vec<(u64, u64)>,
    events: Vec<Event>,
    policy: Policy,
    size: Size,
    cores: u8,
}

impl Model for Trace {
    ghost use Rattle.trace_lang.specs.Traces.{Parts, IsTrace, parts_of};

    ghost Value = { Parts };

    ghost view = { λ t. parts_of t.cores t.ranges.items t.size t.policy t.events.items };

    ghost invariant = { λ t. IsTrace (parts_of t.cores t.ranges.items t.size t.policy t.events.items) };
}

impl Trace {
    /// The trace of these parts.
    pub fn of(
        cores: u8,
        ranges: Vec<(u64, u64)>,
        size: Size,
        policy: Policy,
        events: Vec<Event>,
    ) -> Trace
        requires { IsTrace (parts_of cores ranges.items size policy events.items) }
        ensures { result ≡ parts_of cores ranges.items size policy events.items }
    {
        Trace {
            ranges,
            events,
            policy,
            size,
            cores,
        }
    }

    /// How many cores there are.
    pub fn cores(&self) -> u8
        ensures value { result ≡ self.now.header.cores }
        ensures limits { IsTrace self.now }
    {
        self.cores
    }

    /// The ranges of memory in the order of their lines: start and length in bytes.
    pub fn ranges(&self) -> &[(u64, u64)]
        ensures value { result.now ≡ self.now.header.ranges }
        ensures limits { IsTrace self.now }
    {
        self.ranges.as_slice()
    }

    /// How many rows the caches of a core hold.
    pub fn size(&self) -> Size
        ensures value { result ≡ self.now.header.size }
        ensures limits { IsTrace self.now }
    {
        self.size
    }

    /// Which row leaves a full set.
    pub fn policy(&self) -> Policy
        ensures value { result ≡ self.now.header.policy }
        ensures limits { IsTrace self.now }
    {
        self.policy
    }

    /// The events in order.
    pub fn events(&self) -> &[Event]
        ensures value { result.now ≡ self.now.events }
        ensures limits { IsTrace self.now }
    {
        self.events.as_slice()
    }
}
