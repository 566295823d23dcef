//! What an access keeps of the rows that it met.
ghost use Rattle.std.specs.Prelude.{◌≡◌, ◌+◌, ◌≤◌, ◌++◌, [], length};
ghost use Rattle.trails.specs.Lengths.{most_items, most_items2};
ghost use Rattle.served_walk.specs.Meets.{IsNoted};

use arrayvec::ArrayVec;
use std::default::Default;
use tagged_tlb::{Kind, Made, Seen, Slot};
use trails::{Item, Trail};

/// The most rows that serve one access.
pub const MOST_SERVICES: usize = 7;

/// The most items of a chain of stage 2: its base, and a word for each of the levels -1 to 3.
pub(crate) const MOST_CHAIN: usize = 6;

/// A row that served: its kind, where it stands, and when it was made.
#[derive(Clone, Copy)]
pub struct Service {
    pub kind: Kind,
    pub seen: Seen,
}

impl Default for Service {
    fn default() -> Service {
        let slot = Slot { set: 0, way: 0 };
        let made = Made { step: 0, order: 0 };
        Service {
            kind: Kind::Leaf1,
            seen: Seen { slot, made },
        }
    }
}

/// The rows that served an access, in the order of the trail; and at a conflict of two chains of stage 2 the second chain, with
/// how many items at the end of the first trail it stands for.
#[derive(Drop)]
pub struct Met {
    pub services: ArrayVec<Service, MOST_SERVICES>,
    pub second: ArrayVec<Item, MOST_CHAIN>,
    pub instead: usize,
}

impl Met {
    /// Before any row.
    pub fn none() -> Met
        ensures services { result.services.items ≡ [] }
        ensures second { result.second.items ≡ [] }
    {
        Met {
            services: ArrayVec::new(),
            second: ArrayVec::new(),
            instead: 0,
        }
    }

    /// A row served. It is kept where there is room.
    pub(crate) fn note(&mut self, service: Service)
        ensures services { IsNoted service self.old.services.items self.new.services.items }
        ensures second { self.new.second ≡ self.old.second }
        ensures instead { self.new.instead ≡ self.old.instead }
    {
        if self.services.len() < MOST_SERVICES {
            self.services.push(service);
        }
    }
}

/// Appends the items of a row.
pub(crate) fn append(items: &[Item], trail: &mut Trail)
    requires { length trail.old + length items.now ≤ most_items }
    ensures { trail.new ≡ trail.old ++ items.now }
{
    for &item in items {
        trail.push(item);
    }
}

/// The second of two chains, which stands for so many items at the end of the first trail.
pub(crate) fn keep_second(chain: &[Item], instead: usize, met: &mut Met)
    requires { length chain.now ≤ most_items2 }
    ensures services { met.new.services ≡ met.old.services }
    ensures second { met.new.second.items ≡ chain.now }
    ensures instead { met.new.instead ≡ instead }
{
    met.second.clear();
    for &item in chain {
        met.second.push(item);
    }
    met.instead = instead;
}
