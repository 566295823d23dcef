//! A cache of each kind of rows.
ghost use Rattle.std.specs.Prelude.{◌≡◌, ◌<◌, ℕ, List, [], not, filter, fold, take, option_map, IfOk, IfSome};
ghost use Rattle.trace_lang.specs.declared.header.Size as declared_size;
ghost use Rattle.trace_lang.specs.Traces.{Header};
ghost use Rattle.tlbi_ops.specs.Covers.{covers};
ghost use Rattle.tagged_tlb.specs.declared.row.Row as declared_row;
ghost use Rattle.tagged_tlb.specs.Rows.{matching, deepest};
ghost use Rattle.tagged_tlb.specs.Sets.{Cache, to_end};
ghost use Rattle.tagged_tlb.specs.Tied.{IsAt, AreToldApart, AreSmall, is_sought};
ghost use Rattle.tagged_tlb.specs.Found.{found_rows, seen_row, slot_row, AllSeen, AreWithin, IsWithin, MayBeWithin};
ghost use Rattle.walk_cache.specs.ByKind.{sets_of, AreTied, HasShapes, HaveRoom, IsAddedTo};
ghost use Rattle.walk_cache.specs.Services.{service_of, IsService, AreServices};

use served_walk::Service;
use std::alloc::{AllocError, Global};
use std::marker::Model;
use tagged_tlb::{Chooser, Found, Kind, LentRow, Seen, Slot, Sought, Tlb};
use tlbi_ops::Inval;
use trails::Item;

/// A cache of each kind: LEAVES1 sets of WAYS1 rows of stage 1 leaves, and sets of WAYS rows of the other kinds.
#[derive(Drop)]
pub struct Kinds<
    const LEAVES1: usize,
    const WAYS1: usize,
    const TABLES: usize,
    const LEAVES2: usize,
    const WAYS: usize,
> {
    leaf1: Tlb<LEAVES1, WAYS1>,
    table1: Tlb<TABLES, WAYS>,
    leaf2: Tlb<LEAVES2, WAYS>,
    table2: Tlb<TABLES, WAYS>,
}

impl<
    const LEAVES1: usize,
    const WAYS1: usize,
    const TABLES: usize,
    const LEAVES2: usize,
    const WAYS: usize,
> Model for Kinds<LEAVES1, WAYS1, TABLES, LEAVES2, WAYS> {
    ghost use Rattle.walk_cache.specs.ByKind.{SetsByKind};

    ghost Value = { SetsByKind };

    ghost view = { λ k. record { leaf1 = k.leaf1; table1 = k.table1; leaf2 = k.leaf2; table2 = k.table2 } };
}

impl<
    const LEAVES1: usize,
    const WAYS1: usize,
    const TABLES: usize,
    const LEAVES2: usize,
    const WAYS: usize,
> Kinds<LEAVES1, WAYS1, TABLES, LEAVES2, WAYS> {
    /// Caches without rows. They take all their memory now; an error says that there is none.
    pub fn opened(alloc: Global) -> Result<Self, AllocError>
        ensures { IfOk result (λ k. (size : declared_size.Size) → HasShapes size LEAVES1 WAYS1 TABLES LEAVES2 WAYS → AreTied size [] k) }
    {
        let leaf1 = Tlb::opened(alloc)?;
        let table1 = Tlb::opened(alloc)?;
        let leaf2 = Tlb::opened(alloc)?;
        let table2 = Tlb::opened(alloc)?;
        Ok(Kinds {
            leaf1,
            table1,
            leaf2,
            table2,
        })
    }

    /// The rows that an invalidation covers go.
    pub fn kill(&mut self, inval: &Inval)
        ensures { (size : declared_size.Size) → (live : List declared_row.Row) → HasShapes size LEAVES1 WAYS1 TABLES LEAVES2 WAYS →
            AreTied size live self.old → AreTied size (filter (λ r. not (covers inval.now r.tag)) live) self.new }
    {
        self.leaf1.kill(inval);
        self.table1.kill(inval);
        self.leaf2.kill(inval);
        self.table2.kill(inval);
    }

    /// A row of a class below 64 is added where none would serve the same. Says whether a full set lost one.
    pub fn add(&mut self, row: &LentRow, by: &mut Chooser) -> bool
        requires room { HaveRoom LEAVES1 WAYS1 TABLES LEAVES2 WAYS }
        requires class { row.now.region.class < 64 }
        ensures added { (header : Header) → (core : ℕ) → (l : Cache) → HasShapes header.size LEAVES1 WAYS1 TABLES LEAVES2 WAYS →
            header.policy ≡ by.old.policy → IsAt core l.evictions by.old → AreTied header.size l.rows self.old →
            IsAddedTo header core l row.now result by.new self.new }
        ensures policy { by.new.policy ≡ by.old.policy }
    {
        match row.kind {
            Kind::Leaf1 => self.leaf1.add(row, by),
            Kind::Table1 => self.table1.add(row, by),
            Kind::Leaf2 => self.leaf2.add(row, by),
            Kind::Table2 => self.table2.add(row, by),
        }
    }

    /// A row that served goes last in its set.
    pub fn touch(&mut self, service: &Service)
        requires { HaveRoom LEAVES1 WAYS1 TABLES LEAVES2 WAYS }
        ensures { (size : declared_size.Size) → (live : List declared_row.Row) → (row : declared_row.Row) →
            HasShapes size LEAVES1 WAYS1 TABLES LEAVES2 WAYS → AreToldApart live → AreTied size live self.old → IsService size live service.now row →
            AreTied size (to_end live row) self.new }
    {
        match service.kind {
            Kind::Leaf1 => self
                .leaf1
                .touch_made(service.seen.slot.set, service.seen.made),
            Kind::Table1 => self
                .table1
                .touch_made(service.seen.slot.set, service.seen.made),
            Kind::Leaf2 => self
                .leaf2
                .touch_made(service.seen.slot.set, service.seen.made),
            Kind::Table2 => self
                .table2
                .touch_made(service.seen.slot.set, service.seen.made),
        }
    }

    /// The rows that served go last in their sets, in order.
    pub fn touch_all(&mut self, services: &[Service])
        requires { HaveRoom LEAVES1 WAYS1 TABLES LEAVES2 WAYS }
        ensures { (size : declared_size.Size) → (live served : List declared_row.Row) → HasShapes size LEAVES1 WAYS1 TABLES LEAVES2 WAYS →
            AreToldApart live → AreTied size live self.old → AreServices size live services.now served →
            AreTied size (fold to_end live served) self.new }
    {
        for service in services {
            self.touch(service);
        }
    }

    /// The rows of a kind that match: none, one, or the two that were made first.
    pub fn find(&self, kind: Kind, sought: &Sought) -> Found
        requires { HaveRoom LEAVES1 WAYS1 TABLES LEAVES2 WAYS }
        ensures within { AreWithin (sets_of self.now kind) result }
        ensures stand { (d : declared_row.Row) → (size : declared_size.Size) → (live : List declared_row.Row) →
            HasShapes size LEAVES1 WAYS1 TABLES LEAVES2 WAYS → AreToldApart live → AreTied size live self.now →
            AllSeen (λ s. IsService size live (service_of kind s) (seen_row d (sets_of self.now kind) s)) result }
        ensures best { (d : declared_row.Row) → (size : declared_size.Size) → (live : List declared_row.Row) →
            HasShapes size LEAVES1 WAYS1 TABLES LEAVES2 WAYS → AreToldApart live → AreSmall live → AreTied size live self.now →
            found_rows d (sets_of self.now kind) result ≡ take 2 (matching (is_sought kind sought.now) live) }
    {
        match kind {
            Kind::Leaf1 => self.leaf1.find(sought),
            Kind::Table1 => self.table1.find(sought),
            Kind::Leaf2 => self.leaf2.find(sought),
            Kind::Table2 => self.table2.find(sought),
        }
    }

    /// The row of a kind with the smallest region that matches.
    pub fn deepest(&self, kind: Kind, sought: &Sought) -> Option<Seen>
        requires { HaveRoom LEAVES1 WAYS1 TABLES LEAVES2 WAYS }
        ensures within { MayBeWithin (sets_of self.now kind) result }
        ensures stands { (d : declared_row.Row) → (size : declared_size.Size) → (live : List declared_row.Row) →
            HasShapes size LEAVES1 WAYS1 TABLES LEAVES2 WAYS → AreTied size live self.now →
            IfSome result (λ s. IsService size live (service_of kind s) (seen_row d (sets_of self.now kind) s)) }
        ensures least { (d : declared_row.Row) → (size : declared_size.Size) → (live : List declared_row.Row) →
            HasShapes size LEAVES1 WAYS1 TABLES LEAVES2 WAYS → AreToldApart live → AreSmall live → AreTied size live self.now →
            option_map (seen_row d (sets_of self.now kind)) result ≡ deepest (is_sought kind sought.now) live }
    {
        match kind {
            Kind::Leaf1 => self.leaf1.deepest(sought),
            Kind::Table1 => self.table1.deepest(sought),
            Kind::Leaf2 => self.leaf2.deepest(sought),
            Kind::Table2 => self.table2.deepest(sought),
        }
    }

    /// The trail of the row at a place of a set of a kind.
    pub fn trail(&self, kind: Kind, slot: Slot) -> &[Item]
        requires { IsWithin (sets_of self.now kind) slot }
        ensures { (d : declared_row.Row) → result.now ≡ (slot_row d (sets_of self.now kind) slot).trail }
    {
        match kind {
            Kind::Leaf1 => self.leaf1.trail(slot),
            Kind::Table1 => self.table1.trail(slot),
            Kind::Leaf2 => self.leaf2.trail(slot),
            Kind::Table2 => self.table2.trail(slot),
        }
    }
}
