//! The caches of one core.
ghost use Rattle.std.specs.Prelude.{◌≡◌, ◌<◌, ◌+◌, if◌then◌else◌, ℕ, List, [], fold, take, option_map, IfOk, IfSome};
ghost use Rattle.trace_lang.specs.Traces.{Header};
ghost use Rattle.tagged_tlb.specs.declared.row.Row as declared_row;
ghost use Rattle.tagged_tlb.specs.Rows.{matching, deepest};
ghost use Rattle.tagged_tlb.specs.Shapes.{keeps_rows};
ghost use Rattle.tagged_tlb.specs.Sets.{Cache, to_end, touched};
ghost use Rattle.tagged_tlb.specs.Tied.{AreToldApart, AreSmall, is_sought};
ghost use Rattle.tagged_tlb.specs.Found.{found_rows, seen_row, slot_row, AllSeen, AreWithin, IsWithin, MayBeWithin};
ghost use Rattle.machine_spec.specs.Machine.{killed};
ghost use Rattle.walk_cache.specs.ByKind.{sets_of, AreTied, AreCachesOf, AreAlike, added_to, no_rows};
ghost use Rattle.walk_cache.specs.Sized.{size_of, sets_held};
ghost use Rattle.walk_cache.specs.Services.{service_of, IsService, AreServices};

use crate::kinds::Kinds;
use bitwords::NoMemory;
use served_walk::Service;
use std::alloc::{AllocError, Global};
use std::marker::Model;
use tagged_tlb::{Chooser, Found, Kind, LentRow, Seen, Slot, Sought};
use tlbi_ops::Inval;
use trace_lang::{Policy, Size};
use trails::Item;

/// The caches of each kind in the shapes of a size.
#[derive(Drop)]
enum Held {
    NoRows,
    Small(Kinds<1, 8, 1, 1, 8>),
    Medium(Kinds<16, 4, 4, 8, 4>),
    Large(Kinds<64, 8, 16, 32, 4>),
}

/// `by_size!(HELD; KINDS => VALUE; else DEFAULT)` is a value of the caches of each kind, whatever their shapes.
macro_rules! by_size {
    ($held:expr; $kinds:ident => $value:expr; else $default:expr) => {
        match $held {
            Held::NoRows => $default,
            Held::Small($kinds) => $value,
            Held::Medium($kinds) => $value,
            Held::Large($kinds) => $value,
        }
    };
}

/// The caches of a core, and what chooses the row that leaves. Without rows they take no memory.
#[derive(Drop)]
pub struct Caches {
    held: Held,
    chooser: Chooser,
}

impl Model for Caches {
    ghost use Rattle.walk_cache.specs.ByKind.{CachesState};

    ghost Value = { CachesState };

    ghost use Rattle.walk_cache.specs.Sized.{state_of};

    ghost view = { λ c. state_of c.held c.chooser };
}

/// Caches without rows. An error says that there is no memory.
fn opened_held(alloc: Global, size: Size) -> Result<Held, AllocError>
    ensures size { IfOk result (λ v. size_of v ≡ size) }
    ensures tied { IfOk result (λ v. AreTied size [] (sets_held v)) }
{
    match size {
        Size::NoRows => Ok(Held::NoRows),
        Size::Small => Ok(Held::Small(Kinds::opened(alloc)?)),
        Size::Medium => Ok(Held::Medium(Kinds::opened(alloc)?)),
        Size::Large => Ok(Held::Large(Kinds::opened(alloc)?)),
    }
}

impl Caches {
    /// The caches of the core of a number, without rows. They take all their memory now; an error says that there is none.
    pub fn opened(alloc: Global, number: u8, size: Size, policy: Policy) -> Result<Caches, NoMemory>
        ensures size { IfOk result (λ c. (c.size ≡ size) × (c.chooser.policy ≡ policy)) }
        ensures none { IfOk result (λ c. (h : Header) → h.size ≡ size → h.policy ≡ policy → AreCachesOf h number no_rows c) }
    {
        let Ok(held) = opened_held(alloc, size) else {
            return Err(NoMemory);
        };
        let chooser = Chooser::opened(policy, u64::from(number));
        Ok(Caches { held, chooser })
    }

    /// Whether there is room for rows.
    pub fn keep_rows(&self) -> bool
        ensures { result ≡ keeps_rows self.now.size }
    {
        by_size!(&self.held; _kinds => true; else false)
    }

    /// The rows that an invalidation covers go. Caches without rows cost nothing.
    pub fn kill(&mut self, inval: &Inval)
        ensures killed { (h : Header) → (core : ℕ) → (l : Cache) → AreCachesOf h core l self.old → AreCachesOf h core (killed l inval.now) self.new }
        ensures alike { AreAlike self.old self.new }
    {
        by_size!(&mut self.held; kinds => kinds.kill(inval); else ())
    }

    /// A row of a class below 64 is added where none would serve the same. Says whether a full set lost one. Without rows nothing
    /// changes.
    pub fn add(&mut self, row: &LentRow) -> bool
        requires { row.now.region.class < 64 }
        ensures added { (h : Header) → (core : ℕ) → (l : Cache) → AreCachesOf h core l self.old
            → AreCachesOf h core (added_to h core l row.now) self.new }
        ensures count { (h : Header) → (core : ℕ) → (l : Cache) → AreCachesOf h core l self.old →
            (added_to h core l row.now).evictions ≡ l.evictions + (if result then 1 else 0) }
        ensures alike { AreAlike self.old self.new }
    {
        by_size!(&mut self.held; kinds => kinds.add(row, &mut self.chooser); else false)
    }

    /// The rows that served go last in their sets, in order.
    fn move_all(&mut self, services: &[Service])
        ensures moved { (h : Header) → (core : ℕ) → (l : Cache) → (served : List declared_row.Row) → AreCachesOf h core l self.old →
            AreToldApart l.rows → AreServices h.size l.rows services.now served →
            AreCachesOf h core (record l { rows = fold to_end l.rows served }) self.new }
        ensures alike { AreAlike self.old self.new }
    {
        by_size!(&mut self.held; kinds => kinds.touch_all(services); else ())
    }

    /// The rows of a step that served: under lru they go last in their sets, in order. The other policies move none.
    pub fn touch_all(&mut self, services: &[Service])
        ensures touched { (h : Header) → (core : ℕ) → (l : Cache) → (served : List declared_row.Row) → AreCachesOf h core l self.old →
            AreToldApart l.rows → AreServices h.size l.rows services.now served →
            AreCachesOf h core (record l { rows = touched h.policy l.rows served }) self.new }
        ensures alike { AreAlike self.old self.new }
    {
        match self.chooser.policy {
            Policy::Lru => self.move_all(services),
            Policy::Fifo => {}
            Policy::Random { .. } => {}
        }
    }

    /// The rows of a kind that match: none, one, or the two that were made first.
    pub fn find(&self, kind: Kind, sought: &Sought) -> Found
        ensures within { AreWithin (sets_of self.now.sets kind) result }
        ensures stand { (d : declared_row.Row) → (h : Header) → (core : ℕ) → (l : Cache) → AreCachesOf h core l self.now → AreToldApart l.rows →
            AllSeen (λ s. IsService h.size l.rows (service_of kind s) (seen_row d (sets_of self.now.sets kind) s)) result }
        ensures best { (d : declared_row.Row) → (h : Header) → (core : ℕ) → (l : Cache) → AreCachesOf h core l self.now → AreToldApart l.rows →
            AreSmall l.rows → found_rows d (sets_of self.now.sets kind) result ≡ take 2 (matching (is_sought kind sought.now) l.rows) }
    {
        by_size!(&self.held; kinds => kinds.find(kind, sought); else Found::Nothing)
    }

    /// The row of a kind with the smallest region that matches.
    pub fn deepest(&self, kind: Kind, sought: &Sought) -> Option<Seen>
        ensures within { MayBeWithin (sets_of self.now.sets kind) result }
        ensures stands { (d : declared_row.Row) → (h : Header) → (core : ℕ) → (l : Cache) → AreCachesOf h core l self.now →
            IfSome result (λ s. IsService h.size l.rows (service_of kind s) (seen_row d (sets_of self.now.sets kind) s)) }
        ensures least { (d : declared_row.Row) → (h : Header) → (core : ℕ) → (l : Cache) → AreCachesOf h core l self.now → AreToldApart l.rows →
            AreSmall l.rows → option_map (seen_row d (sets_of self.now.sets kind)) result ≡ deepest (is_sought kind sought.now) l.rows }
    {
        by_size!(&self.held; kinds => kinds.deepest(kind, sought); else None)
    }

    /// The trail of the row at a place of a set of a kind.
    pub fn trail(&self, kind: Kind, slot: Slot) -> &[Item]
        requires { IsWithin (sets_of self.now.sets kind) slot }
        ensures { (d : declared_row.Row) → result.now ≡ (slot_row d (sets_of self.now.sets kind) slot).trail }
    {
        by_size!(&self.held; kinds => kinds.trail(kind, slot); else unreachable!())
    }
}
