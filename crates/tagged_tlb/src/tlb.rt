//! The sets of one kind of rows.
ghost use Rattle.std.specs.Prelude.{◌≡◌, ℕ, ◌<◌, ◌≤◌, ◌^◌, List, [], ◌∷◌, ◌++◌, not, length};
ghost use Rattle.std.specs.Prelude.{get_or, map, filter, replicate, IfOk, take, option_map, false, IfSome};
ghost use Rattle.trace_lang.specs.Traces.{Header};
ghost use Rattle.tlbi_ops.specs.Covers.{covers};
ghost use Rattle.tagged_tlb.specs.declared.row.Row as declared_row;
ghost use Rattle.tagged_tlb.specs.declared.row.Kind as declared_kind;
ghost use Rattle.tagged_tlb.specs.Shapes.{shape, shape_of};
ghost use Rattle.tagged_tlb.specs.Rows.{matching, deepest};
ghost use Rattle.tagged_tlb.specs.Sets.{Cache, added, to_end};
ghost use Rattle.tagged_tlb.specs.Found.{found_rows, seen_row, slot_row, AllSeen, AreWithin, IsWithin, MayBeWithin};
ghost use Rattle.tagged_tlb.specs.Stands.{Stands};
ghost use Rattle.tagged_tlb.specs.Tied.{IsTied, IsAdded, IsAt, AreToldApart, AreSmall, row_at, is_sought};
ghost use Rattle.tagged_tlb.specs.Classes;
ghost use Rattle.tagged_tlb.specs.Classes.{AreMarked, AreEmpty};

use crate::chooser::Chooser;
use crate::found::{Found, Seen, Slot};
use crate::row::{LentRow, Made, Sought};
use crate::set::Set;
use crate::stages::{Stages, may_take, with_stage};
use std::alloc::{AllocError, Global};
use std::marker::Model;
use tlbi_ops::Inval;
use trails::Item;

/// SETS sets of at most WAYS rows. `classes` has a bit for each class of which a row may be there, and `stages` says the same of
/// stages.
#[derive(Drop)]
pub struct Tlb<const SETS: usize, const WAYS: usize> {
    sets: Vec<Set<WAYS>>,
    classes: u64,
    stages: Stages,
}

impl<const SETS: usize, const WAYS: usize> Model for Tlb<SETS, WAYS> {
    ghost use Rattle.std.specs.Prelude.{◌≡◌, List, vec_len};
    ghost use Rattle.tagged_tlb.specs.declared.row.Row.{Row};
    ghost use Rattle.tagged_tlb.specs.Classes.{AreMarked};
    ghost use Rattle.tagged_tlb.specs.Stages.{AreStaged};

    ghost Value = { List (List Row) };

    ghost view = { λ t. t.sets.items };

    ghost invariant = { λ t. (vec_len t.sets ≡ SETS) × AreMarked t.classes t.sets.items × AreStaged t.stages t.sets.items };
}

/// Whether a row of a class may be there.
fn is_marked(classes: u64, class: u32) -> bool
    requires { class < 64 }
    ensures { result ≡ Classes.is_marked classes class }
{
    (classes >> class) & 1 == 1
}

/// Where the classes begin of which a row may be there.
fn start_of(classes: u64) -> u32
    ensures most { result ≤ 64 }
    ensures below { (class : ℕ) → class < result → Classes.is_marked classes class ≡ false }
{
    classes.trailing_zeros()
}

/// Where the classes end of which a row may be there.
fn end_of(classes: u64) -> u32
    ensures most { result ≤ 64 }
    ensures above { classes < 2 ^ result }
{
    64 - classes.leading_zeros()
}

/// The rows that an invalidation covers go. Says whether some row is left.
fn kill_each<const WAYS: usize>(sets: &mut [Set<WAYS>], inval: &Inval) -> bool
    ensures killed { sets.new ≡ map (filter (λ r. not (covers inval.now r.tag))) sets.old }
    ensures none { result ≡ false → AreEmpty sets.new }
{
    let mut left = false;
    for set in sets.iter_mut() {
        set.kill(inval);
        if set.len() > 0 {
            left = true;
        }
    }
    left
}

/// The rows that match. A row of a class can stand in one set alone.
fn search<const SETS: usize, const WAYS: usize>(
    sets: &[Set<WAYS>],
    classes: u64,
    sought: &Sought,
) -> Found
    requires some { 0 < SETS }
    requires sets { length sets.now ≡ SETS }
    requires marked { AreMarked classes sets.now }
    ensures within { AreWithin sets.now result }
    ensures stand { (d : declared_row.Row) → (kind : declared_kind.Kind) → (live : List declared_row.Row) → AreToldApart live →
        IsTied kind SETS live sets.now → AllSeen (λ s. Stands kind SETS s.slot.set s.made live (seen_row d sets.now s)) result }
    ensures best { (d : declared_row.Row) → (kind : declared_kind.Kind) → (live : List declared_row.Row) → AreToldApart live → AreSmall live →
        IsTied kind SETS live sets.now → found_rows d sets.now result ≡ take 2 (matching (is_sought kind sought.now) live) }
{
    let mut found = Found::Nothing;
    for class in start_of(classes)..end_of(classes) {
        if is_marked(classes, class) {
            let start = sought.at >> class;
            let set = (start % SETS as u64) as usize;
            found = sets[set].look(set, sought, class, start, found);
        }
    }
    found
}

/// The row of the smallest region that matches.
fn search_deepest<const SETS: usize, const WAYS: usize>(
    sets: &[Set<WAYS>],
    classes: u64,
    sought: &Sought,
) -> Option<Seen>
    requires some { 0 < SETS }
    requires sets { length sets.now ≡ SETS }
    requires marked { AreMarked classes sets.now }
    ensures within { MayBeWithin sets.now result }
    ensures stands { (d : declared_row.Row) → (kind : declared_kind.Kind) → (live : List declared_row.Row) → IsTied kind SETS live sets.now →
        IfSome result (λ s. Stands kind SETS s.slot.set s.made live (seen_row d sets.now s)) }
    ensures least { (d : declared_row.Row) → (kind : declared_kind.Kind) → (live : List declared_row.Row) → AreToldApart live → AreSmall live →
        IsTied kind SETS live sets.now → option_map (seen_row d sets.now) result ≡ deepest (is_sought kind sought.now) live }
{
    for class in start_of(classes)..end_of(classes) {
        if is_marked(classes, class) {
            let start = sought.at >> class;
            let set = (start % SETS as u64) as usize;
            match sets[set].first_way(sought, class, start) {
                Some(way) => {
                    let made = sets[set].made(way);
                    let slot = Slot { set, way };
                    return Some(Seen { slot, made });
                }
                None => {}
            }
        }
    }
    None
}

impl<const SETS: usize, const WAYS: usize> Tlb<SETS, WAYS> {
    /// A cache without rows. It takes all its memory now; an error says that there is none.
    pub fn opened(alloc: Global) -> Result<Self, AllocError>
        ensures empty { IfOk result (λ t. t ≡ replicate SETS []) }
        ensures tied { IfOk result (λ t. (kind : declared_kind.Kind) → IsTied kind SETS [] t) }
    {
        let mut sets = Vec::with_capacity(alloc, SETS)?;
        for _set in 0..SETS {
            let set = Set::opened(alloc)?;
            sets.push_reserved(set);
        }
        let stages = Stages {
            stage1: false,
            stage2: false,
        };
        Ok(Tlb {
            sets,
            classes: 0,
            stages,
        })
    }

    /// The rows that an invalidation covers go, told by the sets.
    fn kill_rows(&mut self, inval: &Inval)
        ensures { self.new ≡ map (filter (λ r. not (covers inval.now r.tag))) self.old }
    {
        if self.classes != 0 {
            let left = kill_each(&mut self.sets, inval);
            if !left {
                self.classes = 0;
            }
        }
    }

    /// The rows that an invalidation covers go. A cache without rows costs nothing, nor does one without rows of the stages that
    /// the operation takes.
    pub fn kill(&mut self, inval: &Inval)
        ensures { (kind : declared_kind.Kind) → (live : List declared_row.Row) → IsTied kind SETS live self.old →
            IsTied kind SETS (filter (λ r. not (covers inval.now r.tag)) live) self.new }
    {
        if may_take(self.stages, inval) {
            self.kill_rows(inval);
        }
    }

    /// A row of a class below 64 is added where none would serve the same. Says whether a full set lost one.
    pub fn add(&mut self, row: &LentRow, by: &mut Chooser) -> bool
        requires sets { 0 < SETS }
        requires ways { 0 < WAYS }
        requires class { row.now.region.class < 64 }
        ensures added { (header : Header) → (core : ℕ) → (l : Cache) → header.policy ≡ by.old.policy →
            shape_of header.size row.now.kind ≡ shape SETS WAYS → IsAt core l.evictions by.old → IsTied row.now.kind SETS l.rows self.old →
            IsAdded row.now.kind SETS core l (added header core l row.now) result by.new self.new }
        ensures policy { by.new.policy ≡ by.old.policy }
    {
        let at = (row.region.start % SETS as u64) as usize;
        let set = &mut self.sets[at];
        if set.has(row) {
            return false;
        }
        let lost = set.fill(row, by);
        self.classes |= 1 << row.region.class;
        self.stages = with_stage(self.stages, row.tag.stage);
        lost
    }

    /// The row at a place of a set goes last.
    pub fn touch(&mut self, slot: Slot)
        requires { IsWithin self.old slot }
        ensures { (d : declared_row.Row) → (kind : declared_kind.Kind) → (live : List declared_row.Row) → AreToldApart live
            → IsTied kind SETS live self.old →
            IsTied kind SETS (to_end live (slot_row d self.old slot)) self.new }
    {
        let set = &mut self.sets[slot.set];
        set.touch(slot.way);
    }

    /// The row of a set that was made so goes last. Where the set has none, nothing changes.
    pub fn touch_made(&mut self, set: usize, made: Made)
        requires { 0 < SETS }
        ensures { (kind : declared_kind.Kind) → (live : List declared_row.Row) → (row : declared_row.Row) → AreToldApart live →
            IsTied kind SETS live self.old → Stands kind SETS set made live row → IsTied kind SETS (to_end live row) self.new }
    {
        if set >= self.sets.len() {
            return;
        }
        match self.sets[set].way_of(made) {
            Some(way) => self.touch(Slot { set, way }),
            None => {}
        }
    }

    /// The rows that match: none, one, or the two that were made first.
    pub fn find(&self, sought: &Sought) -> Found
        requires { 0 < SETS }
        ensures within { AreWithin self.now result }
        ensures stand { (d : declared_row.Row) → (kind : declared_kind.Kind) → (live : List declared_row.Row) → AreToldApart live →
            IsTied kind SETS live self.now → AllSeen (λ s. Stands kind SETS s.slot.set s.made live (seen_row d self.now s)) result }
        ensures best { (d : declared_row.Row) → (kind : declared_kind.Kind) → (live : List declared_row.Row) → AreToldApart live → AreSmall live →
            IsTied kind SETS live self.now → found_rows d self.now result ≡ take 2 (matching (is_sought kind sought.now) live) }
    {
        search::<SETS, WAYS>(self.sets.as_slice(), self.classes, sought)
    }

    /// The row of the smallest region that matches.
    pub fn deepest(&self, sought: &Sought) -> Option<Seen>
        requires { 0 < SETS }
        ensures within { MayBeWithin self.now result }
        ensures stands { (d : declared_row.Row) → (kind : declared_kind.Kind) → (live : List declared_row.Row) → IsTied kind SETS live self.now →
            IfSome result (λ s. Stands kind SETS s.slot.set s.made live (seen_row d self.now s)) }
        ensures least { (d : declared_row.Row) → (kind : declared_kind.Kind) → (live : List declared_row.Row) → AreToldApart live → AreSmall live →
            IsTied kind SETS live self.now → option_map (seen_row d self.now) result ≡ deepest (is_sought kind sought.now) live }
    {
        search_deepest::<SETS, WAYS>(self.sets.as_slice(), self.classes, sought)
    }

    /// The trail of the row at a place of a set.
    pub fn trail(&self, slot: Slot) -> &[Item]
        requires { IsWithin self.now slot }
        ensures { (d : declared_row.Row) → result.now ≡ (slot_row d self.now slot).trail }
    {
        self.sets[slot.set].trail(slot.way)
    }
}
