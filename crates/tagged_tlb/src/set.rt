//! One set: small heads in the order of rank, which move, and trails, which stay in their slots.
ghost use Rattle.std.specs.Prelude.{◌≡◌, ℕ, ◌+◌, ◌<◌, ◌≤◌, [], ◌∷◌, ◌++◌, not, length};
ghost use Rattle.std.specs.Prelude.{get_or, filter, IfOk, false, true, vec_len, vec_capacity};
ghost use Rattle.std.specs.List.{remove, list_any};
ghost use Rattle.tagged_tlb.specs.declared.row.Row as declared_row;
ghost use Rattle.trails.specs.Lengths.{most_items};
ghost use Rattle.tlbi_ops.specs.Covers.{covers};
ghost use Rattle.tagged_tlb.specs.Sets.{victim, same_key};
ghost use Rattle.tagged_tlb.specs.Tied.{IsAt};
ghost use Rattle.tagged_tlb.specs.Slots.{hit, made_of_row, key_of_head, spares, IsFilled};
ghost use Rattle.tagged_tlb.specs.Found.{looked, first_hit};
ghost use Rattle.tagged_tlb.specs.Stands.{is_made};

use crate::chooser::Chooser;
use crate::found::{Found, first_way, look, way_of};
use crate::head::{Head, has_key, head_of};
use crate::row::{LentRow, Made, Sought};
use std::alloc::{AllocError, Global};
use std::marker::Model;
use tlbi_ops::{Inval, covers};
use trails::{Item, Trail};

/// A set of at most WAYS rows: their heads in the order of rank, the slots that no head has, and a trail for each slot that was
/// ever in use.
#[derive(Drop)]
pub struct Set<const WAYS: usize> {
    heads: Vec<Head>,
    free: Vec<usize>,
    trails: Vec<Trail>,
}

impl<const WAYS: usize> Model for Set<WAYS> {
    ghost use Rattle.std.specs.Prelude.{◌≡◌, ◌≤◌, ◌+◌, List, map, vec_len, vec_capacity};
    ghost use Rattle.tagged_tlb.specs.declared.row.Row.{Row};
    ghost use Rattle.tagged_tlb.specs.Slots.{row_of, IsSpread};

    ghost Value = { List Row };

    ghost view = { λ s. map (row_of s.trails.items) s.heads.items };

    ghost invariant = { λ s. (vec_len s.heads + vec_len s.free ≡ vec_len s.trails) × (vec_len s.trails ≤ WAYS)
        × (WAYS ≤ vec_capacity s.heads) × (WAYS ≤ vec_capacity s.free) × (WAYS ≤ vec_capacity s.trails)
        × IsSpread (vec_len s.trails) s.heads.items s.free.items };
}

/// Whether one of the rows would serve the same as another.
fn some_has_key(heads: &[Head], row: &LentRow) -> bool
    ensures { result ≡ list_any (key_of_head row.now) heads.now }
{
    for head in heads {
        if has_key(row, head) {
            return true;
        }
    }
    false
}

/// The slots of the rows that an invalidation covers become free.
fn give_back(heads: &[Head], free: &mut Vec<usize>, inval: &Inval)
    requires { vec_len free.old + length heads.now ≤ vec_capacity free.old }
    ensures slots { free.new.items ≡ free.old.items ++ spares inval.now heads.now }
    ensures capacity { vec_capacity free.new ≡ vec_capacity free.old }
{
    for head in heads {
        if covers(inval, &head.tag) {
            free.push_reserved(head.slot);
        }
    }
}

/// Writes items where an earlier trail stood.
fn copy_items(items: &[Item], trail: &mut Trail)
    requires { length items.now ≤ most_items }
    ensures { trail.new ≡ items.now }
{
    trail.cut(0);
    for &item in items {
        trail.push(item);
    }
}

/// A trail of these items.
fn trail_of(items: &[Item]) -> Trail
    requires { length items.now ≤ most_items }
    ensures { result ≡ items.now }
{
    let mut trail = Trail::none();
    copy_items(items, &mut trail);
    trail
}

impl<const WAYS: usize> Set<WAYS> {
    /// A set without rows.
    pub fn opened(alloc: Global) -> Result<Self, AllocError>
        ensures { IfOk result (λ s. s ≡ []) }
    {
        let heads = Vec::with_capacity(alloc, WAYS)?;
        let free = Vec::with_capacity(alloc, WAYS)?;
        let trails = Vec::with_capacity(alloc, WAYS)?;
        Ok(Set {
            heads,
            free,
            trails,
        })
    }

    /// How many rows there are.
    pub fn len(&self) -> usize
        ensures value { result ≡ length self.now }
        ensures most { length self.now ≤ WAYS }
    {
        self.heads.len()
    }

    /// Whether a row would serve the same as another.
    pub fn has(&self, row: &LentRow) -> bool
        ensures { result ≡ list_any (same_key row.now) self.now }
    {
        some_has_key(self.heads.as_slice(), row)
    }

    /// What was found, and the rows that match besides, as those of a class. `start` is the address counted in its regions.
    pub fn look(&self, set: usize, sought: &Sought, class: u32, start: u64, found: Found) -> Found
        ensures { result ≡ looked (hit sought.now class start) made_of_row set 0 found self.now }
    {
        look(self.heads.as_slice(), set, sought, class, start, found)
    }

    /// The place of the first row that matches, as one of a class. `start` is the address counted in its regions.
    pub fn first_way(&self, sought: &Sought, class: u32, start: u64) -> Option<usize>
        ensures { result ≡ first_hit (hit sought.now class start) 0 self.now }
    {
        first_way(self.heads.as_slice(), sought, class, start)
    }

    /// The place of the first row that was made so.
    pub fn way_of(&self, made: Made) -> Option<usize>
        ensures { result ≡ first_hit (is_made made) 0 self.now }
    {
        way_of(self.heads.as_slice(), made)
    }

    /// When the row at a place was made.
    pub fn made(&self, way: usize) -> Made
        requires { way < length self.now }
        ensures { (d : declared_row.Row) → result ≡ (get_or self.now way d).made }
    {
        self.heads[way].made
    }

    /// The trail of the row at a place.
    pub fn trail(&self, way: usize) -> &[Item]
        requires { way < length self.now }
        ensures { (d : declared_row.Row) → result.now ≡ (get_or self.now way d).trail }
    {
        let slot = self.heads[way].slot;
        self.trails[slot].items()
    }

    /// The rows that an invalidation covers go; the others keep their order.
    pub fn kill(&mut self, inval: &Inval)
        ensures { self.new ≡ filter (λ r. not (covers inval.now r.tag)) self.old }
    {
        let spare = self.free.len();
        give_back(self.heads.as_slice(), &mut self.free, inval);
        if self.free.len() > spare {
            self.heads.retain(|head| !covers(inval, &head.tag));
        }
    }

    /// A row goes last, in the place of another, whose slot it takes.
    fn replace(&mut self, at: usize, row: &LentRow)
        requires { at < length self.old }
        ensures { self.new ≡ remove self.old at ++ row.now ∷ [] }
    {
        let old = self.heads.remove(at);
        self.heads.push_reserved(head_of(row, old.slot));
        copy_items(row.trail, &mut self.trails[old.slot]);
    }

    /// A row goes last, into a slot that was in use before or into a new one.
    fn append(&mut self, row: &LentRow)
        requires { length self.old < WAYS }
        ensures { self.new ≡ self.old ++ row.now ∷ [] }
    {
        let spare = self.free.len();
        if spare == 0 {
            self.heads.push_reserved(head_of(row, self.trails.len()));
            self.trails.push_reserved(trail_of(row.trail));
        } else {
            let slot = self.free.remove(spare - 1);
            self.heads.push_reserved(head_of(row, slot));
            copy_items(row.trail, &mut self.trails[slot]);
        }
    }

    /// A row goes last; a full set loses one first, and says so.
    pub fn fill(&mut self, row: &LentRow, by: &mut Chooser) -> bool
        requires { 0 < WAYS }
        ensures room { length self.old < WAYS → (self.new ≡ self.old ++ row.now ∷ []) × (result ≡ false) × (by.new ≡ by.old) }
        ensures full { WAYS ≤ length self.old → (core n : ℕ) → IsAt core n by.old →
            (self.new ≡ remove self.old (victim by.old.policy core n WAYS) ++ row.now ∷ []) × (result ≡ true) × IsAt core (n + 1) by.new }
        ensures filled { IsFilled self.old row.now self.new }
        ensures policy { by.new.policy ≡ by.old.policy }
    {
        let full = self.len() == WAYS;
        if full {
            self.replace(by.victim(WAYS), row);
        } else {
            self.append(row);
        }
        full
    }

    /// The row at a place goes last. Its trail stays.
    pub fn touch(&mut self, way: usize)
        requires { way < length self.old }
        ensures { (d : declared_row.Row) → self.new ≡ remove self.old way ++ get_or self.old way d ∷ [] }
    {
        let head = self.heads.remove(way);
        self.heads.push_reserved(head);
    }
}
