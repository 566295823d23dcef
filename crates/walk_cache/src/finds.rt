//! The caches of a core as an access searches them.
use crate::caches::Caches;
use served_walk::Finds;
use tagged_tlb::{Found, Kind, Seen, Slot, Sought};
use trails::Item;

impl Finds for Caches {
    ghost use Rattle.tagged_tlb.specs.Found.{IsWithin, slot_row};
    ghost use Rattle.walk_cache.specs.ByKind.{sets_of};
    ghost use Rattle.walk_cache.specs.Holds.{HoldRows};

    ghost holds = { λ c rows. HoldRows c rows };

    ghost stands = { λ c kind slot. IsWithin (sets_of c.sets kind) slot };

    ghost row_at = { λ c kind slot d. slot_row d (sets_of c.sets kind) slot };

    fn find(&self, kind: Kind, sought: &Sought) -> Found {
        Caches::find(self, kind, sought)
    }

    fn deepest(&self, kind: Kind, sought: &Sought) -> Option<Seen> {
        Caches::deepest(self, kind, sought)
    }

    fn trail(&self, kind: Kind, slot: Slot) -> &[Item] {
        Caches::trail(self, kind, slot)
    }
}
