//! The rows of a core as an access asks for them.
ghost use Rattle.std.specs.Prelude.{◌≡◌, List, take, option_map, IfSome};
ghost use Rattle.tagged_tlb.specs.declared.row.Kind.{Kind};
ghost use Rattle.tagged_tlb.specs.declared.row.Row.{Row};
ghost use Rattle.tagged_tlb.specs.declared.found.Slot.{Slot};
ghost use Rattle.tagged_tlb.specs.Found.{AllSeen};
ghost use Rattle.tagged_tlb.specs.Rows;
ghost use Rattle.tagged_tlb.specs.Rows.{matching};
ghost use Rattle.tagged_tlb.specs.Tied.{AreToldApart, AreSmall, is_sought};
ghost use Rattle.served_walk.specs.Meets.{rows_found};

use tagged_tlb::{Found, Kind, Seen, Slot, Sought};
use trails::Item;

/// Rows of a core, by kinds.
pub trait Finds {
    /// The caches hold these rows. What is said of them holds of each list that they may hold.
    ghost holds: { Self → List Row → Type 0 };

    /// A row of a kind stands at a slot.
    ghost stands: { Self → Kind → Slot → Type 0 };

    /// The row of a kind at a slot, or a default where none stands.
    ghost row_at: { Self → Kind → Slot → Row → Row };

    /// The rows of a kind that match: none, one, or the two that were made first.
    fn find(&self, kind: Kind, sought: &Sought) -> Found
        ensures within { AllSeen (λ s. stands self.now kind s.slot) result }
        ensures made { (d : Row) → (live : List Row) → holds self.now live → AreToldApart live →
            AllSeen (λ s. (row_at self.now kind s.slot d).made ≡ s.made) result }
        ensures best { (d : Row) → (live : List Row) → holds self.now live → AreToldApart live → AreSmall live →
            rows_found (λ s. row_at self.now kind s d) result ≡ take 2 (matching (is_sought kind sought.now) live) };

    /// The row of a kind that matches and serves the smallest region.
    fn deepest(&self, kind: Kind, sought: &Sought) -> Option<Seen>
        ensures within { IfSome result (λ s. stands self.now kind s.slot) }
        ensures made { (d : Row) → (live : List Row) → holds self.now live → AreToldApart live →
            IfSome result (λ s. (row_at self.now kind s.slot d).made ≡ s.made) }
        ensures least { (d : Row) → (live : List Row) → holds self.now live → AreToldApart live → AreSmall live →
            option_map (λ s. row_at self.now kind s.slot d) result ≡ Rows.deepest (is_sought kind sought.now) live };

    /// The trail of the row of a kind at a slot.
    fn trail(&self, kind: Kind, slot: Slot) -> &[Item]
        requires { stands self.now kind slot }
        ensures { (d : Row) → result.now ≡ (row_at self.now kind slot d).trail };
}
