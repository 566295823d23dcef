ghost use Rattle.std.specs.Prelude.{◌≡◌, ◌<◌, ◌≤◌, [], ◌∷◌, ◌++◌, length, take};
ghost use Rattle.trails.specs.Lengths.{most_items};

use crate::item::Item;
use arrayvec::ArrayVec;
use std::marker::Model;

/// The most items of a walk through stage 2: its base, and a word for each of the levels -1 to 3.
const MOST_ITEMS2: usize = 6;

/// The most items of a translation: the base of stage 1, five words of stage 1, each with a walk through stage 2 to its
/// place, and a walk through stage 2 for the output.
pub const MOST_ITEMS: usize = 1 + 5 * (1 + MOST_ITEMS2) + MOST_ITEMS2;

/// The items of a translation in order.
#[derive(Drop)]
pub struct Trail {
    kept: ArrayVec<Item, MOST_ITEMS>,
}

impl Model for Trail {
    ghost use Rattle.std.specs.Prelude.{List, length, ◌≤◌};
    ghost use Rattle.trails.specs.declared.item.Item.{Item};
    ghost use Rattle.trails.specs.Lengths.{most_items};

    ghost Value = { List Item };

    ghost view = { λ t. t.kept.items };

    ghost invariant = { λ t. length t.kept.items ≤ most_items };
}

impl Trail {
    /// A trail without items.
    pub fn none() -> Trail
        ensures { result ≡ [] }
    {
        Trail {
            kept: ArrayVec::new(),
        }
    }

    /// The items in order.
    pub fn items(&self) -> &[Item]
        ensures items { result.now ≡ self.now }
        ensures most { length self.now ≤ most_items }
    {
        self.kept.as_slice()
    }

    /// Appends an item.
    pub fn push(&mut self, item: Item)
        requires { length self.old < most_items }
        ensures { self.new ≡ self.old ++ item ∷ [] }
    {
        self.kept.push(item);
    }

    /// Keeps the first `len` items.
    pub fn cut(&mut self, len: usize)
        requires { len ≤ length self.old }
        ensures { self.new ≡ take len self.old }
    {
        self.kept.truncate(len);
    }
}
