ghost use Rattle.std.specs.Prelude.{◌≡◌, ◌+◌, ◌≤◌, ◌%◌, ℕ, ℤ, List, length, Result, IfErr};
ghost use Rattle.trails.specs.declared.item.Item.{Item};
ghost use Rattle.trails.specs.declared.outcome.Stop.{Stop};
ghost use Rattle.trails.specs.Lengths.{most_items, most_per_word};
ghost use Rattle.trails.specs.Printed.{HasTextStop};
ghost use Rattle.stage1_walk.specs.Gave.{Gave};

use trails::{Stop, Trail};

/// The words of stage 1 tables, however each is had.
pub trait Supply1 {
    /// What a call does: the supply before, the level and the place that are asked for, the items that it appends, its
    /// answer, and the supply after.
    ghost gives: { Self → ℤ → ℕ → List Item → Result ℕ Stop → Self → Type 0 };

    /// The word of a level at a place, which is an IPA where stage 2 is on. It appends the items of stage 2 for the
    /// place and then, with Ok, the word's own item.
    fn word_at(&mut self, level: i8, ipa: u64, trail: &mut Trail) -> Result<u64, Stop>
        requires aligned { ipa % 8 ≡ 0 }
        requires room { length trail.old + most_per_word ≤ most_items }
        ensures gave { Gave (gives self.old level ipa) trail.old trail.new result self.new }
        ensures text { IfErr result HasTextStop };
}
