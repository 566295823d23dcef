ghost use Rattle.std.specs.Prelude.{◌≡◌, ◌≢◌, ℕ, ◌≤◌, List};
ghost use Rattle.bitwords.specs.Causes.{Rose};
ghost use Rattle.dump_file.specs.Counts.{counts_of};

/// Counts of two names. The counts of other names stand at their end.
#[derive(Drop)]
pub struct Counts<'a> {
    pub first: &'a str,
    pub second: &'a str,
    pub one: u64,
    pub two: u64,
}

impl<'a> Counts<'a> {
    pub fn new(first: &'a str, second: &'a str) -> Counts<'a>
        ensures zero { (result.one ≡ 0) × (result.two ≡ 0) }
        ensures first { result.first.now ≡ first.now }
        ensures second { result.second.now ≡ second.now }
    {
        Counts {
            first,
            second,
            one: 0,
            two: 0,
        }
    }

    /// Counts one more of a name.
    pub fn more(&mut self, name: &str)
        ensures later { counts_of self.old name.now ≤ counts_of self.new name.now }
        ensures rose { Rose (counts_of self.old name.now) (counts_of self.new name.now) }
        ensures others { (other : List ℕ) → other ≢ name.now → counts_of self.new other ≡ counts_of self.old other }
    {
        if self.first == name {
            self.one = self.one.saturating_add(1);
        } else if self.second == name {
            self.two = self.two.saturating_add(1);
        }
    }
}
