ghost use Rattle.std.specs.Prelude.{◌≡◌, ◌≤◌, ◌%◌, ℕ};
ghost use Rattle.bitwords.specs.Causes.{Rose};
ghost use Rattle.table_reads.specs.Memory.{Told, Supplies};

/// Descriptor words of a memory that may be told or not, with a count of faults.
pub trait Supply {
    /// What memory holds, as far as the supply tells. No call changes it.
    ghost memory: { Self → Told };

    /// How often it has failed.
    ghost faults: { Self → ℕ };

    /// What each call keeps besides, between the supply before and after.
    ghost keeps: { Self → Self → Type 0 };

    /// The eight bytes at a place as a little-endian number, or None where the memory hasn't all of them or the supply
    /// failed.
    fn word(&mut self, pa: u64) -> Option<u64>
        requires { pa % 8 ≡ 0 }
        ensures same { memory self.new ≡ memory self.old }
        ensures later { faults self.old ≤ faults self.new }
        ensures word { Supplies (memory self.old) pa (Rose (faults self.old) (faults self.new)) result }
        ensures kept { keeps self.old self.new };

    ghost keeps_here: { (s : Self) → keeps s s };

    ghost keeps_then: { (a b c : Self) → keeps a b → keeps b c → keeps a c };
}
