//! Which row leaves a full set.
ghost use Rattle.std.specs.Prelude.{◌≡◌, ◌+◌, ◌<◌, ℕ};
ghost use Rattle.tagged_tlb.specs.Sets.{victim};
ghost use Rattle.tagged_tlb.specs.Tied.{next_drawn, IsAt};

use trace_lang::Policy;

/// A policy, with the number that was drawn last. Only the random policy draws.
#[derive(Clone, Copy)]
pub struct Chooser {
    pub last: u64,
    pub policy: Policy,
}

/// The number that follows one in the generator.
fn next(x: u64) -> u64
    ensures { result ≡ next_drawn x }
{
    x.wrapping_mul(6364136223846793005)
        .wrapping_add(1442695040888963407)
}

impl Chooser {
    /// Before the first eviction of a core.
    pub fn opened(policy: Policy, core: u64) -> Chooser
        ensures policy { result.policy ≡ policy }
        ensures first { IsAt core 0 result }
    {
        let last = match policy {
            Policy::Lru => 0,
            Policy::Fifo => 0,
            Policy::Random { start } => start.wrapping_add(core),
        };
        Chooser { last, policy }
    }

    /// The place in a full set of the row that leaves, in the order of rank.
    pub fn victim(&mut self, ways: usize) -> usize
        requires { 0 < ways }
        ensures picked { (core n : ℕ) → IsAt core n self.old → result ≡ victim self.old.policy core n ways }
        ensures after { (core n : ℕ) → IsAt core n self.old → IsAt core (n + 1) self.new }
        ensures policy { self.new.policy ≡ self.old.policy }
        ensures within { result < ways }
    {
        match self.policy {
            Policy::Lru => 0,
            Policy::Fifo => 0,
            Policy::Random { .. } => {
                self.last = next(self.last);
                (self.last / (1 << 33)) as usize % ways
            }
        }
    }
}
