ghost use Rattle.std.specs.Prelude.{◌≡◌, ◌≤◌, ◌<◌, ◌^◌, ◌↔◌, IsSome, IfSome};

use std::marker::Model;

/// An address of `N` bits, where `N` is from 0 to 64.
#[derive(Clone, Copy)]
pub struct Addr<const N: u32> {
    value: u64,
}

impl<const N: u32> Model for Addr<N> {
    ghost use Rattle.std.specs.Prelude.{ℕ, ◌<◌, ◌^◌};

    ghost Value = { ℕ };

    ghost view = { λ a. a.value };

    ghost invariant = { λ a. a.value < 2 ^ N };

    ghost inverse = { λ n. record { value = n } };
}

impl<const N: u32> Addr<N> {
    /// The address, or None for a number that takes more than `N` bits.
    pub fn of(w: u64) -> Option<Addr<N>>
        requires { N ≤ 64 }
        ensures fits { IsSome result ↔ (w < 2 ^ N) }
        ensures value { IfSome result (λ a. a ≡ w) }
    {
        if N == 64 {
            return Some(Addr { value: w });
        }
        if w >> N == 0 {
            Some(Addr { value: w })
        } else {
            None
        }
    }

    /// The number.
    pub fn get(&self) -> u64
        ensures value { result ≡ self.now }
        ensures below { result < 2 ^ N }
    {
        self.value
    }
}
