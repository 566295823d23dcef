ghost use Rattle.std.specs.Prelude.{⊤, [], ◌∷◌, codes};

use bitflags::{Flag, Flags, bitflag_items};

/// A set of rights: R, W and X stand for read, write and fetch, and the digit for the exception level.
#[derive(Clone, Copy, Debug, PartialEq, Eq)]
pub struct Perms(u8);

bitflag_items! {
    impl Perms: u8 {
        const R0 = 1;
        const W0 = 2;
        const X0 = 4;
        const R1 = 8;
        const W1 = 16;
        const X1 = 32;
    }
}

impl Flags for Perms {
    type Bits = u8;

    ghost exact = { ⊤ };

    ghost table = { (codes "R0", 1) ∷ (codes "W0", 2) ∷ (codes "X0", 4) ∷ (codes "R1", 8) ∷ (codes "W1", 16) ∷ (codes "X1", 32) ∷ [] };

    ghost set_of = { λ p. p.0 };

    fn flags<'a>() -> &'a [Flag<Perms>] {
        Perms::FLAGS
    }

    fn bits(&self) -> u8 {
        self.0
    }

    fn from_bits_retain(bits: u8) -> Perms {
        Perms(bits)
    }
}
