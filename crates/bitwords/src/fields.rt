ghost use Rattle.std.specs.Prelude.{◌≡◌, ◌≤◌, ◌<◌, ◌^◌};
ghost use Rattle.bitwords.specs.Fields.{bits_of, bit, cleared};

/// Bits `HI` to `LO` of a word as a number.
#[tactic(auto, using(crate::proofs::Words::masked_field))]
pub fn field<const HI: u32, const LO: u32>(w: u64) -> u64
    requires ordered { LO ≤ HI }
    requires in_word { HI < 64 }
    ensures { result ≡ bits_of w HI LO }
{
    (w >> LO) & (u64::MAX >> (63 - (HI - LO)))
}

/// Whether bit `N` of a word is 1.
pub fn flag<const N: u32>(w: u64) -> bool
    requires { N < 64 }
    ensures { result ≡ bit w N }
{
    field::<N, N>(w) == 1
}

/// `2 ^ n`.
pub fn power(n: u32) -> u64
    requires { n < 64 }
    ensures { result ≡ 2 ^ n }
{
    1u64 << n
}

/// The word with its lowest `bits` bits read as 0.
pub fn align_down(w: u64, bits: u32) -> u64
    requires { bits < 64 }
    ensures { result ≡ cleared w bits }
{
    (w >> bits) << bits
}
