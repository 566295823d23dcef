use std::alloc::AllocError;

/// Why a list of ranges is no physical memory. Ranges are counted from 0.
#[derive(Clone, Copy, Debug, PartialEq, Eq)]
pub enum PhysError {
    /// The first range whose start or length isn't a multiple of 8, that is empty, or that ends above `2 ^ 52`.
    BadRange { place: usize },
    /// Two ranges that share a byte: the second is the first that does with an earlier one, which is the first such.
    Overlap { first: usize, second: usize },
    /// More than 16 ranges, or more than 64 MiB in all.
    TooLarge,
    /// Memory was refused. No contract says when.
    NoMemory,
}

impl From<AllocError> for PhysError {
    ghost use Rattle.std.specs.Prelude.{◌≡◌};
    ghost use Rattle.phys_mem.specs.declared.refusal.PhysError.TheVariants.{NoMemory};

    ghost from_gives = { λ _ e. e ≡ NoMemory };

    fn from(_: AllocError) -> PhysError {
        PhysError::NoMemory
    }
}
