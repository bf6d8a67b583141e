ghost use Rattle.std.specs.Prelude.{◌≡◌};
ghost use Rattle.ja_prim.specs.declared.stop.PrimFault.TheVariants.{Memory as NoMemory};

use crate::Memory;
use std::alloc::{AllocError, AllocFailed};

/// Why an operation leaves the profile: its exact result isn't whole, or its magnitude is greater
/// than 9,007,199,254,740,991 or infinite, or it would be a text of more than 1,048,576 units.
#[derive(Clone, Copy, Debug, PartialEq, Eq)]
pub enum Stop {
    Fraction,
    Range,
    TextLength,
}

/// Why an operation that takes memory gives no value.
#[derive(Clone, Copy, Debug, PartialEq, Eq)]
pub enum PrimFault {
    /// It leaves the profile.
    Stop(Stop),
    /// Memory was refused.
    Memory,
}

impl From<Memory> for PrimFault {
    ghost from_gives = { λ _ e. e ≡ NoMemory };

    fn from(_: Memory) -> Self {
        PrimFault::Memory
    }
}

impl From<AllocError> for PrimFault {
    ghost from_gives = { λ _ e. e ≡ NoMemory };

    fn from(_: AllocError) -> Self {
        PrimFault::Memory
    }
}

impl<T: Drop> From<AllocFailed<T>> for PrimFault {
    ghost from_gives = { λ _ e. e ≡ NoMemory };

    fn from(_: AllocFailed<T>) -> Self {
        PrimFault::Memory
    }
}
