ghost use Rattle.std.specs.Prelude.{◌≡◌};
ghost use Rattle.ja_lower.specs.declared.fault.LowerFault.TheVariants.{Memory as NoMemory};

use ja_base::Memory;
use std::alloc::{AllocError, AllocFailed};
use thiserror::Error;

/// Why a tree isn't lowered.
#[derive(Clone, Copy, Debug, PartialEq, Eq, Error)]
pub enum LowerFault {
    /// It has more than 4,096 functions, the program among them.
    #[error("more than 4,096 functions")]
    Functions,
    /// Its functions have more than 65,536 nodes, each parameter of a function counted as one more.
    #[error("more than 65,536 nodes")]
    Nodes,
    /// It has more than 1,048,576 names.
    #[error("more than 1,048,576 names")]
    Names,
    /// Memory was refused.
    #[error("memory was refused")]
    Memory,
}

impl From<Memory> for LowerFault {
    ghost from_gives = { λ _ e. e ≡ NoMemory };

    fn from(_: Memory) -> Self {
        LowerFault::Memory
    }
}

impl From<AllocError> for LowerFault {
    ghost from_gives = { λ _ e. e ≡ NoMemory };

    fn from(_: AllocError) -> Self {
        LowerFault::Memory
    }
}

impl<T: Drop> From<AllocFailed<T>> for LowerFault {
    ghost from_gives = { λ _ e. e ≡ NoMemory };

    fn from(_: AllocFailed<T>) -> Self {
        LowerFault::Memory
    }
}
