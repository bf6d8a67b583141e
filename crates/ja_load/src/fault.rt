ghost use Rattle.std.specs.Prelude.{◌≡◌};
ghost use Rattle.ja_grammar.specs.declared.fault.ParseFault.TheVariants.{Memory as NoMemory};
ghost use Rattle.ja_load.specs.declared.fault.LoadFault.TheVariants.{Parse};

use ja_base::Memory;
use ja_grammar::ParseFault;
use std::alloc::{AllocError, AllocFailed};
use thiserror::Error;

/// Why a text has no program.
#[derive(Clone, Copy, Debug, PartialEq, Eq, Error)]
pub enum LoadFault {
    /// It is none of the language, or memory was refused.
    #[error(transparent)]
    Parse(ParseFault),
    /// It has more than 4,096 functions, the program among them.
    #[error("more than 4,096 functions")]
    Functions,
    /// Its functions have more than 65,536 nodes, each parameter of a function counted as one more.
    #[error("more than 65,536 nodes")]
    Nodes,
    /// It has more than 1,048,576 names.
    #[error("more than 1,048,576 names")]
    Names,
}

impl From<Memory> for LoadFault {
    ghost from_gives = { λ _ e. e ≡ Parse NoMemory };

    fn from(_: Memory) -> Self {
        LoadFault::Parse(ParseFault::Memory)
    }
}

impl From<AllocError> for LoadFault {
    ghost from_gives = { λ _ e. e ≡ Parse NoMemory };

    fn from(_: AllocError) -> Self {
        LoadFault::Parse(ParseFault::Memory)
    }
}

impl<T: Drop> From<AllocFailed<T>> for LoadFault {
    ghost from_gives = { λ _ e. e ≡ Parse NoMemory };

    fn from(_: AllocFailed<T>) -> Self {
        LoadFault::Parse(ParseFault::Memory)
    }
}
