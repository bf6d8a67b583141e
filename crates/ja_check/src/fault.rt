ghost use Rattle.std.specs.Prelude.{◌≡◌};
ghost use Rattle.ja_check.specs.declared.fault.CheckFault.TheVariants as fault;

use ja_base::Memory;
use ja_rows::Item;
use thiserror::Error;

/// Why a table isn't told to be closed.
#[derive(Clone, Copy, Debug, PartialEq, Eq, Error)]
pub enum CheckFault {
    /// It hasn't the state in which the program begins.
    #[error("the state in which the program begins is missing")]
    NotOpen,
    /// A visit of this item changes it.
    #[error("a visit changes the table: {item:?}")]
    NotClosed { item: Item },
    #[error("memory was refused")]
    Memory,
}

impl From<Memory> for CheckFault {
    ghost from_gives = { λ _ e. e ≡ fault.Memory };

    fn from(_: Memory) -> Self {
        CheckFault::Memory
    }
}
