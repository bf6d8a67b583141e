use ja_base::{Memory, Seq};
use std::alloc::{AllocError, AllocFailed};

/// Why words aren't those of kinds: what is wrong with the first that is wrong. Words are in
/// UTF-16 here.
#[derive(Drop)]
pub enum KindsFault {
    /// It is empty: nothing stands behind `=`, or beside a `|`.
    NoKind,
    /// This word is none of `undefined`, `null`, `boolean`, `number` and `string`.
    Unknown { word: Seq<u16> },
    /// This word stood before it.
    Repeated { word: Seq<u16> },
}

/// Why values declare no devices. The faults of all words of kinds come first; an index is that of
/// a value, from 0, and a name is in UTF-16.
#[derive(Drop)]
pub enum Refused {
    /// The words of the value of this index, which has this name, aren't those of kinds.
    Kinds {
        index: usize,
        name: Seq<u16>,
        fault: KindsFault,
    },
    /// There are more than 64 values.
    TooMany,
    /// The name in the value of this index is no ASCII identifier of 1 to 64 characters.
    BadName {
        index: usize,
        name: Seq<u16>,
    },
    /// The second of these values has the name of the first.
    Twice {
        first: usize,
        second: usize,
        name: Seq<u16>,
    },
    /// Memory was refused.
    Memory,
}

impl From<Memory> for Refused {
    ghost use Rattle.ja_lint_devices.specs.declared.refused.Refused.TheVariants.{Memory as NoMemory};
    ghost use Rattle.std.specs.Prelude.{◌≡◌};

    ghost from_gives = { λ _ e. e ≡ NoMemory };

    fn from(_: Memory) -> Self {
        Refused::Memory
    }
}

impl From<AllocError> for Refused {
    ghost use Rattle.ja_lint_devices.specs.declared.refused.Refused.TheVariants.{Memory};
    ghost use Rattle.std.specs.Prelude.{◌≡◌};

    ghost from_gives = { λ _ e. e ≡ Memory };

    fn from(_: AllocError) -> Self {
        Refused::Memory
    }
}

impl<T: Drop> From<AllocFailed<T>> for Refused {
    ghost use Rattle.ja_lint_devices.specs.declared.refused.Refused.TheVariants.{Memory};
    ghost use Rattle.std.specs.Prelude.{◌≡◌};

    ghost from_gives = { λ _ e. e ≡ Memory };

    fn from(_: AllocFailed<T>) -> Self {
        Refused::Memory
    }
}
