use ja_base::Memory;
use std::alloc::{AllocError, AllocFailed};
use thiserror::Error;

/// Why a device gives no answer.
#[derive(Clone, Copy, Debug, PartialEq, Eq, Error)]
pub enum CallFault {
    /// The device failed, and has counted it.
    #[error("the device failed")]
    Failed,
    #[error("memory was refused")]
    Memory,
}

/// Why there are no devices of a list: at most 64 devices are taken, and the others are refused for
/// the first of them, by its index, that can't be one of a program's.
#[derive(Clone, Copy, Debug, PartialEq, Eq, Error)]
pub enum DevicesFault {
    /// There are more than 64.
    #[error("more than 64 devices")]
    TooMany,
    /// The name of this device is no ASCII identifier of 1 to 64 characters.
    #[error("the name of device {index} is no identifier")]
    BadName { index: usize },
    /// This device declares no kind of answers.
    #[error("device {index} declares no kind of answers")]
    NoKinds { index: usize },
    /// The second of these devices has the name of the first.
    #[error("devices {first} and {second} have one name")]
    Twice { first: usize, second: usize },
}

impl From<Memory> for CallFault {
    ghost use Rattle.ja_device.specs.declared.fault.CallFault.TheVariants.{Memory as NoMemory};
    ghost use Rattle.std.specs.Prelude.{◌≡◌};

    ghost from_gives = { λ _ e. e ≡ NoMemory };

    fn from(_: Memory) -> Self {
        CallFault::Memory
    }
}

impl From<AllocError> for CallFault {
    ghost use Rattle.ja_device.specs.declared.fault.CallFault.TheVariants.{Memory};
    ghost use Rattle.std.specs.Prelude.{◌≡◌};

    ghost from_gives = { λ _ e. e ≡ Memory };

    fn from(_: AllocError) -> Self {
        CallFault::Memory
    }
}

impl<T: Drop> From<AllocFailed<T>> for CallFault {
    ghost use Rattle.ja_device.specs.declared.fault.CallFault.TheVariants.{Memory};
    ghost use Rattle.std.specs.Prelude.{◌≡◌};

    ghost from_gives = { λ _ e. e ≡ Memory };

    fn from(_: AllocFailed<T>) -> Self {
        CallFault::Memory
    }
}
