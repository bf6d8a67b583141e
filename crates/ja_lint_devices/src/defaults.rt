//! The devices that are there where no option declares any.

ghost use Rattle.std.specs.Prelude.{◌≡◌, IfOk, map};
ghost use Rattle.ja_lint_devices.specs.Devices.{IsRefused, unheard, usual_devices, usual_values};

use crate::device::Declared;
use crate::reading::declared;
use crate::refused::Refused;
use ja_base::Memory;
use ja_device::Devices;
use std::alloc::Global;

/// The values that declare `input`, `number`, `text` and `print`, with the kinds that the devices
/// of these names answer in a run of the program.
pub const USUAL_VALUES: [&str; 4] = ["input=boolean", "number=number", "text=string", "print"];

// What refuses them is want of memory.
fn want(fault: &Refused) -> Memory
    requires { IsRefused usual_values fault.now }
{
    match fault {
        Refused::Kinds {
            index: _,
            name: _,
            fault: _,
        } => unreachable!(),
        Refused::TooMany => unreachable!(),
        Refused::BadName { index: _, name: _ } => unreachable!(),
        Refused::Twice {
            first: _,
            second: _,
            name: _,
        } => unreachable!(),
        Refused::Memory => Memory,
    }
}

/// The devices that [`USUAL_VALUES`] declares. The error is want of memory.
pub fn usual(alloc: Global) -> Result<Devices<Declared>, Memory>
    ensures { IfOk result (λ all. all ≡ record {
      devices = map unheard usual_devices;
      failed = 0;
    }) }
{
    match declared(alloc, &USUAL_VALUES) {
        Ok(devices) => Ok(devices),
        Err(fault) => Err(want(&fault)),
    }
}
