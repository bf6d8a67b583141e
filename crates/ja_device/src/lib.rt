//! Host devices: what a program may ask of its outside. A device has a name and declares the kinds
//! of its answers; it is called with primitive values, and answers with one.
//!
//! What a call does to a device is promised by whoever writes one (`Device`), and holds also of one
//! in a box. `Devices::new` takes at most 64 devices of a program, or says which is refused and
//! why; `signatures` gives their names and kinds, `find` the one of a name. A call is one call of
//! that device with these arguments, and all others stand (`call`); the others keep their order
//! where one is let go (`retire`). `Scripted` answers from a list, in order, and fails at the calls
//! that it is told.
#![tactic(auto)]

mod boxed;
mod copies;
mod device;
mod devices;
mod fault;
mod heard;
mod names;
mod refusing;
mod scripted;

pub use device::Device;
pub use devices::Devices;
pub use fault::{CallFault, DevicesFault};
pub use heard::Heard;
pub use scripted::Scripted;
