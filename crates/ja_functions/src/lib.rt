//! The abstract rows of functions, of the built-in ones and of devices: an activation with its
//! arguments object (`activations.rt`, `arguments.rt`), a function with the object that its
//! constructions inherit from (`functions.rt`), the answer of a device (`devices.rt`), and the
//! operations that the built-in functions are written with (`intrinsics.rt`): what they tell of
//! internal properties (`internals.rt`), of own properties (`owns.rt`) and of texts and
//! numbers (`texts.rt`).
//!
//! Each row is a function of a `Stepper`, and contracts see what it gives as the row of the
//! definitions (`ja_rows/specs`), exactly. What is left free is want of memory.
#![tactic(auto)]

mod activations;
mod arguments;
mod devices;
mod functions;
mod internals;
mod intrinsics;
mod listed;
mod owns;
mod texts;
mod told;

pub use activations::enter;
pub use devices::device;
pub use functions::make_function;
pub use intrinsics::intrinsic;
pub use listed::{Listed, inherits, property_of, slot_of};
