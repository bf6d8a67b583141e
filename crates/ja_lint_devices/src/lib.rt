//! The host devices that options declare: each by its name and the kinds of what it returns.
//!
//! `declared` gives the devices of values such as `alert` and `prompt=null|string`, in order, where
//! all of them declare devices that can be a program's, and else the first fault with its cause;
//! `fault_text` tells it in words. Such a device is only declared: it answers no call (`Declared`).
//! `usual` has those that are there without any option, by the values of `USUAL_VALUES`.
//!
//! Where values declare devices, want of memory alone refuses them (`declared_or_refused`), and
//! elsewhere one fault alone stands (`refused_once`).
#![tactic(auto)]

mod defaults;
mod device;
mod kinds;
mod laws;
mod reading;
mod refused;
mod texts;
mod values;

pub use defaults::{USUAL_VALUES, usual};
pub use device::Declared;
pub use kinds::is_among;
pub use laws::{
    declared_or_refused, examples_of_faults, examples_of_texts, examples_of_values, refused_once,
};
pub use reading::declared;
pub use refused::{KindsFault, Refused};
pub use texts::fault_text;
