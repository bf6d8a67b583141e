//! From a text to its program: its tree, lowered, with the functions of host devices, the built-in
//! functions, and the objects that are there when a run begins.
//!
//! `load` gives exactly the program of a text, with the devices, and with their functions and the
//! built-in ones behind its own, which is well formed; or why it has none: it isn't in the language,
//! or a limit is passed.
#![tactic(auto)]

mod fault;
mod hosts;
mod loading;

pub use fault::LoadFault;
pub use loading::load;
