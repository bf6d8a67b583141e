//! The machine as it runs: frames over a heap, its first state, what it wants, and its step.
//! Contracts are by the definitions of the machine.
//!
//! The state in which the run of a well-formed program begins (`opening`); what a state wants
//! (`wants`), and the same where names aren't counted (`first_wanted`); the primitive values that a
//! device is given, in order (`device_arguments`); and of well-formed programs, with an answer with
//! which the machine has a step, exactly that step (`step`): through calls, constructions, default
//! values, closures and the answers of devices.
#![tactic(auto)]

mod activations;
mod beginning;
mod calls;
mod conf;
mod constructs;
mod convert;
mod entry;
mod enumeration;
mod events;
mod frame;
mod given;
mod hosts;
mod intrinsics;
mod names;
mod nodes;
mod objects;
mod properties;
mod returns;
mod scopes;
mod stepping;
mod values;
mod wanted;
mod writes;

pub use beginning::opening;
pub use conf::Conf;
pub use frame::{Frame, Listed};
pub use hosts::device_arguments;
pub use stepping::step;
pub use wanted::{first_wanted, wants};
