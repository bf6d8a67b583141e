//! What the programs have of their host: the words of the call (`words`), and the devices by which
//! a script talks to its outside (`devices`), each with exactly its answers (`scripts`).
#![tactic(auto)]

mod answering;
mod arguments;

pub use answering::{devices, input, number, print, scripts, text};
pub use arguments::{WordsFault, words};
