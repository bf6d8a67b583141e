//! Abstract values and states, over these types, and what is computed on them: definitions and laws
//! that speak of no run.
//!
//! Values, properties and states are records of functions, with their joins and their order
//! (`AbstractValue`, `AbstractState`, `Order`); operators on abstract primitives and values
//! (`Primitives`, `Values`, `Operations`); the keys of texts and numbers (`Keys`); what is read of
//! a state and the values at entry, along prototypes and scopes, and what it demands (`Resolved`,
//! `Reading`); the objects that nodes make (`Made`); puts, definitions and deletions (`Writes`); a
//! state read through a later one (`Composed`); the contents of the opening heap (`Contents`); the
//! states that speak of a program's labels, keys and sites alone (`InProgram`).
//!
//! Proved, as lemmas: a join is the least above what it joins and has each part that one of the two
//! has; operators on abstract primitives cover those on primitives; the keys and the labels of a
//! program are all there are; what is done with states that speak of a program alone gives such
//! states. `ja_laws` says in other words what the definitions come to.
#![tactic(auto)]

mod abstraction;

pub use abstraction::{AAttrs, Flags, Key, Mask, May, NumberPart, Slot, Sort, TextPart};
