//! Abstract values and properties as the analyser keeps them. Each stands for an abstract value or
//! property of the definitions.
//!
//! Each operation is the one on the maps of the definitions: joins, which tell whether something
//! changed (`AValue::join`, and so on), the order (`AValue::leq`), what a value has (`has_primitive`,
//! `is_present`), what is left of it (`present_part`, `as_read`, `primitives_of`), the values and
//! properties that nodes make, and a rank that rises where a join changes something. What was lent
//! is as it was after want of memory (the clauses `kept`).
//!
//! Labels are kept in ascending order, one or two of them without an allocation, and texts share
//! their units: a copy of most values takes no memory, and what only reads takes none.
#![tactic(auto)]

mod ascending;
mod label_set;
mod makers;
mod numbers;
mod parts;
mod profile;
mod property;
mod texts;
mod value;

pub use label_set::{LabelSet, label_at, label_number, mask_at};
pub use numbers::{is_index, join_numbers, number_class, same_numbers, widen_number};
pub use profile::{number_of_profile, text_of_profile};
pub use property::{AProp, exact_attrs, join_attrs, same_attrs, unknown_attrs, widen_attrs};
pub use texts::{copy_text_part, is_index_text, join_texts, same_text, same_texts, text_class};
pub use value::{AValue, join_flags, same_flags, widen_flags};
