//! Reading certificates from their JSON (RFC 8259): lists and objects, numbers of a program, values
//! by their parts, and what is listed of a state; and the first place where the shape is wrong.
#![tactic(auto)]

mod attributes;
mod fault;
mod listed;
mod members;
mod numbers;
mod objects;
mod parts;
mod values;
mod within;
mod words;

pub use fault::{Fault, Step, at, here, here_unless, under};
pub use listed::{EntryAt, MaskAt, Pair, PropertyAt, RegisterAt};
pub use members::{Member, list, read_list};
pub use numbers::{read_function, read_label, read_node, read_word};
pub use objects::{Four, Six, four_members, six_members};
pub use within::{InFunction, InProgram};
