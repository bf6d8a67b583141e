//! What the definitions of the analysis say, in other words than theirs: laws, and results
//! computed by the definitions of small states. Nothing stands on this crate but readers: a row
//! that is bent is refused here.
//!
//! Laws, of abstract states (`AbstractLaws`): joins are least, and in any order; a strong write
//! replaces, and a weak one keeps; a known property of one object is what is read; an object just
//! made has its own properties alone; a walk reaches the least set that its step doesn't leave; two
//! moments add up; what the keys of texts are. Values, properties and states are ordered by what
//! they have, and ranks rise (`OrderLaws`); registers, labels and keys have the numbers that they
//! are named by (`number_laws.rt`). Of the rows (`RowLaws`): a branch is taken, an exit gives
//! nothing, an exception reaches its handler, a call enters functions alone, a visit reaches its
//! callees, the states of a table speak of its program alone, and each program has a closed table.
//!
//! Results, each by computing, with what the standard or the analysis fixes on the right: of the
//! operators on primitives (`proofs/Primitives.antt`), of the machine's operations on texts and
//! numbers (`TextOperations`), of writes (`Writes`), and of each row of nodes and of calls, in files
//! named as the families of `ja_rows`, over one small program (`SmallProgram`).
#![tactic(auto)]

mod abstract_laws;
mod number_laws;
mod order_laws;
mod row_laws;

pub use abstract_laws::{
    joins_are_least, joins_have_no_order, known_reads, moments_add_up, nothing_is_renamed,
    objects_are_made, strong_writes_replace, texts_have_keys, walks_are_least, weak_writes_keep,
};
pub use number_laws::{labels_and_keys_are_told_apart, labels_are_in_order, registers_are_named};
pub use order_laws::{classes_are_ordered, order_is_by_parts, parts_are_ordered, ranks_rise};
pub use row_laws::{
    branches_are_taken, calls_enter_functions, closed_tables_exist, exceptions_reach_handlers,
    exits_give_nothing, states_keep_to_programs, visits_reach_callees,
};
