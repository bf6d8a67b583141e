//! What a program's run is: definitions alone, over these types, and the laws of every run.
//!
//! Laws of every run (`laws.rt`): each state of it is as `specs/State.antt` says
//! (`states_are_kept`), and has a step with each answer that it wants, and with no other
//! (`never_stuck`), as has any state that is so, and a step leads to another one
//! (`states_have_steps`, `steps_keep_states`); no object shows a name twice to `for`-`in`
//! (`names_are_distinct`); a step counts one more and goes along an edge, enters a function or
//! leaves one (`steps_go_along_edges`); no object goes (`objects_stay`); a chain of prototypes or
//! scopes meets no object twice, and ends (`chains_end`). The operations of the built-in functions
//! are those that `ja_graph` lists, and take as many values (`operations_are_listed`).
#![tactic(auto)]

mod laws;
mod machine;

pub use laws::{
    chains_end, names_are_distinct, never_stuck, objects_stay, operations_are_listed,
    states_are_kept, states_have_steps, steps_go_along_edges, steps_keep_states,
};
pub use machine::{
    Addr, Answer, Conf, Content, End, Event, Frame, Heap, Object, Property, Put, Remaining, Slots,
    TextOperation, Value, Wants,
};
