//! The abstract step by families of nodes (`Names`, `Properties`, `Objects`, `Scopes`, `Operators`,
//! `Edges`, `Enumeration`, `BuiltIns`, and the dispatch over them, `Transfer`), entering a
//! function, filling its entry and giving back (`Calls`), tables, their visits and when they are
//! closed (`Table`), the contexts and call edges of a table in order (`Listed`), and the warnings of
//! a table (`Warning`): definitions over these types.
//!
//! Proved, as lemmas: what a visit that changes nothing says of a table; that each edge leads from
//! the node whose step gives it; that the states of a table speak of its program alone. `ja_laws`
//! says in other words what the rows come to.
#![tactic(auto)]

mod table;

pub use table::{Edge, Item, Warning, WarningKind};
