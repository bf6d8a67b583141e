//! The theorem: what a closed table says of every run (`specs/Sound.antt`), and the statements
//! about one step from which it follows (`specs/Statements.antt`).
//!
//! Laws, of every well-formed program: a step within an activation is sound, of each kind of node
//! (`steps_sound`), and so are a step into a function (`entries_sound`) and one out of it
//! (`returns_sound`); so a closed table covers every run (`closed_covers`), and its warnings have
//! each operation that goes wrong in some run (`warned_of_faults`), and each read of a name or a
//! known property that is a built-in that isn't there (`warned_of_rows`). Where a warning is
//! certain, each run that comes to its operation fails there (`fails_where_certain`). What goes
//! wrong is what throws (`faults_throw`). The abstract operations of the built-in functions cover
//! the machine's (`operations_cover`).
#![tactic(auto)]

mod laws;
mod operation_laws;

pub use laws::{
    closed_covers, entries_sound, fails_where_certain, faults_throw, returns_sound, steps_sound,
    warned_of_faults, warned_of_rows,
};
pub use operation_laws::operations_cover;
