//! The solver: a closed table of a program, and the visits that built it, or that the budget is
//! spent.
//!
//! `solve` visits items as long as there are some that may change the table: behind a visit, those
//! that read what it changed (`agenda.rt`), in a fixed order (`queue.rt`). Then it visits each item
//! once more (`sweep.rt`). Where that changes nothing the table is closed, and the law
//! `closed_covers` says what that means; else it goes on. No clause rests on what is kept of who
//! reads what.
#![tactic(auto)]

mod agenda;
mod queue;
mod solver;

pub use solver::{SolveFault, Solved, solve};
