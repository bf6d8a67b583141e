//! The run of a program: its steps under the answers that its devices give, its end, and its
//! transcript.
//!
//! `run` gives the run of at most so many steps under the answers that its devices gave, in order:
//! the calls, the end and the number of steps. Each device that tells it has heard just the run's
//! calls of it, arguments included, and one that failed was asked where the run stands. Where
//! memory is refused, devices have answered exactly the calls of some first steps, and none has
//! failed. `run_text` is exactly the transcript.
//!
//! Laws (`laws.rt`): the answers that are given fit what is wanted, where devices answer within
//! their kinds; a program has one run of at most so many steps under the same answers; and a run to
//! n steps is a prefix of the run to n + 1 in which devices give the same answers, and maybe more.
#![tactic(auto)]

mod ended;
mod ends;
pub mod laws;
mod running;
mod transcript;

pub use ended::{CallRecord, Ended, RunEnd};
pub use running::run;
pub use transcript::run_text;
