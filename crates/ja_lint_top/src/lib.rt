//! The faults of a script at its lines: each warning of its closed table as compilers write theirs,
//! on a page with the whole script, or in SARIF (`lint`).
//!
//! The clause `answered` of `lint` (`top.rt`), by `IsAnswered` of `specs/Lint.antt`, says of all
//! words, files, sinks and the devices that the words declare: each status has its cause; and what
//! was written is, whole, a message for each warning of a closed table of the one program of all
//! files, once and in order, at its file and place (`AreTold`), and behind them the counts, or,
//! exactly where no warning is of a fault, what is promised of every run; or the error of a text
//! that is refused, with its line. Reads in built-in functions of what the analysis doesn't know
//! are told where the words ask for them, and else counted. The table covers every run of the
//! program, and an operation that goes wrong in some run is among the warnings. A page has the
//! files with each message at its place, and with a link for each call of a function of the files
//! (`AreLinks`).
#![tactic(auto)]

mod asking;
mod call_laws;
mod callers;
mod ending;
mod ending_laws;
mod files;
mod help;
mod links;
mod reading;
mod refusing;
mod reply;
mod telling;
mod top;

pub use call_laws::{
    calls_are_followed, calls_have_one_list, examples_of_messages, warnings_have_messages,
};
pub use ending_laws::{examples_of_endings, examples_of_names};
pub use files::{Files, Unread};
pub use help::{HELP, VERSION};
pub use reply::Status;
pub use top::lint;
