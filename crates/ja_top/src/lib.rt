//! The answers of the analyser: to a text and host devices (`analyse`, `find`, `run`), to a
//! certificate (`check`), and to words and a source (`tajs`). What is proved of each is stated from
//! `specs/Answers.antt` on.
//!
//! The clause `answered` of `tajs` (`top.rt`), by `IsAnswered` of `specs/Answers.antt`, says of all
//! words, sources, sinks and lists of devices:
//!
//! - **each status has its cause**. Want of memory (16) alone is free, and 3 and 4 come only where
//!   the source's or the sink's count of faults rose in this call; 3 and 5 only where the words ask
//!   for a command that reads, as all but `generate` do. Where none of these comes, it is 2 exactly
//!   where the words are no command line (`ja_words/specs/Words.antt`); 5 where more than 16,777,216
//!   bytes were left; 6 exactly where the bytes are no UTF-8, with the offset of the first byte that
//!   begins no character; 7, 8 and 9 exactly where the text isn't in the language, with the kind and
//!   the place that `ja_grammar` determines; 9 also exactly where it is in the language and has more
//!   than 4,096 functions, or else its graph and parameters are more than 65,536 nodes; 10 only where
//!   the budget's visits, which are printed, each changed the table and the last one isn't closed,
//!   so never where the budget is the height of the program or more (`answers_are_complete`); 11
//!   only of `check`, with why the text is no certificate (`ja_cert_read/specs/Certified.antt`), or
//!   why its table isn't closed; 12 to 15 only of a run, by its end.
//! - **what was taken** of the source (`taken`), whatever the status: nothing but by a command that
//!   reads, and by one that does no more than 16,777,217 bytes.
//! - **what was written**: after every status but 4 and 16 the text of that answer, whole, and the
//!   sink is finished; after 4 the front of the text of another answer whose cause holds; after 16
//!   nothing.
//! - **the report** (0 and 1 of `analyse`), or the certificate, or the summary of `generate`: that
//!   of the program of the bytes that were read, or generated, of the table that the printed visits
//!   build from the opening, each of them changing it, of these visits, no more than the budget, and
//!   of its warnings. The table is closed, the warnings are exactly those of the table, and 1 comes
//!   exactly where one of them is of a fault.
//! - **the report of a certificate** (0 and 1 of `check`): that of the program, the table and the
//!   visits in it, with whether the visits build the table. The table is closed, and the warnings
//!   are those of it. Nothing is assumed of the bytes.
//! - **the theorem** (`CoversRuns`, `WarnsOfFaults` of `ja_sound`): after every list of answers the
//!   state of the program's run lies in the meaning of the printed state at its node and context;
//!   an operation that goes wrong in some run has a warning; and no run is stuck (`NeverStuck`).
//! - **the transcript** (0, and 12 to 15, of `run`): that of the run of the program of the bytes
//!   that were read, of at most so many steps, where each step is given leave to go on, at a
//!   `for`-`in` the first of the names that the machine may take, and at a device the next of the
//!   answers that are written. The calls are those that the machine asked for, in order, with their
//!   arguments. The end is that of the last step, told in the heap of that step; or all steps were
//!   made and the run has a state behind them (15); or the run stands where a device is asked,
//!   which failed (12).
//! - **the devices**: each comes back, in its place, but for the one that failed where the
//!   transcript says so. What a device that tells it has heard is what the transcript says it
//!   answered, in order and with the arguments, and nothing else of it has changed. After 16 each
//!   comes back, and they have answered exactly the calls of some first steps of the run, or those
//!   of the whole run, the one that failed at its end among them (`MayBeLeft` in
//!   `specs/Runs.antt`). What is seen of one changes only in a `run`.
#![tactic(auto)]

mod analysis;
mod answer;
mod checking;
mod finding;
mod laws;
mod refusing;
mod request;
mod running;
mod status;
mod top;

pub use analysis::{analyse, is_fault};
pub use answer::Answer;
pub use checking::check;
pub use finding::{FindFault, Findings, find};
pub use laws::{answers_are_complete, heights_are_never_spent, limits_are_told};
pub use request::{Form, Request};
pub use running::run;
pub use status::Status;
pub use top::{MAX_BYTES, tajs, write_answer};

// what these take and give
pub use ja_base::{Failed, Memory, MemorySink, MemorySource, Sink, Source, StdSink, StdSource};
pub use ja_device::{CallFault, Device, Devices, DevicesFault, Heard, Scripted};
pub use ja_grammar::ParseFault;
pub use ja_graph::Program;
pub use ja_load::LoadFault;
pub use ja_prim::{Int, Kinds, Num, Primitive, Signature, Text16};
pub use ja_rows::{Item, Warning, WarningKind};
pub use ja_table::ATable;
pub use ja_warn::Told;
pub use ja_words::Budget;
