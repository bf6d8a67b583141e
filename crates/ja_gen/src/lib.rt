//! The programs by which anybody can see what the analysis costs: as many classes as are asked for,
//! each with a method, an object and a call, and one function that every result goes through.
//!
//! `generate` gives exactly the program of its number (`specs/Generated.antt`), as a text of less
//! than 32,768 bytes; the first one is written out (`the_first_is_written_out`). Want of memory
//! alone is free.
#![tactic(auto)]

mod generating;
mod laws;

pub use generating::generate;
pub use laws::the_first_is_written_out;
