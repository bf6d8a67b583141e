//! The words of a call of `tajs-lint`: what they ask for. What a command line is stands in
//! `specs/Words.antt`; clap reads the words, as one simple command with options and files.
//!
//! - `asked` gives what the command line that the words are asks for, and `None` exactly where they
//!   are no command line. Want of memory alone is free.
//! - Words ask for one thing at most (`words_ask_for_one_thing`), and whatever can be asked for has
//!   a command line (`everything_has_words`).
#![tactic(auto)]

mod app;
mod laws;
mod reading;
mod words;

pub use laws::{
    everything_has_words, examples_of_devices, examples_of_files, examples_of_words,
    words_ask_for_one_thing,
};
pub use words::{Words, asked};
