//! The words of a call: the command that they ask for. What a command line is stands in
//! `specs/Words.antt`; clap reads the words, as one simple command with subcommands.
//!
//! - `asked` gives the command whose command line the words are, and `None` exactly where they are
//!   no command line. Want of memory alone is free.
//! - Words are the command line of one command at most (`words_ask_for_one_command`), and each
//!   command whose numbers are in range has one (`commands_have_words`).
#![tactic(auto)]

mod app;
mod command;
mod laws;
mod numbers;
mod reading;
mod words;

pub use command::{Budget, Command};
pub use laws::{
    commands_have_words, examples_of_numbers, examples_of_words, words_ask_for_one_command,
};
pub use reading::DEFAULT_BUDGET;
pub use words::asked;
