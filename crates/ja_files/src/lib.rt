//! Files, and their one text: several files are read as one program, and what is found at a place
//! of its text is told at the file and the place that it comes from.
//!
//! Each function is exactly its definition (`specs/Files.antt`, `specs/Lines.antt`). Laws
//! (`laws.rt`), of every list of files: a character of a file stands in the one text at a place
//! whose spot is that file, and the place of the character in it; so does the end of a file, unless
//! a CR is there that goes on to the LF behind it. What is in order in the one text is in order in
//! the files. A text has one line more than characters that end theirs, and each other character
//! stands in the line and at the column of its place.
#![tactic(auto)]

mod file;
mod joining;
mod laws;
mod lines;
mod spots;

pub use file::{File, Spot, unmarked};
pub use joining::joined;
pub use laws::{
    characters_are_found, examples_of_files, examples_of_lines, lines_are_counted,
    lines_hold_places, places_are_found, spots_keep_order,
};
pub use lines::{characters_of, ends_line, lines_of};
pub use spots::{first_lines, spot_of};
