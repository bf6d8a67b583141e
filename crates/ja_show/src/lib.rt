//! How messages about files are shown: lines that editors read, with the line of the file and a
//! caret (`messages_text`), and a page with the files in which they are marked (`page_text`).
//!
//! Each is exactly the text of its definition (`specs/Messages.antt`, `specs/Page.antt`): every
//! message once, in the order in which they are given, at its file and place. Laws of pages
//! (`laws_of_pages.rt`): where no calls are shown, what stands between the tags is the text, and a
//! text in HTML begins and ends no tag.
#![tactic(auto)]

mod laws;
mod laws_of_pages;
mod lines;
mod message;
mod messages;
mod names;
mod page;
mod style;

pub use laws::{examples_of_excerpts, examples_of_messages};
pub use laws_of_pages::{
    escaped_texts_are_plain, examples_of_pages, marks_are_tags, pages_fetch_nothing,
};
pub use lines::line_at;
pub use message::{Level, Link, Message, Rule};
pub use messages::{messages_text, others, sources_of, standing};
pub use names::{shown_name, texts_of};
pub use page::page_text;
pub use style::{HEAD, STYLE};
