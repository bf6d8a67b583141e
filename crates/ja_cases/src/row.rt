//! The texts of rows. Behind a `%` stands a character by its hexadecimal number and `;`, or a part
//! that is repeated, as in `%(3 ab%)` for `ababab`. A `%` at the end is nothing.

use std::alloc::Global;

/// Adds a part so many times.
fn add_repeated(text: &mut String, count: u32, part: &str) {
    for _ in 0..count {
        let _ = text.push_str(part);
    }
}

/// Adds a character.
fn add_character(text: &mut String, number: &str) {
    if let Ok(number) = u32::from_str_radix(number, 16) {
        if let Some(character) = char::from_u32(number) {
            let _ = text.push(character);
        }
    }
}

/// Adds what stands behind a `%`.
fn add(text: &mut String, part: &str) {
    if let Some(part) = part.strip_prefix(')') {
        let _ = text.push_str(part);
    } else if let Some(part) = part.strip_prefix('(') {
        if let Some((count, part)) = part.split_once(' ') {
            if let Ok(count) = count.parse::<u32>() {
                add_repeated(text, count, part);
            }
        }
    } else if let Some((number, part)) = part.split_once(';') {
        add_character(text, number);
        let _ = text.push_str(part);
    }
}

/// The text of a row.
pub fn text_of(alloc: Global, row: &str) -> String {
    let mut text = String::new(alloc);
    let mut is_first = true;
    for part in row.split('%') {
        if is_first {
            let _ = text.push_str(part);
        } else {
            add(&mut text, part);
        }
        is_first = false;
    }
    text
}
