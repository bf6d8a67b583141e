//! What is shown of the lines of a text.

ghost use Rattle.std.specs.Prelude.{◌≡◌, ◌++◌, OnOk, drop, map, take};
ghost use Rattle.std.specs.List.{flat_map};
ghost use Rattle.ja_files.specs.Lines as files;
ghost use Rattle.ja_show.specs.Lines as spec;

use ja_base::{Memory, Place};
use unicode_width::UnicodeWidthChar;

// The most characters of a line that are shown.
const MOST_SHOWN: usize = 100;

// Whether a character isn't shown as it is.
fn is_hidden(c: char) -> bool
    ensures { result ≡ spec.is_hidden c }
{
    c.width().is_none()
        || c == '\u{61c}'
        || ('\u{200e}' <= c && c <= '\u{200f}')
        || ('\u{202a}' <= c && c <= '\u{202e}')
        || ('\u{2066}' <= c && c <= '\u{2069}')
}

/// The bytes of a character as it is shown.
#[tactic(auto, unfolding(crate::specs::Lines::shown))]
pub(crate) fn shown<'a>(c: char, buffer: &'a mut [u8; 4]) -> &'a [u8]
    ensures { result.now ≡ spec.shown c }
{
    match c {
        '\t' => b"\t",
        '\r' => b"",
        _ => {
            let c = if is_hidden(c) { '\u{fffd}' } else { c };
            c.encode_utf8(buffer).as_bytes()
        }
    }
}

/// Adds some characters as they are shown.
#[tactic(auto, using(ja_texts::proofs::Rulesets::for_push_plain))]
pub(crate) fn push_shown(out: &mut Vec<u8>, characters: &[char]) -> Result<(), Memory>
    ensures { OnOk result (out.new.items ≡ out.old.items ++ flat_map spec.shown characters.now) }
{
    for c in characters {
        let mut buffer = [0; 4];
        out.extend_from_slice(shown(*c, &mut buffer))?;
    }
    Ok(())
}

// The blanks below a character.
#[tactic(auto, unfolding(crate::specs::Lines::blanks))]
fn blanks(c: char) -> &'static [u8]
    ensures { result.now ≡ spec.blanks c }
{
    match c {
        '\t' => b"\t",
        '\r' => b"",
        _ => {
            if is_hidden(c) {
                return b" ";
            }
            match c.width() {
                Some(width) => &b"   "[..width],
                None => b" ",
            }
        }
    }
}

// Adds the blanks below some characters.
#[tactic(auto, using(ja_texts::proofs::Rulesets::for_push_plain))]
fn push_blanks(out: &mut Vec<u8>, characters: &[char]) -> Result<(), Memory>
    ensures { OnOk result (out.new.items ≡ out.old.items ++ flat_map spec.blanks characters.now) }
{
    for c in characters {
        out.extend_from_slice(blanks(*c))?;
    }
    Ok(())
}

// How many characters of a line aren't shown in front of those that are.
fn skipped(column: u32) -> usize
    ensures { result ≡ spec.skipped column }
{
    if column <= 80 {
        0
    } else {
        (column - 60) as usize
    }
}

// Some elements, but for so many in front, and no more than so many.
fn part(line: &[char], first: usize, most: usize) -> &[char]
    ensures { result.now ≡ take most (drop first line.now) }
{
    let start = first.min(line.len());
    let rest = &line[start..];
    &rest[..most.min(rest.len())]
}

// Adds the line as it is shown.
#[tactic(auto, unfolding(crate::specs::Lines::shown_line))]
fn push_line(out: &mut Vec<u8>, line: &[char], column: u32) -> Result<(), Memory>
    ensures { OnOk result (out.new.items ≡ out.old.items ++ spec.shown_line line.now column) }
{
    let first = skipped(column);
    if first != 0 {
        out.extend_from_slice(b"...")?;
    }
    push_shown(out, part(line, first, MOST_SHOWN))?;
    if first + MOST_SHOWN < line.len() {
        out.extend_from_slice(b"...")?;
    }
    out.push(b'\n')?;
    Ok(())
}

// Adds the line with the caret.
#[tactic(auto, unfolding(crate::specs::Lines::caret_line))]
fn push_caret(out: &mut Vec<u8>, line: &[char], column: u32) -> Result<(), Memory>
    ensures { OnOk result (out.new.items ≡ out.old.items ++ spec.caret_line line.now column) }
{
    let first = skipped(column);
    if first != 0 {
        out.extend_from_slice(b"   ")?;
    }
    let before = (column as usize).saturating_sub(1).saturating_sub(first);
    push_blanks(out, part(line, first, before))?;
    out.extend_from_slice(b"^\n")?;
    Ok(())
}

/// The line with a number, from 1, or an empty one where there is none.
pub fn line_at<'a>(lines: &[&'a [char]], number: u32) -> &'a [char]
    ensures { result.now ≡ files.line_at (map (λ line. line.now) lines.now) number }
{
    match lines.get((number as usize).saturating_sub(1)) {
        Some(line) => line,
        None => &[],
    }
}

/// Adds the line of a place, as far as it is near the place, and a caret below it.
#[tactic(auto, unfolding(crate::specs::Lines::excerpt))]
pub(crate) fn push_excerpt(out: &mut Vec<u8>, lines: &[&[char]], place: Place) -> Result<(), Memory>
    ensures { OnOk result (out.new.items ≡ out.old.items
        ++ spec.excerpt (map (λ line. line.now) lines.now) place) }
{
    let line = line_at(lines, place.line);
    push_line(out, line, place.column)?;
    push_caret(out, line, place.column)
}
