//! The lines of a text.

ghost use Rattle.std.specs.Prelude.{◌≡◌, ◌<◌, ◌^◌, IfOk, drop, length, map};
ghost use Rattle.std.specs.Str.{chars};
ghost use Rattle.ja_lex.specs.Spots as spots;
ghost use Rattle.ja_prim.specs.Characters as characters;
ghost use Rattle.ja_files.specs.Lines as spec;

use ja_base::Memory;
use std::alloc::{AllocError, Global};

/// The characters of a text. `AllocError` comes where memory was refused.
pub fn characters_of(alloc: Global, text: &str) -> Result<Vec<char>, AllocError>
    ensures { IfOk result (λ characters. characters.items ≡ chars text.now) }
{
    let characters: Vec<char> = text.chars().collect(alloc)?;
    Ok(characters)
}

// The character at an index, or U+0000 where there is none.
fn char_at(text: &[char], index: usize) -> char
    ensures { result ≡ characters.char_at text.now index }
{
    text.get(index).copied().unwrap_or('\0')
}

/// Whether the character at an index ends its line (ES3 7.3): of CR LF the LF alone ends it.
#[tactic(auto, unfolding(ja_lex::specs::Spots::ends_line, ja_prim::specs::Characters::is_terminator))]
pub fn ends_line(text: &[char], index: usize) -> bool
    requires { index < length text.now }
    ensures { result ≡ spots.ends_line (drop index text.now) }
{
    let rest = &text[index..];
    match char_at(rest, 0) {
        '\n' | '\u{2028}' | '\u{2029}' => true,
        '\r' => char_at(rest, 1) != '\n',
        _ => false,
    }
}

/// How many of some characters end their line.
pub(crate) fn endings(text: &[char]) -> u32
    requires { length text.now < 2 ^ 32 }
    ensures { result ≡ spec.endings text.now }
{
    let mut count = 0;
    for index in 0..text.len() {
        if ends_line(text, index) {
            count += 1;
        }
    }
    count
}

/// The lines of some characters, without those that end them. `Memory` comes where memory was
/// refused.
pub fn lines_of<'a>(alloc: Global, text: &'a [char]) -> Result<Vec<&'a [char]>, Memory>
    ensures { IfOk result (λ lines. map (λ line. line.now) lines.items ≡ spec.lines_of text.now) }
{
    let mut lines = Vec::new(alloc);
    let mut start = 0;
    for index in 0..text.len() {
        if ends_line(text, index) {
            lines.push(&text[start..index])?;
            start = index + 1;
        }
    }
    lines.push(&text[start..])?;
    Ok(lines)
}
