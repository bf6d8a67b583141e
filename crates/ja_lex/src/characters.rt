ghost use Rattle.std.specs.Prelude.{◌≡◌, ◌≤◌, true, drop, length, IfOk};
ghost use Rattle.std.specs.List.{list_all, prefix_len, take_while};
ghost use Rattle.ja_prim.specs.Characters as spec;
ghost use Rattle.ja_lex.specs.code.Classes.{passes};

use ja_prim::units_of;
use std::alloc::{AllocFailed, Global};

/// The character at an index, NUL past the end.
pub fn char_at(text: &[char], index: usize) -> char
    ensures { result ≡ spec.char_at text.now index }
{
    if index < text.len() {
        text[index]
    } else {
        '\0'
    }
}

/// The characters behind the first `count`.
pub fn behind(text: &[char], count: usize) -> &[char]
    ensures value { result.now ≡ drop count text.now }
    ensures within { length result.now ≤ length text.now }
{
    if count <= text.len() {
        &text[count..]
    } else {
        &[]
    }
}

/// Whether a character is a line terminator (ES3 7.3).
#[tactic(auto, unfolding(ja_prim::specs::Characters::is_terminator))]
pub fn is_terminator(c: char) -> bool
    ensures { result ≡ spec.is_terminator c }
{
    c == '\n' || c == '\r' || c == '\u{2028}' || c == '\u{2029}'
}

/// Whether a character is white space (ES3 7.2).
#[tactic(auto, unfolding(ja_prim::specs::Characters::is_white))]
pub fn is_white(c: char) -> bool
    ensures { result ≡ spec.is_white c }
{
    c == '\t'
        || c == '\u{b}'
        || c == '\u{c}'
        || c == ' '
        || c == '\u{a0}'
        || c == '\u{1680}'
        || (c >= '\u{2000}' && c <= '\u{200a}')
        || c == '\u{202f}'
        || c == '\u{205f}'
        || c == '\u{3000}'
}

/// Whether a character is a decimal digit.
pub fn is_digit(c: char) -> bool
    ensures { result ≡ spec.is_digit c }
{
    c.is_ascii_digit()
}

/// Whether a character is a hexadecimal digit.
#[tactic(auto, unfolding(ja_prim::specs::Characters::is_hexadecimal))]
pub fn is_hexadecimal(c: char) -> bool
    ensures { result ≡ spec.is_hexadecimal c }
{
    c.is_ascii_hexdigit()
}

/// Whether an identifier may go on with a character.
#[tactic(auto, unfolding(ja_prim::specs::Characters::is_part))]
pub fn is_part(c: char) -> bool
    ensures { result ≡ spec.is_part c }
{
    c.is_ascii_alphanumeric() || c == '_' || c == '$'
}

/// Whether `\u` and four hexadecimal digits stand at an index.
#[tactic(auto, unfolding(ja_prim::specs::Characters::is_escape))]
pub fn is_escape(text: &[char], index: usize) -> bool
    requires { index ≤ 67108864 }
    ensures { result ≡ spec.is_escape text.now index }
{
    char_at(text, index) == '\\'
        && char_at(text, index + 1) == 'u'
        && is_hexadecimal(char_at(text, index + 2))
        && is_hexadecimal(char_at(text, index + 3))
        && is_hexadecimal(char_at(text, index + 4))
        && is_hexadecimal(char_at(text, index + 5))
}

/// A class of characters.
#[derive(Clone, Copy)]
pub enum Class {
    /// All but line terminators.
    InLine,
    /// What identifiers are made of.
    Part,
    Digit,
    Hexadecimal,
}

/// Whether a character is of a class.
#[tactic(auto, unfolding(crate::specs::Blanks::is_in_line))]
fn passes(class: Class, c: char) -> bool
    ensures { result ≡ passes class c }
{
    match class {
        Class::InLine => !is_terminator(c),
        Class::Part => is_part(c),
        Class::Digit => is_digit(c),
        Class::Hexadecimal => is_hexadecimal(c),
    }
}

/// How many characters at the beginning are of a class.
pub fn run_length(class: Class, text: &[char]) -> usize
    ensures value { result ≡ prefix_len (passes class) text.now }
    ensures within { result ≤ length text.now }
{
    for (i, c) in text.iter().enumerate() {
        if !passes(class, *c) {
            return i;
        }
    }
    text.len()
}

/// The longest beginning of characters of a class.
pub fn run(class: Class, text: &[char]) -> &[char]
    ensures value { result.now ≡ take_while (passes class) text.now }
    ensures within { length result.now ≤ length text.now }
{
    &text[..run_length(class, text)]
}

/// The units of characters of ASCII.
#[tactic(auto, using(crate::proofs::Classed::ascii_units))]
pub fn units(alloc: Global, text: &[char]) -> Result<Vec<u16>, AllocFailed<u16>>
    requires { list_all spec.is_ascii text.now ≡ true }
    ensures { IfOk result (λ units. units.items ≡ text.now) }
{
    units_of(alloc, text)
}
