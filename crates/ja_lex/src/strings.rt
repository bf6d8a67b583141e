ghost use Rattle.std.specs.Prelude.{◌≡◌, ◌≤◌, ◌+◌, ◌++◌, true, length, IfOk, IfSome, OnOk};
ghost use Rattle.std.specs.Char.{digit_value};
ghost use Rattle.ja_prim.specs.Characters.{char_at, is_hexadecimal};
ghost use Rattle.ja_lex.specs.Spots.{max_bytes};
ghost use Rattle.ja_lex.specs.Strings as spec;

use crate::characters::{behind, char_at, is_digit, is_escape, is_hexadecimal, is_terminator};
use crate::element::Element;
use crate::item::Item;
use crate::kept::Texts;
use crate::marks::bad;
use crate::token::{TokenFault, TokenKind};
use ja_base::{ScopeKind, Seq};
use ja_prim::{MAX_UNITS, Text16, push_character};
use std::alloc::{AllocError, AllocFailed, Global};

/// What stands between the quotes of a string literal: its units, whether it has an octal escape,
/// and how many characters it is.
#[derive(Drop)]
pub struct Body {
    pub units: Seq<u16>,
    pub octal: bool,
    pub length: usize,
}

/// What `\` and a character stand for that is no digit, no x, no u and no line terminator.
#[tactic(auto, unfolding(crate::specs::Strings::escaped))]
fn escaped(c: char) -> char
    ensures { result ≡ spec.escaped c }
{
    match c {
        'b' => '\u{8}',
        't' => '\t',
        'n' => '\n',
        'v' => '\u{b}',
        'f' => '\u{c}',
        'r' => '\r',
        other => other,
    }
}

/// The value of a digit.
fn digit(c: char) -> u32
    ensures value { result ≡ digit_value c }
    ensures within { result ≤ 36 }
{
    c.to_digit(36).unwrap_or(36)
}

/// The number of the two hexadecimal digits from an index on.
#[tactic(auto, using(crate::proofs::Classed::hex_small))]
fn two_digits(text: &[char], index: usize) -> u16
    requires near { index ≤ 4 }
    requires first { is_hexadecimal (char_at text.now index) ≡ true }
    requires second { is_hexadecimal (char_at text.now (index + 1)) ≡ true }
    ensures value { result ≡ spec.two_digits text.now index }
    ensures within { result ≤ 255 }
{
    let first = digit(char_at(text, index)) as u16;
    let second = digit(char_at(text, index + 1)) as u16;
    16 * first + second
}

/// `\x` and two hexadecimal digits.
#[tactic(auto, unfolding(crate::specs::Strings::short_escape))]
fn short_escape(text: &[char]) -> Item
    ensures value { result ≡ spec.short_escape text.now }
    ensures within { spec.item_length result ≤ 6 }
{
    if is_hexadecimal(char_at(text, 2)) && is_hexadecimal(char_at(text, 3)) {
        Item::Unit {
            unit: two_digits(text, 2),
            length: 4,
        }
    } else {
        Item::Wrong
    }
}

/// `\u` and four hexadecimal digits.
#[tactic(auto, unfolding(crate::specs::Strings::long_escape))]
fn long_escape(text: &[char]) -> Item
    ensures value { result ≡ spec.long_escape text.now }
    ensures within { spec.item_length result ≤ 6 }
{
    if is_escape(text, 0) {
        Item::Unit {
            unit: 256 * two_digits(text, 2) + two_digits(text, 4),
            length: 6,
        }
    } else {
        Item::Wrong
    }
}

/// `\` and a digit.
#[tactic(auto, unfolding(crate::specs::Strings::digit_escape))]
fn digit_escape(text: &[char]) -> Item
    ensures value { result ≡ spec.digit_escape text.now }
    ensures within { spec.item_length result ≤ 6 }
{
    if char_at(text, 1) == '0' && !is_digit(char_at(text, 2)) {
        Item::Unit { unit: 0, length: 2 }
    } else {
        Item::Octal
    }
}

/// An item that begins with `\`.
#[tactic(auto, unfolding(crate::specs::Strings::escape))]
fn escape(text: &[char]) -> Item
    ensures value { result ≡ spec.escape text.now }
    ensures within { spec.item_length result ≤ 6 }
{
    let c = char_at(text, 1);
    if is_terminator(c) {
        Item::Wrong
    } else if c == 'x' {
        short_escape(text)
    } else if c == 'u' {
        long_escape(text)
    } else if is_digit(c) {
        digit_escape(text)
    } else {
        Item::Character {
            character: escaped(c),
            length: 2,
        }
    }
}

/// The first item of what stands behind an opening quote.
#[tactic(auto, unfolding(crate::specs::Strings::first_item))]
fn first_item(text: &[char]) -> Item
    ensures value { result ≡ spec.first_item text.now }
    ensures within { spec.item_length result ≤ 6 }
{
    let c = char_at(text, 0);
    if is_terminator(c) {
        Item::Wrong
    } else if c == '\\' {
        escape(text)
    } else {
        Item::Character {
            character: c,
            length: 1,
        }
    }
}

/// Whether an item is none.
fn is_wrong(item: Item) -> bool
    ensures { result ≡ spec.is_wrong item }
{
    match item {
        Item::Wrong => true,
        _ => false,
    }
}

/// Whether an item is an octal escape.
fn is_octal_item(item: Item) -> bool
    ensures { result ≡ spec.is_octal_item item }
{
    match item {
        Item::Octal => true,
        _ => false,
    }
}

/// How many characters an item is.
fn item_length(item: Item) -> usize
    ensures { result ≡ spec.item_length item }
{
    match item {
        Item::Character { length, .. } | Item::Unit { length, .. } => length,
        Item::Octal => 2,
        Item::Wrong => 1,
    }
}

/// Appends the units of an item.
fn push_item(units: &mut Vec<u16>, item: Item) -> Result<(), AllocFailed<u16>>
    ensures { OnOk result (units.new.items ≡ units.old.items ++ spec.item_units item) }
{
    match item {
        Item::Character { character, .. } => push_character(units, character),
        Item::Unit { unit, .. } => {
            units.push(unit)?;
            Ok(())
        }
        Item::Octal | Item::Wrong => Ok(()),
    }
}

/// What stands before the next quote, or `None` where an item is wrong or no quote comes.
fn read_body(alloc: Global, quote: char, text: &[char]) -> Result<Option<Body>, AllocFailed<u16>>
    requires { length text.now ≤ max_bytes }
    ensures value { IfOk result (λ body. body ≡ spec.body_after quote 0 text.now) }
    ensures within { IfOk result (λ body. IfSome body (λ b. b.length ≤ 100663296)) }
{
    let mut units = Vec::new(alloc);
    let mut octal = false;
    let mut count = 0;
    let mut rest = text;
    'items: while let [first, ..] = rest {
        if *first == quote {
            return Ok(Some(Body {
                units: Seq::from_vec(units),
                octal,
                length: count,
            }));
        }
        let item = first_item(rest);
        if is_wrong(item) {
            return Ok(None);
        }
        push_item(&mut units, item)?;
        octal = octal | is_octal_item(item);
        let length = item_length(item);
        count += length;
        rest = behind(rest, length.max(1));
    }
    Ok(None)
}

/// The string literal that the text begins with.
#[tactic(auto, unfolding(crate::specs::Strings::string))]
pub fn string(alloc: Global, texts: &mut Texts, text: &[char]) -> Result<Element, AllocError>
    requires { length text.now ≤ max_bytes }
    ensures { IfOk result (λ e. e ≡ spec.string text.now) }
{
    let body = read_body(alloc, char_at(text, 0), behind(text, 1))?;
    match body {
        None => Ok(bad(TokenFault::Lexical)),
        Some(
            Body {
                units,
                octal,
                length,
            },
        ) => {
            if octal {
                Ok(bad(TokenFault::Scope(ScopeKind::Octal)))
            } else if units.len() > MAX_UNITS {
                Ok(bad(TokenFault::Scope(ScopeKind::TextLength)))
            } else {
                let own = Text16::from_units(alloc, units.into_vec())?;
                Ok(Element::Token {
                    kind: TokenKind::Text(texts.shared(own)?),
                    length: length + 2,
                })
            }
        }
    }
}
