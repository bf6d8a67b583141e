//! Words: by position among some, numbers behind `=`, and texts behind `'`.

ghost use Rattle.std.specs.Prelude.{◌≡◌, ◌<◌, ◌&&◌, [], ◌∷◌, IfOk, MatchOption, map, true, false};
ghost use Rattle.std.specs.Fmt.{digit_glyph};
ghost use Rattle.std.specs.List.{flat_map, list_all};
ghost use Rattle.ja_prim.specs.Texts.{same_text};
ghost use Rattle.ja_texts.specs.Texts.{four_digits};
ghost use Rattle.ja_abstract.specs.Keys.{is_whole_text, is_written_so, whole_text};
ghost use Rattle.ja_cert.specs.Wrong.{are_units, here_unless, is_lower_hexadecimal, is_multiple_of_four, position};
ghost use Rattle.ja_cert_parts.specs.code.Reading.{Reads};

use crate::fault::{Fault, here};
use ja_base::Memory;
use ja_prim::{Int, MAX_UNITS, Num, Primitive, Text16, to_num, to_text};
use std::alloc::Global;

/// The position of a word among some, if it is one of them.
pub fn position(words: &[&'static str], word: &str) -> Option<usize>
    ensures { result ≡ position (map (λ w. w.now) words.now) word.now }
{
    for (place, other) in words.iter().enumerate() {
        if *other == word {
            return Some(place);
        }
    }
    None
}

/// A whole number, if it is written so.
fn whole_written(alloc: Global, number: Int, text: &Text16) -> Result<Option<Int>, Memory>
    ensures { IfOk result (λ o. MatchOption o
        (same_text (whole_text number) text.now ≡ false)
        (λ z. (same_text (whole_text number) text.now ≡ true) × (z ≡ number))) }
{
    let Ok(written) = to_text(alloc, &Primitive::Number(Num::Whole(number))) else {
        return Err(Memory);
    };
    if written.units() == text.units() {
        Ok(Some(number))
    } else {
        Ok(None)
    }
}

/// A number, if it is a whole one that is written so.
fn written(alloc: Global, number: Num, text: &Text16) -> Result<Option<Int>, Memory>
    ensures { IfOk result (λ o. MatchOption o (is_written_so (Ok number) text.now ≡ false)
        (λ z. (is_written_so (Ok number) text.now ≡ true) × (whole_text z ≡ text.now))) }
{
    match number {
        Num::Whole(whole) => whole_written(alloc, whole, text),
        Num::NaN => Ok(None),
    }
}

/// The number that a text says, if it is one of the profile that is written so.
fn number_said(alloc: Global, text: Text16) -> Result<Option<Int>, Memory>
    ensures { IfOk result (λ o. MatchOption o (is_whole_text text ≡ false)
        (λ z. (is_whole_text text ≡ true) × (whole_text z ≡ text))) }
{
    let said = to_num(&Primitive::Text(text.copy()?));
    match said {
        Ok(number) => written(alloc, number, &text),
        Err(_) => Ok(None),
    }
}

/// The number of the profile that is written so, if there is one.
#[tactic(auto, using(crate::proofs::WholeLemmas::whole_text_short))]
fn number_of(alloc: Global, digits: &[u8]) -> Result<Option<Int>, Memory>
    ensures { IfOk result (λ o. MatchOption o (is_whole_text digits.now ≡ false)
        (λ z. (is_whole_text digits.now ≡ true) × (whole_text z ≡ digits.now))) }
{
    if digits.len() > MAX_UNITS {
        return Ok(None);
    }
    let text = Text16::from_ascii(alloc, digits)?;
    number_said(alloc, text)
}

/// Reads the digits of a number.
#[tactic(auto, unfolding(crate::specs::code::Reading::Tells))]
pub fn read_number(alloc: Global, digits: &[u8]) -> Result<Int, Fault>
    ensures { Reads (here_unless (is_whole_text digits.now))
        (λ z. whole_text z ≡ digits.now) result }
{
    match number_of(alloc, digits)? {
        Some(number) => Ok(number),
        None => Err(here(alloc)),
    }
}

/// What a hexadecimal digit stands for, in lower case.
fn digit(byte: u8) -> Option<u16>
    ensures { MatchOption result (is_lower_hexadecimal byte ≡ false) (λ n. (n < 16)
        × ((digit_glyph false n ≡ byte) × (is_lower_hexadecimal byte ≡ true))) }
{
    match byte {
        b'0'..=b'9' => Some(u16::from(byte - b'0')),
        b'a'..=b'f' => Some(u16::from(byte - b'a') + 10),
        _ => None,
    }
}

/// The unit of four hexadecimal digits.
fn unit(a: u8, b: u8, c: u8, d: u8) -> Option<u16>
    ensures { MatchOption result
        (list_all is_lower_hexadecimal (a ∷ b ∷ c ∷ d ∷ []) ≡ false)
        (λ u. (list_all is_lower_hexadecimal (a ∷ b ∷ c ∷ d ∷ []) ≡ true)
        × (four_digits u ≡ a ∷ b ∷ c ∷ d ∷ [])) }
{
    let first = digit(a)?;
    let second = digit(b)?;
    let third = digit(c)?;
    let fourth = digit(d)?;
    Some(first * 4096 + second * 256 + third * 16 + fourth)
}

/// The units of hexadecimal digits, four a unit, if they are that.
fn units(alloc: Global, digits: &[u8]) -> Result<Option<Vec<u16>>, Memory>
    ensures { IfOk result (λ o. MatchOption o
        ((list_all is_lower_hexadecimal digits.now && is_multiple_of_four digits.now) ≡ false)
        (λ units. ((list_all is_lower_hexadecimal digits.now
        && is_multiple_of_four digits.now) ≡ true)
        × (flat_map four_digits units.items ≡ digits.now))) }
{
    let mut units = Vec::new(alloc);
    let mut rest = digits;
    'rest: while let [a, b, c, d, more @ ..] = rest {
        let Some(next) = unit(*a, *b, *c, *d) else {
            return Ok(None);
        };
        units.push(next)?;
        rest = more;
    }
    if rest.is_empty() {
        Ok(Some(units))
    } else {
        Ok(None)
    }
}

/// Reads the units of a text.
#[tactic(auto, unfolding(crate::specs::code::Reading::Tells))]
pub fn read_text(alloc: Global, digits: &[u8]) -> Result<Text16, Fault>
    ensures { Reads (here_unless (are_units digits.now))
        (λ t. flat_map four_digits t ≡ digits.now) result }
{
    if digits.len() > 4 * MAX_UNITS {
        return Err(here(alloc));
    }
    match units(alloc, digits)? {
        Some(units) => Ok(Text16::from_units(alloc, units)?),
        None => Err(here(alloc)),
    }
}
