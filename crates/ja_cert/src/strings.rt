//! Strings of a certificate: those of attributes, of texts and of names.

ghost use Rattle.std.specs.Prelude.{◌≡◌, ◌<◌, ◌++◌, [], ◌∷◌, false, true, OnOk, IfOk, string_bytes};
ghost use Rattle.std.specs.List.{flat_map, list_all};
ghost use Rattle.std.specs.Fmt.{digit_glyph};
ghost use lib.Chars.{codes};
ghost use Rattle.ja_prim.specs.Characters.{is_part};
ghost use Rattle.ja_texts.specs.Texts.{four_digits};
ghost use Rattle.ja_report.specs.Texts.{attr_text, attrs_text};

use ja_abstract::{AAttrs, Key, May};
use ja_base::Memory;
use std::alloc::Global;

/// Adds an ASCII character.
fn push_ascii(text: &mut String, c: u8) -> Result<(), Memory>
    requires { c < 128 }
    ensures { OnOk result (string_bytes text.new ≡ string_bytes text.old ++ c ∷ []) }
{
    text.push(char::from(c))?;
    Ok(())
}

// ---- names

/// A name, of ASCII letters, digits, `_` and `$`.
pub(crate) fn name_text(alloc: Global, units: &[u16]) -> Result<String, Memory>
    requires { list_all is_part units.now ≡ true }
    ensures { IfOk result (λ text. string_bytes text ≡ units.now) }
{
    let mut text = String::new(alloc);
    for unit in units {
        push_ascii(&mut text, *unit as u8)?;
    }
    Ok(text)
}

// ---- texts

/// A hexadecimal digit, in lower case.
fn glyph(digit: u16) -> u8
    requires { digit < 16 }
    ensures glyph { result ≡ digit_glyph false digit }
    ensures ascii { result < 128 }
{
    if digit < 10 {
        b'0' + digit as u8
    } else {
        b'a' + (digit as u8 - 10)
    }
}

/// Adds a unit as four hexadecimal digits.
fn push_unit(text: &mut String, unit: u16) -> Result<(), Memory>
    ensures { OnOk result (string_bytes text.new ≡ string_bytes text.old ++ four_digits unit) }
{
    push_ascii(text, glyph(unit / 4096 % 16))?;
    push_ascii(text, glyph(unit / 256 % 16))?;
    push_ascii(text, glyph(unit / 16 % 16))?;
    push_ascii(text, glyph(unit % 16))?;
    Ok(())
}

#[tactic(auto, using(crate::proofs::Rulesets::for_loops))]
fn push_units(text: &mut String, units: &[u16]) -> Result<(), Memory>
    ensures { OnOk result (string_bytes text.new ≡ string_bytes text.old
        ++ flat_map four_digits units.now) }
{
    for unit in units {
        push_unit(text, *unit)?;
    }
    Ok(())
}

/// A text: a `'`, and four hexadecimal digits a unit.
pub(crate) fn units_text(alloc: Global, units: &[u16]) -> Result<String, Memory>
    ensures { IfOk result (λ text. string_bytes text
        ≡ codes "'" ++ flat_map four_digits units.now) }
{
    let mut text = String::from_str(alloc, "'")?;
    push_units(&mut text, units)?;
    Ok(text)
}

// ---- attributes

fn attr_text(letter: u8, attr: May) -> u8
    requires { letter < 128 }
    ensures text { result ≡ attr_text letter attr }
    ensures ascii { result < 128 }
{
    match (attr.set, attr.unset) {
        (true, true) => b'?',
        (true, false) => letter,
        (false, true) => b'-',
        (false, false) => b'.',
    }
}

/// The attributes of a property, as a report has them.
#[tactic(auto, unfolding(ja_report::specs::Texts::attrs_text))]
pub(crate) fn attrs_text(alloc: Global, key: Key, attrs: AAttrs) -> Result<String, Memory>
    ensures { IfOk result (λ text. string_bytes text ≡ attrs_text key attrs) }
{
    if let Key::Slot(_) = key {
        return Ok(String::from_str(alloc, "...")?);
    }
    let mut text = String::new(alloc);
    push_ascii(&mut text, attr_text(b'R', attrs.read_only))?;
    push_ascii(&mut text, attr_text(b'E', attrs.dont_enum))?;
    push_ascii(&mut text, attr_text(b'D', attrs.dont_delete))?;
    Ok(text)
}
