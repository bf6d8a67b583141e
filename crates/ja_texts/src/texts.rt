//! Writers of numbers, places and strings.

ghost use Rattle.std.specs.Prelude.{◌≡◌, ◌<◌, ◌++◌, false, OnOk, decimal};
ghost use Rattle.std.specs.Fmt.{signed_decimal, digit_glyph};
ghost use lib.Chars.{codes};
ghost use Rattle.ja_texts.specs.Texts.{place_text, four_digits, plain_unit, unit_text, plain, units_text, quoted};

use itoa::Buffer;
use ja_base::{Memory, Place};

/// A number in decimal digits.
pub fn push_number(text: &mut Vec<u8>, n: u64) -> Result<(), Memory>
    ensures { OnOk result (text.new.items ≡ text.old.items ++ decimal n) }
{
    let mut buffer = Buffer::new();
    text.extend_from_slice(buffer.format(n).as_bytes())?;
    Ok(())
}

/// A number in decimal digits, behind `-` where it is below 0.
pub fn push_signed(text: &mut Vec<u8>, n: i64) -> Result<(), Memory>
    ensures { OnOk result (text.new.items ≡ text.old.items ++ signed_decimal n) }
{
    let mut buffer = Buffer::new();
    text.extend_from_slice(buffer.format(n).as_bytes())?;
    Ok(())
}

/// A place: its line, `:` and its column.
#[tactic(auto, unfolding(crate::specs::Texts::place_text))]
pub fn push_place(text: &mut Vec<u8>, place: Place) -> Result<(), Memory>
    ensures { OnOk result (text.new.items ≡ text.old.items ++ place_text place) }
{
    push_number(text, u64::from(place.line))?;
    text.push(b':')?;
    push_number(text, u64::from(place.column))?;
    Ok(())
}

/// A hexadecimal digit, in lower case.
fn glyph(digit: u16) -> u8
    requires { digit < 16 }
    ensures { result ≡ digit_glyph false digit }
{
    if digit < 10 {
        b'0' + digit as u8
    } else {
        b'a' + (digit as u8 - 10)
    }
}

/// The escape of a unit.
fn escape(unit: u16) -> [u8; 6]
    ensures { result ≡ codes "\\u" ++ four_digits unit }
{
    [
        b'\\',
        b'u',
        glyph(unit / 4096 % 16),
        glyph(unit / 256 % 16),
        glyph(unit / 16 % 16),
        glyph(unit % 16),
    ]
}

/// A unit, behind a `\u` where it is not from 0x20 to 0x7E.
fn push_plain_unit(text: &mut Vec<u8>, unit: u16) -> Result<(), Memory>
    ensures { OnOk result (text.new.items ≡ text.old.items ++ plain_unit unit) }
{
    if 32 <= unit && unit <= 126 {
        text.push(unit as u8)?;
        return Ok(());
    }
    text.extend_from_slice(&escape(unit))?;
    Ok(())
}

/// A unit in quotes.
fn push_unit(text: &mut Vec<u8>, unit: u16) -> Result<(), Memory>
    ensures { OnOk result (text.new.items ≡ text.old.items ++ unit_text unit) }
{
    if unit == 34 || unit == 92 {
        text.extend_from_slice(&[b'\\', unit as u8])?;
        return Ok(());
    }
    push_plain_unit(text, unit)
}

/// A string without quotes, with its units as they stand but for those not from 0x20 to 0x7E.
#[tactic(auto, using(crate::proofs::Rulesets::for_push_plain), unfolding(crate::specs::Texts::plain))]
pub fn push_plain(text: &mut Vec<u8>, units: &[u16]) -> Result<(), Memory>
    ensures { OnOk result (text.new.items ≡ text.old.items ++ plain units.now) }
{
    for unit in units {
        push_plain_unit(text, *unit)?;
    }
    Ok(())
}

/// The units of a string as they stand between its quotes.
#[tactic(auto, using(crate::proofs::Rulesets::for_push_plain), unfolding(crate::specs::Texts::units_text))]
pub fn push_units(text: &mut Vec<u8>, units: &[u16]) -> Result<(), Memory>
    ensures { OnOk result (text.new.items ≡ text.old.items ++ units_text units.now) }
{
    for unit in units {
        push_unit(text, *unit)?;
    }
    Ok(())
}

/// A string in double quotes.
#[tactic(auto, unfolding(crate::specs::Texts::quoted))]
pub fn push_quoted(text: &mut Vec<u8>, units: &[u16]) -> Result<(), Memory>
    ensures { OnOk result (text.new.items ≡ text.old.items ++ quoted units.now) }
{
    text.push(b'"')?;
    push_units(text, units)?;
    text.push(b'"')?;
    Ok(())
}
