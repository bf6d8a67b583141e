//! Whether a text may be that of a value that is used as a key.

ghost use Rattle.std.specs.Prelude.{◌≡◌, IfOk, Ok};
ghost use Rattle.ja_prim.specs.Texts as spelled;
ghost use Rattle.ja_abstract.specs.Keys as spec;
ghost use Rattle.ja_value.specs.Value.{value_of};

use ja_abstract::NumberPart;
use ja_base::Memory;
use ja_prim::{Int, Num, Primitive, Text16, spells, to_num, to_text};
use ja_value::{AValue, is_index_text, same_text};
use std::alloc::Global;

/// The text of a whole number (ES3 9.8.1).
pub(crate) fn whole_text(alloc: Global, number: Int) -> Result<Text16, Memory>
    ensures { IfOk result (λ text. text ≡ spec.whole_text number) }
{
    match to_text(alloc, &Primitive::Number(Num::Whole(number))) {
        Ok(text) => Ok(text),
        Err(_) => Err(Memory),
    }
}

/// Whether a text is that of a whole number.
fn is_text_of(alloc: Global, number: Int, text: &Text16) -> Result<bool, Memory>
    ensures { IfOk result (λ b. b ≡ spelled.same_text (spec.whole_text number) text.now) }
{
    let written = whole_text(alloc, number)?;
    Ok(same_text(&written, text))
}

/// Whether a number is written as this text.
fn is_written_so(alloc: Global, number: Num, text: &Text16) -> Result<bool, Memory>
    ensures { IfOk result (λ b. b ≡ spec.is_written_so (Ok number) text.now) }
{
    match number {
        Num::Whole(whole) => is_text_of(alloc, whole, text),
        Num::NaN => Ok(false),
    }
}

/// Whether a text is that of a whole number of the profile, written as it is.
fn is_whole_text(alloc: Global, text: &Text16) -> Result<bool, Memory>
    ensures { IfOk result (λ b. b ≡ spec.is_whole_text text.now) }
{
    let primitive = Primitive::Text(text.copy()?);
    match to_num(&primitive) {
        Ok(number) => is_written_so(alloc, number, text),
        Err(_) => Ok(false),
    }
}

/// Whether a text is that of one of some numbers.
fn number_text_has(alloc: Global, part: NumberPart, text: &Text16) -> Result<bool, Memory>
    ensures { IfOk result (λ b. b ≡ spec.number_text_has part text.now) }
{
    match part {
        NumberPart::Nothing => Ok(false),
        NumberPart::One(number) => is_text_of(alloc, number, text),
        NumberPart::Index => Ok(is_index_text(text)),
        NumberPart::OtherWhole => {
            let is_whole = is_whole_text(alloc, text)?;
            Ok(is_whole && !is_index_text(text))
        }
        NumberPart::Whole => is_whole_text(alloc, text),
    }
}

/// Whether a value may have this text as a key: it is one of its texts, or that of one of its
/// numbers.
pub(crate) fn has_key_text(alloc: Global, value: &AValue, text: &Text16) -> Result<bool, Memory>
    ensures { IfOk result (λ b. b ≡ spec.has_key_text (value_of value.now) text.now) }
{
    let is_text = value.has_primitive(&Primitive::Text(text.copy()?));
    let is_number = number_text_has(alloc, value.number, text)?;
    let is_nan = value.flags.nan && spells(text.units(), b"NaN");
    Ok(is_text | (is_number | is_nan))
}
