ghost use Rattle.std.specs.Prelude.{◌≡◌, ◌≢◌, ◌≤◌, ◌↔◌, ℕ, List, IsTrue, IfOk, IfSome, is_some, unwrap_or, true, false};
ghost use Rattle.ja_prim.specs.Index.{is_index_text};
ghost use Rattle.ja_abstract.specs.AbstractValue.{has_text, text_class, join_text_classes, join_texts};
ghost use Rattle.ja_abstract.specs.Parts.{text_has};
ghost use Rattle.ja_abstract.specs.Profile.{IsTextOfProfile};
ghost use Rattle.ja_abstract.specs.Rank.{text_rank};
ghost use Rattle.ja_abstract.specs.declared.abstraction.TextPart.TheVariants as text_part;

use crate::profile::text_of_profile;
use ja_abstract::TextPart;
use ja_base::Memory;
use ja_prim::{Text16, array_index};
use std::alloc::Global;

/// Whether a text is the decimal text of an array index (ES3 15.4).
pub fn is_index_text(text: &Text16) -> bool
    ensures { result ≡ is_index_text text.now }
{
    array_index(text).is_some()
}

/// Whether two texts are the same.
pub fn same_text(a: &Text16, b: &Text16) -> bool
    ensures { IsTrue result ↔ (a.now ≡ b.now) }
{
    a.units() == b.units()
}

/// The same text part once more. The text is shared, so that it takes no memory.
pub fn copy_text_part(alloc: Global, part: &TextPart) -> Result<TextPart, Memory>
    ensures { IfOk result (λ p. p ≡ part.now) }
{
    match part {
        TextPart::Nothing => Ok(TextPart::Nothing),
        TextPart::One(text) => {
            let text = text.copy()?;
            Ok(TextPart::One(text))
        }
        TextPart::IndexText => Ok(TextPart::IndexText),
        TextPart::OtherText => Ok(TextPart::OtherText),
        TextPart::Text => Ok(TextPart::Text),
    }
}

/// The class of a text part: a constant's, or the part itself.
pub fn text_class(part: &TextPart) -> TextPart
    ensures { result ≡ text_class part.now }
{
    match part {
        TextPart::Nothing => TextPart::Nothing,
        TextPart::One(text) => {
            if is_index_text(text) {
                TextPart::IndexText
            } else {
                TextPart::OtherText
            }
        }
        TextPart::IndexText => TextPart::IndexText,
        TextPart::OtherText => TextPart::OtherText,
        TextPart::Text => TextPart::Text,
    }
}

/// The least class that holds two classes, neither of them `Nothing`.
fn join_text_classes(a: &TextPart, b: &TextPart) -> TextPart
    ensures { result ≡ join_text_classes a.now b.now }
{
    match a {
        TextPart::IndexText => match b {
            TextPart::IndexText => TextPart::IndexText,
            _ => TextPart::Text,
        },
        TextPart::OtherText => match b {
            TextPart::OtherText => TextPart::OtherText,
            _ => TextPart::Text,
        },
        _ => TextPart::Text,
    }
}

/// A constant joined with a part.
fn join_one(alloc: Global, text: &Text16, part: &TextPart) -> Result<TextPart, Memory>
    ensures { IfOk result (λ p. p ≡ join_texts (text_part.One text.now) part.now) }
{
    let class = class_of_text(text);
    match part {
        TextPart::Nothing => Ok(TextPart::One(text.copy()?)),
        TextPart::One(other) => {
            if same_text(text, other) {
                return Ok(TextPart::One(text.copy()?));
            }
            Ok(join_text_classes(&class, &class_of_text(other)))
        }
        _ => Ok(join_text_classes(&class, part)),
    }
}

/// The class of a text.
fn class_of_text(text: &Text16) -> TextPart
    ensures { result ≡ text_class (text_part.One text.now) }
{
    if is_index_text(text) {
        TextPart::IndexText
    } else {
        TextPart::OtherText
    }
}

/// The least text part that holds two.
pub fn join_texts(alloc: Global, a: &TextPart, b: &TextPart) -> Result<TextPart, Memory>
    ensures { IfOk result (λ p. p ≡ join_texts a.now b.now) }
{
    match a {
        TextPart::Nothing => copy_text_part(alloc, b),
        TextPart::One(text) => join_one(alloc, text, b),
        _ => match b {
            TextPart::Nothing => copy_text_part(alloc, a),
            _ => Ok(join_text_classes(a, &text_class(b))),
        },
    }
}

/// Whether two text parts are the same.
pub fn same_texts(a: &TextPart, b: &TextPart) -> bool
    ensures { IsTrue result ↔ (a.now ≡ b.now) }
{
    match a {
        TextPart::Nothing => matches!(b, TextPart::Nothing),
        TextPart::One(text) => match b {
            TextPart::One(other) => same_text(text, other),
            _ => false,
        },
        TextPart::IndexText => matches!(b, TextPart::IndexText),
        TextPart::OtherText => matches!(b, TextPart::OtherText),
        TextPart::Text => matches!(b, TextPart::Text),
    }
}

/// Whether a text is there.
pub fn has_text(part: &TextPart) -> bool
    ensures { result ≡ has_text part.now }
{
    !matches!(part, TextPart::Nothing)
}

/// Whether another text part has each text of a first.
pub fn leq_texts(part: &TextPart, other: &TextPart) -> bool
    ensures { IsTrue result ↔ (join_texts other.now part.now ≡ other.now) }
{
    if !has_text(part) {
        return true;
    }
    match other {
        TextPart::Nothing => false,
        TextPart::One(_) => same_texts(part, other),
        _ => same_texts(&join_text_classes(other, &text_class(part)), other),
    }
}

/// Whether a text is among a text part.
pub fn text_has(part: &TextPart, text: &Text16) -> bool
    ensures { result ≡ text_has part.now text.now }
{
    match part {
        TextPart::Nothing => false,
        TextPart::One(one) => one.units() == text.units(),
        TextPart::IndexText => is_index_text(text),
        TextPart::OtherText => !is_index_text(text),
        TextPart::Text => true,
    }
}

/// How much of a text part is known: 0 for none, 1 for one text, 2 for a class, 3 for all.
pub fn text_rank(part: &TextPart) -> u64
    ensures value { result ≡ text_rank part.now }
    ensures small { result ≤ 3 }
{
    match part {
        TextPart::Nothing => 0,
        TextPart::One(_) => 1,
        TextPart::IndexText | TextPart::OtherText => 2,
        TextPart::Text => 3,
    }
}

/// The least text part that holds two, where it isn't the first.
pub fn changed_text(
    alloc: Global,
    part: &TextPart,
    other: &TextPart,
) -> Result<Option<TextPart>, Memory>
    ensures joined { IfOk result (λ o. unwrap_or o part.now ≡ join_texts part.now other.now) }
    ensures changed { IfOk result (λ o. IfSome o (λ t. t ≢ part.now)) }
{
    if leq_texts(other, part) {
        return Ok(None);
    }
    let joined = join_texts(alloc, part, other)?;
    Ok(Some(joined))
}

/// Puts a text part in the place of another, if there is one, and tells whether there is.
pub fn replace_text(part: &mut TextPart, new: Option<TextPart>) -> bool
    ensures replaced { part.new ≡ unwrap_or new part.old }
    ensures told { result ≡ is_some new }
    ensures profile { ((t : List ℕ) → part.old ≡ text_part.One t → IsTextOfProfile t)
        → (t : List ℕ) → part.new ≡ text_part.One t → IsTextOfProfile t }
{
    match new {
        Some(new) => {
            *part = text_of_profile(new);
            true
        }
        None => false,
    }
}
