//! The words of a value.

ghost use Rattle.std.specs.Prelude.{◌≡◌, ◌<◌, ◌^◌, ◌+◌, ◌-◌, ◌++◌, IfOk, OnOk, length, map, take};
ghost use Rattle.std.specs.Fmt.{signed_decimal};
ghost use lib.Chars.{codes};
ghost use Rattle.ja_graph.specs.WellFormed.{IsWellFormed};
ghost use Rattle.ja_report.specs.Texts.{primitive_parts};
ghost use Rattle.ja_value.specs.Value.{value_of};
ghost use Rattle.ja_lint_text.specs.Values as spec;
ghost use Rattle.ja_lint_text.specs.code.Lists.{words_with};

use crate::listing::{MOST_TOLD, alternatives, push_part, push_word};
use crate::sites::{site_words, sites_in};
use crate::source::Source;
use ja_abstract::{Flags, NumberPart, TextPart};
use ja_base::{Memory, Seq, Site};
use ja_prim::Int;
use ja_texts::{push_quoted, push_signed};
use ja_value::AValue;
use std::alloc::Global;

// ---- primitive values

/// How many units are shown of a text.
const MOST_UNITS: usize = 20;

// Adds the primitive values apart from numbers and texts.
#[tactic(auto, unfolding(ja_report::specs::Texts::primitive_parts))]
fn push_flags(alloc: Global, words: &mut Vec<Seq<u8>>, flags: Flags) -> Result<(), Memory>
    ensures { OnOk result (words.new.items ≡ words.old.items ++ primitive_parts flags) }
{
    push_part(alloc, words, flags.undefined, b"undefined")?;
    push_part(alloc, words, flags.null, b"null")?;
    push_part(alloc, words, flags.is_true, b"true")?;
    push_part(alloc, words, flags.is_false, b"false")?;
    push_part(alloc, words, flags.nan, b"NaN")
}

// One number.
fn number_word(alloc: Global, number: Int) -> Result<Vec<u8>, Memory>
    ensures { IfOk result (λ text. text.items ≡ codes "the number " ++ signed_decimal number) }
{
    let mut text = Vec::new(alloc);
    text.extend_from_slice(b"the number ")?;
    push_signed(&mut text, number.get())?;
    Ok(text)
}

// Adds the whole numbers.
fn push_numbers(alloc: Global, words: &mut Vec<Seq<u8>>, number: NumberPart) -> Result<(), Memory>
    ensures { OnOk result (words.new.items ≡ words.old.items ++ spec.number_words number) }
{
    match number {
        NumberPart::Nothing => Ok(()),
        NumberPart::One(number) => {
            let word = number_word(alloc, number)?;
            push_word(words, word)
        }
        NumberPart::Index | NumberPart::OtherWhole | NumberPart::Whole => {
            push_part(alloc, words, true, b"a whole number")
        }
    }
}

// The front of some units.
fn front(units: &[u16]) -> &[u16]
    ensures { result.now ≡ take spec.most_units units.now }
{
    if units.len() > MOST_UNITS {
        &units[..MOST_UNITS]
    } else {
        units
    }
}

// Adds a text in quotes, of a long one its front.
#[tactic(auto, unfolding(crate::specs::Values::shown))]
fn push_shown(text: &mut Vec<u8>, units: &[u16]) -> Result<(), Memory>
    ensures { OnOk result (text.new.items ≡ text.old.items ++ spec.shown units.now) }
{
    push_quoted(text, front(units))?;
    if units.len() > MOST_UNITS {
        text.extend_from_slice(b"..")?;
    }
    Ok(())
}

// One text.
fn text_word(alloc: Global, units: &[u16]) -> Result<Vec<u8>, Memory>
    ensures { IfOk result (λ text. text.items ≡ codes "the string " ++ spec.shown units.now) }
{
    let mut text = Vec::new(alloc);
    text.extend_from_slice(b"the string ")?;
    push_shown(&mut text, units)?;
    Ok(text)
}

// Adds the texts.
fn push_texts(alloc: Global, words: &mut Vec<Seq<u8>>, part: &TextPart) -> Result<(), Memory>
    ensures { OnOk result (words.new.items ≡ words.old.items ++ spec.text_words part.now) }
{
    match part {
        TextPart::Nothing => Ok(()),
        TextPart::One(text) => {
            let word = text_word(alloc, text.units())?;
            push_word(words, word)
        }
        TextPart::IndexText | TextPart::OtherText | TextPart::Text => {
            push_part(alloc, words, true, b"a string")
        }
    }
}

// The words of the primitive values.
fn primitive_words(alloc: Global, value: &AValue) -> Result<Vec<Seq<u8>>, Memory>
    ensures { IfOk result (λ words. words.items ≡ spec.primitive_words (value_of value.now)) }
{
    let mut words = Vec::new(alloc);
    push_flags(alloc, &mut words, value.flags)?;
    push_numbers(alloc, &mut words, value.number)?;
    push_texts(alloc, &mut words, &value.text)?;
    Ok(words)
}

// ---- objects

// Adds the objects of some sites.
#[tactic(auto, using(crate::proofs::Rulesets::for_push_objects))]
fn push_objects(
    alloc: Global,
    words: &mut Vec<Seq<u8>>,
    source: &Source<'_>,
    sites: &[Site],
) -> Result<(), Memory>
    requires { length source.now.first_lines.now < 2 ^ 32 }
    ensures { OnOk result (words.new.items ≡ words.old.items ++ map (spec.site_words
        source.now.program.now source.now.files.now source.now.first_lines.now) sites.now) }
{
    for site in sites {
        let word = site_words(alloc, source, *site)?;
        push_word(words, word)?;
    }
    Ok(())
}

// The first of some sites, as many as are told.
fn first_sites(sites: &[Site]) -> &[Site]
    ensures { result.now ≡ take spec.most_told sites.now }
{
    if sites.len() > MOST_TOLD {
        &sites[..MOST_TOLD]
    } else {
        sites
    }
}

// ---- values

// The words of a value with the objects of some sites.
fn words_with(
    alloc: Global,
    source: &Source<'_>,
    value: &AValue,
    sites: &[Site],
) -> Result<Vec<Seq<u8>>, Memory>
    requires { length source.now.first_lines.now < 2 ^ 32 }
    ensures { IfOk result (λ words. words.items ≡ words_with source.now.program.now
        source.now.files.now source.now.first_lines.now (value_of value.now) sites.now) }
{
    let mut words = primitive_words(alloc, value)?;
    push_objects(alloc, &mut words, source, sites)?;
    let row = value.flags.row;
    push_part(alloc, &mut words, row, b"what isn't known to this tool")?;
    Ok(words)
}

// How many words there are, with those of the sites that aren't told.
fn count_of(words: &[Seq<u8>], sites: &[Site], told: &[Site]) -> usize
    ensures { result ≡ length words.now + (length sites.now - length told.now) }
{
    words.len() + sites.len().saturating_sub(told.len())
}

/// What a value is, in words: its parts as alternatives, of which four are told. `Memory` comes
/// where memory was refused.
pub fn value_words(alloc: Global, source: &Source<'_>, value: &AValue) -> Result<Vec<u8>, Memory>
    requires program { IsWellFormed source.now.program.now }
    requires files { length source.now.first_lines.now < 2 ^ 32 }
    ensures { IfOk result (λ text. text.items ≡ spec.value_words source.now.program.now
        source.now.files.now source.now.first_lines.now (value_of value.now)) }
{
    let sites = sites_in(alloc, source.program, &value.labels)?;
    let told = first_sites(&sites);
    let words = words_with(alloc, source, value, told)?;
    let count = count_of(&words, &sites, told);
    alternatives(alloc, words, count)
}
