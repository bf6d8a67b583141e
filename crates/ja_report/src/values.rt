//! Writers of abstract values.

ghost use Rattle.std.specs.Prelude.{◌≡◌, ◌++◌, [], ◌∷◌, OnOk, List, ℕ, length, map, filter, IfOk};
ghost use Rattle.ja_graph.specs.WellFormed.{IsWellFormed};
ghost use Rattle.ja_abstract.specs.AbstractState.{labels_of};
ghost use Rattle.ja_value.specs.Value.{labels_in, value_of};
ghost use Rattle.ja_report.specs.Texts.{part, property_parts, primitive_parts, number_parts, text_parts, value_parts, joined, label_text, value_text};
ghost use Rattle.ja_report.specs.code.Texts.{with_bars};
ghost use Rattle.ja_report.specs.Lines.{label_sites, value_sites};

use crate::output::Output;
use crate::texts::push_label;
use ja_abstract::{Flags, NumberPart, TextPart};
use ja_base::{Label, Memory};
use ja_graph::Program;
use ja_texts::{push_quoted, push_signed};
use ja_value::{AValue, LabelSet};
use std::alloc::Global;

/// How many sites a program has.
pub fn site_count(program: &Program) -> u32
    requires { IsWellFormed program.now }
    ensures { result ≡ length program.now.sites }
{
    program.sites.len() as u32
}

#[tactic(auto, unfolding(crate::specs::code::Texts::with_bars))]
pub(crate) fn push_part(text: &mut Vec<u8>, there: bool, word: &[u8]) -> Result<(), Memory>
    ensures { OnOk result (text.new.items ≡ text.old.items ++ with_bars (part there word.now)) }
{
    if there {
        text.extend_from_slice(word)?;
        text.push(b'|')?;
    }
    Ok(())
}

#[tactic(auto, using(crate::proofs::PartLemmas::bars_more), unfolding(crate::specs::Texts::property_parts))]
pub(crate) fn push_property_parts(text: &mut Vec<u8>, flags: Flags) -> Result<(), Memory>
    ensures { OnOk result (text.new.items ≡ text.old.items ++ with_bars (property_parts flags)) }
{
    push_part(text, flags.absent, b"absent")?;
    push_part(text, flags.entry, b"entry")?;
    push_part(text, flags.row, b"row")?;
    Ok(())
}

#[tactic(auto, using(crate::proofs::PartLemmas::bars_more), unfolding(crate::specs::Texts::primitive_parts))]
pub(crate) fn push_primitive_parts(text: &mut Vec<u8>, flags: Flags) -> Result<(), Memory>
    ensures { OnOk result (text.new.items ≡ text.old.items ++ with_bars (primitive_parts flags)) }
{
    push_part(text, flags.undefined, b"undefined")?;
    push_part(text, flags.null, b"null")?;
    push_part(text, flags.is_true, b"true")?;
    push_part(text, flags.is_false, b"false")?;
    push_part(text, flags.nan, b"NaN")?;
    Ok(())
}

#[tactic(auto, unfolding(crate::specs::code::Texts::with_bars, crate::specs::Texts::number_parts))]
pub(crate) fn push_number_part(text: &mut Vec<u8>, number: NumberPart) -> Result<(), Memory>
    ensures { OnOk result (text.new.items ≡ text.old.items ++ with_bars (number_parts number)) }
{
    match number {
        NumberPart::Nothing => return Ok(()),
        NumberPart::One(n) => push_signed(text, n.get())?,
        NumberPart::Index => text.extend_from_slice(b"index")?,
        NumberPart::OtherWhole => text.extend_from_slice(b"otherwhole")?,
        NumberPart::Whole => text.extend_from_slice(b"whole")?,
    }
    text.push(b'|')?;
    Ok(())
}

#[tactic(auto, unfolding(crate::specs::code::Texts::with_bars, crate::specs::Texts::text_parts))]
pub(crate) fn push_text_part(text: &mut Vec<u8>, part: &TextPart) -> Result<(), Memory>
    ensures { OnOk result (text.new.items ≡ text.old.items ++ with_bars (text_parts part.now)) }
{
    match part {
        TextPart::Nothing => return Ok(()),
        TextPart::One(constant) => push_quoted(text, constant.units())?,
        TextPart::IndexText => text.extend_from_slice(b"indextext")?,
        TextPart::OtherText => text.extend_from_slice(b"othertext")?,
        TextPart::Text => text.extend_from_slice(b"text")?,
    }
    text.push(b'|')?;
    Ok(())
}

/// Writes a label and names its site.
pub(crate) fn name_label(out: &mut Output, program: &Program, label: Label) -> Result<(), Memory>
    ensures text { OnOk result (out.new.text.items ≡ out.old.text.items
        ++ label_text program.now label) }
    ensures named { OnOk result (out.new.named.items ≡ out.old.named.items ++ label.site.0 ∷ []) }
{
    push_label(&mut out.text, program, label)?;
    out.named.push(label.site.0)?;
    Ok(())
}

#[tactic(auto, using(crate::proofs::PartLemmas::labels_all, crate::proofs::PartLemmas::sites_all))]
fn push_label_parts(
    out: &mut Output,
    alloc: Global,
    program: &Program,
    labels: &LabelSet,
) -> Result<(), Memory>
    requires { IsWellFormed program.now }
    ensures text { OnOk result (out.new.text.items ≡ out.old.text.items
        ++ with_bars (map (label_text program.now)
        (filter (labels_in labels.now) (labels_of program.now)))) }
    ensures named { OnOk result (out.new.named.items ≡ out.old.named.items
        ++ label_sites (filter (labels_in labels.now) (labels_of program.now))) }
{
    let labels = labels.list(alloc, site_count(program))?;
    for label in &labels {
        name_label(out, program, *label)?;
        out.text.push(b'|')?;
    }
    Ok(())
}

#[tactic(auto, using(crate::proofs::PartLemmas::bars_more), unfolding(crate::specs::Texts::value_parts))]
fn push_parts(
    out: &mut Output,
    alloc: Global,
    program: &Program,
    value: &AValue,
) -> Result<(), Memory>
    requires { IsWellFormed program.now }
    ensures text { OnOk result (out.new.text.items ≡ out.old.text.items
        ++ with_bars (value_parts program.now (value_of value.now))) }
    ensures named { OnOk result (out.new.named.items ≡ out.old.named.items
        ++ value_sites program.now (value_of value.now)) }
{
    push_property_parts(&mut out.text, value.flags)?;
    push_primitive_parts(&mut out.text, value.flags)?;
    push_number_part(&mut out.text, value.number)?;
    push_text_part(&mut out.text, &value.text)?;
    push_label_parts(out, alloc, program, &value.labels)?;
    Ok(())
}

/// Drops the bar behind the last of the parts that were written from `start` on. Where there is
/// none, writes `none`.
pub(crate) fn close_parts(text: &mut Vec<u8>, start: usize) -> Result<(), Memory>
    ensures { OnOk result ((base : List ℕ) (parts : List (List ℕ)) → length base ≡ start
        → text.old.items ≡ base ++ with_bars parts → text.new.items ≡ base ++ joined parts) }
{
    if text.len() == start {
        text.extend_from_slice(b"none")?;
    } else {
        text.pop();
    }
    Ok(())
}

/// Writes a value and names the sites of its labels.
#[tactic(auto, unfolding(crate::specs::Texts::value_text))]
pub(crate) fn push_value(
    out: &mut Output,
    alloc: Global,
    program: &Program,
    value: &AValue,
) -> Result<(), Memory>
    requires { IsWellFormed program.now }
    ensures text { OnOk result (out.new.text.items ≡ out.old.text.items
        ++ value_text program.now (value_of value.now)) }
    ensures named { OnOk result (out.new.named.items ≡ out.old.named.items
        ++ value_sites program.now (value_of value.now)) }
{
    let start = out.text.len();
    push_parts(out, alloc, program, value)?;
    close_parts(&mut out.text, start)?;
    Ok(())
}

/// The text of a value: its parts with bars between them. `Memory` comes where memory was refused.
pub fn value_text(alloc: Global, program: &Program, value: &AValue) -> Result<Vec<u8>, Memory>
    requires { IsWellFormed program.now }
    ensures { IfOk result (λ text. text.items ≡ value_text program.now (value_of value.now)) }
{
    let mut out = Output::new(alloc);
    push_value(&mut out, alloc, program, value)?;
    let Output { text, named: _ } = out;
    Ok(text)
}
