//! Values.

ghost use Rattle.std.specs.Prelude.{◌≡◌, suc, map, IfOk};
ghost use Rattle.std.specs.List.{list_any};
ghost use Rattle.ja_cert_json.specs.View.{view};
ghost use Rattle.ja_graph.specs.declared.program.Program.{Program};
ghost use Rattle.ja_graph.specs.WellFormed.{IsWellFormed};
ghost use Rattle.ja_abstract.specs.AbstractValue.{same_label};
ghost use Rattle.ja_report.specs.Texts.{part};
ghost use Rattle.ja_value.specs.Value.{labels_in, value_of};
ghost use Rattle.ja_cert.specs.Certificate.{flag_words, listed, number_words, text_words, value_data};
ghost use Rattle.ja_cert.specs.Wrong.{value_wrong};
ghost use Rattle.ja_cert_parts.specs.code.Own.{HasOwnLabels};
ghost use Rattle.ja_cert_parts.specs.code.Parts.{allowed_of, AreFrom, flag_rank, flag_word, labels_among, part_data, Takes};
ghost use Rattle.ja_cert_parts.specs.code.Reading.{Reads};

use crate::fault::Fault;
use crate::members::read_list;
use crate::parts::{Flag, OfValue, Part, Role, flag_rank, rank};
use ja_abstract::{Flags, NumberPart, TextPart};
use ja_base::Memory;
use ja_cert_json::Json;
use ja_graph::Program;
use ja_value::{AValue, LabelSet, copy_text_part, number_of_profile, text_of_profile};
use std::alloc::Global;

// ---- the parts of a value, taken one after another

/// Whether a flag stands first, and the parts that are left.
fn take_flag(parts: &[Part], flag: Flag) -> (bool, &[Part])
    ensures { Takes (flag_rank flag) (suc (flag_rank flag)) (part result.0 (flag_word flag))
        parts.now result.1.now }
{
    let Some((first, rest)) = parts.split_first() else {
        return (false, parts);
    };
    if rank(first) == flag_rank(flag) {
        (true, rest)
    } else {
        (false, parts)
    }
}

/// The flags that stand first, and the parts that are left.
fn take_flags(parts: &[Part]) -> (Flags, &[Part])
    ensures { Takes 0 8 (flag_words result.0) parts.now result.1.now }
{
    let (absent, parts) = take_flag(parts, Flag::Absent);
    let (entry, parts) = take_flag(parts, Flag::Entry);
    let (row, parts) = take_flag(parts, Flag::Row);
    let (undefined, parts) = take_flag(parts, Flag::Undefined);
    let (null, parts) = take_flag(parts, Flag::Null);
    let (is_true, parts) = take_flag(parts, Flag::True);
    let (is_false, parts) = take_flag(parts, Flag::False);
    let (nan, parts) = take_flag(parts, Flag::NaN);
    let flags = Flags {
        absent,
        entry,
        row,
        undefined,
        null,
        is_true,
        is_false,
        nan,
    };
    (flags, parts)
}

/// The number part, where it stands first, and the parts that are left.
fn take_number(parts: &[Part]) -> (NumberPart, &[Part])
    ensures { Takes 8 9 (number_words result.0) parts.now result.1.now }
{
    let Some((first, rest)) = parts.split_first() else {
        return (NumberPart::Nothing, parts);
    };
    match first {
        Part::Number(number) => (*number, rest),
        _ => (NumberPart::Nothing, parts),
    }
}

/// The text part, where it stands first, and the parts that are left.
fn take_text(alloc: Global, parts: &[Part]) -> Result<(TextPart, &[Part]), Memory>
    ensures { IfOk result (λ r. Takes 9 10 (text_words r.0) parts.now r.1.now) }
{
    let Some((first, rest)) = parts.split_first() else {
        return Ok((TextPart::Nothing, parts));
    };
    match first {
        Part::Text(text) => {
            let text = copy_text_part(alloc, text)?;
            Ok((text, rest))
        }
        _ => Ok((TextPart::Nothing, parts)),
    }
}

/// The labels among some parts.
fn labels_among(alloc: Global, parts: &[Part]) -> Result<LabelSet, Memory>
    ensures { IfOk result (λ set. labels_in set
        ≡ (λ l. list_any (λ m. same_label m l) (labels_among parts.now))) }
{
    let mut labels = LabelSet::new(alloc);
    for part in parts {
        if let Part::Label(label) = part {
            labels.insert(*label)?;
        }
    }
    Ok(labels)
}

/// The value of parts that stand in order.
fn value_of_parts(alloc: Global, parts: &[Part]) -> Result<AValue, Memory>
    ensures { IfOk result (λ v. (p : Program) → AreFrom p 0 parts.now
        → (value_data p (value_of v) ≡ listed (map part_data parts.now))
        × HasOwnLabels p (value_of v)) }
{
    let (flags, parts) = take_flags(parts);
    let (number, parts) = take_number(parts);
    let (text, parts) = take_text(alloc, parts)?;
    let labels = labels_among(alloc, parts)?;
    Ok(AValue {
        flags,
        number: number_of_profile(number),
        text: text_of_profile(text),
        labels,
    })
}

/// Reads a value.
#[tactic(auto, unfolding(crate::specs::code::Reading::Tells))]
pub fn read_value(
    alloc: Global,
    program: &Program,
    role: Role,
    value: &Json,
) -> Result<AValue, Fault>
    requires { IsWellFormed program.now }
    ensures { Reads (value_wrong program.now (allowed_of role) (view value.now))
        (λ v. (value_data program.now (value_of v) ≡ view value.now)
        × HasOwnLabels program.now (value_of v)) result }
{
    let rule = OfValue {
        alloc,
        program,
        role,
    };
    let parts = read_list(alloc, &rule, value)?;
    let value = value_of_parts(alloc, &parts)?;
    Ok(value)
}
