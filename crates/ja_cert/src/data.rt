//! The parts of a certificate as values of `serde_json`.

ghost use Rattle.std.specs.Prelude.{◌≡◌, ◌++◌, [], ◌∷◌, true, OnOk, IfOk, map, filter, string_bytes};
ghost use Rattle.std.specs.List.{list_all};
ghost use lib.Chars.{codes};
ghost use Rattle.serde_json.specs.Data.{string};
ghost use Rattle.serde_json.specs.View.{view};
ghost use Rattle.ja_prim.specs.Characters.{is_part};
ghost use Rattle.ja_graph.specs.WellFormed.{IsWellFormed};
ghost use Rattle.ja_abstract.specs.AbstractState.{labels_of};
ghost use Rattle.ja_value.specs.Value.{labels_in, property_of, value_of};
ghost use Rattle.ja_report.specs.Lines.{alloc as made, entry};
ghost use Rattle.ja_report.specs.Report.{kind_parts};
ghost use Rattle.ja_report.specs.Texts.{part, property_parts};
ghost use Rattle.ja_cert.specs.Certificate.{device_data, edge_data, flag_words, item_data, key_data, label_data, line_data, listed, number_words, text_words, value_data, whole};

use crate::strings::{attrs_text, name_text, units_text};
use ja_abstract::{Flags, Key, Mask, NumberPart, Slot, TextPart};
use ja_base::{Context, Label, Memory, NodeId, Site};
use ja_graph::Program;
use ja_prim::{Kinds, Signature};
use ja_report::site_count;
use ja_rows::{Edge, Item};
use ja_value::{AProp, AValue, LabelSet, label_number};
use serde_json::{Value, push};
use std::alloc::Global;

fn label(label: Label) -> Value
    ensures { view result ≡ label_data label }
{
    Value::from(label_number(label))
}

// ---- values

/// Adds a string.
#[tactic(auto, using(crate::proofs::Views::one_more))]
fn push_text(parts: &mut Vec<Value>, text: String) -> Result<(), Memory>
    ensures { OnOk result (map view parts.new.items ≡ map view parts.old.items
        ++ string (string_bytes text) ∷ []) }
{
    push(parts, Value::from(text))?;
    Ok(())
}

/// Adds a word, where it is there.
#[tactic(auto, using(crate::proofs::Views::one_more))]
fn push_word(parts: &mut Vec<Value>, alloc: Global, there: bool, word: &str) -> Result<(), Memory>
    ensures { OnOk result (map view parts.new.items ≡ map view parts.old.items
        ++ map string (part there word.now)) }
{
    if there {
        push(parts, Value::try_from_str(alloc, word)?)?;
    }
    Ok(())
}

#[tactic(auto, using(crate::proofs::Views::words_more), unfolding(ja_report::specs::Texts::property_parts))]
fn push_property_words(parts: &mut Vec<Value>, alloc: Global, flags: Flags) -> Result<(), Memory>
    ensures { OnOk result (map view parts.new.items ≡ map view parts.old.items
        ++ map string (property_parts flags)) }
{
    push_word(parts, alloc, flags.absent, "absent")?;
    push_word(parts, alloc, flags.entry, "entry")?;
    push_word(parts, alloc, flags.row, "row")?;
    Ok(())
}

#[tactic(auto, using(crate::proofs::Views::words_more))]
fn push_flag_words(parts: &mut Vec<Value>, alloc: Global, flags: Flags) -> Result<(), Memory>
    ensures { OnOk result (map view parts.new.items ≡ map view parts.old.items
        ++ map string (flag_words flags)) }
{
    push_property_words(parts, alloc, flags)?;
    push_word(parts, alloc, flags.undefined, "undefined")?;
    push_word(parts, alloc, flags.null, "null")?;
    push_word(parts, alloc, flags.is_true, "true")?;
    push_word(parts, alloc, flags.is_false, "false")?;
    push_word(parts, alloc, flags.nan, "nan")?;
    Ok(())
}

fn push_number_word(parts: &mut Vec<Value>, alloc: Global, number: NumberPart) -> Result<(), Memory>
    ensures { OnOk result (map view parts.new.items ≡ map view parts.old.items
        ++ map string (number_words number)) }
{
    let word = match number {
        NumberPart::Nothing => return Ok(()),
        NumberPart::One(n) => return push_text(parts, format!(in alloc; "={}", n.get())?),
        NumberPart::Index => "index",
        NumberPart::OtherWhole => "otherwhole",
        NumberPart::Whole => "whole",
    };
    push_word(parts, alloc, true, word)
}

fn push_text_word(parts: &mut Vec<Value>, alloc: Global, text: &TextPart) -> Result<(), Memory>
    ensures { OnOk result (map view parts.new.items ≡ map view parts.old.items
        ++ map string (text_words text.now)) }
{
    let word = match text {
        TextPart::Nothing => return Ok(()),
        TextPart::One(constant) => return push_text(parts, units_text(alloc, constant.units())?),
        TextPart::IndexText => "indextext",
        TextPart::OtherText => "othertext",
        TextPart::Text => "text",
    };
    push_word(parts, alloc, true, word)
}

fn push_labels(
    parts: &mut Vec<Value>,
    alloc: Global,
    program: &Program,
    labels: &LabelSet,
) -> Result<(), Memory>
    requires { IsWellFormed program.now }
    ensures { OnOk result (map view parts.new.items ≡ map view parts.old.items
        ++ map label_data (filter (labels_in labels.now) (labels_of program.now))) }
{
    let labels = labels.list(alloc, site_count(program))?;
    for number in &labels {
        push(parts, label(*number))?;
    }
    Ok(())
}

/// A value is its parts.
pub(crate) fn value(alloc: Global, program: &Program, value: &AValue) -> Result<Value, Memory>
    requires { IsWellFormed program.now }
    ensures { IfOk result (λ v. view v ≡ value_data program.now (value_of value.now)) }
{
    let mut parts = Vec::new(alloc);
    push_flag_words(&mut parts, alloc, value.flags)?;
    push_number_word(&mut parts, alloc, value.number)?;
    push_text_word(&mut parts, alloc, &value.text)?;
    push_labels(&mut parts, alloc, program, &value.labels)?;
    Ok(Value::from(parts))
}

// ---- lines

fn key(alloc: Global, key: Key) -> Result<Value, Memory>
    ensures { IfOk result (λ v. view v ≡ key_data key) }
{
    let word = match key {
        Key::Name(name) => return Ok(Value::from(name.0)),
        Key::OtherIndex => "index",
        Key::OtherName => "other",
        Key::Slot(Slot::Prototype) => "prototype",
        Key::Slot(Slot::Outer) => "outer",
        Key::Slot(Slot::Scope) => "scope",
        Key::Slot(Slot::Value) => "value",
    };
    Ok(Value::try_from_str(alloc, word)?)
}

/// A property of a label, or its value at entry.
#[tactic(auto, unfolding(crate::specs::Certificate::line_data))]
pub(crate) fn property(
    alloc: Global,
    program: &Program,
    owner: Label,
    name: Key,
    property: &AProp,
) -> Result<Value, Memory>
    requires { IsWellFormed program.now }
    ensures { IfOk result (λ v. view v
        ≡ line_data program.now (entry owner name (property_of property.now))) }
{
    let mut fields = Vec::new(alloc);
    push(&mut fields, label(owner))?;
    push(&mut fields, key(alloc, name)?)?;
    push(&mut fields, value(alloc, program, &property.value)?)?;
    push(
        &mut fields,
        Value::from(attrs_text(alloc, name, property.attrs)?),
    )?;
    Ok(Value::from(fields))
}

/// A register with its value.
pub(crate) fn register(
    alloc: Global,
    program: &Program,
    number: u32,
    content: &AValue,
) -> Result<Value, Memory>
    requires { IsWellFormed program.now }
    ensures { IfOk result (λ v. view v ≡ listed (whole number
        ∷ value_data program.now (value_of content.now) ∷ [])) }
{
    let mut fields = Vec::new(alloc);
    push(&mut fields, Value::from(number))?;
    push(&mut fields, value(alloc, program, content)?)?;
    Ok(Value::from(fields))
}

/// A site at which objects were made since the entry.
#[tactic(auto, unfolding(crate::specs::Certificate::line_data))]
pub(crate) fn mask(
    alloc: Global,
    program: &Program,
    site: Site,
    mask: Mask,
) -> Result<Value, Memory>
    ensures { IfOk result (λ v. view v ≡ line_data program.now (made site mask)) }
{
    let word = match (mask.none, mask.some) {
        (true, true) => "maybe",
        (false, true) => "some",
        (_, false) => "none",
    };
    let mut fields = Vec::new(alloc);
    push(&mut fields, Value::from(site.0))?;
    push(&mut fields, Value::try_from_str(alloc, word)?)?;
    Ok(Value::from(fields))
}

// ---- edges and visits

/// A call edge.
#[tactic(auto, unfolding(crate::specs::Certificate::edge_data))]
pub(crate) fn edge(alloc: Global, edge: Edge) -> Result<Value, Memory>
    ensures { IfOk result (λ v. view v ≡ edge_data edge) }
{
    let mut fields = Vec::new(alloc);
    push(&mut fields, Value::from(edge.caller.function.0))?;
    push(&mut fields, label(edge.caller.receiver))?;
    push(&mut fields, Value::from(edge.node.0))?;
    push(&mut fields, Value::from(edge.callee.function.0))?;
    push(&mut fields, label(edge.callee.receiver))?;
    Ok(Value::from(fields))
}

/// The step of a node.
#[tactic(auto, unfolding(crate::specs::Certificate::item_data))]
fn step(alloc: Global, context: Context, node: NodeId) -> Result<Value, Memory>
    ensures { IfOk result (λ v. view v ≡ listed (string (codes "step")
        ∷ whole context.function.0 ∷ label_data context.receiver ∷ whole node.0 ∷ [])) }
{
    let mut fields = Vec::new(alloc);
    push(&mut fields, Value::try_from_str(alloc, "step")?)?;
    push(&mut fields, Value::from(context.function.0))?;
    push(&mut fields, label(context.receiver))?;
    push(&mut fields, Value::from(node.0))?;
    Ok(Value::from(fields))
}

/// A word and a call edge.
fn along(alloc: Global, word: &str, call: Edge) -> Result<Value, Memory>
    ensures { IfOk result (λ v. view v ≡ listed (string word.now ∷ edge_data call ∷ [])) }
{
    let mut fields = Vec::new(alloc);
    push(&mut fields, Value::try_from_str(alloc, word)?)?;
    push(&mut fields, edge(alloc, call)?)?;
    Ok(Value::from(fields))
}

/// The visit that fills the values at the program's entry.
fn open(alloc: Global) -> Result<Value, Memory>
    ensures { IfOk result (λ v. view v ≡ listed (string (codes "open") ∷ [])) }
{
    let mut fields = Vec::new(alloc);
    push(&mut fields, Value::try_from_str(alloc, "open")?)?;
    Ok(Value::from(fields))
}

/// A visit.
#[tactic(auto, unfolding(crate::specs::Certificate::item_data))]
pub(crate) fn item(alloc: Global, item: Item) -> Result<Value, Memory>
    ensures { IfOk result (λ v. view v ≡ item_data item) }
{
    match item {
        Item::Open => open(alloc),
        Item::Step { context, node } => step(alloc, context, node),
        Item::Fill(call) => along(alloc, "fill", call),
        Item::Back(call) => along(alloc, "back", call),
    }
}

// ---- devices

#[tactic(auto, using(crate::proofs::Views::words_more), unfolding(ja_report::specs::Report::kind_parts))]
fn push_kinds(words: &mut Vec<Value>, alloc: Global, kinds: Kinds) -> Result<(), Memory>
    ensures { OnOk result (map view words.new.items ≡ map view words.old.items
        ++ map string (kind_parts kinds)) }
{
    push_word(words, alloc, kinds.undefined, "undefined")?;
    push_word(words, alloc, kinds.null, "null")?;
    push_word(words, alloc, kinds.boolean, "boolean")?;
    push_word(words, alloc, kinds.number, "number")?;
    push_word(words, alloc, kinds.text, "string")?;
    Ok(())
}

/// The kinds of answers of a device.
fn kinds(alloc: Global, kinds: Kinds) -> Result<Value, Memory>
    ensures { IfOk result (λ v. view v ≡ listed (map string (kind_parts kinds))) }
{
    let mut words = Vec::new(alloc);
    push_kinds(&mut words, alloc, kinds)?;
    Ok(Value::from(words))
}

/// A device, whose name is of ASCII letters, digits, `_` and `$`.
#[tactic(auto, unfolding(crate::specs::Certificate::device_data))]
pub(crate) fn device(alloc: Global, device: &Signature) -> Result<Value, Memory>
    requires { list_all is_part device.now.name ≡ true }
    ensures { IfOk result (λ v. view v ≡ device_data device.now) }
{
    let mut fields = Vec::new(alloc);
    push(
        &mut fields,
        Value::from(name_text(alloc, device.name.units())?),
    )?;
    push(&mut fields, kinds(alloc, device.kinds)?)?;
    Ok(Value::from(fields))
}
