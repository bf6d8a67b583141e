//! The words of a warning.

ghost use Rattle.std.specs.Prelude.{◌≡◌, ◌<◌, ◌^◌, ◌++◌, IfOk, OnOk, length, take};
ghost use Rattle.std.specs.List.{list_any};
ghost use Rattle.std.specs.Option.{option_copied};
ghost use Rattle.ja_graph.specs.WellFormed.{IsWellFormed};
ghost use Rattle.ja_value.specs.Value.{value_of};
ghost use Rattle.ja_lint_text.specs.Values.{value_words};
ghost use Rattle.ja_lint_text.specs.Words as spec;

use crate::sites::push_function;
use crate::source::Source;
use crate::values::value_words;
use ja_abstract::Flags;
use ja_base::{FnId, Memory, Place};
use ja_graph::{Function, Node, NodeInfo, Program};
use ja_prim::Text16;
use ja_report::certainty_text;
use ja_rows::WarningKind;
use ja_texts::push_plain;
use ja_value::AValue;
use ja_warn::{Told, name_of};
use std::alloc::Global;

// Adds a name in single quotes.
fn push_name(text: &mut Vec<u8>, name: &Text16) -> Result<(), Memory>
    ensures { OnOk result (text.new.items ≡ text.old.items ++ spec.name_text name.now) }
{
    text.push(b'\'')?;
    push_plain(text, name.units())?;
    text.push(b'\'')?;
    Ok(())
}

// Adds a value.
fn push_value(
    text: &mut Vec<u8>,
    alloc: Global,
    source: &Source<'_>,
    value: &AValue,
) -> Result<(), Memory>
    requires program { IsWellFormed source.now.program.now }
    requires files { length source.now.first_lines.now < 2 ^ 32 }
    ensures { OnOk result (text.new.items ≡ text.old.items ++ value_words source.now.program.now
        source.now.files.now source.now.first_lines.now (value_of value.now)) }
{
    let words = value_words(alloc, source, value)?;
    text.extend_from_slice(&words)?;
    Ok(())
}

// ---- calls

// Whether a node is a `new`.
fn is_new(node: &Node) -> bool
    ensures { result ≡ spec.is_new node.now }
{
    matches!(node, Node::New { .. })
}

// Whether a node is a `new` of this place.
fn is_new_at(info: &NodeInfo, place: Place) -> bool
    ensures { result ≡ spec.is_new_at place info.now }
{
    is_new(&info.node) && info.place.line == place.line && info.place.column == place.column
}

// Whether a function constructs at a place.
fn constructs_at(function: &Function, place: Place) -> bool
    ensures { result ≡ spec.constructs_at place function.now }
{
    let nodes = function.nodes.as_slice();
    nodes.iter().any(|info| is_new_at(info, place))
}

// Whether a function of the text does so.
fn constructs_in_text(program: &Program, place: Place) -> bool
    ensures { result ≡ list_any (spec.constructs_at place)
        (take program.now.text_functions program.now.functions) }
{
    let functions = program.functions.as_slice();
    functions
        .iter()
        .take(program.text_functions as usize)
        .any(|function| constructs_at(function, place))
}

// Whether the operation of a place is a `new`.
#[tactic(auto, unfolding(crate::specs::Words::constructs))]
fn constructs(program: &Program, builtin: Option<FnId>, place: Place) -> bool
    ensures { result ≡ spec.constructs program.now builtin place }
{
    let Some(number) = builtin else {
        return constructs_in_text(program, place);
    };
    match program.functions.as_slice().get(number.0 as usize) {
        Some(function) => constructs_at(function, place),
        None => false,
    }
}

// What is done with a callee.
fn deed_words(new: bool) -> &'static [u8]
    ensures { result.now ≡ spec.deed_words new }
{
    if new { b"new of " } else { b"call of " }
}

// What a callee has to be.
fn role_words(new: bool) -> &'static [u8]
    ensures { result.now ≡ spec.role_words new }
{
    if new { b"constructor" } else { b"function" }
}

// What stands in front of that where a callee isn't it.
fn denial_words(certain: bool) -> &'static [u8]
    ensures { result.now ≡ spec.denial_words certain }
{
    if certain {
        b", which is no "
    } else {
        b", which may be no "
    }
}

// Adds that a callee isn't what it has to be.
fn push_unfit(text: &mut Vec<u8>, new: bool, certain: bool) -> Result<(), Memory>
    ensures { OnOk result (text.new.items ≡ text.old.items ++ spec.unfit_words new certain) }
{
    text.extend_from_slice(denial_words(certain))?;
    text.extend_from_slice(role_words(new))?;
    Ok(())
}

// Adds the words of a call.
fn push_call(
    text: &mut Vec<u8>,
    alloc: Global,
    source: &Source<'_>,
    new: bool,
    certain: bool,
    name: Option<&Text16>,
    value: &AValue,
) -> Result<(), Memory>
    requires program { IsWellFormed source.now.program.now }
    requires files { length source.now.first_lines.now < 2 ^ 32 }
    ensures { OnOk result (text.new.items ≡ text.old.items
        ++ spec.call_words new certain (option_copied name.entry) (value_words source.now.program.now
        source.now.files.now source.now.first_lines.now (value_of value.now))) }
{
    text.extend_from_slice(deed_words(new))?;
    match name {
        Some(name) => {
            push_name(text, name)?;
            push_unfit(text, new, certain)?;
            text.extend_from_slice(b": it is ")?;
            push_value(text, alloc, source, value)
        }
        None => {
            push_value(text, alloc, source, value)?;
            push_unfit(text, new, certain)
        }
    }
}

// ---- properties

// Adds a property.
fn push_property_name(text: &mut Vec<u8>, name: Option<&Text16>) -> Result<(), Memory>
    ensures { OnOk result (text.new.items ≡ text.old.items
        ++ spec.property_text (option_copied name.entry)) }
{
    match name {
        Some(name) => {
            text.extend_from_slice(b"property ")?;
            push_name(text, name)
        }
        None => {
            text.extend_from_slice(b"a property")?;
            Ok(())
        }
    }
}

// Which of null and undefined a value may be.
fn nullish_words(flags: Flags) -> &'static [u8]
    ensures { result.now ≡ spec.nullish_words flags }
{
    if flags.undefined {
        if flags.null {
            b"null or undefined"
        } else {
            b"undefined"
        }
    } else {
        b"null"
    }
}

// Adds what a value may be.
fn push_may(text: &mut Vec<u8>, flags: Flags) -> Result<(), Memory>
    ensures { OnOk result (text.new.items ≡ text.old.items ++ spec.may_words flags) }
{
    text.extend_from_slice(b"what may be ")?;
    text.extend_from_slice(nullish_words(flags))?;
    text.extend_from_slice(b": it is ")?;
    Ok(())
}

// .. where it surely isn't.
fn push_doubt(text: &mut Vec<u8>, certain: bool, flags: Flags) -> Result<(), Memory>
    ensures { OnOk result (text.new.items ≡ text.old.items ++ spec.doubt_words certain flags) }
{
    if certain {
        return Ok(());
    }
    push_may(text, flags)
}

// Adds a value that has no properties, or what may have none.
fn push_object(
    text: &mut Vec<u8>,
    alloc: Global,
    source: &Source<'_>,
    certain: bool,
    value: &AValue,
) -> Result<(), Memory>
    requires program { IsWellFormed source.now.program.now }
    requires files { length source.now.first_lines.now < 2 ^ 32 }
    ensures { OnOk result (text.new.items ≡ text.old.items
        ++ spec.object_words certain (value_of value.now).flags
        (value_words source.now.program.now source.now.files.now source.now.first_lines.now
        (value_of value.now))) }
{
    push_doubt(text, certain, value.flags)?;
    push_value(text, alloc, source, value)
}

// Adds the words of a property of no object.
fn push_property(
    text: &mut Vec<u8>,
    alloc: Global,
    source: &Source<'_>,
    certain: bool,
    name: Option<&Text16>,
    value: &AValue,
) -> Result<(), Memory>
    requires program { IsWellFormed source.now.program.now }
    requires files { length source.now.first_lines.now < 2 ^ 32 }
    ensures { OnOk result (text.new.items ≡ text.old.items
        ++ spec.property_words certain (option_copied name.entry) (value_of value.now).flags
        (value_words source.now.program.now source.now.files.now source.now.first_lines.now
        (value_of value.now))) }
{
    push_property_name(text, name)?;
    text.extend_from_slice(b" of ")?;
    push_object(text, alloc, source, certain, value)
}

// ---- names

// What is said of a name that is bound nowhere.
fn nowhere_words(certain: bool) -> &'static [u8]
    ensures { result.now ≡ spec.nowhere_words certain }
{
    if certain {
        b" is bound nowhere"
    } else {
        b" may be bound nowhere"
    }
}

// Adds the words of a name that is bound nowhere.
fn push_unbound(text: &mut Vec<u8>, certain: bool, name: Option<&Text16>) -> Result<(), Memory>
    ensures { OnOk result (text.new.items ≡ text.old.items
        ++ spec.unbound_words certain (option_copied name.entry)) }
{
    match name {
        Some(name) => push_name(text, name)?,
        None => text.extend_from_slice(b"a name")?,
    }
    text.extend_from_slice(nowhere_words(certain))?;
    Ok(())
}

// Adds the words of what is out of the profile.
fn push_unknown(text: &mut Vec<u8>, name: Option<&Text16>) -> Result<(), Memory>
    ensures { OnOk result (text.new.items ≡ text.old.items
        ++ spec.unknown_words (option_copied name.entry)) }
{
    match name {
        Some(name) => push_name(text, name)?,
        None => text.extend_from_slice(b"a property")?,
    }
    text.extend_from_slice(b" isn't known to this tool")?;
    Ok(())
}

// Adds whether an operation surely goes wrong.
fn push_certainty(text: &mut Vec<u8>, kind: WarningKind, certain: bool) -> Result<(), Memory>
    ensures { OnOk result (text.new.items ≡ text.old.items ++ spec.certainty_words kind certain) }
{
    match kind {
        WarningKind::ScopeRow => {}
        WarningKind::NotAFunction | WarningKind::NoObject | WarningKind::UnboundName => {
            text.extend_from_slice(b" (")?;
            text.extend_from_slice(certainty_text(certain))?;
            text.push(b')')?;
        }
    }
    Ok(())
}

// Adds the built-in function that an operation stands in.
fn push_within(text: &mut Vec<u8>, program: &Program, builtin: Option<FnId>) -> Result<(), Memory>
    ensures { OnOk result (text.new.items ≡ text.old.items
        ++ spec.within_words program.now builtin) }
{
    match builtin {
        Some(function) => {
            text.extend_from_slice(b" in ")?;
            push_function(text, program, function)
        }
        None => Ok(()),
    }
}

// What is said of a path of the analysis that ends there.
fn end_words(kind: WarningKind) -> &'static [u8]
    ensures { result.now ≡ spec.end_words kind }
{
    match kind {
        WarningKind::ScopeRow => b"; what follows it isn't checked",
        WarningKind::NotAFunction | WarningKind::NoObject | WarningKind::UnboundName => b"",
    }
}

// Adds what may go wrong at an operation that is a `new` or none.
fn push_kind(
    text: &mut Vec<u8>,
    alloc: Global,
    source: &Source<'_>,
    told: &Told,
    new: bool,
    name: Option<&Text16>,
) -> Result<(), Memory>
    requires program { IsWellFormed source.now.program.now }
    requires files { length source.now.first_lines.now < 2 ^ 32 }
    ensures { OnOk result (text.new.items ≡ text.old.items
        ++ spec.kind_words told.now.warning.kind new told.now.warning.certain
        (option_copied name.entry) (value_of told.now.value).flags
        (value_words source.now.program.now source.now.files.now source.now.first_lines.now
        (value_of told.now.value))) }
{
    let certain = told.warning.certain;
    let value = &told.value;
    match told.warning.kind {
        WarningKind::NotAFunction => push_call(text, alloc, source, new, certain, name, value),
        WarningKind::NoObject => push_property(text, alloc, source, certain, name, value),
        WarningKind::UnboundName => push_unbound(text, certain, name),
        WarningKind::ScopeRow => push_unknown(text, name),
    }
}

// ---- warnings

/// What is told of a warning: what may go wrong, with the name and the value that it is about,
/// whether it surely does, and the built-in function that it stands in. `Memory` comes where memory
/// was refused.
#[tactic(auto, unfolding(crate::specs::Words::warning_words))]
pub fn warning_words(alloc: Global, source: &Source<'_>, told: &Told) -> Result<Vec<u8>, Memory>
    requires program { IsWellFormed source.now.program.now }
    requires files { length source.now.first_lines.now < 2 ^ 32 }
    ensures { IfOk result (λ text. text.items ≡ spec.told_words source.now.program.now
        source.now.files.now source.now.first_lines.now told.now) }
{
    let mut text = Vec::new(alloc);
    let name = name_of(source.program, &told.name);
    let new = constructs(source.program, told.warning.builtin, told.warning.place);
    push_kind(&mut text, alloc, source, told, new, name)?;
    push_certainty(&mut text, told.warning.kind, told.warning.certain)?;
    push_within(&mut text, source.program, told.warning.builtin)?;
    text.extend_from_slice(end_words(told.warning.kind))?;
    Ok(text)
}
