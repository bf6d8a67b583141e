//! The keys of classes of texts and numbers, each looked for among all keys of the program.

ghost use Rattle.std.specs.Prelude.{◌≡◌, [], ◌∷◌, ◌++◌, IfOk, if◌then◌else◌, length};
ghost use Rattle.ja_graph.specs.WellFormed.{IsWellFormed};
ghost use Rattle.ja_abstract.specs.declared.abstraction.Key.TheVariants as key;
ghost use Rattle.ja_abstract.specs.Keys.{keys_of_value};
ghost use Rattle.ja_value.specs.Value.{value_of};
ghost use Rattle.ja_astate.specs.code.Lists.{names_below, class_has_rest, IsClass};

use crate::tests_of_texts::has_key_text;
use ja_abstract::{Key, NumberPart, TextPart};
use ja_base::{Memory, NameId};
use ja_graph::Program;
use ja_value::AValue;
use std::alloc::Global;

/// Adds a key behind others, if there is reason for it.
fn push_if(keys: &mut Vec<Key>, key: Key, is_pushed: bool) -> Result<(), Memory>
    ensures { IfOk result (λ _. keys.new.items
        ≡ keys.old.items ++ (if is_pushed then key ∷ [] else [])) }
{
    if !is_pushed {
        return Ok(());
    }
    keys.push(key)?;
    Ok(())
}

/// Adds the keys of those names of the program that may be the key of a value.
fn push_names(
    alloc: Global,
    program: &Program,
    value: &AValue,
    keys: &mut Vec<Key>,
) -> Result<(), Memory>
    requires { IsWellFormed program.now }
    ensures { IfOk result (λ _. keys.new.items ≡ keys.old.items
        ++ names_below program.now (value_of value.now) (length program.now.names)) }
{
    for number in 0..program.names.len() {
        let name = NameId(number as u32);
        let is_pushed = has_key_text(alloc, value, program.name(name))?;
        push_if(keys, Key::Name(name), is_pushed)?;
    }
    Ok(())
}

/// Whether texts of array indices are among a class.
fn has_indices(value: &AValue) -> bool
    ensures { result ≡ class_has_rest (value_of value.now) key.OtherIndex }
{
    let of_texts = matches!(value.text, TextPart::IndexText | TextPart::Text);
    of_texts | matches!(value.number, NumberPart::Index | NumberPart::Whole)
}

/// Whether other texts are among a class.
fn has_others(value: &AValue) -> bool
    ensures { result ≡ class_has_rest (value_of value.now) key.OtherName }
{
    let of_texts = matches!(value.text, TextPart::OtherText | TextPart::Text);
    of_texts | matches!(value.number, NumberPart::OtherWhole | NumberPart::Whole)
}

/// The keys of a class of texts or numbers.
pub(crate) fn keys_of_class(
    alloc: Global,
    program: &Program,
    value: &AValue,
) -> Result<Vec<Key>, Memory>
    requires program { IsWellFormed program.now }
    requires value { IsClass (value_of value.now) }
    ensures { IfOk result (λ v. v.items ≡ keys_of_value program.now (value_of value.now)) }
{
    let mut keys = Vec::new(alloc);
    push_names(alloc, program, value, &mut keys)?;
    push_if(&mut keys, Key::OtherIndex, has_indices(value))?;
    push_if(&mut keys, Key::OtherName, has_others(value))?;
    Ok(keys)
}
