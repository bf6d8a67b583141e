//! The key of a text, and the keys of a value.

ghost use Rattle.std.specs.Prelude.{◌≡◌, IfOk};
ghost use Rattle.ja_graph.specs.declared.program.Program.{Program};
ghost use Rattle.ja_abstract.specs.AbstractState.{same_key};
ghost use Rattle.ja_abstract.specs.Keys as spec;
ghost use Rattle.ja_value.specs.Value.{value_of};
ghost use Rattle.ja_astate.specs.Keys.{HasNames, IsKeysOf};
ghost use Rattle.ja_astate.specs.code.Insertion.{classes_of, with_text, with_number, with_nan};

use crate::ProgramKeys;
use crate::insertion::insert_key;
use crate::tests_of_texts::whole_text;
use ja_abstract::{Key, NumberPart, TextPart};
use ja_aheap::key_number;
use ja_base::{Memory, NameId};
use ja_prim::Text16;
use ja_value::{AValue, is_index_text};
use std::alloc::Global;
use std::collections::HashMap;

/// Whether two keys are the same.
pub fn same_key(a: Key, b: Key) -> bool
    ensures { result ≡ same_key a b }
{
    key_number(a) == key_number(b)
}

/// The key of a text that is no name of the program.
fn rest_key(text: &Text16) -> Key
    ensures { result ≡ spec.rest_key text.now }
{
    if is_index_text(text) {
        Key::OtherIndex
    } else {
        Key::OtherName
    }
}

/// The key of a text, looked up among a program's names.
pub(crate) fn key_in(names: &HashMap<Text16, NameId>, text: &Text16) -> Key
    ensures { (p : Program) → HasNames p names.now → result ≡ spec.text_key p text.now }
{
    match names.get(text) {
        Some(name) => Key::Name(*name),
        None => rest_key(text),
    }
}

impl ProgramKeys {
    /// The key of a text: the name that it is, or that of all other texts of its kind.
    pub fn text_key(&self, text: &Text16) -> Key
        ensures { (p : Program) → IsKeysOf p self.now → result ≡ spec.text_key p text.now }
    {
        key_in(&self.names, text)
    }

    /// The keys of all texts, in the program's order.
    pub fn texts(&self) -> &[Key]
        ensures { (p : Program) → IsKeysOf p self.now → result.now ≡ spec.text_keys p }
    {
        &self.texts
    }

    /// The keys of array indices, in the program's order.
    pub fn indices(&self) -> &[Key]
        ensures { (p : Program) → IsKeysOf p self.now → result.now ≡ spec.index_keys p }
    {
        &self.numbers.indices
    }

    /// The keys of the classes of a value's texts and numbers.
    fn of_classes(&self, value: &AValue) -> &[Key]
        ensures { (p : Program) → IsKeysOf p self.now → result.now
            ≡ spec.keys_of_value p (classes_of (value_of value.now)) }
    {
        match value.text {
            TextPart::Nothing => self.numbers.with(value.number),
            TextPart::One(_) => self.numbers.with(value.number),
            TextPart::IndexText => self.index_texts.with(value.number),
            TextPart::OtherText => self.other_texts.with(value.number),
            TextPart::Text => &self.texts,
        }
    }

    /// Adds the key of a value's one text.
    fn insert_text(&self, text: &TextPart, keys: &mut Vec<Key>) -> Result<(), Memory>
        ensures { IfOk result (λ _. (p : Program) → IsKeysOf p self.now → keys.new.items
            ≡ with_text p text.now keys.old.items) }
    {
        match text {
            TextPart::One(text) => insert_key(keys, self.text_key(text)),
            _ => Ok(()),
        }
    }

    /// Adds the key of a value's one number.
    fn insert_number(
        &self,
        alloc: Global,
        number: NumberPart,
        keys: &mut Vec<Key>,
    ) -> Result<(), Memory>
        ensures { IfOk result (λ _. (p : Program) → IsKeysOf p self.now → keys.new.items
            ≡ with_number p number keys.old.items) }
    {
        match number {
            NumberPart::One(number) => {
                let text = whole_text(alloc, number)?;
                insert_key(keys, self.text_key(&text))
            }
            _ => Ok(()),
        }
    }

    /// Adds the key of NaN.
    fn insert_nan(&self, is_nan: bool, keys: &mut Vec<Key>) -> Result<(), Memory>
        ensures { IfOk result (λ _. (p : Program) → IsKeysOf p self.now → keys.new.items
            ≡ with_nan p is_nan keys.old.items) }
    {
        if !is_nan {
            return Ok(());
        }
        insert_key(keys, self.nan)
    }

    /// The keys of a value, in the program's order.
    pub fn keys_of_value(&self, alloc: Global, value: &AValue) -> Result<Vec<Key>, Memory>
        ensures { IfOk result (λ v. (p : Program) → IsKeysOf p self.now → v.items
            ≡ spec.keys_of_value p (value_of value.now)) }
    {
        let mut keys = Vec::from_slice(alloc, self.of_classes(value))?;
        self.insert_text(&value.text, &mut keys)?;
        self.insert_number(alloc, value.number, &mut keys)?;
        self.insert_nan(value.flags.nan, &mut keys)?;
        Ok(keys)
    }
}
