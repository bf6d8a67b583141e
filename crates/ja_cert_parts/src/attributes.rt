//! The attributes of properties.

ghost use Rattle.std.specs.Prelude.{◌≡◌, ◌∷◌, [], MatchOption, false, true};
ghost use Rattle.serde_json.specs.Data.{string};
ghost use Rattle.ja_cert_json.specs.View.{view};
ghost use Rattle.ja_report.specs.Texts.{attr_text, attrs_text};
ghost use Rattle.ja_cert.specs.Certificate.{key_data};
ghost use Rattle.ja_cert.specs.Wrong.{are_attrs, attrs_wrong, is_attr};
ghost use Rattle.ja_cert_parts.specs.code.Own.{HasOwnAttrs};
ghost use Rattle.ja_cert_parts.specs.code.Ranks.{are_attrs_at};
ghost use Rattle.ja_cert_parts.specs.code.Reading.{Reads};

use crate::fault::{Fault, here};
use ja_abstract::{AAttrs, Key, May};
use ja_cert_json::Json;
use ja_graph::Program;
use ja_value::unknown_attrs;
use std::alloc::Global;

/// What is known of an attribute, by its letter where it is set.
fn attr_of(letter: u8, byte: u8) -> Option<May>
    ensures { MatchOption result (is_attr letter byte ≡ false)
        (λ m. (is_attr letter byte ≡ true) × (attr_text letter m ≡ byte)) }
{
    let (set, unset) = match byte {
        b'?' => (true, true),
        b'-' => (false, true),
        b'.' => (false, false),
        _ if byte == letter => (true, false),
        _ => return None,
    };
    Some(May { set, unset })
}

/// What is known of the attributes, by their three letters.
fn attrs_of(text: &[u8]) -> Option<AAttrs>
    ensures { MatchOption result (are_attrs text.now ≡ false)
        (λ a. (are_attrs text.now ≡ true) × (attr_text 82 a.read_only
        ∷ attr_text 69 a.dont_enum ∷ attr_text 68 a.dont_delete ∷ [] ≡ text.now)) }
{
    let [first, second, third] = text else {
        return None;
    };
    let read_only = attr_of(b'R', *first)?;
    let dont_enum = attr_of(b'E', *second)?;
    let dont_delete = attr_of(b'D', *third)?;
    Some(AAttrs {
        read_only,
        dont_enum,
        dont_delete,
    })
}

/// The attributes of a property, or of an internal property, which has none.
fn attrs_at(key: Key, text: &[u8]) -> Option<AAttrs>
    ensures { MatchOption result (are_attrs_at key text.now ≡ false)
        (λ a. (are_attrs_at key text.now ≡ true) × (attrs_text key a ≡ text.now)
        × HasOwnAttrs key a) }
{
    if let Key::Slot(_) = key {
        if text == b"...".as_slice() {
            Some(unknown_attrs())
        } else {
            None
        }
    } else {
        attrs_of(text)
    }
}

/// Reads the attributes of a property at a key.
pub fn read_attrs(alloc: Global, program: &Program, key: Key, value: &Json) -> Result<AAttrs, Fault>
    ensures { Reads (attrs_wrong program.now (key_data key) (view value.now))
        (λ attrs. (string (attrs_text key attrs) ≡ view value.now)
        × HasOwnAttrs key attrs) result }
{
    let Some(text) = value.as_str() else {
        return Err(here(alloc));
    };
    match attrs_at(key, text.as_bytes()) {
        Some(attrs) => Ok(attrs),
        None => Err(here(alloc)),
    }
}
