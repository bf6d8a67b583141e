ghost use Rattle.std.specs.Prelude.{◌≡◌, ◌*◌, nat_lt, if◌then◌else◌, Some, None};
ghost use Rattle.ja_abstract.specs.AbstractState.{key_number};
ghost use Rattle.ja_aheap.specs.KeysBelow.{is_key_below};
ghost use Rattle.ja_value.specs.Labels.{label_at};

use ja_abstract::{Key, Slot};
use ja_base::Label;
use ja_value::label_at;

/// The number of a key: the internal properties, the rests, and then the names.
pub fn key_number(key: Key) -> u64
    ensures { result ≡ key_number key }
{
    match key {
        Key::Slot(Slot::Prototype) => 0,
        Key::Slot(Slot::Outer) => 1,
        Key::Slot(Slot::Scope) => 2,
        Key::Slot(Slot::Value) => 3,
        Key::OtherIndex => 4,
        Key::OtherName => 5,
        Key::Name(name) => 6 + u64::from(name.0),
    }
}

/// The label of a number, if it is of the first sites.
pub fn label_among(number: u64, sites: u32) -> Option<Label>
    ensures { result ≡ (if nat_lt number (2 * sites) then Some (label_at number) else None) }
{
    if number < 2 * u64::from(sites) {
        Some(label_at(number))
    } else {
        None
    }
}

/// Whether a key is one of the first names', or none of a name.
pub fn is_key_below(names: u32, key: Key) -> bool
    ensures { result ≡ is_key_below names key }
{
    match key {
        Key::Name(name) => name.0 < names,
        _ => true,
    }
}
