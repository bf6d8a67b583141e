//! Keys put into lists in the program's order.

ghost use Rattle.std.specs.Prelude.{◌≡◌, IfOk};
ghost use Rattle.ja_astate.specs.code.Insertion as spec;

use crate::lookup::same_key;
use ja_abstract::Key;
use ja_base::Memory;

/// Whether a text's key stands before another one: names by their numbers, behind them the other
/// indices, and then the other names.
fn is_before(a: Key, b: Key) -> bool
    ensures { result ≡ spec.is_before a b }
{
    match a {
        Key::Name(name) => match b {
            Key::Name(other) => name.0 < other.0,
            _ => true,
        },
        Key::OtherIndex => matches!(b, Key::OtherName),
        _ => false,
    }
}

/// Puts a key into a list in the program's order, if it isn't there.
pub(crate) fn insert_key(keys: &mut Vec<Key>, key: Key) -> Result<(), Memory>
    ensures { IfOk result (λ _. keys.new.items ≡ spec.insert_key key keys.old.items) }
{
    for place in 0..keys.len() {
        let there = keys[place];
        if !is_before(there, key) {
            if !same_key(there, key) {
                keys.insert(place, key)?;
            }
            return Ok(());
        }
    }
    keys.push(key)?;
    Ok(())
}
