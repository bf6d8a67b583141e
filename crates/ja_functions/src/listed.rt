//! Properties of objects that are to be made.

ghost use Rattle.std.specs.Prelude.{◌≡◌, IfOk};
ghost use Rattle.ja_abstract.specs.declared.abstraction.Key.TheVariants as key;
ghost use Rattle.ja_abstract.specs.Made as spec;
ghost use Rattle.ja_aheap.specs.Objects.{listed_of};
ghost use Rattle.ja_value.specs.Value.{value_of};

use ja_abstract::{Key, Slot};
use ja_base::{Label, Memory, Site};
use ja_graph::Attrs;
use ja_value::{AProp, AValue};
use std::alloc::Global;

/// A property of an object that is to be made.
pub type Listed = (Key, AProp);

/// An internal property.
pub fn slot_of(slot: Slot, value: AValue) -> Listed
    ensures { listed_of result ≡ spec.slot_of (key.Slot slot) (value_of value) }
{
    (Key::Slot(slot), AProp::bare(value))
}

/// The prototype.
pub fn inherits(alloc: Global, prototype: Site) -> Result<Listed, Memory>
    ensures { IfOk result (λ q. listed_of q ≡ spec.inherits prototype) }
{
    let label = Label {
        site: prototype,
        old: false,
    };
    Ok(slot_of(Slot::Prototype, AValue::of_label(alloc, label)?))
}

/// A property of a key with exactly some attributes.
pub fn property_of(key: Key, value: AValue, attrs: Attrs) -> Listed
    ensures { listed_of result ≡ spec.property_of key (value_of value) attrs }
{
    (key, AProp::with_attrs(value, attrs))
}
