ghost use Rattle.std.specs.Prelude.{◌≡◌, ◌↔◌, IfOk, IsTrue};
ghost use Rattle.ja_abstract.specs.AbstractValue.{entry_property, join_properties};
ghost use Rattle.ja_abstract.specs.AbstractState.{new, aged_property};
ghost use Rattle.ja_abstract.specs.Order.{LeqProperty};
ghost use Rattle.ja_value.specs.Value.{property_of};
ghost use Rattle.ja_aheap.specs.Objects.{shared_property};

use ja_abstract::{Flags, NumberPart, TextPart};
use ja_base::{Label, Memory, Site};
use ja_value::{AProp, same_attrs, same_flags, unknown_attrs};
use std::alloc::Global;
use std::rc::Rc;

/// A property with another one joined in.
pub fn joined(alloc: Global, property: &AProp, other: &AProp) -> Result<AProp, Memory>
    ensures { IfOk result (λ q. property_of q
        ≡ join_properties (property_of property.now) (property_of other.now)) }
{
    let mut joined = property.copy(alloc)?;
    joined.join(alloc, other)?;
    Ok(joined)
}

/// A property with another one joined in: shared where that changes nothing.
pub fn joined_shared(
    alloc: Global,
    property: &Rc<AProp>,
    other: &AProp,
) -> Result<Rc<AProp>, Memory>
    ensures { IfOk result (λ q. shared_property q
        ≡ join_properties (shared_property property.now) (property_of other.now)) }
{
    if property.covers(other) {
        return Ok(property.clone()?);
    }
    let joined = joined(alloc, property, other)?;
    Ok(Rc::new(alloc, joined)?)
}

/// A property after an object more was made at a site: shared where it may not be the new label.
pub fn aged_shared(alloc: Global, property: &Rc<AProp>, site: Site) -> Result<Rc<AProp>, Memory>
    ensures { IfOk result (λ q. shared_property q
        ≡ aged_property site (shared_property property.now)) }
{
    if !has_new_label(property, site) {
        return Ok(property.clone()?);
    }
    let aged = property.aged(alloc, site)?;
    Ok(Rc::new(alloc, aged)?)
}

/// Whether a property may be the new label of a site.
pub fn has_new_label(property: &AProp, site: Site) -> bool
    ensures { result ≡ (property_of property.now).value.label (new site) }
{
    property.value.labels.contains(Label { site, old: false })
}

/// Whether a property is exactly as at entry.
pub fn is_entry(property: &AProp) -> bool
    ensures { IsTrue result ↔ (property_of property.now ≡ entry_property) }
{
    let entry = Flags {
        absent: false,
        entry: true,
        row: false,
        undefined: false,
        null: false,
        is_true: false,
        is_false: false,
        nan: false,
    };
    same_flags(property.value.flags, entry)
        & matches!(property.value.number, NumberPart::Nothing)
        & matches!(property.value.text, TextPart::Nothing)
        & property.value.labels.is_empty()
        & same_attrs(property.attrs, unknown_attrs())
}

/// Whether a property has each part of one that is exactly as at entry.
pub fn has_entry(property: &AProp) -> bool
    ensures { IsTrue result ↔ LeqProperty entry_property (property_of property.now) }
{
    property.value.flags.entry
}
