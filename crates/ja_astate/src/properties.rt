//! The property that a put leaves, and what [[CanPut]] goes by.

ghost use Rattle.std.specs.Prelude.{◌≡◌, [], ◌∷◌, IfOk, if◌then◌else◌};
ghost use Rattle.ja_abstract.specs.AbstractValue.{unknown_attrs};
ghost use Rattle.ja_abstract.specs.Reading.{one_label, demands_of_get};
ghost use Rattle.ja_abstract.specs.Writes as spec;
ghost use Rattle.ja_astate.specs.Looks.{view_of, IsLooked};
ghost use Rattle.ja_value.specs.Value.{value_of, property_of};

use crate::gets::Looked;
use crate::reader::Reader;
use ja_abstract::{AAttrs, Key};
use ja_base::{Label, Memory};
use ja_graph::NO_ATTRS;
use ja_value::{AProp, AValue, LabelSet, exact_attrs, join_attrs, unknown_attrs};

/// These attributes where there is reason for them, or nothing known.
fn attrs_if(is_there: bool, attrs: AAttrs) -> AAttrs
    ensures { result ≡ (if is_there then attrs else unknown_attrs) }
{
    if is_there { attrs } else { unknown_attrs() }
}

/// The attributes of a property that is put: those that it has, and none where it may be new.
fn put_attrs(reader: &Reader<'_>, property: &AProp) -> AAttrs
    ensures { result ≡ spec.put_attrs (view_of reader.now) (property_of property.now) }
{
    let is_there = property.value.is_present(reader.sites);
    let had = attrs_if(is_there, property.attrs);
    let given = attrs_if(property.value.flags.absent, exact_attrs(NO_ATTRS));
    join_attrs(had, given)
}

/// The property that is put at a label and a key.
pub fn put_property(
    reader: &Reader<'_>,
    label: Label,
    key: Key,
    value: &AValue,
) -> Result<AProp, Memory>
    ensures { IfOk result (λ q. property_of q
        ≡ spec.put_property (view_of reader.now) label key (value_of value.now)) }
{
    let property = reader.resolved(label, key)?;
    let attrs = put_attrs(reader, &property);
    let value = value.copy(reader.alloc)?;
    Ok(AProp { value, attrs })
}

/// What [[CanPut]] goes by (8.6.2.3): what [[Get]] may find.
pub fn asked_at(reader: &Reader<'_>, label: Label, key: Key) -> Result<Looked, Memory>
    ensures { IfOk result (IsLooked (spec.asked_at (view_of reader.now) label key)
        (demands_of_get (view_of reader.now) (one_label label) (key ∷ []))) }
{
    let mut one = LabelSet::new(reader.alloc);
    one.insert(label)?;
    reader.get(&one, &[key])
}
