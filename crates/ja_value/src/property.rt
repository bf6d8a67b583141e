ghost use Rattle.std.specs.Prelude.{◌≡◌, ◌≢◌, ◌↔◌, IfOk, OnErr, IsTrue, true, false};
ghost use Rattle.ja_abstract.specs.AbstractValue.{join_properties, join_attrs, of_attrs, unknown_attrs, bare, no_property, absent_property, entry_property};
ghost use Rattle.ja_abstract.specs.AbstractState.{aged_property};
ghost use Rattle.ja_abstract.specs.Order.{LeqProperty};
ghost use Rattle.ja_abstract.specs.Resolved.{renamed};
ghost use Rattle.ja_value.specs.Labels.{mask_in};

use crate::AValue;
use ja_abstract::{AAttrs, Mask, May};
use ja_base::{Memory, Site};
use ja_graph::Attrs;
use std::alloc::Global;
use std::collections::BTreeMap;

/// An abstract property: its value, and what is known of its attributes.
#[derive(Drop)]
pub struct AProp {
    pub value: AValue,
    pub attrs: AAttrs,
}

/// Nothing is known of the attributes.
pub fn unknown_attrs() -> AAttrs
    ensures { result ≡ unknown_attrs }
{
    let unknown = May {
        set: false,
        unset: false,
    };
    AAttrs {
        read_only: unknown,
        dont_enum: unknown,
        dont_delete: unknown,
    }
}

/// Exactly these attributes.
pub fn exact_attrs(attrs: Attrs) -> AAttrs
    ensures { result ≡ of_attrs attrs }
{
    let exactly = |set: bool| May { set, unset: !set };
    AAttrs {
        read_only: exactly(attrs.read_only),
        dont_enum: exactly(attrs.dont_enum),
        dont_delete: exactly(attrs.dont_delete),
    }
}

/// What either side knows.
pub fn join_attrs(a: AAttrs, b: AAttrs) -> AAttrs
    ensures { result ≡ join_attrs a b }
{
    let join = |a: May, b: May| May {
        set: a.set | b.set,
        unset: a.unset | b.unset,
    };
    AAttrs {
        read_only: join(a.read_only, b.read_only),
        dont_enum: join(a.dont_enum, b.dont_enum),
        dont_delete: join(a.dont_delete, b.dont_delete),
    }
}

/// Whether the same is known.
pub fn same_attrs(a: AAttrs, b: AAttrs) -> bool
    ensures { IsTrue result ↔ (a ≡ b) }
{
    a == b
}

/// Whether another side knows what a first does.
fn leq_attrs(attrs: AAttrs, other: AAttrs) -> bool
    ensures { IsTrue result ↔ (join_attrs other attrs ≡ other) }
{
    same_attrs(join_attrs(other, attrs), other)
}

/// Adds what another side knows, and tells whether that is new.
pub fn widen_attrs(attrs: &mut AAttrs, other: AAttrs) -> bool
    ensures joined { attrs.new ≡ join_attrs attrs.old other }
    ensures changed { result ≡ true → attrs.new ≢ attrs.old }
    ensures same { result ≡ false → attrs.new ≡ attrs.old }
{
    let joined = join_attrs(*attrs, other);
    let same = same_attrs(joined, *attrs);
    *attrs = joined;
    !same
}

impl AProp {
    ghost use Rattle.ja_value.specs.Value.{property_of, value_of};

    /// A value of which no attribute is known.
    pub fn bare(value: AValue) -> AProp
        ensures { property_of result ≡ bare (value_of value) }
    {
        AProp {
            value,
            attrs: unknown_attrs(),
        }
    }

    /// The property without a part.
    pub fn nothing(alloc: Global) -> AProp
        ensures { property_of result ≡ no_property }
    {
        AProp::bare(AValue::empty(alloc))
    }

    /// A value with exactly these attributes.
    pub fn with_attrs(value: AValue, attrs: Attrs) -> AProp
        ensures { property_of result
            ≡ record { value = value_of value; attrs = of_attrs attrs } }
    {
        AProp {
            value,
            attrs: exact_attrs(attrs),
        }
    }

    /// Exactly absent.
    pub fn absent(alloc: Global) -> AProp
        ensures { property_of result ≡ absent_property }
    {
        let mut value = AValue::empty(alloc);
        value.flags.absent = true;
        AProp::bare(value)
    }

    /// Exactly as at entry.
    pub fn entry(alloc: Global) -> AProp
        ensures { property_of result ≡ entry_property }
    {
        let mut value = AValue::empty(alloc);
        value.flags.entry = true;
        AProp::bare(value)
    }

    /// The same property once more.
    pub fn copy(&self, alloc: Global) -> Result<AProp, Memory>
        ensures { IfOk result (λ q. property_of q ≡ property_of self.now) }
    {
        Ok(AProp {
            value: self.value.copy(alloc)?,
            attrs: self.attrs,
        })
    }

    /// Whether another property has each part of this one, so that a join of this one changes
    /// nothing.
    pub fn leq(&self, other: &AProp) -> bool
        ensures order { IsTrue result ↔ LeqProperty (property_of self.now) (property_of other.now) }
        ensures joined { IsTrue result ↔ (join_properties (property_of other.now)
            (property_of self.now) ≡ property_of other.now) }
    {
        self.value.leq(&other.value) & leq_attrs(self.attrs, other.attrs)
    }

    /// Whether this property holds another, so that a join changes nothing.
    pub fn covers(&self, other: &AProp) -> bool
        ensures { IsTrue result ↔ (join_properties (property_of self.now)
            (property_of other.now) ≡ property_of self.now) }
    {
        other.leq(self)
    }

    /// Joins another property in, and tells whether the property changed. After `Memory` it is as
    /// it was.
    pub fn join(&mut self, alloc: Global, other: &AProp) -> Result<bool, Memory>
        ensures joined { IfOk result (λ _. property_of self.new
            ≡ join_properties (property_of self.old) (property_of other.now)) }
        ensures changed { IfOk result (λ c. c ≡ true → property_of self.new ≢ property_of self.old) }
        ensures same { IfOk result (λ c. c ≡ false → property_of self.new ≡ property_of self.old) }
        ensures kept { OnErr result (property_of self.new ≡ property_of self.old) }
    {
        let value = self.value.join(alloc, &other.value)?;
        let attrs = widen_attrs(&mut self.attrs, other.attrs);
        Ok(value | attrs)
    }

    /// The property after an object more was made at a site.
    pub fn aged(&self, alloc: Global, site: Site) -> Result<AProp, Memory>
        ensures { IfOk result (λ q. property_of q ≡ aged_property site (property_of self.now)) }
    {
        Ok(AProp {
            value: self.value.aged(alloc, site)?,
            attrs: self.attrs,
        })
    }

    /// The property at the entry with the labels that its objects have now, by the masks of their
    /// sites.
    pub fn renamed(&self, alloc: Global, masks: &BTreeMap<u64, Mask>) -> Result<AProp, Memory>
        ensures { IfOk result (λ q. property_of q
            ≡ renamed (mask_in masks.now) (property_of self.now)) }
    {
        Ok(AProp {
            value: self.value.renamed(alloc, masks)?,
            attrs: self.attrs,
        })
    }
}
