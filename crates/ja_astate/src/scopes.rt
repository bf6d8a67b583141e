ghost use Rattle.std.specs.Prelude.{◌≡◌, IfOk, if◌then◌else◌};
ghost use Rattle.ja_abstract.specs.AbstractValue.{bare, of_label, no_property, null_value, no_value};
ghost use Rattle.ja_abstract.specs.Reading.{found, demands_of_found};
ghost use Rattle.ja_value.specs.Value.{labels_in, property_of, value_of};
ghost use Rattle.ja_astate.specs.code.Asked.{scope_met};

use crate::Reader;
use crate::met::Met;
use crate::walks::Asks;
use ja_abstract::{Key, Slot};
use ja_aheap::DemandList;
use ja_base::{Label, Memory};
use ja_value::{AProp, AValue, LabelSet};
use std::alloc::Global;

/// The objects of a name, and the pairs of the entry that the search demands.
#[derive(Drop)]
pub struct Found {
    pub value: AValue,
    pub demands: DemandList,
}

/// Asks objects and their prototypes for a name, and leads from those that may lack it to the next
/// of the scope chain.
#[derive(Clone, Copy)]
struct Scopes<'a> {
    reader: Reader<'a>,
    keys: &'a [Key],
}

/// The objects of a label as a value, or nothing.
fn object_if(alloc: Global, is_there: bool, label: Label) -> Result<AProp, Memory>
    ensures { IfOk result (λ q. property_of q
        ≡ (if is_there then bare (of_label label) else no_property)) }
{
    if is_there {
        Ok(AProp::bare(AValue::of_label(alloc, label)?))
    } else {
        Ok(AProp::nothing(alloc))
    }
}

/// Exactly null, or no value.
fn null_if(alloc: Global, is_null: bool) -> AValue
    ensures { value_of result ≡ (if is_null then null_value else no_value) }
{
    if is_null {
        AValue::null(alloc)
    } else {
        AValue::empty(alloc)
    }
}

impl Asks for Scopes<'_> {
    ghost use Rattle.ja_astate.specs.Looks.{view_of};

    ghost meets = { λ s. scope_met (view_of s.reader) s.keys.now };

    fn ask(&self, label: Label) -> Result<Met, Memory> {
        let reader = self.reader;
        let mut one = LabelSet::new(reader.alloc);
        one.insert(label)?;
        let mut looked = reader.get(&one, self.keys)?;
        let has = looked.property.value.is_present(reader.sites);
        let lacks = looked.property.value.flags.absent;
        let next = reader.links(label, Key::Slot(Slot::Outer), lacks, &mut looked.demands)?;
        Ok(Met {
            labels: next.labels,
            property: object_if(reader.alloc, has, label)?,
            may_end: next.may_end,
            demands: looked.demands,
        })
    }
}

impl Reader<'_> {
    ghost use Rattle.ja_astate.specs.Looks.{view_of, IsFound};

    /// The objects of the scope chains from those of some labels on that may have a name, and null
    /// where a chain may end without it (ES3 10.1.4).
    pub fn found(&self, start: &LabelSet, keys: &[Key]) -> Result<Found, Memory>
        ensures { IfOk result (IsFound (found (view_of self.now) (labels_in start.now) keys.now)
            (demands_of_found (view_of self.now) (labels_in start.now) keys.now)) }
    {
        let scopes = Scopes {
            reader: *self,
            keys,
        };
        let met = self.walk(&scopes, start)?;
        let mut value = null_if(self.alloc, met.may_end);
        value.join(self.alloc, &met.property.value)?;
        Ok(Found {
            value,
            demands: met.demands,
        })
    }
}
