//! Values that are joined into those of an entry that are demanded.

ghost use Rattle.std.specs.Prelude.{◌≡◌, ◌≢◌, ◌↔◌, ◌++◌, [], IfOk, IsSome, IsTrue, false};
ghost use Rattle.std.specs.Option.{option_to_list};
ghost use Rattle.ja_base.specs.declared.ids.Label.{Label};
ghost use Rattle.ja_abstract.specs.declared.abstraction.Key.{Key};
ghost use Rattle.ja_abstract.specs.AbstractState.{is_key};
ghost use Rattle.ja_aheap.specs.Entries.{entries_of};
ghost use Rattle.ja_value.specs.Value.{property_of};
ghost use Rattle.ja_flow.specs.code.Pairs.{filled, with_set, AreDemanded, IsChange};

use ja_abstract::Key;
use ja_aheap::DemandedEntries;
use ja_base::{Label, Memory};
use ja_value::AProp;
use std::alloc::Global;

/// What gives a value for each pair of an entry.
pub trait Values {
    ghost use Rattle.ja_abstract.specs.AbstractValue.{AbstractProperty};
    ghost use Rattle.ja_graph.specs.declared.program.Program.{Program};

    /// The program whose keys have values.
    ghost program_of: { Self → Program };

    /// The value of each pair.
    ghost value_at: { Self → Label → Key → AbstractProperty };

    /// The value of a pair.
    fn value(&self, label: Label, key: Key) -> Result<AProp, Memory>
        requires { IsTrue (is_key (program_of self.now) key) }
        ensures { IfOk result (λ q. property_of q ≡ value_at self.now label key) };
}

/// A value of a pair at entry.
#[derive(Drop)]
pub struct EntryValue {
    pub label: Label,
    pub key: Key,
    pub value: AProp,
}

/// The value of a pair with another one joined in, if it is demanded and that changes it.
fn changed_value<V: Values>(
    alloc: Global,
    values: &V,
    entries: &DemandedEntries,
    label: Label,
    key: Key,
) -> Result<Option<EntryValue>, Memory>
    requires { IsSome (entries_of entries.now label key)
        → IsTrue (is_key (V.program_of values.now) key) }
    ensures { IfOk result
        (IsChange (entries_of entries.now) (V.value_at values.now) label key) }
{
    let Some(before) = entries.get(label, key) else {
        return Ok(None);
    };
    let more = values.value(label, key)?;
    if more.leq(before) {
        return Ok(None);
    }
    let mut value = before.copy(alloc)?;
    value.join(alloc, &more)?;
    Ok(Some(EntryValue { label, key, value }))
}

/// Lists a value, if there is one.
fn list_value(listed: &mut Vec<EntryValue>, value: Option<EntryValue>) -> Result<(), Memory>
    ensures { IfOk result (λ _. listed.new.items
        ≡ listed.old.items ++ option_to_list value) }
{
    if let Some(value) = value {
        listed.push(value)?;
    }
    Ok(())
}

/// The values of an entry that change where others are joined in, with these joined in.
pub fn values_for<V: Values>(
    alloc: Global,
    values: &V,
    entries: &DemandedEntries,
    pairs: &[(Label, Key)],
) -> Result<Vec<EntryValue>, Memory>
    requires keys { (l : Label) (k : Key) → IsSome (entries_of entries.now l k)
        → IsTrue (is_key (V.program_of values.now) k) }
    requires pairs { AreDemanded (entries_of entries.now) pairs.now }
    ensures set { IfOk result (λ v. with_set (entries_of entries.now) v.items
        ≡ filled (entries_of entries.now) (V.value_at values.now)) }
    ensures changed { IfOk result (λ v. v.items ≢ []
        → filled (entries_of entries.now) (V.value_at values.now) ≢ entries_of entries.now) }
{
    let mut listed = Vec::new(alloc);
    for pair in pairs {
        let value = changed_value(alloc, values, entries, pair.0, pair.1)?;
        list_value(&mut listed, value)?;
    }
    Ok(listed)
}

/// Sets values of an entry, and tells whether there are some.
pub fn set_values(
    alloc: Global,
    entries: &mut DemandedEntries,
    values: Vec<EntryValue>,
) -> Result<bool, Memory>
    ensures set { IfOk result (λ _. entries_of entries.new
        ≡ with_set (entries_of entries.old) values.items) }
    ensures told { IfOk result (λ t. t ≡ false ↔ (values.items ≡ [])) }
{
    let mut left = values;
    let is_some = !left.is_empty();
    'values: while let Some(EntryValue { label, key, value }) = left.pop() {
        entries.set(alloc, label, key, value)?;
    }
    Ok(is_some)
}
