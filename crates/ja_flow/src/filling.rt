//! The values that a callee demands of its entry, by its caller's state at the node.

ghost use Rattle.std.specs.Prelude.{◌≡◌, ◌≢◌, [], ◌∷◌, IfOk, IsSome, IsTrue};
ghost use Rattle.ja_base.specs.declared.ids.Label.{Label};
ghost use Rattle.ja_abstract.specs.declared.abstraction.Key.{Key};
ghost use Rattle.ja_abstract.specs.AbstractState.{is_key, is_label};
ghost use Rattle.ja_abstract.specs.Resolved.{demands_of};
ghost use Rattle.ja_rows.specs.Calls as spec;
ghost use Rattle.ja_aheap.specs.Entries.{entries_of};
ghost use Rattle.ja_aheap.specs.Objects.{demands_in};
ghost use Rattle.ja_astate.specs.Looks.{view_of};
ghost use Rattle.ja_flow.specs.Flow.{caller_node, caller_view, IsCaller};
ghost use Rattle.ja_flow.specs.code.Pairs.{demands_at_pairs, filled, with_set};

use crate::Caller;
use crate::calling::calling_of;
use crate::values::{EntryValue, Values, values_for};
use ja_abstract::Key;
use ja_aheap::{DemandList, DemandedEntries};
use ja_astate::Reader;
use ja_base::{Label, Memory};
use ja_value::AProp;

impl Values for Reader<'_> {
    ghost use Rattle.ja_abstract.specs.Resolved.{resolved};
    ghost use Rattle.ja_astate.specs.Looks.{view_of};

    ghost program_of = { λ r. r.program.now };

    ghost value_at = { λ r l k. resolved (view_of r).state (view_of r).entries l k };

    fn value(&self, label: Label, key: Key) -> Result<AProp, Memory> {
        self.resolved(label, key)
    }
}

/// The values of a callee's entry that change, with what the caller has joined in, and the pairs of
/// the caller's entry that are demanded for it.
#[derive(Drop)]
pub struct Filled {
    pub values: Vec<EntryValue>,
    pub demands: DemandList,
}

/// Demands what the readings of some pairs take from the entry.
fn demand_pairs(reader: &Reader<'_>, pairs: &[(Label, Key)]) -> Result<DemandList, Memory>
    ensures { IfOk result (λ d. demands_in d
        ≡ demands_at_pairs (view_of reader.now).state pairs.now) }
{
    let mut demands = DemandList::new(reader.alloc);
    for pair in pairs {
        reader.demand(pair.0, pair.1, &mut demands)?;
    }
    Ok(demands)
}

/// What the caller has at the pairs that the callee demands.
pub fn fill(caller: &Caller<'_>, entries: &DemandedEntries) -> Result<Filled, Memory>
    requires caller { IsCaller caller.now }
    requires keys { (l : Label) (k : Key) → IsSome (entries_of entries.now l k)
        → IsTrue (is_key caller.now.reader.program.now k) }
    requires labels { (l : Label) (k : Key) → IsSome (entries_of entries.now l k)
        → IsTrue (is_label caller.now.reader.program.now l) }
    ensures values { IfOk result (λ f. with_set (entries_of entries.now) f.values.items
        ≡ filled (entries_of entries.now) (spec.filled_with (caller_view caller.now)
        caller.now.edge (caller_node caller.now))) }
    ensures changed { IfOk result (λ f. f.values.items ≢ []
        → filled (entries_of entries.now) (spec.filled_with (caller_view caller.now)
        caller.now.edge (caller_node caller.now)) ≢ entries_of entries.now) }
    ensures demands { IfOk result (λ f. demands_in f.demands ≡ spec.demands_of_fill
        (caller_view caller.now) caller.now.edge (caller_node caller.now)
        (entries_of entries.now)) }
{
    let own = caller.reader;
    let names = own.program.names.len() as u32;
    let calling = calling_of(caller)?;
    let reader = calling.reader(own);
    let pairs = entries.pairs(own.alloc, own.sites, names)?;
    let values = values_for(own.alloc, &reader, entries, &pairs)?;
    let more = demand_pairs(&reader, &pairs)?;
    let mut demands = calling.demands;
    demands.join(more)?;
    Ok(Filled { values, demands })
}
