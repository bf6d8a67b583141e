ghost use Rattle.std.specs.Prelude.{◌≡◌, ◌≢◌, ◌<◌, ◌↔◌, ℕ, IfOk, IfSome, IsTrue, length, map, vec_len};
ghost use Rattle.std.specs.Option.{option_map_or};
ghost use Rattle.ja_abstract.specs.AbstractValue.{join};
ghost use Rattle.ja_abstract.specs.AbstractState.{aged};
ghost use Rattle.ja_abstract.specs.Composed.{renamed_value};
ghost use Rattle.ja_abstract.specs.Order.{LeqValue};
ghost use Rattle.ja_aheap.specs.Heap.{heap_of};
ghost use Rattle.ja_value.specs.Value.{value_of};
ghost use Rattle.ja_astate.specs.State.{register_in};

use ja_aheap::AHeap;
use ja_base::{Memory, Site};
use ja_value::AValue;
use std::alloc::Global;

/// The same values once more.
pub fn copy_values(alloc: Global, values: &[AValue]) -> Result<Vec<AValue>, Memory>
    ensures { IfOk result (λ v. map value_of v.items ≡ map value_of values.now) }
{
    let mut copies = Vec::new(alloc);
    for value in values {
        copies.push(value.copy(alloc)?)?;
    }
    Ok(copies)
}

/// The values after an object more was made at a site.
pub fn aged_values(alloc: Global, values: &[AValue], site: Site) -> Result<Vec<AValue>, Memory>
    ensures { IfOk result (λ v. map value_of v.items
        ≡ map (λ (x : _). aged site (value_of x)) values.now) }
{
    let mut aged = Vec::new(alloc);
    for value in values {
        aged.push(value.aged(alloc, site)?)?;
    }
    Ok(aged)
}

/// The values at the entry, with the labels that their objects have now.
pub fn renamed_values(alloc: Global, values: &[AValue], heap: &AHeap) -> Result<Vec<AValue>, Memory>
    ensures { IfOk result (λ v. map value_of v.items
        ≡ map (λ (x : _). renamed_value (heap_of heap.now).mask (value_of x)) values.now) }
{
    let mut renamed = Vec::new(alloc);
    for value in values {
        renamed.push(heap.renamed_value(alloc, value)?)?;
    }
    Ok(renamed)
}

/// Whether each value is below that of the same register among others.
pub fn leq_values(values: &[AValue], others: &[AValue]) -> bool
    requires { length values.now ≡ length others.now }
    ensures { IsTrue result ↔ ((r : ℕ) → LeqValue (register_in values.now r)
        (register_in others.now r)) }
{
    for (register, value) in values.iter().enumerate() {
        if !value.leq(&others[register]) {
            return false;
        }
    }
    true
}

/// The values with others joined in, register by register.
fn all_joined(alloc: Global, values: &[AValue], others: &[AValue]) -> Result<Vec<AValue>, Memory>
    requires { length values.now ≡ length others.now }
    ensures joined { IfOk result (λ v. (r : ℕ) → register_in v.items r
        ≡ join (register_in values.now r) (register_in others.now r)) }
    ensures len { IfOk result (λ v. vec_len v ≡ length values.now) }
{
    let mut all = Vec::new(alloc);
    for (register, value) in values.iter().enumerate() {
        let mut joined = value.copy(alloc)?;
        joined.join(alloc, &others[register])?;
        all.push(joined)?;
    }
    Ok(all)
}

/// The values with others joined in, or `None` where that changes none of them.
pub fn joined_values(
    alloc: Global,
    values: &[AValue],
    others: &[AValue],
) -> Result<Option<Vec<AValue>>, Memory>
    requires { length values.now ≡ length others.now }
    ensures joined { IfOk result (λ o. (r : ℕ)
        → register_in (option_map_or (λ (v : _). v.items) o values.now) r
        ≡ join (register_in values.now r) (register_in others.now r)) }
    ensures changed { IfOk result (λ o. IfSome o (λ v.
        register_in v.items ≢ register_in values.now)) }
    ensures len { IfOk result (λ o. IfSome o (λ v. vec_len v ≡ length values.now)) }
{
    if leq_values(others, values) {
        return Ok(None);
    }
    let joined = all_joined(alloc, values, others)?;
    Ok(Some(joined))
}
