ghost use Rattle.std.specs.Prelude.{◌≡◌, ◌==◌, ℕ, IfOk, OnErr, IsSome, true, Some, if◌then◌else◌};
ghost use Rattle.std.specs.declared.result.Result.TheVariants.{Ok};
ghost use Rattle.ja_aheap.specs.code.Maps.{GivesAt, GivesOfBoth, SaysOfAll, AreBeside, IsFilled};
ghost use Rattle.std.specs.Ordering.{nat_cmp};
ghost use Rattle.std.specs.BTreeMap.{get};

use ja_base::Memory;
use std::collections::BTreeMap;

/// Puts a value at a number, in the place of what was there. After `Memory` the map is as it was.
pub fn put<V: Drop>(map: &mut BTreeMap<u64, V>, number: u64, value: V) -> Result<(), Memory>
    ensures placed { IfOk result (λ _. (q : ℕ)
        → get nat_cmp map.new q ≡ (if number == q then Some value else get nat_cmp map.old q)) }
    ensures kept { OnErr result ((q : ℕ) → get nat_cmp map.new q ≡ get nat_cmp map.old q) }
{
    map.insert(number, value)?;
    Ok(())
}

/// Puts a value in the place of the one at a number, and gives that one.
pub fn exchange<V: Drop>(map: &mut BTreeMap<u64, V>, number: u64, value: V) -> V
    requires { IsSome (get nat_cmp map.old number) }
    ensures taken { get nat_cmp map.old number ≡ Some result }
    ensures placed { (q : ℕ) → get nat_cmp map.new q
        ≡ (if number == q then Some value else get nat_cmp map.old q) }
{
    match map.insert(number, value) {
        Ok(Some(old)) => old,
        _ => unreachable!(),
    }
}

/// Whether a test holds at each number that has a value.
pub fn all_listed<V, F: Fn(u64, &V) -> bool>(map: &BTreeMap<u64, V>, test: F) -> bool
    requires { F.IsAlwaysCallable test }
    ensures { SaysOfAll (GivesAt F.Fn test) (get nat_cmp map.now) result }
{
    for (number, value) in map {
        if !test(*number, value) {
            return false;
        }
    }
    true
}

/// Whether two maps have the same numbers, and a test holds of the two values at each. It goes over
/// both side by side, and says nothing where it answers false.
pub fn all_beside<V, F: Fn(&V, &V) -> bool>(
    map: &BTreeMap<u64, V>,
    others: &BTreeMap<u64, V>,
    test: F,
) -> bool
    requires { F.IsAlwaysCallable test }
    ensures { result ≡ true → (q : ℕ) → AreBeside (λ v w. GivesOfBoth F.Fn test v w true)
        (get nat_cmp map.now q) (get nat_cmp others.now q) }
{
    if map.len() != others.len() {
        return false;
    }
    let mut beside = others.iter();
    for (number, value) in map {
        let Some((other_number, other)) = beside.next() else {
            return false;
        };
        if number != other_number || !test(value, other) {
            return false;
        }
    }
    true
}

/// Puts what is made of each value of a map, at each number where nothing is yet. After `Memory`
/// some may have been put.
pub fn fill<V, W: Drop, F: Fn(u64, &V) -> Result<W, Memory>>(
    into: &mut BTreeMap<u64, W>,
    from: &BTreeMap<u64, V>,
    make: F,
) -> Result<(), Memory>
    requires { F.IsAlwaysCallable make }
    ensures { IfOk result (λ _. (q : ℕ)
        → IsFilled (λ v w. GivesAt F.Fn make q v (Ok w)) (get nat_cmp into.old q)
        (get nat_cmp from.now q) (get nat_cmp into.new q)) }
{
    for (number, value) in from {
        if !into.contains_key(number) {
            put(into, *number, make(*number, value)?)?;
        }
    }
    Ok(())
}
