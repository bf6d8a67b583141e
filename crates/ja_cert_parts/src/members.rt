//! Lists and objects. Each member of a list is read by the same rule, which knows those before it.

ghost use Rattle.std.specs.Prelude.{◌≡◌, List, [], Option, Some, None, IfOk, is_some, length, map};
ghost use Rattle.std.specs.List.{AllByRecursion};
ghost use Rattle.serde_json.specs.Data.{Data};
ghost use Rattle.ja_cert_json.specs.View.{view};
ghost use Rattle.ja_cert.specs.Wrong.{Path, here_unless, list_of, list_wrong, members_of, members_wrong};
ghost use Rattle.ja_cert_parts.specs.code.Reading.{Reads};
ghost use Rattle.ja_cert.specs.Certificate.{listed};

use crate::fault::{Fault, at, here};
use ja_cert_json::Json;
use std::alloc::Global;

/// The values of a list.
pub fn list(alloc: Global, value: &Json) -> Result<&[Json], Fault>
    ensures { Reads (here_unless (is_some (list_of (view value.now))))
        (λ values. (list_of (view value.now) ≡ Some (map view values.now))
        × (listed (map view values.now) ≡ view value.now)) result }
{
    match value.as_array() {
        Some(values) => Ok(values),
        None => Err(here(alloc)),
    }
}

/// The values of the members of an object that has exactly those with these names, which are in
/// ascending order.
#[tactic(auto, unfolding(crate::specs::code::Reading::Tells))]
pub fn members<'a>(
    alloc: Global,
    keys: &[&'static str],
    value: &'a Json,
) -> Result<Vec<&'a Json>, Fault>
    ensures read { let names = map (λ key. key.now) keys.now in
        Reads (here_unless (is_some (members_of names (view value.now))))
        (λ values. members_of names (view value.now)
        ≡ Some (map (λ v. view v.now) values.items)) result }
    ensures count { IfOk result (λ values. length values.items ≡ length keys.now) }
{
    let Some(map) = value.as_object() else {
        return Err(here(alloc));
    };
    let mut left = map.iter();
    let mut values = Vec::new(alloc);
    for key in keys {
        let Some((name, member)) = left.next() else {
            return Err(here(alloc));
        };
        if name.as_str() != *key {
            return Err(here(alloc));
        }
        values.push(member)?;
    }
    if left.next().is_some() {
        return Err(here(alloc));
    }
    Ok(values)
}

/// What a list has at each place, where `C` is what its rule needs besides.
pub trait Member<C>: Sized + Drop {
    // what reading asks of that
    ghost can: { C → Type 0 };

    // what is wrong of a member, by those before it
    ghost wrong: { C → List Data → Data → Option Path };

    // how one that was read is written
    ghost data: { C → Self → Data };

    // what else holds of one that was read
    ghost holds: { C → Self → Type 0 };

    /// Reads a member, behind those that were read before it, of which nothing is wrong.
    fn read(rule: &C, before: &[Self], value: &Json) -> Result<Self, Fault>
        requires can { can rule.now }
        requires right { members_wrong (wrong rule.now) []
            (map («data» rule.now) before.now) ≡ None }
        requires held { AllByRecursion (holds rule.now) before.now }
        ensures { Reads (wrong rule.now (map («data» rule.now) before.now) (view value.now))
            (λ member. («data» rule.now member ≡ view value.now) × holds rule.now member)
            result };
}

/// Reads a list.
#[tactic(auto, unfolding(crate::specs::code::Reading::Tells))]
pub fn read_list<C, M: Member<C>>(alloc: Global, rule: &C, value: &Json) -> Result<Vec<M>, Fault>
    requires { M.can rule.now }
    ensures { Reads (list_wrong (M.wrong rule.now) (view value.now))
        (λ members. (listed (map (M.data rule.now) members.items) ≡ view value.now)
        × AllByRecursion (M.holds rule.now) members.items) result }
{
    let mut members = Vec::new(alloc);
    for item in list(alloc, value)? {
        let member = at(M::read(rule, &members, item), members.len())?;
        members.push(member)?;
    }
    Ok(members)
}
