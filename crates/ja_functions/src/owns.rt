//! What the operations of the built-in functions tell of an object's own properties (ES3 15.2.4.5,
//! 15.2.4.7).

ghost use Rattle.std.specs.Prelude.{◌≡◌, IfOk};
ghost use Rattle.ja_abstract.specs.Keys.{keys_of_value};
ghost use Rattle.ja_abstract.specs.Operations as spec;
ghost use Rattle.ja_abstract.specs.Primitives.{of_text_part};
ghost use Rattle.ja_abstract.specs.Reading.{demands_of_own};
ghost use Rattle.ja_aheap.specs.Objects.{demands_in};
ghost use Rattle.ja_astate.specs.Looks.{view_of};
ghost use Rattle.ja_astate.specs.code.Pairs.{demands_over};
ghost use Rattle.ja_value.specs.Value.{value_of, property_of};
ghost use Rattle.ja_functions.specs.code.Told.{IsTold, may_fail, may_hold, some_own};

use crate::told::Told;
use ja_abstract::{Key, TextPart};
use ja_aheap::DemandList;
use ja_astate::Reader;
use ja_base::{Label, Memory};
use ja_value::{AProp, AValue, copy_text_part};

/// What is asked of an own property: whether it is there, or whether it is there and not DontEnum.
#[derive(Clone, Copy)]
pub(crate) enum Asked {
    Having,
    Enumerable,
}

/// Whether a property may hold what is asked.
fn may_hold(reader: &Reader<'_>, asked: Asked, property: &AProp) -> bool
    ensures { result ≡ may_hold (view_of reader.now) asked (property_of property.now) }
{
    let is_there = property.value.is_present(reader.sites);
    match asked {
        Asked::Having => is_there,
        Asked::Enumerable => is_there && property.attrs.dont_enum.unset,
    }
}

/// Whether it may fail it.
fn may_fail(reader: &Reader<'_>, asked: Asked, property: &AProp) -> bool
    ensures { result ≡ may_fail (view_of reader.now) asked (property_of property.now) }
{
    let is_hidden = property.value.is_present(reader.sites) && property.attrs.dont_enum.set;
    match asked {
        Asked::Having => property.value.flags.absent,
        Asked::Enumerable => property.value.flags.absent || is_hidden,
    }
}

/// Whether an own property of some labels may hold what is asked, and whether one may fail it.
fn of_own(
    reader: &Reader<'_>,
    asked: Asked,
    members: &[Label],
    keys: &[Key],
) -> Result<(bool, bool), Memory>
    ensures holds { IfOk result (λ told. told.0
        ≡ some_own (view_of reader.now) (may_hold (view_of reader.now) asked) keys.now
        members.now) }
    ensures fails { IfOk result (λ told. told.1
        ≡ some_own (view_of reader.now) (may_fail (view_of reader.now) asked) keys.now
        members.now) }
{
    let mut holds = false;
    let mut fails = false;
    for label in members {
        let property = reader.own(*label, keys)?;
        holds = holds | may_hold(reader, asked, &property);
        fails = fails | may_fail(reader, asked, &property);
    }
    Ok((holds, fails))
}

/// Demands what the own properties of some labels take from the entry.
fn demand_owns(reader: &Reader<'_>, members: &[Label], keys: &[Key]) -> Result<DemandList, Memory>
    ensures { IfOk result (λ d. demands_in d
        ≡ demands_over members.now (λ l. demands_of_own (view_of reader.now) l keys.now)) }
{
    let mut demands = DemandList::new(reader.alloc);
    for label in members {
        reader.demand_own(*label, keys, &mut demands)?;
    }
    Ok(demands)
}

/// The keys of the texts of a value.
fn text_keys_of(reader: &Reader<'_>, part: &TextPart) -> Result<Vec<Key>, Memory>
    ensures { IfOk result (λ v. v.items
        ≡ keys_of_value reader.now.program.now (of_text_part part.now)) }
{
    let text = copy_text_part(reader.alloc, part)?;
    reader.keys_of_value(&AValue::of_text_part(reader.alloc, text))
}

/// What is asked of an object's own property of a name.
pub(crate) fn own_property(
    reader: &Reader<'_>,
    asked: Asked,
    value: &AValue,
    name: &AValue,
) -> Result<Told, Memory>
    ensures { IfOk result (IsTold (spec.of_own (view_of reader.now) (value_of value.now)
        (spec.text_keys_of (view_of reader.now) (value_of name.now))
        (may_hold (view_of reader.now) asked) (may_fail (view_of reader.now) asked))) }
{
    let members = reader.labels(&value.labels)?;
    let keys = text_keys_of(reader, &name.text)?;
    let (holds, fails) = of_own(reader, asked, &members, &keys)?;
    let demands = demand_owns(reader, &members, &keys)?;
    Ok(Told {
        value: AValue::of_bools(reader.alloc, holds, fails),
        demands,
    })
}
