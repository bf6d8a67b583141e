//! What puts at arrays write (ES3 15.4.5.1): an element with the length that grows with it, and a
//! length with the elements that it cuts.

ghost use Rattle.std.specs.Prelude.{◌≡◌, [], ◌∷◌, ◌++◌, IfOk, IsTrue, if◌then◌else◌, map, filter, All};
ghost use Rattle.std.specs.Option.{option_map};
ghost use Rattle.ja_abstract.specs.declared.abstraction.Key.{Key};
ghost use Rattle.ja_abstract.specs.AbstractValue.{absent_property};
ghost use Rattle.ja_abstract.specs.AbstractState.{is_key};
ghost use Rattle.ja_abstract.specs.Keys.{index_of_key};
ghost use Rattle.ja_abstract.specs.Writes as spec;
ghost use Rattle.ja_aheap.specs.Objects.{writes_of};
ghost use Rattle.ja_astate.specs.Looks.{view_of};
ghost use Rattle.ja_value.specs.Value.{value_of, property_of};

use crate::indices::index_of_key;
use crate::lengths::{grown_length, may_be_cut, may_be_length};
use crate::properties::put_property;
use crate::reader::Reader;
use crate::writes::one_write;
use ja_absprim::to_num;
use ja_abstract::{Key, NumberPart};
use ja_aheap::{Write, Writes};
use ja_base::{Label, Memory};
use ja_graph::LENGTH;
use ja_value::{AProp, AValue};

/// The key of an array's length.
pub(crate) const LENGTH_KEY: Key = Key::Name(LENGTH);

/// Adds a write behind others.
fn push_write(writes: &mut Writes, key: Key, property: AProp, joins: bool) -> Result<(), Memory>
    ensures { IfOk result (λ _. writes_of writes.new ≡ writes_of writes.old
        ++ record { key = key; property = property_of property; joins = joins } ∷ []) }
{
    writes.list.push(Write {
        key,
        property,
        joins,
    })?;
    Ok(())
}

/// What the put of an element writes: the element, and the length that grows with it. Nothing is
/// written where the length has no value.
pub(crate) fn element_writes(
    reader: &Reader<'_>,
    label: Label,
    key: Key,
    value: &AValue,
) -> Result<Option<Writes>, Memory>
    requires { IsTrue (is_key reader.now.program.now key) }
    ensures { IfOk result (λ writes. option_map writes_of writes
        ≡ spec.element_writes (view_of reader.now) label key (value_of value.now)) }
{
    let AProp {
        value: length,
        attrs,
    } = reader.resolved(label, LENGTH_KEY)?;
    if !length.has_part(reader.sites) {
        return Ok(None);
    }
    let index = index_of_key(reader.program, key);
    let grown = grown_length(
        reader.alloc,
        &length,
        index,
        length.one_number(reader.sites),
    )?;
    let element = put_property(reader, label, key, value)?;
    let mut writes = one_write(reader.alloc, key, element, false)?;
    let length = AProp {
        value: grown,
        attrs,
    };
    push_write(&mut writes, LENGTH_KEY, length, false)?;
    Ok(Some(writes))
}

/// Adds the cut of the element of an index, unless it is surely below the new length.
fn push_cut(
    reader: &Reader<'_>,
    writes: &mut Writes,
    number: &NumberPart,
    key: Key,
) -> Result<(), Memory>
    requires { IsTrue (is_key reader.now.program.now key) }
    ensures { IfOk result (λ _. writes_of writes.new ≡ writes_of writes.old
        ++ (if spec.may_be_cut number.now (index_of_key reader.now.program.now key)
        then spec.joins_at key absent_property ∷ [] else [])) }
{
    if !may_be_cut(number, index_of_key(reader.program, key)) {
        return Ok(());
    }
    push_write(writes, key, AProp::absent(reader.alloc), true)
}

/// Adds the cuts of those elements that aren't surely below the new length.
fn push_cuts(
    reader: &Reader<'_>,
    writes: &mut Writes,
    number: &NumberPart,
    keys: &[Key],
) -> Result<(), Memory>
    requires { All (λ (k : Key). IsTrue (is_key reader.now.program.now k)) keys.now }
    ensures { IfOk result (λ _. writes_of writes.new ≡ writes_of writes.old
        ++ map (λ (k : Key). spec.joins_at k absent_property) (filter (λ (k : Key).
        spec.may_be_cut number.now (index_of_key reader.now.program.now k)) keys.now)) }
{
    for key in keys {
        push_cut(reader, writes, number, *key)?;
    }
    Ok(())
}

/// What the put of a length writes: the length, and that the elements may be gone which aren't
/// surely below it. Nothing is written where the value is no length.
pub(crate) fn length_writes(
    reader: &Reader<'_>,
    label: Label,
    value: &AValue,
) -> Result<Option<Writes>, Memory>
    ensures { IfOk result (λ writes. option_map writes_of writes
        ≡ spec.length_writes (view_of reader.now) label (value_of value.now)) }
{
    let converted = to_num(reader.alloc, value)?;
    let number = &converted.value.number;
    if !may_be_length(number) {
        return Ok(None);
    }
    let length = AValue::of_number_part(reader.alloc, *number);
    let property = put_property(reader, label, LENGTH_KEY, &length)?;
    let mut writes = one_write(reader.alloc, LENGTH_KEY, property, false)?;
    push_cuts(reader, &mut writes, number, reader.keys.indices())?;
    Ok(Some(writes))
}
