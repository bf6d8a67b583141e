//! What a put that is accepted writes, and what it may throw.

ghost use Rattle.std.specs.Prelude.{◌≡◌, ◌&&◌, IfOk, IsTrue};
ghost use Rattle.std.specs.List.{list_any};
ghost use Rattle.std.specs.Option.{option_map};
ghost use Rattle.ja_abstract.specs.AbstractState.{is_key, same_key};
ghost use Rattle.ja_abstract.specs.Keys.{is_index_key};
ghost use Rattle.ja_abstract.specs.Made.{length_key};
ghost use Rattle.ja_abstract.specs.Writes as spec;
ghost use Rattle.ja_abstract.specs.Reading.{both};
ghost use Rattle.ja_aheap.specs.Objects.{demands_in, writes_of};
ghost use Rattle.ja_astate.specs.Looks.{view_of};
ghost use Rattle.ja_value.specs.Value.{value_of};
ghost use Rattle.ja_astate.specs.code.Puts.{is_wrong, accepts_length, length_demands, some_accept, some_throw};

use crate::arrays::{LENGTH_KEY, element_writes, length_writes};
use crate::gets::Looked;
use crate::indices::is_index_key;
use crate::lengths::may_be_no_length;
use crate::lookup::same_key;
use crate::properties::{asked_at, put_property};
use crate::reader::Reader;
use crate::sites::is_array;
use crate::writes::one_write;
use ja_absprim::to_num;
use ja_abstract::Key;
use ja_aheap::{DemandList, Writes};
use ja_base::{Label, Memory};
use ja_value::AValue;

/// Whether a put at a label and a key is one of an array's element, with which the length grows.
fn is_element(reader: &Reader<'_>, label: Label, key: Key) -> bool
    requires { IsTrue (is_key reader.now.program.now key) }
    ensures { result ≡ (spec.is_array_label reader.now.program.now label
        && is_index_key reader.now.program.now key) }
{
    is_array(reader.program, label) && is_index_key(reader.program, key)
}

/// Demands the length of an array, where a put that may be accepted is one of its element.
pub fn demand_length(
    reader: &Reader<'_>,
    accepts: bool,
    label: Label,
    key: Key,
    demands: &mut DemandList,
) -> Result<(), Memory>
    requires { IsTrue (is_key reader.now.program.now key) }
    ensures { IfOk result (λ _. demands_in demands.new ≡ both (demands_in demands.old)
        (length_demands (view_of reader.now) accepts label key)) }
{
    if is_element(reader, label, key) && accepts {
        return reader.demand(label, LENGTH_KEY, demands);
    }
    Ok(())
}

/// Whether it is one of an array's length.
fn is_length(reader: &Reader<'_>, label: Label, key: Key) -> bool
    ensures { result ≡ (spec.is_array_label reader.now.program.now label
        && same_key key length_key) }
{
    is_array(reader.program, label) && same_key(key, LENGTH_KEY)
}

/// What a put that is accepted writes, if it writes something.
pub fn put_writes(
    reader: &Reader<'_>,
    label: Label,
    key: Key,
    value: &AValue,
) -> Result<Option<Writes>, Memory>
    requires { IsTrue (is_key reader.now.program.now key) }
    ensures { IfOk result (λ writes. option_map writes_of writes
        ≡ spec.put_writes (view_of reader.now) label key (value_of value.now)) }
{
    if is_length(reader, label, key) {
        return length_writes(reader, label, value);
    }
    if is_element(reader, label, key) {
        return element_writes(reader, label, key, value);
    }
    let property = put_property(reader, label, key, value)?;
    let writes = one_write(reader.alloc, key, property, false)?;
    Ok(Some(writes))
}

/// Whether a value may be no length.
fn is_wrong(reader: &Reader<'_>, value: &AValue) -> Result<bool, Memory>
    ensures { IfOk result (λ b. b ≡ is_wrong (value_of value.now)) }
{
    let number = to_num(reader.alloc, value)?;
    let is_none = number.value.flags.nan | may_be_no_length(&number.value.number);
    Ok(number.may_stop | is_none)
}

/// Whether a put at an array's length may be accepted.
fn accepts_length(reader: &Reader<'_>, label: Label, key: Key) -> Result<bool, Memory>
    ensures { IfOk result (λ b. b ≡ accepts_length (view_of reader.now) label key) }
{
    if !is_length(reader, label, key) {
        return Ok(false);
    }
    let Looked {
        property,
        demands: _,
    } = asked_at(reader, label, key)?;
    Ok(property.attrs.read_only.unset | property.value.flags.absent)
}

/// Whether a put at a label and one of some keys may be accepted as that of an array's length.
fn accepts_some(reader: &Reader<'_>, label: Label, keys: &[Key]) -> Result<bool, Memory>
    ensures { IfOk result (λ b. b ≡ list_any (accepts_length (view_of reader.now) label) keys.now) }
{
    for key in keys {
        if accepts_length(reader, label, *key)? {
            return Ok(true);
        }
    }
    Ok(false)
}

/// .. and at one of some labels.
fn some_accept(reader: &Reader<'_>, labels: &[Label], keys: &[Key]) -> Result<bool, Memory>
    ensures { IfOk result (λ b. b ≡ some_accept (view_of reader.now) labels.now keys.now) }
{
    for label in labels {
        if accepts_some(reader, *label, keys)? {
            return Ok(true);
        }
    }
    Ok(false)
}

/// Whether a put at one of some labels and one of some keys may be that of an array's length that
/// is none, and throw a RangeError.
pub fn put_may_throw(
    reader: &Reader<'_>,
    labels: &[Label],
    keys: &[Key],
    value: &AValue,
) -> Result<bool, Memory>
    ensures { IfOk result (λ b. b
        ≡ some_throw (view_of reader.now) labels.now keys.now (value_of value.now)) }
{
    let may_be_wrong = is_wrong(reader, value)?;
    if !may_be_wrong {
        return Ok(false);
    }
    some_accept(reader, labels, keys)
}
