//! From text to values, in one pass over its tokens.

ghost use Rattle.std.specs.Prelude.{◌≡◌, ◌<◌, length, Some, None, Err, IfOk, OnOk};
ghost use Rattle.json.specs.Json.{items, members, parse_map, value};
ghost use Rattle.serde_json.specs.Data.{array, no_members, string};
ghost use Rattle.serde_json.specs.Read.{converted, of_items, of_json, of_members};
ghost use Rattle.serde_json.specs.Read as json;
ghost use Rattle.ja_cert_json.specs.View.{items_before, members_view, seen, view};
ghost use Rattle.ja_cert_json.specs.declared.value.Json.{Json};
ghost use Rattle.ja_cert_json.specs.declared.reading.JsonFault.TheVariants as fault;

use crate::numbers::number;
use crate::places::{like, next_place};
use crate::value::{Json, copies, list};
use ja_base::Memory;
use json::{Invalid, Reader, Scratch, Token};
use serde_json::Map;
use std::alloc::{AllocError, AllocFailed, Global};
use std::rc::Rc;

/// How deep values may nest.
const MAX_DEPTH: usize = 127;

/// Why a text isn't read.
#[derive(Clone, Copy, Debug, Drop, PartialEq, Eq)]
pub enum JsonFault {
    /// It is no JSON of at most 127 levels.
    Json,
    /// Memory was refused.
    Memory,
}

impl From<Invalid> for JsonFault {
    ghost from_gives = { λ _ e. e ≡ fault.Json };

    fn from(_: Invalid) -> Self {
        JsonFault::Json
    }
}

impl From<Memory> for JsonFault {
    ghost from_gives = { λ _ e. e ≡ fault.Memory };

    fn from(_: Memory) -> Self {
        JsonFault::Memory
    }
}

impl From<AllocError> for JsonFault {
    ghost from_gives = { λ _ e. e ≡ fault.Memory };

    fn from(_: AllocError) -> Self {
        JsonFault::Memory
    }
}

impl<T: Drop> From<AllocFailed<T>> for JsonFault {
    ghost from_gives = { λ _ e. e ≡ fault.Memory };

    fn from(_: AllocFailed<T>) -> Self {
        JsonFault::Memory
    }
}

/// Reads a text, and tells whether it is the same as another value: then there is none to give.
fn text_beside(alloc: Global, text: &str, other: &Json) -> Result<Option<Json>, Memory>
    ensures { IfOk result (λ found. seen other.now found ≡ string text.now) }
{
    if let Json::Text(kept) = other {
        if kept.as_str() == text {
            return Ok(None);
        }
    }
    let text = String::from_str(alloc, text)?;
    Ok(Some(Json::Text(Rc::new(alloc, text)?)))
}

/// A number, or none where it is the same as another value.
fn number_beside(json: Json, other: &Json) -> Option<Json>
    ensures { seen other.now result ≡ view json }
{
    match (&json, other) {
        (Json::Whole(number), Json::Whole(its)) if number == its => None,
        _ => Some(json),
    }
}

/// A value that was read beside another one, which it shares where it is the same.
fn shared(found: Option<Json>, other: &Json) -> Result<Json, Memory>
    ensures { IfOk result (λ json. view json ≡ seen other.now found) }
{
    match found {
        Some(json) => Ok(json),
        None => other.share(),
    }
}

/// Reads the value that stands next, whose lists and objects may nest so deep. There is none where
/// it is told to be the same as another value, beside which it is read. `null` is beside what has
/// no like.
#[cycle(read)]
fn read_value(
    alloc: Global,
    reader: &mut Reader<'_>,
    null: &Json,
    other: &Json,
    depth: usize,
) -> Result<Option<Json>, JsonFault>
    ensures ok { IfOk result (λ found.
        converted of_json (value depth reader.old) ≡ Some (seen other.now found, reader.new)) }
    ensures shorter { OnOk result (length reader.new < length reader.old) }
    ensures err { result ≡ Err fault.Json → converted of_json (value depth reader.old) ≡ None }
{
    let token = reader.next().ok_or(JsonFault::Json)?;
    match token {
        Token::String(text) => Ok(text_beside(alloc, text, other)?),
        Token::Number(text) => match number(alloc, text)? {
            Some(json) => Ok(number_beside(json, other)),
            None => Err(JsonFault::Json),
        },
        Token::Bool(truth) => Ok(Some(Json::Bool(truth))),
        Token::Null => Ok(Some(Json::Null)),
        Token::EndObject | Token::EndArray | Token::Key(_) | Token::Bad => Err(JsonFault::Json),
        Token::BeginArray => {
            if depth == 0 {
                return Err(JsonFault::Json);
            }
            let found = read_items(alloc, reader, null, other, depth - 1)?;
            Ok(found)
        }
        Token::BeginObject => {
            if depth == 0 {
                return Err(JsonFault::Json);
            }
            let members = read_members(alloc, reader, null, other, depth - 1)?;
            Ok(Some(Json::Object(Rc::new(alloc, members)?)))
        }
    }
}

/// Reads the values of a list, behind its bracket. There is none where it is the same as another
/// value.
#[cycle(read)]
fn read_items(
    alloc: Global,
    reader: &mut Reader<'_>,
    null: &Json,
    other: &Json,
    depth: usize,
) -> Result<Option<Json>, JsonFault>
    ensures ok { IfOk result (λ found. parse_map array
        (converted of_items (items (value depth) (length reader.old) reader.old))
        ≡ Some (seen other.now found, reader.new)) }
    ensures shorter { OnOk result (length reader.new < length reader.old) }
    ensures err { result ≡ Err fault.Json
        → converted of_items (items (value depth) (length reader.old) reader.old) ≡ None }
{
    let Some(kept) = other.as_array() else {
        let json = read_rest(alloc, reader, null, &[], 0, Vec::new(alloc), depth)?;
        return Ok(Some(json));
    };
    let mut count = 0;
    'same: while count < kept.len() {
        if reader.take_end_array() {
            let values = copies(alloc, &kept[..count])?;
            let json = list(alloc, values)?;
            return Ok(Some(json));
        }
        if let Some(json) = read_value(alloc, reader, null, &kept[count], depth)? {
            let next = next_place(kept, count, &json);
            let mut values = copies(alloc, &kept[..count])?;
            values.push(json)?;
            let json = read_rest(alloc, reader, null, kept, next, values, depth)?;
            return Ok(Some(json));
        }
        count += 1;
    }
    if reader.take_end_array() {
        return Ok(None);
    }
    let values = copies(alloc, kept)?;
    let json = read_rest(alloc, reader, null, kept, count, values, depth)?;
    Ok(Some(json))
}

/// Reads the values of a list behind those that were read already, beside those of another one,
/// from a place on.
#[cycle(read)]
fn read_rest(
    alloc: Global,
    reader: &mut Reader<'_>,
    null: &Json,
    kept: &[Json],
    from: usize,
    values: Vec<Json>,
    depth: usize,
) -> Result<Json, JsonFault>
    ensures ok { IfOk result (λ json. parse_map (λ ds. array (items_before values.items ds))
        (converted of_items (items (value depth) (length reader.old) reader.old))
        ≡ Some (view json, reader.new)) }
    ensures shorter { OnOk result (length reader.new < length reader.old) }
    ensures err { result ≡ Err fault.Json
        → converted of_items (items (value depth) (length reader.old) reader.old) ≡ None }
{
    let mut all = values;
    let mut from = from;
    'rest: while !reader.take_end_array() {
        let other = like(kept, from, &all, null);
        let found = read_value(alloc, reader, null, other, depth)?;
        let json = shared(found, other)?;
        from = next_place(kept, from, &json);
        all.push(json)?;
    }
    let json = list(alloc, all)?;
    Ok(json)
}

/// Reads the members of an object, behind its brace, each beside that of the same name of another
/// value. Of those of one name the last one counts.
#[cycle(read)]
fn read_members(
    alloc: Global,
    reader: &mut Reader<'_>,
    null: &Json,
    other: &Json,
    depth: usize,
) -> Result<Map<String, Json>, JsonFault>
    ensures ok { IfOk result (λ m. converted (λ ms. of_members ms no_members)
        (members (value depth) (length reader.old) reader.old)
        ≡ Some (members_view m.entries, reader.new)) }
    ensures shorter { OnOk result (length reader.new < length reader.old) }
    ensures err { result ≡ Err fault.Json → converted (λ ms. of_members ms no_members)
        (members (value depth) (length reader.old) reader.old) ≡ None }
{
    let mut members = Map::new(alloc);
    'members: while let Some(name) = reader.next_key()? {
        let key = String::from_str(alloc, name)?;
        let like = other.member(name).unwrap_or(null);
        let found = read_value(alloc, reader, null, like, depth)?;
        let json = shared(found, like)?;
        drop(members.insert(key, json)?);
    }
    Ok(members)
}

/// Reads a text that is JSON (RFC 8259) of at most 127 levels.
///
/// # Errors
///
/// `Json` exactly where it isn't, or has a number that is greater than each float. `Memory` where
/// memory is refused.
pub fn read(alloc: Global, text: &str) -> Result<Json, JsonFault>
    ensures data { IfOk result (λ found. json.read text.now ≡ Some (view found)) }
    ensures fault { result ≡ Err fault.Json → json.read text.now ≡ None }
{
    let mut scratch = Scratch::new(alloc);
    let mut reader = Reader::new(text, &mut scratch)?;
    let null = Json::Null;
    let found = read_value(alloc, &mut reader, &null, &null, MAX_DEPTH)?;
    if reader.next().is_some() {
        return Err(JsonFault::Json);
    }
    let json = shared(found, &null)?;
    Ok(json)
}
