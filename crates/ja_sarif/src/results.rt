//! The results of messages.

ghost use Rattle.std.specs.Prelude.{◌≡◌, IfOk, map, string_bytes};
ghost use Rattle.std.specs.Str.Lossy.{utf8_lossy};
ghost use Rattle.serde_json.specs.View.{view};
ghost use Rattle.ja_show.specs.code.Kept.{lines_in};
ghost use Rattle.ja_sarif.specs.Sarif as spec;

use crate::places::{call, place};
use crate::rules::{empty, id_of, index_of, level_name, text};
use ja_base::Memory;
use ja_files::Spot;
use ja_show::{Message, others, standing};
use serde_json::{Value, push, put};
use std::alloc::Global;

/// Bytes as words for people: what is no UTF-8 is U+FFFD.
pub(crate) fn words(alloc: Global, bytes: &[u8]) -> Result<Value, Memory>
    ensures { IfOk result (λ v. view v ≡ spec.text_data (utf8_lossy bytes.now)) }
{
    let words = String::from_utf8_lossy(alloc, bytes)?;
    text(alloc, words.as_str())
}

// Where a message stands.
fn locations(
    alloc: Global,
    uris: &[String],
    sources: &[Vec<&[char]>],
    spot: Option<Spot>,
) -> Result<Value, Memory>
    ensures { IfOk result (λ v. view v ≡ spec.listed
        (map (spec.place_data (map string_bytes uris.now) (map lines_in sources.now))
        (spec.places_of spot))) }
{
    let mut places = Vec::new(alloc);
    if let Some(spot) = spot {
        push(&mut places, place(alloc, uris, sources, spot)?)?;
    }
    Ok(Value::from(places))
}

// The other calls that lead to what a message is about.
fn related(
    alloc: Global,
    uris: &[String],
    sources: &[Vec<&[char]>],
    spots: &[Spot],
) -> Result<Value, Memory>
    ensures { IfOk result (λ v. view v ≡ spec.listed
        (map (spec.call_data (map string_bytes uris.now) (map lines_in sources.now)) spots.now)) }
{
    let mut calls = Vec::new(alloc);
    for spot in spots {
        let call = call(alloc, uris, sources, *spot)?;
        push(&mut calls, call)?;
    }
    Ok(Value::from(calls))
}

// The result of a message.
#[tactic(auto, unfolding(crate::specs::Sarif::result_data))]
fn result_of(
    alloc: Global,
    uris: &[String],
    sources: &[Vec<&[char]>],
    message: &Message,
) -> Result<Value, Memory>
    ensures { IfOk result (λ v. view v
        ≡ spec.result_data (map string_bytes uris.now) (map lines_in sources.now) message.now) }
{
    let level = Value::try_from_str(alloc, level_name(message.level))?;
    let locations = locations(alloc, uris, sources, standing(message))?;
    let words = words(alloc, message.text.as_slice())?;
    let related = related(alloc, uris, sources, others(message))?;
    let id = Value::try_from_str(alloc, id_of(message.rule))?;
    let index = Value::from(index_of(message.rule));
    let mut result = empty(alloc);
    put(&mut result, alloc, "level", level)?;
    put(&mut result, alloc, "locations", locations)?;
    put(&mut result, alloc, "message", words)?;
    put(&mut result, alloc, "relatedLocations", related)?;
    put(&mut result, alloc, "ruleId", id)?;
    put(&mut result, alloc, "ruleIndex", index)?;
    Ok(Value::Object(result))
}

/// The results of messages.
pub(crate) fn results(
    alloc: Global,
    uris: &[String],
    sources: &[Vec<&[char]>],
    messages: &[Message],
) -> Result<Value, Memory>
    ensures { IfOk result (λ v. view v ≡ spec.listed
        (map (spec.result_data (map string_bytes uris.now) (map lines_in sources.now))
        messages.now)) }
{
    let mut results = Vec::new(alloc);
    for message in messages {
        let result = result_of(alloc, uris, sources, message)?;
        push(&mut results, result)?;
    }
    Ok(Value::from(results))
}
