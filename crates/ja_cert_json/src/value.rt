//! Values.

ghost use Rattle.std.specs.Prelude.{◌≡◌, IfOk, is_some, map, option_and_then, option_map};
ghost use Rattle.serde_json.specs.Data.{array};
ghost use Rattle.serde_json.specs.Find.{as_array, as_number, as_object, as_str, as_u64};
ghost use Rattle.ja_cert_json.specs.View.{items_view, view};

use ja_base::Memory;
use serde_json::{Map, Number};
use std::alloc::Global;
use std::rc::Rc;

/// A value, which shares what hangs at it with others.
#[derive(Drop)]
pub enum Json {
    Null,
    Bool(bool),
    /// A whole number that isn't negative.
    Whole(u64),
    /// Another number.
    Number(Rc<Number>),
    Text(Rc<String>),
    List(Rc<Vec<Json>>),
    Object(Rc<Map<String, Json>>),
}

impl Json {
    ghost use Rattle.ja_cert_json.specs.View.{items_view, members_view, view};

    /// The same value once more, which shares all of it.
    pub(crate) fn share(&self) -> Result<Json, Memory>
        ensures { IfOk result (λ json. view json ≡ view self.now) }
    {
        match self {
            Json::Null => Ok(Json::Null),
            Json::Bool(truth) => Ok(Json::Bool(*truth)),
            Json::Whole(number) => Ok(Json::Whole(*number)),
            Json::Number(number) => Ok(Json::Number(number.clone()?)),
            Json::Text(text) => Ok(Json::Text(text.clone()?)),
            Json::List(list) => Ok(Json::List(list.clone()?)),
            Json::Object(members) => Ok(Json::Object(members.clone()?)),
        }
    }

    /// The member of an object by its name, if there is one.
    pub(crate) fn member(&self, name: &str) -> Option<&Json> {
        match self {
            Json::Object(members) => members.get(name),
            _ => None,
        }
    }

    /// The number, if it is a whole one below 2^64.
    pub fn as_u64(&self) -> Option<u64>
        ensures { result ≡ option_and_then as_u64 (as_number (view self.now)) }
    {
        match self {
            Json::Whole(number) => Some(*number),
            Json::Number(number) => number.as_u64(),
            _ => None,
        }
    }

    /// Whether it is a whole number below 2^64.
    pub fn is_u64(&self) -> bool
        ensures { result ≡ is_some (option_and_then as_u64 (as_number (view self.now))) }
    {
        self.as_u64().is_some()
    }

    /// The text, if it is one.
    pub fn as_str(&self) -> Option<&str>
        ensures { option_map (λ s. s.now) result ≡ as_str (view self.now) }
    {
        match self {
            Json::Text(text) => Some(text.as_str()),
            _ => None,
        }
    }

    /// The values of the list, if it is one.
    pub fn as_array(&self) -> Option<&[Json]>
        ensures { option_map (λ v. items_view v.now) result ≡ as_array (view self.now) }
    {
        match self {
            Json::List(list) => Some(list.as_slice()),
            _ => None,
        }
    }

    /// The members of the object, if it is one.
    pub fn as_object(&self) -> Option<&Map<String, Json>>
        ensures { option_map (λ m. members_view m.now.entries) result ≡ as_object (view self.now) }
    {
        match self {
            Json::Object(members) => Some(members),
            _ => None,
        }
    }
}

/// Values once more, which share all of them.
pub(crate) fn copies(alloc: Global, values: &[Json]) -> Result<Vec<Json>, Memory>
    ensures { IfOk result (λ v. map view v.items ≡ map view values.now) }
{
    let mut copies = Vec::with_capacity(alloc, values.len())?;
    for json in values {
        copies.push(json.share()?)?;
    }
    Ok(copies)
}

/// A list of values.
pub(crate) fn list(alloc: Global, mut values: Vec<Json>) -> Result<Json, Memory>
    ensures { IfOk result (λ json. view json ≡ array (items_view values.items)) }
{
    values.shrink_to_fit();
    Ok(Json::List(Rc::new(alloc, values)?))
}
