//! Numbers, as `serde_json` reads them.

ghost use Rattle.std.specs.Prelude.{◌≡◌, ◌<◌, ◌==◌, IfOk, IsTrue, false, length, option_map, slice_index, true};
ghost use Rattle.serde_json.specs.Data.{number};
ghost use Rattle.serde_json.specs.Read.{float_of, number_from, number_of};
ghost use Rattle.ja_cert_json.specs.View.{view};

use crate::value::Json;
use fast_float::Numeral;
use ja_base::Memory;
use serde_json::Number;
use std::alloc::Global;
use std::rc::Rc;

/// Whether a text begins with a `-`.
fn has_minus(bytes: &[u8]) -> bool
    ensures value { result ≡ (slice_index bytes.now 0 == 45) }
    ensures len { IsTrue result → 0 < length bytes.now }
{
    !bytes.is_empty() && bytes[0] == b'-'
}

/// The nearest float, if it is finite.
fn nearest(alloc: Global, negative: bool, numeral: &Numeral<'_>) -> Result<Option<Json>, Memory>
    ensures { IfOk result (λ json. option_map view json
        ≡ option_map number (float_of negative numeral.now)) }
{
    match Number::from_f64(numeral.to_float::<f64>(negative)) {
        Some(number) => Ok(Some(Json::Number(Rc::new(alloc, number)?))),
        None => Ok(None),
    }
}

/// A number without a `-`.
fn unsigned(alloc: Global, numeral: &Numeral<'_>) -> Result<Option<Json>, Memory>
    ensures { IfOk result (λ json. option_map view json
        ≡ option_map number (number_from false numeral.now)) }
{
    match numeral.to_u64() {
        Some(number) => Ok(Some(Json::Whole(number))),
        None => nearest(alloc, false, numeral),
    }
}

/// A number behind a `-`.
fn negative(alloc: Global, numeral: &Numeral<'_>) -> Result<Option<Json>, Memory>
    ensures { IfOk result (λ json. option_map view json
        ≡ option_map number (number_from true numeral.now)) }
{
    if let Some(number) = numeral.to_i64(true) {
        if number < 0 {
            return Ok(Some(Json::Number(Rc::new(alloc, Number::from(number))?)));
        }
    }
    nearest(alloc, true, numeral)
}

/// The number that a token of JSON writes, if it is in range.
pub(crate) fn number(alloc: Global, text: &str) -> Result<Option<Json>, Memory>
    ensures { IfOk result (λ json. option_map view json
        ≡ option_map number (number_of text.now)) }
{
    let bytes = text.as_bytes();
    if has_minus(bytes) {
        negative(alloc, &Numeral::scan(&bytes[1..]))
    } else {
        unsigned(alloc, &Numeral::scan(bytes))
    }
}
