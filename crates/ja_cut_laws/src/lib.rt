//! What is left of a text of JSON (RFC 8259) that is cut off is no JSON, where the text is an
//! object or a list: so it is of a certificate that is cut before its closing brace. White space
//! behind a text changes nothing. `cut_texts_are_refused` and `cut_certificates_are_refused` do
//! nothing, and their contracts are the laws; `read_cut_off` is the first of them, of the function
//! that reads the JSON of certificates. Nothing stands on this crate but readers.
#![tactic(auto)]

ghost use Rattle.std.specs.Prelude.{◌≡◌, ◌<◌, ◌++◌, ℕ, IfOk, List, None, Some, true};
ghost use Rattle.std.specs.Prelude.{length, take};
ghost use Rattle.std.specs.List.{list_all};
ghost use Rattle.json.specs.Word.{is_space};
ghost use Rattle.serde_json.specs.Data.{Members, object};
ghost use Rattle.serde_json.specs.Read as json;
ghost use Rattle.serde_json.specs.Written.{compact_text};
ghost use Rattle.ja_cut_laws.specs.Cuts.{IsCutOff, line_of};

use ja_cert_json::{Json, JsonFault, read};
use std::alloc::Global;

/// What is left of a text that is an object or a list, where more than white space was cut off at
/// its end, is no JSON of at most 127 levels. With white space behind it a text is what it is
/// without.
pub fn cut_texts_are_refused()
    ensures cut { (text : List ℕ) → IsCutOff text → json.read text ≡ None }
    ensures spaces { (text rest : List ℕ) → list_all is_space rest ≡ true
        → json.read (text ++ rest) ≡ json.read text }
{}

/// The line of an object, as certificates are written, is no JSON where it is cut before its
/// closing brace, after however many bytes, if the whole line is read back as the object. Cut
/// behind the brace it is the same object.
pub fn cut_certificates_are_refused()
    ensures cut { (members : Members) (bytes : ℕ)
        → json.read (line_of (object members)) ≡ Some (object members)
        → bytes < length (compact_text (object members))
        → json.read (take bytes (line_of (object members))) ≡ None }
    ensures brace { (members : Members)
        → json.read (line_of (object members)) ≡ Some (object members)
        → json.read (compact_text (object members)) ≡ Some (object members) }
{}

/// Reads what is left of an object or a list that was cut off.
///
/// # Errors
///
/// Always: `Json`, or `Memory` where memory is refused.
pub fn read_cut_off(alloc: Global, text: &str) -> Result<Json, JsonFault>
    requires { IsCutOff text.now }
    ensures { IfOk result (λ _. ⊥) }
{
    read(alloc, text)
}
