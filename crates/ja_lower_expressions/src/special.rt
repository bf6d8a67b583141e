//! The special forms of the texts of built-in functions: calls of names that begin with `$`, which
//! are no variables.

ghost use Rattle.std.specs.Prelude.{◌≡◌};
ghost use Rattle.ja_lower_expressions.specs.SpecialForms.{AreSpecialForms};
ghost use Rattle.ja_lower_expressions.specs.Specials as spec;

use ja_base::ScopeKind;
use ja_graph::ErrorKind;
use ja_prim::spells;

/// A special form.
#[derive(Clone, Copy, Debug, PartialEq, Eq)]
pub enum Special {
    /// `$get(o, k)`: `[[Get]]` of an object, by a text.
    Get,
    /// `$put(o, k, v)`: `[[Put]]`; its value is `v`.
    Put,
    /// `$delete(o, k)`: `[[Delete]]`.
    Delete,
    /// `$has(o, k)`: `[[HasProperty]]`.
    Has,
    /// `$object(v)`: ToObject (ES3 9.9).
    Object,
    /// `$text(v)`: ToString (ES3 9.8).
    Text,
    /// `$make_TypeError()`: a new error of the kind.
    Make(ErrorKind),
    /// `$call(f, r, a, ..)`: calls `f` on the receiver `r`.
    Call,
    /// `$spread(f, r, a)`: the arguments are the elements of `a`.
    Spread,
    /// `$tail(f, r)`: the arguments are those of the caller from the second on.
    Tail,
    /// `$stop_Fraction()`: ends the run out of the profile.
    Stop(ScopeKind),
    /// An operation of the built-in functions, by its number.
    Intrinsic(u32),
}

/// The names of the special forms: the operations of the built-in functions come last, as
/// `ja_graph::INTRINSICS` numbers them.
pub const SPECIALS: [(&[u8], Special); 54] = [
    (b"$get", Special::Get),
    (b"$put", Special::Put),
    (b"$delete", Special::Delete),
    (b"$has", Special::Has),
    (b"$object", Special::Object),
    (b"$text", Special::Text),
    (b"$make_Error", Special::Make(ErrorKind::Error)),
    (b"$make_EvalError", Special::Make(ErrorKind::EvalError)),
    (b"$make_RangeError", Special::Make(ErrorKind::RangeError)),
    (
        b"$make_ReferenceError",
        Special::Make(ErrorKind::ReferenceError),
    ),
    (b"$make_SyntaxError", Special::Make(ErrorKind::SyntaxError)),
    (b"$make_TypeError", Special::Make(ErrorKind::TypeError)),
    (b"$make_URIError", Special::Make(ErrorKind::URIError)),
    (b"$call", Special::Call),
    (b"$spread", Special::Spread),
    (b"$tail", Special::Tail),
    (b"$stop_Eval", Special::Stop(ScopeKind::Eval)),
    (b"$stop_With", Special::Stop(ScopeKind::With)),
    (b"$stop_RegExp", Special::Stop(ScopeKind::RegExp)),
    (b"$stop_Octal", Special::Stop(ScopeKind::Octal)),
    (b"$stop_Number", Special::Stop(ScopeKind::Number)),
    (b"$stop_NonAscii", Special::Stop(ScopeKind::NonAscii)),
    (
        b"$stop_IdentifierEscape",
        Special::Stop(ScopeKind::IdentifierEscape),
    ),
    (
        b"$stop_ReservedWord",
        Special::Stop(ScopeKind::ReservedWord),
    ),
    (
        b"$stop_ArgumentsName",
        Special::Stop(ScopeKind::ArgumentsName),
    ),
    (b"$stop_TextLength", Special::Stop(ScopeKind::TextLength)),
    (b"$stop_Fraction", Special::Stop(ScopeKind::Fraction)),
    (b"$stop_Range", Special::Stop(ScopeKind::Range)),
    (b"$stop_Row", Special::Stop(ScopeKind::Row)),
    (b"$stop_CodeMaker", Special::Stop(ScopeKind::CodeMaker)),
    (
        b"$stop_DeviceObject",
        Special::Stop(ScopeKind::DeviceObject),
    ),
    (
        b"$stop_LengthObject",
        Special::Stop(ScopeKind::LengthObject),
    ),
    (
        b"$stop_SharedArgument",
        Special::Stop(ScopeKind::SharedArgument),
    ),
    (b"$stop_CaseChange", Special::Stop(ScopeKind::CaseChange)),
    (b"$stop_Radix", Special::Stop(ScopeKind::Radix)),
    (b"$stop_Register", Special::Stop(ScopeKind::Register)),
    (b"$is_object", Special::Intrinsic(0)),
    (b"$class", Special::Intrinsic(1)),
    (b"$value", Special::Intrinsic(2)),
    (b"$has_own", Special::Intrinsic(3)),
    (b"$is_enumerable", Special::Intrinsic(4)),
    (b"$inherits", Special::Intrinsic(5)),
    (b"$has_elements", Special::Intrinsic(6)),
    (b"$digits", Special::Intrinsic(7)),
    (b"$size", Special::Intrinsic(8)),
    (b"$unit", Special::Intrinsic(9)),
    (b"$part", Special::Intrinsic(10)),
    (b"$character", Special::Intrinsic(11)),
    (b"$index_of", Special::Intrinsic(12)),
    (b"$last_index_of", Special::Intrinsic(13)),
    (b"$lower", Special::Intrinsic(14)),
    (b"$upper", Special::Intrinsic(15)),
    (b"$parse_int", Special::Intrinsic(16)),
    (b"$parse_float", Special::Intrinsic(17)),
];

/// The special form of a name.
#[tactic(auto, unfolding(crate::proofs::SpecialLemmas::form_in))]
pub fn special_of(name: &[u16]) -> Option<Special>
    ensures { result ≡ spec.special_of name.now }
{
    let mut table: &[(&[u8], Special)] = &SPECIALS;
    while let [(word, special), rest @ ..] = table {
        if spells(name, word) {
            return Some(*special);
        }
        table = rest;
    }
    None
}

/// Each special form, each operation of `ja_graph::INTRINSICS` among them, is found by its name,
/// and its call lists its node. The function does nothing; its contract is the law.
pub fn special_forms_list_their_nodes()
    ensures { AreSpecialForms }
{}
