//! The names of classes and of kinds of scope.

ghost use Rattle.std.specs.Prelude.{◌≡◌};
ghost use Rattle.ja_texts.specs.Texts as spec;

use ja_base::ScopeKind;
use ja_graph::Class;

/// The name of a class of objects (ES3 8.6.2).
pub fn class_text(class: Class) -> &'static [u8]
    ensures { result.now ≡ spec.class_text class }
{
    match class {
        Class::Object => b"Object",
        Class::Function => b"Function",
        Class::Array => b"Array",
        Class::String => b"String",
        Class::Boolean => b"Boolean",
        Class::Number => b"Number",
        Class::Error => b"Error",
        Class::Math => b"Math",
        Class::Activation => b"Activation",
    }
}

/// The name of a kind of scope.
pub fn scope_name(kind: ScopeKind) -> &'static [u8]
    ensures { result.now ≡ spec.scope_name kind }
{
    match kind {
        ScopeKind::Eval => b"Eval",
        ScopeKind::With => b"With",
        ScopeKind::RegExp => b"RegExp",
        ScopeKind::Octal => b"Octal",
        ScopeKind::Number => b"Number",
        ScopeKind::NonAscii => b"NonAscii",
        ScopeKind::IdentifierEscape => b"IdentifierEscape",
        ScopeKind::ReservedWord => b"ReservedWord",
        ScopeKind::ArgumentsName => b"ArgumentsName",
        ScopeKind::TextLength => b"TextLength",
        ScopeKind::Fraction => b"Fraction",
        ScopeKind::Range => b"Range",
        ScopeKind::Row => b"Row",
        ScopeKind::CodeMaker => b"CodeMaker",
        ScopeKind::DeviceObject => b"DeviceObject",
        ScopeKind::LengthObject => b"LengthObject",
        ScopeKind::SharedArgument => b"SharedArgument",
        ScopeKind::CaseChange => b"CaseChange",
        ScopeKind::Radix => b"Radix",
        ScopeKind::Register => b"Register",
    }
}
