//! Names and kinds of devices.

ghost use Rattle.std.specs.Prelude.{◌≡◌};
ghost use Rattle.std.specs.List.{list_all};
ghost use Rattle.ja_prim.specs.Characters.{is_part as is_part_spec};
ghost use Rattle.ja_device.specs.Signatures as spec;

use ja_prim::Kinds;

/// Whether identifiers are made of a character: a letter, a digit, `_` or `$`.
#[tactic(auto, unfolding(ja_prim::specs::Characters::is_part))]
fn is_part(c: u8) -> bool
    ensures { result ≡ is_part_spec c }
{
    c.is_ascii_alphanumeric() || c == b'_' || c == b'$'
}

/// Whether identifiers are made of each of these characters.
fn all_parts(name: &[u8]) -> bool
    ensures { result ≡ list_all is_part_spec name.now }
{
    for c in name {
        if !is_part(*c) {
            return false;
        }
    }
    true
}

/// Whether a name is an ASCII identifier of 1 to 64 characters.
pub(crate) fn is_identifier(name: &[u8]) -> bool
    ensures { result ≡ spec.is_identifier name.now }
{
    match name.first() {
        Some(first) => !first.is_ascii_digit() && all_parts(name) && name.len() <= 64,
        None => false,
    }
}

/// Whether some kind of answers is declared.
pub(crate) fn has_kind(kinds: Kinds) -> bool
    ensures { result ≡ spec.has_kind kinds }
{
    kinds.undefined || kinds.null || kinds.boolean || kinds.number || kinds.text
}
