//! Whether the names of a program are those that it needs, each once.

ghost use Rattle.std.specs.Prelude.{◌≡◌, ◌↔◌, ◌≤◌, IsTrue, length, map, take};
ghost use Rattle.ja_graph.specs.code.Parts as spec;
ghost use Rattle.ja_graph.specs.WellFormed.{builtin_names};

use crate::BUILTIN_NAMES;
use ja_prim::Text16;

/// Whether a text has these units, one for each byte.
fn is_text(units: &[u16], bytes: &[u8]) -> bool
    ensures { IsTrue result ↔ (units.now ≡ bytes.now) }
{
    if units.len() != bytes.len() {
        return false;
    }
    for k in 0..units.len() {
        if units[k] != u16::from(bytes[k]) {
            return false;
        }
    }
    true
}

/// Whether names begin with these texts.
fn begin_with(names: &[Text16], texts: &[&[u8]]) -> bool
    ensures { IsTrue result ↔ (take (length (map (λ t. t.now) texts.now)) names.now
        ≡ map (λ t. t.now) texts.now) }
{
    if names.len() < texts.len() {
        return false;
    }
    for k in 0..texts.len() {
        if !is_text(names[k].units(), texts[k]) {
            return false;
        }
    }
    true
}

/// Whether names begin with the built-in ones.
pub(crate) fn begin_with_builtin_names(names: &[Text16]) -> bool
    ensures { IsTrue result ↔ (take (length builtin_names) names.now ≡ builtin_names) }
{
    begin_with(names, &BUILTIN_NAMES)
}

/// Whether two texts are the same.
fn are_same(a: &[u16], b: &[u16]) -> bool
    ensures { IsTrue result ↔ (a.now ≡ b.now) }
{
    a == b
}

/// Whether a text is one of the first `k` names.
fn is_among(names: &[Text16], k: usize, units: &[u16]) -> bool
    requires { k ≤ length names.now }
    ensures { IsTrue result ↔ spec.IsAmong names.now k units.now }
{
    for j in 0..k {
        if are_same(names[j].units(), units) {
            return true;
        }
    }
    false
}

/// Whether no name stands twice. Each is compared with those before it, so the time grows with the
/// square of how many there are.
pub(crate) fn are_distinct(names: &[Text16]) -> bool
    ensures { IsTrue result ↔ spec.AreDistinct names.now }
{
    for k in 0..names.len() {
        if is_among(names, k, names[k].units()) {
            return false;
        }
    }
    true
}
