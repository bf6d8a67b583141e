//! What is asked for: how messages are shown, and of which files.

ghost use Rattle.std.specs.Prelude.{◌≡◌, [], IfOk, map, option_map};
ghost use Rattle.ja_lint_top.specs.Lint as lint;
ghost use Rattle.ja_lint_top.specs.Refusals as refusals;

use ja_base::Memory;
use ja_lint_devices::{USUAL_VALUES, is_among};
use std::alloc::Global;

/// How messages are shown.
#[derive(Clone, Copy, Debug, PartialEq, Eq)]
pub(crate) enum Format {
    /// Lines that editors read.
    Text,
    /// A page with the text.
    Html,
    /// What build servers read: SARIF 2.1.0.
    Sarif,
}

/// How warnings are told: in this form, and with those that are only counted where they aren't
/// asked for.
#[derive(Clone, Copy, Debug, PartialEq, Eq)]
pub(crate) struct Manner {
    pub format: Format,
    pub rows: bool,
}

/// The form of a name, which may be left out.
pub(crate) fn format_of(name: Option<&str>) -> Option<Format>
    ensures { result ≡ lint.format_of (option_map (λ name. name.now) name.entry) }
{
    match name {
        None | Some("text") => Some(Format::Text),
        Some("html") => Some(Format::Html),
        Some("sarif") => Some(Format::Sarif),
        Some(_) => None,
    }
}

/// The values that declare devices: the usual ones where none is given.
pub(crate) fn values_of<'a>(values: &'a [&'a str]) -> &'a [&'a str]
    ensures { map (λ value. value.now) result.now
        ≡ lint.values_of (map (λ value. value.now) values.now) }
{
    if values.is_empty() {
        &USUAL_VALUES
    } else {
        values
    }
}

// The names that are given: standard input where none is.
fn named<'a>(names: &'a [&'a str]) -> &'a [&'a str]
    ensures { map (λ name. name.now) result.now
        ≡ refusals.named (map (λ name. name.now) names.now) }
{
    if names.is_empty() { &["-"] } else { names }
}

// Each of some names where it stands first.
fn once<'a>(alloc: Global, names: &[&'a str]) -> Result<Vec<&'a str>, Memory>
    ensures { IfOk result (λ kept. map (λ name. name.now) kept.items
        ≡ refusals.unseen [] (map (λ name. name.now) names.now)) }
{
    let mut kept = Vec::new(alloc);
    for name in names {
        if !is_among(&kept, name) {
            kept.push(*name)?;
        }
    }
    Ok(kept)
}

/// The names of the files, each once: standard input where none is named.
pub(crate) fn names_of<'a>(alloc: Global, names: &'a [&'a str]) -> Result<Vec<&'a str>, Memory>
    ensures { IfOk result (λ kept. map (λ name. name.now) kept.items
        ≡ refusals.names_of (map (λ name. name.now) names.now)) }
{
    once(alloc, named(names))
}
