//! Names of files as URIs.

ghost use Rattle.std.specs.Prelude.{◌≡◌, IfOk, map, string_bytes};
ghost use Rattle.ja_show.specs.Messages as messages;
ghost use Rattle.ja_sarif.specs.Sarif as spec;

use ja_base::Memory;
use ja_files::File;
use percent_encoding::{AsciiSet, NON_ALPHANUMERIC, ascii_set, utf8_percent_encode};
use std::alloc::Global;

/// What is escaped in a name, beside what is no ASCII: all but letters, digits, `-`, `.`, `_`, `~`
/// and `/`.
pub const ESCAPED: AsciiSet = ascii_set!(
    NON_ALPHANUMERIC
        .remove(b'-')
        .remove(b'.')
        .remove(b'_')
        .remove(b'~')
        .remove(b'/')
);

// A name as a relative URI reference.
#[tactic(auto, unfolding(crate::specs::Sarif::uri_of))]
fn uri_of(alloc: Global, name: &str) -> Result<String, Memory>
    ensures { IfOk result (λ uri. string_bytes uri ≡ spec.uri_of name.now) }
{
    let mut uri = String::new(alloc);
    if name.as_bytes().starts_with(b"//") {
        uri.push_str("/.")?;
    }
    utf8_percent_encode(name, ESCAPED).append_to(&mut uri)?;
    Ok(uri)
}

/// The URIs of files.
pub(crate) fn uris_of(alloc: Global, files: &[File<'_>]) -> Result<Vec<String>, Memory>
    ensures { IfOk result (λ uris. map string_bytes uris.items
        ≡ map spec.uri_of (map (λ file. file.name.now) files.now)) }
{
    let mut uris = Vec::new(alloc);
    for file in files {
        let uri = uri_of(alloc, file.name)?;
        uris.push(uri)?;
    }
    Ok(uris)
}

/// The URI of the file with a number, or none past the files.
pub(crate) fn uri_at<'a>(uris: &'a [String], file: u32) -> &'a str
    ensures { result.now ≡ messages.name_at (map string_bytes uris.now) file }
{
    match uris.get(file as usize) {
        Some(uri) => uri.as_str(),
        None => "",
    }
}
