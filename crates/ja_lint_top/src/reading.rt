//! The files that are read, and their texts.

ghost use Rattle.std.specs.Prelude.{◌≡◌, Contains, IfOk, IfErr, length, map};
ghost use Rattle.std.specs.List.{AllByRecursion};
ghost use Rattle.std.specs.Str.{IsUtf8};
ghost use Rattle.ja_lint_top.specs.Reading.{AreHeld, IsUnread};
ghost use Rattle.ja_lint_top.specs.Refusals as spec;
ghost use Rattle.ja_lint_top.specs.Refusals.{AreFiles};
ghost use Rattle.ja_lint_top.specs.code.Answers.{IsNoText};

use crate::files::{Files, Unread};
use ja_base::Memory;
use ja_files::{File, unmarked};
use std::alloc::Global;
use std::str;

/// The name under which a file is shown: standard input in words of its own, no name in quotes.
pub(crate) fn known_as(name: &str) -> &str
    ensures { result.now ≡ spec.known_as name.now }
{
    if name == "-" {
        "<stdin>"
    } else if name.is_empty() {
        "''"
    } else {
        name
    }
}

/// The bytes of some files, read one after another; or the name of one that isn't read, and why.
pub(crate) fn contents_of<'a, F: Files>(
    alloc: Global,
    files: &mut F,
    names: &[&'a str],
) -> Result<Vec<Vec<u8>>, (&'a str, Unread)>
    ensures held { IfOk result (λ contents. AreHeld (F.held files.old)
        (map (λ name. name.now) names.now) (map (λ bytes. bytes.items) contents.items)) }
    ensures unread { IfErr result (λ why. Contains (map (λ name. name.now) names.now) why.0.now
        × IsUnread (F.held files.old) why.0.now why.1) }
{
    let mut contents = Vec::new(alloc);
    for name in names {
        let bytes = match files.read(alloc, name) {
            Ok(bytes) => bytes,
            Err(why) => return Err((name, why)),
        };
        if contents.push(bytes).is_err() {
            return Err((name, Unread::Memory));
        }
    }
    Ok(contents)
}

/// Why bytes are no texts.
pub(crate) enum NoTexts<'a> {
    /// In a file of this name no character begins at this byte.
    At { name: &'a str, offset: usize },
    /// Memory was refused.
    Memory,
}

/// The files of these names, whose bytes are texts.
pub(crate) fn texts_of<'a: 'b, 'b>(
    alloc: Global,
    names: &[&'a str],
    contents: &'b [Vec<u8>],
) -> Result<Vec<File<'b>>, NoTexts<'a>>
    requires { length contents.now ≡ length names.now }
    ensures files { IfOk result (λ files. AreFiles (map (λ name. name.now) names.now)
        (map (λ bytes. bytes.items) contents.now) files.items) }
    ensures texts { IfOk result (λ _. AllByRecursion IsUtf8
        (map (λ bytes. bytes.items) contents.now)) }
    ensures none { IfErr result (IsNoText (map (λ name. name.now) names.now)
        (map (λ bytes. bytes.items) contents.now)) }
{
    let mut files = Vec::new(alloc);
    for number in 0..contents.len() {
        let name = names[number];
        match str::from_utf8(&contents[number]) {
            Ok(text) => {
                let file = File {
                    name: known_as(name),
                    text: unmarked(text),
                };
                if files.push(file).is_err() {
                    return Err(NoTexts::Memory);
                }
            }
            Err(error) => {
                let offset = error.valid_up_to();
                return Err(NoTexts::At { name, offset });
            }
        }
    }
    Ok(files)
}
