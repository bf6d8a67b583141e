//! A file, and a place in one.

ghost use Rattle.std.specs.Prelude.{◌≡◌};
ghost use Rattle.std.specs.Str.{chars};
ghost use Rattle.ja_files.specs.Files as spec;

use ja_base::Place;

/// A file: its name, as it is shown, and its text, without a mark of the byte order.
#[derive(Clone, Copy, Debug, PartialEq, Eq)]
pub struct File<'a> {
    pub name: &'a str,
    pub text: &'a str,
}

/// A place in one of several files: the number of the file, from 0, and the place in its text.
#[derive(Clone, Copy, Debug, PartialEq, Eq)]
pub struct Spot {
    pub file: u32,
    pub place: Place,
}

/// The text of a file without the mark of the byte order (U+FEFF) that may stand at its front.
pub fn unmarked<'a>(text: &'a str) -> &'a str
    ensures bytes { result.now ≡ spec.unmarked_text text.now }
    ensures characters { chars result.now ≡ spec.unmarked_characters (chars text.now) }
{
    match text.strip_prefix('\u{feff}') {
        Some(rest) => rest,
        None => text,
    }
}
