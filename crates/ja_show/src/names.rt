//! Files as they are kept while messages about them are written: names as they are shown, and
//! characters.

ghost use Rattle.std.specs.Prelude.{◌≡◌, IfOk, map};
ghost use Rattle.std.specs.Str.{chars};
ghost use Rattle.ja_files.specs.Files.{characters_of, name_of};
ghost use Rattle.ja_show.specs.Messages as spec;
ghost use Rattle.ja_show.specs.code.Kept.{lists_in};

use crate::lines::push_shown;
use ja_base::Memory;
use ja_files::File;
use std::alloc::Global;

/// A name as it is shown: no control, and nothing that turns the direction of a line, stands there as
/// it is. `Memory` comes where memory was refused.
pub fn shown_name(alloc: Global, name: &str) -> Result<Vec<u8>, Memory>
    ensures { IfOk result (λ shown. shown.items ≡ spec.shown_name (chars name.now)) }
{
    let characters = ja_files::characters_of(alloc, name)?;
    let mut shown = Vec::new(alloc);
    push_shown(&mut shown, &characters)?;
    Ok(shown)
}

/// The names of files as they are shown.
pub(crate) fn shown_names(alloc: Global, files: &[File<'_>]) -> Result<Vec<Vec<u8>>, Memory>
    ensures { IfOk result (λ names. lists_in names.items
        ≡ map spec.shown_name (map name_of files.now)) }
{
    let mut names = Vec::new(alloc);
    for file in files {
        let name = shown_name(alloc, file.name)?;
        names.push(name)?;
    }
    Ok(names)
}

/// The characters of the texts of files. `Memory` comes where memory was refused.
pub fn texts_of(alloc: Global, files: &[File<'_>]) -> Result<Vec<Vec<char>>, Memory>
    ensures { IfOk result (λ texts. lists_in texts.items ≡ map characters_of files.now) }
{
    let mut texts = Vec::new(alloc);
    for file in files {
        let characters = ja_files::characters_of(alloc, file.text)?;
        texts.push(characters)?;
    }
    Ok(texts)
}

/// The name of the file with a number, or none past the files.
pub(crate) fn name_at<'a>(names: &'a [Vec<u8>], file: u32) -> &'a [u8]
    ensures { result.now ≡ spec.name_at (lists_in names.now) file }
{
    match names.get(file as usize) {
        Some(name) => name,
        None => b"",
    }
}
