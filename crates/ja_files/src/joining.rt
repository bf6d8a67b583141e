//! The one text of several files.

ghost use Rattle.std.specs.Prelude.{◌≡◌, ◌++◌, IfOk, OnOk, map};
ghost use Rattle.std.specs.List.{flat_map};
ghost use Rattle.std.specs.Str.{chars};
ghost use Rattle.std.specs.String.{string_bytes};
ghost use Rattle.ja_files.specs.Files as spec;
ghost use Rattle.ja_files.specs.Files.{bytes_of, characters_of};

use crate::file::File;
use ja_base::Memory;
use std::alloc::Global;

// Adds the text of a file behind those of others.
fn push_next(text: &mut String, file: &File<'_>) -> Result<(), Memory>
    ensures bytes { OnOk result (string_bytes text.new ≡ string_bytes text.old
        ++ spec.behind_separator (bytes_of file.now)) }
    ensures characters { OnOk result (chars (string_bytes text.new) ≡ chars (string_bytes text.old)
        ++ spec.behind_separator (characters_of file.now)) }
{
    text.push_str("\n;\n")?;
    text.push_str(file.text)?;
    Ok(())
}

// Adds the texts of files behind those of others.
fn push_others(text: &mut String, files: &[File<'_>]) -> Result<(), Memory>
    ensures bytes { OnOk result (string_bytes text.new ≡ string_bytes text.old
        ++ flat_map spec.behind_separator (map bytes_of files.now)) }
    ensures characters { OnOk result (chars (string_bytes text.new) ≡ chars (string_bytes text.old)
        ++ flat_map spec.behind_separator (map characters_of files.now)) }
{
    for file in files {
        push_next(text, file)?;
    }
    Ok(())
}

/// The one text of files: their texts one behind another, and between two of them a line of its own
/// with an empty statement, so that no token and no statement goes on from one file into the next.
/// Of one file it is its text. `Memory` comes where memory was refused.
pub fn joined(alloc: Global, files: &[File<'_>]) -> Result<String, Memory>
    ensures bytes { IfOk result (λ text. string_bytes text
        ≡ spec.joined_text (map bytes_of files.now)) }
    ensures characters { IfOk result (λ text. chars (string_bytes text)
        ≡ spec.joined_text (map characters_of files.now)) }
{
    let mut text = String::new(alloc);
    let Some((first, rest)) = files.split_first() else {
        return Ok(text);
    };
    text.push_str(first.text)?;
    push_others(&mut text, rest)?;
    Ok(text)
}
