//! Where files begin in their one text, and where a place of it comes from.

ghost use Rattle.std.specs.Prelude.{◌≡◌, ◌<◌, ◌≤◌, ◌^◌, ◌+◌, IfOk, length, map, slice_index};
ghost use Rattle.std.specs.Str.{chars};
ghost use Rattle.ja_lex.specs.Spots.{max_bytes};
ghost use Rattle.ja_files.specs.Files as spec;
ghost use Rattle.ja_files.specs.Files.{bytes_of, characters_of};

use crate::file::{File, Spot};
use crate::lines;
use ja_base::{Memory, Place};
use std::alloc::Global;

// How many lines a text takes that another one stands behind.
fn taken(alloc: Global, text: &str) -> Result<u32, Memory>
    requires { length text.now ≤ max_bytes }
    ensures lines { IfOk result (λ count. count ≡ spec.taken (chars text.now)) }
    ensures few { IfOk result (λ count. count ≤ length text.now + 3) }
{
    let mut characters = lines::characters_of(alloc, text)?;
    characters.extend_from_slice(&['\n', ';', '\n'])?;
    Ok(lines::endings(&characters))
}

/// The line of the one text at which each file begins: 1 for the first. `Memory` comes where memory
/// was refused.
pub fn first_lines(alloc: Global, files: &[File<'_>]) -> Result<Vec<u32>, Memory>
    requires { length (spec.joined_text (map bytes_of files.now)) ≤ max_bytes }
    ensures lines { IfOk result (λ lines. lines.items
        ≡ spec.first_lines_of (map characters_of files.now)) }
    ensures few { IfOk result (λ lines. length lines.items < 2 ^ 32) }
{
    let mut lines = Vec::new(alloc);
    let mut line = 1;
    for file in files {
        lines.push(line)?;
        line += taken(alloc, file.text)?;
    }
    Ok(lines)
}

// The line at which a file begins, or 0 where there is none.
fn first_line(first_lines: &[u32], file: usize) -> u32
    ensures { result ≡ slice_index first_lines.now file }
{
    first_lines.get(file).copied().unwrap_or(0)
}

/// The spot of a place of the one text, by the lines at which the files begin: the last file whose
/// first line isn't behind the line of the place, and the line counted from there. Without files it
/// is file 0, and the place as it is.
pub fn spot_of(first_lines: &[u32], place: Place) -> Spot
    requires { length first_lines.now < 2 ^ 32 }
    ensures { result ≡ spec.spot_of first_lines.now place }
{
    let begun = first_lines
        .iter()
        .take_while(|first| **first <= place.line)
        .count();
    let file = begun.saturating_sub(1);
    let first = first_line(first_lines, file);
    Spot {
        file: file as u32,
        place: Place {
            line: place.line.saturating_sub(first.saturating_sub(1)),
            column: place.column,
        },
    }
}
