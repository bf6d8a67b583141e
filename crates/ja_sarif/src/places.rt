//! Places in files.

ghost use Rattle.std.specs.Prelude.{◌≡◌, ◌≤◌, IfOk, filter, length, map, string_bytes, take};
ghost use Rattle.serde_json.specs.View.{view};
ghost use Rattle.ja_files.specs.Lines as lines_spec;
ghost use Rattle.ja_show.specs.code.Kept.{lines_in};
ghost use Rattle.ja_sarif.specs.Sarif as spec;

use crate::rules::{empty, text};
use crate::uris::uri_at;
use ja_base::Memory;
use ja_files::Spot;
use ja_show::line_at;
use serde_json::{Value, json, put};
use std::alloc::Global;

// Whether a character takes two units of UTF-16.
fn is_astral(c: char) -> bool
    ensures { result ≡ spec.is_astral c }
{
    '\u{ffff}' < c
}

// No more than so many elements in front.
fn front(line: &[char], most: usize) -> &[char]
    ensures front { result.now ≡ take most line.now }
    ensures short { length result.now ≤ most }
{
    &line[..most.min(line.len())]
}

// How many characters take two.
fn astral_in(line: &[char]) -> usize
    ensures { result ≡ length (filter spec.is_astral line.now) }
{
    line.iter().filter(|c| is_astral(**c)).count()
}

// The column of a line in units of UTF-16.
#[tactic(auto, unfolding(crate::specs::Sarif::unit_column))]
fn unit_column(line: &[char], column: u32) -> u64
    ensures { result ≡ spec.unit_column line.now column }
{
    let before = front(line, (column as usize).saturating_sub(1));
    u64::from(column) + astral_in(before) as u64
}

// The line of a spot, or an empty one past the files and the lines.
fn line_of<'a>(sources: &[Vec<&'a [char]>], spot: Spot) -> &'a [char]
    ensures { result.now ≡ lines_spec.line_at
        (spec.lines_at (map lines_in sources.now) spot.file) spot.place.line }
{
    match sources.get(spot.file as usize) {
        Some(lines) => line_at(lines, spot.place.line),
        None => &[],
    }
}

// The region that begins at a spot.
#[tactic(auto, unfolding(crate::specs::Sarif::region_data))]
fn region(alloc: Global, sources: &[Vec<&[char]>], spot: Spot) -> Result<Value, Memory>
    ensures { IfOk result (λ v. view v ≡ spec.region_data (map lines_in sources.now) spot) }
{
    let column = unit_column(line_of(sources, spot), spot.place.column);
    let line = spot.place.line;
    Ok(json!(in alloc; {"startColumn": column, "startLine": line})?)
}

// A spot by the URI of its file.
#[tactic(auto, unfolding(crate::specs::Sarif::physical_data))]
fn physical(
    alloc: Global,
    uris: &[String],
    sources: &[Vec<&[char]>],
    spot: Spot,
) -> Result<Value, Memory>
    ensures { IfOk result (λ v. view v
        ≡ spec.physical_data (map string_bytes uris.now) (map lines_in sources.now) spot) }
{
    let uri = uri_at(uris, spot.file);
    let region = region(alloc, sources, spot)?;
    Ok(json!(in alloc; {"artifactLocation": {"uri": uri}, "region": region})?)
}

/// Where a message stands.
#[tactic(auto, unfolding(crate::specs::Sarif::place_data))]
pub(crate) fn place(
    alloc: Global,
    uris: &[String],
    sources: &[Vec<&[char]>],
    spot: Spot,
) -> Result<Value, Memory>
    ensures { IfOk result (λ v. view v
        ≡ spec.place_data (map string_bytes uris.now) (map lines_in sources.now) spot) }
{
    let physical = physical(alloc, uris, sources, spot)?;
    Ok(json!(in alloc; {"physicalLocation": physical})?)
}

/// Another call that leads to what a message is about.
#[tactic(auto, unfolding(crate::specs::Sarif::call_data))]
pub(crate) fn call(
    alloc: Global,
    uris: &[String],
    sources: &[Vec<&[char]>],
    spot: Spot,
) -> Result<Value, Memory>
    ensures { IfOk result (λ v. view v
        ≡ spec.call_data (map string_bytes uris.now) (map lines_in sources.now) spot) }
{
    let words = text(alloc, "also called here")?;
    let physical = physical(alloc, uris, sources, spot)?;
    let mut call = empty(alloc);
    put(&mut call, alloc, "message", words)?;
    put(&mut call, alloc, "physicalLocation", physical)?;
    Ok(Value::Object(call))
}
