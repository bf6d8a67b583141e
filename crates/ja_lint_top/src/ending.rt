//! What stands behind the messages.

ghost use Rattle.std.specs.Prelude.{◌≡◌, ◌&&◌, ◌++◌, not, filter, IfOk, OnOk, length, map};
ghost use Rattle.std.specs.List.{list_any};
ghost use Rattle.ja_top.specs.Statuses.{is_fault};
ghost use Rattle.ja_warn.specs.Told.{warnings_in};
ghost use Rattle.ja_lint_top.specs.Ending as spec;
ghost use Rattle.ja_lint_top.specs.Lint.{ending_text};

use crate::asking::{Format, Manner};
use ja_base::Memory;
use ja_files::File;
use ja_rows::Warning;
use ja_show::shown_name;
use ja_texts::push_number;
use ja_top::is_fault;
use ja_warn::Told;
use std::alloc::Global;

/// Whether a warning is only counted.
pub(crate) fn is_counted(rows: bool, warning: &Warning) -> bool
    ensures { result ≡ spec.is_counted rows warning.now }
{
    !rows && !is_fault(warning) && warning.builtin.is_some()
}

// How many warnings are of faults.
fn faults(warnings: &[Told]) -> usize
    ensures { result ≡ length (filter (λ x. is_fault x.warning.kind) warnings.now) }
{
    warnings
        .iter()
        .filter(|told| is_fault(&told.warning))
        .count()
}

// How many of those are certain.
fn certain(warnings: &[Told]) -> usize
    ensures { result
        ≡ length (filter (λ x. is_fault x.warning.kind && x.warning.certain) warnings.now) }
{
    warnings
        .iter()
        .filter(|told| is_fault(&told.warning) && told.warning.certain)
        .count()
}

// How many warnings are of none.
fn rows(warnings: &[Told]) -> usize
    ensures { result ≡ length (filter (λ x. not (is_fault x.warning.kind)) warnings.now) }
{
    warnings
        .iter()
        .filter(|told| !is_fault(&told.warning))
        .count()
}

// How many are only counted.
fn counted(manner: Manner, warnings: &[Told]) -> usize
    ensures { result ≡ length (filter (λ x. spec.is_counted manner.rows x.warning) warnings.now) }
{
    warnings
        .iter()
        .filter(|told| is_counted(manner.rows, &told.warning))
        .count()
}

/// Whether a warning of a fault is among some.
pub(crate) fn has_fault(warnings: &[Told]) -> bool
    ensures { result ≡ list_any (λ x. is_fault x.warning.kind) warnings.now }
{
    warnings.iter().any(|told| is_fault(&told.warning))
}

// What stands behind a thing that is there so many times.
fn plural(count: usize) -> &'static [u8]
    ensures { result.now ≡ spec.plural count }
{
    match count {
        1 => b"",
        _ => b"s",
    }
}

// Adds so many of a thing.
fn push_so_many(out: &mut Vec<u8>, count: usize, thing: &[u8]) -> Result<(), Memory>
    ensures { OnOk result (out.new.items ≡ out.old.items ++ spec.so_many count thing.now) }
{
    push_number(out, count as u64)?;
    out.push(b' ')?;
    out.extend_from_slice(thing)?;
    out.extend_from_slice(plural(count))?;
    Ok(())
}

// Which option tells each.
fn option_text(format: Format) -> &'static [u8]
    ensures { result.now ≡ spec.option_text format }
{
    match format {
        Format::Html => b"",
        _ => b" (--rows tells each)",
    }
}

// Adds how many are counted and not told.
fn push_counted(out: &mut Vec<u8>, format: Format, count: usize) -> Result<(), Memory>
    ensures { OnOk result (out.new.items ≡ out.old.items ++ spec.counted_line format count) }
{
    if count != 0 {
        push_so_many(out, count, b"read")?;
        out.extend_from_slice(b" in built-in functions of what isn't known to this tool")?;
        out.extend_from_slice(option_text(format))?;
        out.push(b'\n')?;
    }
    Ok(())
}

// Adds the reads of what the analysis doesn't know.
fn push_reads(out: &mut Vec<u8>, count: usize) -> Result<(), Memory>
    ensures { OnOk result (out.new.items ≡ out.old.items ++ spec.reads_text count) }
{
    if count != 0 {
        out.extend_from_slice(b"; ")?;
        push_so_many(out, count, b"read")?;
        out.extend_from_slice(b" of what isn't known to this tool")?;
    }
    Ok(())
}

// Adds the counts of some warnings.
fn push_counts(out: &mut Vec<u8>, warnings: &[Told]) -> Result<(), Memory>
    ensures { OnOk result (out.new.items
        ≡ out.old.items ++ spec.counts_text (warnings_in warnings.now)) }
{
    push_so_many(out, faults(warnings), b"fault")?;
    out.extend_from_slice(b", ")?;
    push_number(out, certain(warnings) as u64)?;
    out.extend_from_slice(b" of them certain")?;
    push_reads(out, rows(warnings))?;
    Ok(())
}

// What stands behind a name, by how many are behind it.
fn between(behind: usize) -> &'static [u8]
    ensures { result.now ≡ spec.between behind }
{
    match behind {
        0 => b"",
        1 => b" and ",
        _ => b", ",
    }
}

// Adds the names of files, as people list them.
fn push_names(alloc: Global, out: &mut Vec<u8>, files: &[File<'_>]) -> Result<(), Memory>
    ensures { OnOk result (out.new.items
        ≡ out.old.items ++ spec.listed (map spec.name_shown files.now)) }
{
    for index in 0..files.len() {
        let name = shown_name(alloc, files[index].name)?;
        out.extend_from_slice(&name)?;
        out.extend_from_slice(between(files.len() - index - 1))?;
    }
    Ok(())
}

// Adds the theorem.
#[tactic(auto, unfolding(crate::specs::Ending::promise))]
fn push_promise(
    alloc: Global,
    out: &mut Vec<u8>,
    files: &[File<'_>],
    rows: bool,
) -> Result<(), Memory>
    ensures { OnOk result (out.new.items
        ≡ out.old.items ++ spec.promise (map spec.name_shown files.now) rows) }
{
    out.extend_from_slice(b"no run of ")?;
    push_names(alloc, out, files)?;
    out.extend_from_slice(
        b" calls a non-function, reads a property of null or undefined, or meets an unbound name",
    )?;
    if rows {
        out.extend_from_slice(b", as long as it reads nothing that isn't known to this tool")?;
    }
    Ok(())
}

/// What stands behind the messages of some warnings.
pub(crate) fn ending_of(
    alloc: Global,
    manner: Manner,
    files: &[File<'_>],
    warnings: &[Told],
) -> Result<Vec<u8>, Memory>
    ensures { IfOk result (λ text. text.items
        ≡ ending_text manner files.now (warnings_in warnings.now)) }
{
    let mut text = Vec::new(alloc);
    push_counted(&mut text, manner.format, counted(manner, warnings))?;
    if has_fault(warnings) {
        push_counts(&mut text, warnings)?;
    } else {
        push_promise(alloc, &mut text, files, rows(warnings) != 0)?;
    }
    Ok(text)
}
