//! The messages of warnings.

ghost use Rattle.std.specs.Prelude.{◌≡◌, ◌<◌, ◌^◌, IfOk, filter, length, map, not};
ghost use Rattle.ja_files.specs.Files as files;
ghost use Rattle.std.specs.List.{AllByRecursion};
ghost use Rattle.ja_graph.specs.WellFormed.{IsWellFormed};
ghost use Rattle.ja_table.specs.Tables.{table_of, Fits};
ghost use Rattle.ja_lint_top.specs.Ending.{is_counted};
ghost use Rattle.ja_lint_top.specs.Telling as spec;
ghost use Rattle.ja_lint_top.specs.Telling.{AreTold, Tells};
ghost use Rattle.ja_lint_top.specs.Refusals.{lines_of};
ghost use Rattle.ja_warn.specs.Told.{warnings_in, IsNamed, IsTold};

use crate::callers::callers;
use crate::ending::is_counted;
use ja_base::{FnId, Memory, Place, Seq};
use ja_files::{Spot, spot_of};
use ja_graph::Program;
use ja_lint_text::{Source, warning_words};
use ja_rows::{Warning, WarningKind};
use ja_show::{Level, Message, Rule};
use ja_table::ATable;
use ja_warn::Told;
use std::alloc::{AllocError, Global};

// The level of a warning.
fn level_of(warning: Warning) -> Level
    ensures { result ≡ spec.level_of warning.kind warning.certain }
{
    match warning.kind {
        WarningKind::ScopeRow => Level::Note,
        _ => {
            if warning.certain {
                Level::Certain
            } else {
                Level::Possible
            }
        }
    }
}

// What a warning is about.
fn rule_of(kind: WarningKind) -> Rule
    ensures { result ≡ spec.rule_of kind }
{
    match kind {
        WarningKind::NotAFunction => Rule::NotAFunction,
        WarningKind::NoObject => Rule::NoObject,
        WarningKind::UnboundName => Rule::UnboundName,
        WarningKind::ScopeRow => Rule::Unknown,
    }
}

// Where a warning is told: at its place, or at the calls of the built-in function.
fn standing(
    alloc: Global,
    program: &Program,
    table: &ATable,
    warning: Warning,
) -> Result<(Option<Place>, Seq<Place>), Memory>
    requires { Fits program.now table.now }
    ensures { IfOk result (λ s. spec.IsStanding program.now (table_of table.now)
        warning.builtin warning.place s.0 s.1) }
{
    match warning.builtin {
        None => Ok((Some(warning.place), Seq::new(alloc))),
        Some(function) => Ok((None, callers(alloc, program, table, function)?)),
    }
}

// The spots of places.
fn spots_of(alloc: Global, first_lines: &[u32], places: &[Place]) -> Result<Vec<Spot>, AllocError>
    requires { length first_lines.now < 2 ^ 32 }
    ensures { IfOk result (λ spots. spots.items
        ≡ map (files.spot_of first_lines.now) places.now) }
{
    places
        .iter()
        .map(|place| spot_of(first_lines, *place))
        .collect(alloc)
}

// The message of a warning.
fn message_of(
    alloc: Global,
    source: &Source<'_>,
    table: &ATable,
    told: &Told,
) -> Result<Message, Memory>
    requires program { IsWellFormed source.now.program.now }
    requires fits { Fits source.now.program.now table.now }
    requires lines { source.now.first_lines.now ≡ lines_of source.now.files.now }
    requires few { length source.now.first_lines.now < 2 ^ 32 }
    requires told { IsTold source.now.program.now (table_of table.now) told.now }
    requires named { IsNamed source.now.program.now (table_of table.now) told.now }
    ensures { IfOk result (Tells source.now.files.now source.now.program.now (table_of table.now)
        told.now.warning) }
{
    let text = warning_words(alloc, source, told)?;
    let (place, calls) = standing(alloc, source.program, table, told.warning)?;
    let calls = spots_of(alloc, source.first_lines, calls.as_slice())?;
    Ok(Message {
        level: level_of(told.warning),
        rule: rule_of(told.warning.kind),
        spot: place.map(|place| spot_of(source.first_lines, place)),
        text: Seq::from_vec(text),
        calls: Seq::from_vec(calls),
    })
}

/// The messages of those warnings of a table that aren't only counted, where `rows` asks for all.
pub(crate) fn messages_of(
    alloc: Global,
    source: &Source<'_>,
    table: &ATable,
    warnings: &[Told],
    rows: bool,
) -> Result<Vec<Message>, Memory>
    requires program { IsWellFormed source.now.program.now }
    requires fits { Fits source.now.program.now table.now }
    requires lines { source.now.first_lines.now ≡ lines_of source.now.files.now }
    requires few { length source.now.first_lines.now < 2 ^ 32 }
    requires told { AllByRecursion (IsTold source.now.program.now (table_of table.now))
        warnings.now }
    requires named { AllByRecursion (IsNamed source.now.program.now (table_of table.now))
        warnings.now }
    ensures { IfOk result (λ messages. AreTold source.now.files.now source.now.program.now
        (table_of table.now) (filter (λ w. not (is_counted rows w)) (warnings_in warnings.now))
        messages.items) }
{
    let mut messages = Vec::new(alloc);
    for told in warnings {
        if !is_counted(rows, &told.warning) {
            messages.push(message_of(alloc, source, table, told)?)?;
        }
    }
    Ok(messages)
}
