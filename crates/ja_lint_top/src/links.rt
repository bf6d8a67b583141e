//! The calls of functions of the text.

ghost use Rattle.std.specs.Prelude.{◌≡◌, ◌<◌, ◌^◌, IfOk, length, map};
ghost use Rattle.std.specs.BTreeSet.{IsFromIterResult};
ghost use Rattle.std.specs.List.{filter_map};
ghost use Rattle.ja_table.specs.Tables.{table_of, Fits};
ghost use Rattle.ja_table.specs.declared.table.CallEdge.{CallEdge as Kept};
ghost use Rattle.ja_lint_top.specs.Calls as spec;
ghost use Rattle.ja_lint_top.specs.Calls.{AreLinks};
ghost use Rattle.ja_lint_top.specs.Lint.{link_in};
ghost use Rattle.ja_lint_top.specs.code.Answers.{AreLinksIn};
ghost use Rattle.ja_lint_top.specs.code.Calls.{ends_cmp, ends_of, link_at};

use crate::callers::{Spot, is_of_text, numbers_of, place_at, place_of};
use ja_base::{FnId, Memory, Place};
use ja_files::spot_of;
use ja_graph::Program;
use ja_rows::Edge;
use ja_show::Link as ShownLink;
use ja_table::ATable;
use std::alloc::{AllocError, Global};
use std::collections::BTreeSet;

/// A call of a function of the text: the place of the operation, and that of the function.
#[derive(Clone, Copy, Debug, PartialEq, Eq)]
pub struct Link {
    pub from: Place,
    pub to: Place,
}

// A link by its numbers: those of the place of the call, and of that of the callee.
type Ends = (Spot, Spot);

// Where a function stands.
fn start_of(program: &Program, function: FnId) -> Option<Place>
    ensures { result ≡ spec.place_of program.now function }
{
    let function = program.functions.as_slice().get(function.0 as usize)?;
    let info = function.nodes.as_slice().first()?;
    Some(info.place)
}

// The link of an edge between functions of the text.
fn ends_of(program: &Program, edge: Edge) -> Option<Ends>
    ensures { result ≡ ends_of program.now edge }
{
    if !is_of_text(program, edge.caller.function) || !is_of_text(program, edge.callee.function) {
        return None;
    }
    let from = place_of(program, edge)?;
    let to = start_of(program, edge.callee.function)?;
    Some((numbers_of(from), numbers_of(to)))
}

// Those of all edges.
fn all_ends(alloc: Global, program: &Program, table: &ATable) -> Result<BTreeSet<Ends>, AllocError>
    ensures { IfOk result (IsFromIterResult ends_cmp
        (filter_map (λ (d : Kept). ends_of program.now d.edge) table.now.edges.items)) }
{
    table
        .edges
        .iter()
        .filter_map(|call| ends_of(program, call.edge))
        .collect(alloc)
}

// The links at some numbers.
fn links_at(alloc: Global, ends: BTreeSet<Ends>) -> Result<Vec<Link>, AllocError>
    ensures { IfOk result (λ links. links.items ≡ map link_at ends.keys) }
{
    ends.into_iter()
        .map(|(from, to)| Link {
            from: place_at(from),
            to: place_at(to),
        })
        .collect(alloc)
}

// The calls of functions of the text, each once and in order.
fn links(alloc: Global, program: &Program, table: &ATable) -> Result<Vec<Link>, Memory>
    requires { Fits program.now table.now }
    ensures { IfOk result (λ links. AreLinks program.now (table_of table.now) links.items) }
{
    let ends = all_ends(alloc, program, table)?;
    let links = links_at(alloc, ends)?;
    Ok(links)
}

/// The same, by the spots of files that begin at these lines of the one text.
pub(crate) fn links_in(
    alloc: Global,
    first_lines: &[u32],
    program: &Program,
    table: &ATable,
) -> Result<Vec<ShownLink>, Memory>
    requires few { length first_lines.now < 2 ^ 32 }
    requires fits { Fits program.now table.now }
    ensures { IfOk result (λ shown. AreLinksIn first_lines.now program.now (table_of table.now)
        shown.items) }
{
    let links = links(alloc, program, table)?;
    let shown = shown_links(alloc, first_lines, &links)?;
    Ok(shown)
}

// Links as they are shown.
fn shown_links(
    alloc: Global,
    first_lines: &[u32],
    links: &[Link],
) -> Result<Vec<ShownLink>, AllocError>
    requires { length first_lines.now < 2 ^ 32 }
    ensures { IfOk result (λ shown. shown.items ≡ map (link_in first_lines.now) links.now) }
{
    links
        .iter()
        .map(|link| ShownLink {
            from: spot_of(first_lines, link.from),
            to: spot_of(first_lines, link.to),
        })
        .collect(alloc)
}
