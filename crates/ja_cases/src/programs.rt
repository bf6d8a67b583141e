//! The programs of texts, and why others have none.

ghost use Rattle.std.specs.Prelude.{[], IfOk};
ghost use Rattle.ja_graph.specs.WellFormed.{IsWellFormed};
ghost use Rattle.ja_load.specs.Loading.{IsProgramOf};

use crate::built_ins::put_objects;
use crate::out::Out;
use crate::reports::put_reports;
use crate::trees::put_fault;
use crate::well_formed::put_well_formed;
use ja_base::NodeId;
use ja_graph::Program;
use ja_load::{LoadFault, load};
use ja_rows::Item;
use ja_solve::{SolveFault, solve};
use std::alloc::Global;

/// The program of a text, which is well formed.
fn loaded(alloc: Global, text: &str) -> Result<Program, LoadFault>
    ensures program { IfOk result (IsProgramOf text.now []) }
    ensures well_formed { IfOk result IsWellFormed }
{
    if text.len() > 16_777_216 {
        return Err(LoadFault::Nodes);
    }
    load(alloc, text, &[])
}

/// Why a text has no program.
fn put_cause(out: &mut Out, fault: LoadFault) {
    match fault {
        LoadFault::Parse(fault) => put_fault(out, fault),
        _ => out.put("limit"),
    }
}

/// What a program has.
fn put_sizes(out: &mut Out, program: &Program, text: &str) {
    out.line_of_number("functions", program.functions.len() as u64);
    out.line_of_number("functions of the text", u64::from(program.text_functions));
    out.line_of_number("names", program.names.len() as u64);
    out.line_of_number("opening objects", program.opening.len() as u64);
    out.line_of_bool("has the text", program.text.as_str() == text);
}

/// The visits of a budget of one. It is spent on the first node, whose base isn't known yet.
fn put_visits(out: &mut Out, program: &Program)
    requires { IsWellFormed program.now }
{
    if let Err(SolveFault::Spent { visits }) = solve(out.alloc, program, 1) {
        for item in visits.as_slice() {
            if let Item::Step {
                node: NodeId(node),
                ..
            } = item
            {
                out.put_behind("node ", u64::from(*node));
            }
        }
    }
}

/// What is told of a program, by its kind.
fn put_kind(out: &mut Out, kind: &str, program: &mut Program, text: &str)
    requires { IsWellFormed program.old }
{
    match kind {
        "program" => put_sizes(out, program, text),
        "budget" => put_visits(out, program),
        "built-in objects" => put_objects(out, program),
        "well-formed programs" => put_well_formed(out, program),
        _ => put_reports(out, program),
    }
}

/// What is told of the program of a text, or why it has none.
pub fn of_text(out: &mut Out, kind: &str, text: &str) {
    match loaded(out.alloc, text) {
        Ok(mut program) => put_kind(out, kind, &mut program, text),
        Err(fault) => put_cause(out, fault),
    }
}
