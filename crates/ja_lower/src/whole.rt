//! The functions and the sites of a program.

ghost use Rattle.std.specs.Prelude.{◌≡◌, ◌<◌, ◌≤◌, ◌+◌, ◌^◌, ◌++◌, ◌∷◌, [], length, IfOk, OnOk};
ghost use Rattle.std.specs.List.{AllByRecursion};
ghost use Rattle.ja_graph.specs.WellFormed.{max_registers};
ghost use Rattle.ja_lower.specs.Lowering as spec;

use crate::Body;
use crate::numbering::{behind, numbered};
use crate::registers::register_count;
use crate::sites::add_sites;
use ja_base::{FnId, Memory};
use ja_graph::{Function, SiteInfo};
use std::alloc::Global;

/// The functions so far, and the sites of their nodes.
#[derive(Drop)]
pub(crate) struct Whole {
    pub(crate) functions: Vec<Function>,
    pub(crate) sites: Vec<SiteInfo>,
}

/// A function whose sites are numbered from a number on.
fn function_of(first: u32, body: Body) -> Result<Function, Memory>
    ensures function { IfOk result (λ f. f ≡ spec.function_of first body) }
    ensures registers { IfOk result (λ f. f.registers ≤ max_registers) }
{
    let registers = register_count(body.parameters.len(), body.nodes.as_slice())?;
    let nodes = numbered(first, body.nodes)?;
    Ok(Function {
        name: body.name,
        parameters: body.parameters,
        registers,
        nodes,
    })
}

/// Adds a function and its sites, where the first site of all and the first function have these
/// numbers.
fn add(whole: &mut Whole, first_site: u32, first_function: u32, body: Body) -> Result<(), Memory>
    requires few { first_function + length whole.old.functions.items < 2 ^ 32 }
    ensures functions { OnOk result (whole.new.functions.items ≡ whole.old.functions.items
        ++ spec.function_of (first_site + length whole.old.sites.items) body ∷ []) }
    ensures sites { OnOk result (whole.new.sites.items ≡ whole.old.sites.items
        ++ spec.sites_of_nodes (first_function + length whole.old.functions.items) body.nodes) }
    ensures registers { OnOk result ((spec.function_of (first_site + length whole.old.sites.items)
        body).registers ≤ max_registers) }
{
    let function = FnId(first_function + whole.functions.len() as u32);
    let first = behind(first_site, whole.sites.len())?;
    add_sites(&mut whole.sites, function, body.nodes.as_slice())?;
    whole.functions.push(function_of(first, body)?)?;
    Ok(())
}

/// The functions of these bodies and their sites, where the first site and the first function have
/// these numbers.
pub(crate) fn whole_of(
    alloc: Global,
    first_site: u32,
    first_function: u32,
    bodies: Vec<Body>,
) -> Result<Whole, Memory>
    requires few { first_function + length bodies.items ≤ 2 ^ 32 }
    ensures functions { IfOk result (λ w. w.functions.items
        ≡ spec.functions_of first_site bodies.items) }
    ensures sites { IfOk result (λ w. w.sites.items ≡ spec.sites_of first_function bodies.items) }
    ensures registers { IfOk result (λ w. AllByRecursion (λ f. f.registers ≤ max_registers)
        w.functions.items) }
{
    let mut whole = Whole {
        functions: Vec::with_capacity(alloc, bodies.len())?,
        sites: Vec::new(alloc),
    };
    for body in bodies {
        add(&mut whole, first_site, first_function, body)?;
    }
    Ok(whole)
}
