//! From the tree of a text, or of built-in functions, to its flow graph; and the functions of host
//! devices.
//!
//! Any tree has exactly the functions, sites and names of its definition (`lower`), and so have the
//! texts of built-in functions (`lower_prelude`) and the functions of host devices
//! (`device_functions`). Else comes `Functions` exactly where there are more than 4,096, else
//! `Nodes` exactly where there are more than 65,536, parameters among them, else `Names` exactly
//! where there are more than 1,048,576.
//!
//! Laws (`laws.rt`): each name and function of a text is found; and of a text with the functions of
//! devices and the built-in ones behind its own, the names of the built-in ones keep their numbers,
//! the functions are well formed where the nodes of the built-in ones are allowed, their sites
//! stand by function and node without a gap, and what is told of sites names functions of the
//! program.
#![tactic(auto)]

ghost use Rattle.std.specs.Prelude.{◌≡◌, ◌<◌, ◌≤◌, ◌+◌, ◌^◌, length, map, filter, IfOk, IfErr, OnOk};
ghost use Rattle.std.specs.List.{AllByRecursion, fold};
ghost use Rattle.ja_graph.specs.WellFormed.{max_names, max_registers};
ghost use Rattle.ja_graph.specs.declared.program.TheConstants.{MAX_DEVICES};
ghost use Rattle.ja_lower_expressions.specs.Specials.{is_name};
ghost use Rattle.ja_lower_names.specs.Names.{with_name};
ghost use Rattle.ja_lower_names.specs.code.TextParts.{named_of};
ghost use Rattle.ja_lower.specs.Limits.{IsWithin, max_functions};
ghost use Rattle.ja_lower.specs.code.Limits.{Explains, ExplainsPrelude, IsPreludeWithin, max_names_before};
ghost use Rattle.ja_lower.specs.Lowering as spec;
ghost use Rattle.ja_lower.specs.code.Room.{HasTooMany};

mod bodies;
mod body;
mod devices;
mod fault;
pub mod laws;
mod lowered;
mod numbering;
mod registers;
mod sites;
mod whole;

use crate::bodies::{bodies_of, prelude_bodies};
use crate::whole::whole_of;
pub use body::Body;
pub use devices::device_functions;
pub use fault::LowerFault;
use ja_base::{Memory, Seq};
use ja_lower_expressions::special_of;
use ja_lower_names::{Named, Names, functions_in, names_in};
use ja_prim::Text16;
use ja_syntax::{Statement, Tree};
pub use lowered::Lowered;
use std::alloc::Global;

/// The most functions that a program may have, or that may be built in.
const MAX_FUNCTIONS: usize = 4_096;

/// The most names that a program may have.
const MAX_NAMES: usize = 1_048_576;

/// Adds the names of a text, each once; where the text has special forms, a variable that is one is
/// no name.
fn add_names<'a>(names: &mut Names<'a>, specials: bool, texts: &[Named<'a>]) -> Result<(), Memory>
    ensures { OnOk result (names.new ≡ fold with_name names.old
        (map (λ n. n.text) (filter (is_name specials) (map named_of texts.now)))) }
{
    for named in texts {
        if named.variable && specials && special_of(named.text.units()).is_some() {
            continue;
        }
        if names.len() >= u32::MAX as usize {
            return Err(Memory);
        }
        names.add(named.text)?;
    }
    Ok(())
}

/// The names of a program: some come first, then those of its text, each once.
#[tactic(auto, unfolding(crate::specs::Lowering::names_of))]
fn names_of<'a>(
    alloc: Global,
    specials: bool,
    first: &'a [Text16],
    statements: &'a [Statement],
) -> Result<Names<'a>, Memory>
    requires { length first.now ≤ max_names_before }
    ensures { IfOk result (λ names. names ≡ spec.names_of specials first.now statements.now) }
{
    let mut names = Names::new(alloc);
    for text in first {
        names.add(text)?;
    }
    add_names(&mut names, specials, &names_in(alloc, statements)?)?;
    Ok(names)
}

/// Functions with these names and their sites, where these names aren't too many.
#[tactic(auto)]
fn lowered_bodies(
    alloc: Global,
    names: &Names<'_>,
    first_site: u32,
    first_function: u32,
    bodies: Vec<Body>,
) -> Result<Lowered, LowerFault>
    requires few { first_function + length bodies.items ≤ 2 ^ 32 }
    ensures lowered { IfOk result (λ l. l ≡ spec.lowered_bodies names.now first_site first_function
        bodies.items) }
    ensures registers { IfOk result (λ l. AllByRecursion (λ fn. fn.registers ≤ max_registers)
        l.functions) }
    ensures names { IfOk result (λ l. length l.names ≤ max_names) }
    ensures fault { IfErr result (HasTooMany (length names.now)) }
{
    if names.len() > MAX_NAMES {
        return Err(LowerFault::Names);
    }
    let whole = whole_of(alloc, first_site, first_function, bodies)?;
    Ok(Lowered {
        functions: Seq::from_vec(whole.functions),
        sites: Seq::from_vec(whole.sites),
        names: names.texts(alloc)?,
    })
}

/// Lowers a tree, whatever its forms are. The names of the program begin with `names`, of which it
/// takes each once, and the sites of its nodes are numbered from `first_site` on.
///
/// # Errors
///
/// `Functions` exactly where there are more than 4,096 functions, the program among them; else
/// `Nodes` exactly where they have more than 65,536 nodes, each parameter of a function counted as
/// one more; else `Names` exactly where the program has more than 1,048,576 names; else `Memory`,
/// where memory was refused. More than 262,144 registers in a function, or a site or a name whose
/// number isn't in 32 bits, count as refused memory.
#[tactic(auto, using(crate::proofs::Rulesets::for_lower), unfolding(crate::specs::Limits::size_of, crate::specs::Lowering::lowered))]
pub fn lower(
    alloc: Global,
    tree: &Tree,
    names: &[Text16],
    first_site: u32,
) -> Result<Lowered, LowerFault>
    requires names { length names.now ≤ max_names_before }
    ensures lowered { IfOk result (λ l. l ≡ spec.lowered names.now first_site tree.now.statements) }
    ensures within { IfOk result (λ l. IsWithin names.now tree.now.statements) }
    ensures registers { IfOk result (λ l. AllByRecursion (λ fn. fn.registers ≤ max_registers)
        l.functions) }
    ensures names { IfOk result (λ l. length l.names ≤ max_names) }
    ensures fault { IfErr result (Explains names.now tree.now.statements) }
{
    let statements = tree.statements.as_slice();
    let functions = functions_in(alloc, statements)?;
    if functions.len() >= MAX_FUNCTIONS {
        return Err(LowerFault::Functions);
    }
    let names = names_of(alloc, false, names, statements)?;
    let bodies = bodies_of(alloc, &names, statements, &functions)?;
    lowered_bodies(alloc, &names, first_site, 0, bodies)
}

/// The names of a program with built-in functions: these, each once, and then those of the
/// functions' texts. A variable that is in the table of special forms
/// (`ja_lower_expressions::SPECIALS`) is no name.
#[tactic(auto)]
pub fn prelude_names(
    alloc: Global,
    names: &[Text16],
    statements: &[Statement],
) -> Result<Seq<Text16>, Memory>
    requires { length names.now ≤ max_names_before }
    ensures { IfOk result (λ texts. texts ≡ spec.prelude_names names.now statements.now) }
{
    let names = names_of(alloc, true, names, statements)?;
    names.texts(alloc)
}

/// Lowers the functions of the texts of built-in functions, each by its path: as `lower`, but the
/// names of the table of special forms (`ja_lower_expressions::SPECIALS`) stand for these where
/// they are variables, which then are no names of the program. The call of a special form that
/// doesn't have its arguments, or such a variable that isn't called, is undefined. The functions
/// are numbered from `first_function` on, and nothing else of these texts is lowered.
///
/// # Errors
///
/// `Functions` exactly where there are more than 4,096 functions; the others are those of `lower`.
#[tactic(auto, using(crate::proofs::Rulesets::for_lower), unfolding(crate::specs::Limits::prelude_size_of, crate::specs::Lowering::lowered_prelude))]
pub fn lower_prelude(
    alloc: Global,
    statements: &[Statement],
    names: &[Text16],
    paths: &[Text16],
    first_site: u32,
    first_function: u32,
) -> Result<Lowered, LowerFault>
    requires names { length names.now ≤ max_names_before }
    requires functions { first_function ≤ max_functions + MAX_DEVICES }
    ensures lowered { IfOk result (λ l. l ≡ spec.lowered_prelude names.now paths.now first_site
        first_function statements.now) }
    ensures within { IfOk result (λ l. IsPreludeWithin names.now statements.now) }
    ensures registers { IfOk result (λ l. AllByRecursion (λ fn. fn.registers ≤ max_registers)
        l.functions) }
    ensures names { IfOk result (λ l. length l.names ≤ max_names) }
    ensures fault { IfErr result (ExplainsPrelude names.now statements.now) }
{
    let functions = functions_in(alloc, statements)?;
    if functions.len() > MAX_FUNCTIONS {
        return Err(LowerFault::Functions);
    }
    let names = names_of(alloc, true, names, statements)?;
    let bodies = prelude_bodies(alloc, &names, paths, statements, &functions)?;
    lowered_bodies(alloc, &names, first_site, first_function, bodies)
}
