//! The built-in functions, as each program has them.

ghost use Rattle.std.specs.Prelude.{◌≡◌, ◌≤◌, ◌+◌, true, map, IfOk};
ghost use Rattle.std.specs.List.{AllByRecursion, list_all};
ghost use Rattle.ja_graph.specs.WellFormed.{builtin_names, max_registers};
ghost use Rattle.ja_graph.specs.declared.program.TheConstants.{MAX_DEVICES};
ghost use Rattle.ja_lower.specs.Lowering.{lowered_prelude};
ghost use Rattle.ja_lower.specs.Limits.{max_functions};
ghost use Rattle.ja_prelude.specs.Prelude as spec;
ghost use Rattle.ja_prelude.specs.code.Prelude as code;
ghost use Rattle.ja_prelude.specs.Functions as all;
ghost use Rattle.ja_prelude.specs.code.Functions.{seen};
ghost use Rattle.ja_prim.specs.Texts.{is_short};

use crate::laws::{names_are_told, nodes_are_few, texts_are_functions, texts_are_read};
use crate::objects::builtin_names;
use crate::reading::trees_of;
use crate::texts::{BuiltinFunction, CONSTRUCTORS, OBJECT_FUNCTIONS, VALUE_FUNCTIONS};
use ja_base::{Memory, Seq};
use ja_lower::{LowerFault, Lowered, lower_prelude, prelude_names};
use ja_prim::Text16;
use ja_syntax::Statement;
use sqlite_items::Items;
use std::alloc::Global;

/// The built-in functions as they were read: the trees of their texts, their paths, and the names
/// that each program begins with.
#[derive(Drop)]
pub struct Prelude {
    pub statements: Items<Statement>,
    pub paths: Seq<Text16>,
    pub names: Seq<Text16>,
}

/// The paths of functions.
fn paths_of(alloc: Global, functions: &[BuiltinFunction]) -> Result<Vec<Text16>, Memory>
    requires { list_all (λ f. is_short f.0.now) functions.now ≡ true }
    ensures { IfOk result (λ paths. paths.items ≡ map (λ f. f.0.now) functions.now) }
{
    let mut paths = Vec::new(alloc);
    for function in functions {
        let (path, _) = *function;
        paths.push(Text16::from_ascii(alloc, path)?)?;
    }
    Ok(paths)
}

/// The functions of the constructors.
fn constructors(alloc: Global) -> Result<Vec<BuiltinFunction>, Memory>
    ensures { IfOk result (λ list. map seen list.items ≡ all.constructors) }
{
    Ok(Vec::from_slice(alloc, &CONSTRUCTORS)?)
}

/// Those of objects, of functions and of arrays.
fn object_functions(alloc: Global) -> Result<Vec<BuiltinFunction>, Memory>
    ensures { IfOk result (λ list. map seen list.items ≡ all.object_functions) }
{
    Ok(Vec::from_slice(alloc, &OBJECT_FUNCTIONS)?)
}

/// Those of other values.
fn value_functions(alloc: Global) -> Result<Vec<BuiltinFunction>, Memory>
    ensures { IfOk result (λ list. map seen list.items ≡ all.value_functions) }
{
    Ok(Vec::from_slice(alloc, &VALUE_FUNCTIONS)?)
}

/// All of them, in their order.
fn functions(alloc: Global) -> Result<Vec<BuiltinFunction>, Memory>
    ensures { IfOk result (λ list. map seen list.items ≡ all.functions) }
{
    let mut list = constructors(alloc)?;
    list.extend_from_slice(&object_functions(alloc)?)?;
    list.extend_from_slice(&value_functions(alloc)?)?;
    Ok(list)
}

/// Reads all built-in functions.
fn read_all(alloc: Global, functions: &[BuiltinFunction]) -> Result<Prelude, Memory>
    requires { map seen functions.now ≡ all.functions }
    ensures { IfOk result (λ p. p ≡ code.the_prelude) }
{
    texts_are_read();
    let statements = trees_of(alloc, functions)?;
    let paths = Seq::from_vec(paths_of(alloc, functions)?);
    let names = prelude_names(alloc, &builtin_names(alloc)?, statements.as_slice())?;
    Ok(Prelude {
        statements,
        paths,
        names,
    })
}

impl Prelude {
    /// Reads the built-in functions. The error is want of memory.
    pub fn read(alloc: Global) -> Result<Prelude, Memory>
        ensures { IfOk result (λ p. p ≡ code.the_prelude) }
    {
        let functions = functions(alloc)?;
        read_all(alloc, &functions)
    }

    /// The functions with their nodes, whose sites are numbered from `first_site` on, and which are
    /// numbered from `first_function` on themselves. The error is want of memory; more than 262,144
    /// registers in a function, or a site whose number isn't in 32 bits, count as refused memory.
    pub fn functions(
        &self,
        alloc: Global,
        first_site: u32,
        first_function: u32,
    ) -> Result<Lowered, Memory>
        requires prelude { self.now ≡ code.the_prelude }
        requires functions { first_function ≤ max_functions + MAX_DEVICES }
        ensures lowered { IfOk result (λ l. l
            ≡ lowered_prelude builtin_names spec.prelude_paths first_site first_function
            spec.prelude_statements) }
        ensures registers { IfOk result (λ l.
            AllByRecursion (λ fn. fn.registers ≤ max_registers) l.functions) }
    {
        texts_are_functions();
        names_are_told();
        nodes_are_few();
        let names = builtin_names(alloc)?;
        match lower_prelude(
            alloc,
            self.statements.as_slice(),
            &names,
            self.paths.as_slice(),
            first_site,
            first_function,
        ) {
            Ok(lowered) => Ok(lowered),
            Err(LowerFault::Memory) => Err(Memory),
            Err(_) => unreachable!(),
        }
    }
}
