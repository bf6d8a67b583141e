//! The listing of a whole function (ES3 10.1, 13, 14).

ghost use Rattle.std.specs.Prelude.{◌≡◌, ◌+◌, None, IfOk};
ghost use Rattle.ja_lower_statements.specs.Functions as spec;
ghost use Rattle.ja_lower_draft.specs.code.Lines as lines;

use crate::around::Around;
use crate::statement_list::statements;
use ja_base::{Memory, Place, Site};
use ja_graph::Node;
use ja_lower_draft::conversion::constant;
use ja_lower_draft::{Draft, Scene};
use ja_lower_expressions::literal::make_function;
use ja_prim::{Primitive, Text16};
use ja_syntax::{FunctionTree, Name, Statement, hoisted_variables, mentions_arguments};

/// The place of the program.
const FIRST_PLACE: Place = Place { line: 1, column: 1 };

/// How many registers stand before the temporaries of a function without parameters.
const FIXED_REGISTERS: u32 = 6;

/// The scene, where nothing handles what is thrown.
fn unhandled<'a, 't>(scene: &Scene<'a, 't>) -> Scene<'a, 't>
    ensures { result ≡ spec.unhandled scene.now }
{
    Scene {
        alloc: scene.alloc,
        names: scene.names,
        functions: scene.functions,
        handler: None,
        specials: scene.specials,
    }
}

/// Makes the activation, and the arguments object where the body mentions it.
fn enter(
    scene: &Scene<'_, '_>,
    place: Place,
    mentions: bool,
    draft: &mut Draft,
) -> Result<(), Memory>
    ensures { lines.Adds (spec.with_entry scene.now place mentions draft.old) result draft.new }
{
    let arguments = if mentions { Some(Site(1)) } else { None };
    let node = Node::Enter {
        site: Site(0),
        arguments,
    };
    draft.node(scene.handler, place, node)
}

/// Makes the object of a function declaration, and binds it to its name.
fn bind_function(
    scene: &Scene<'_, '_>,
    place: Place,
    name: &Option<Name>,
    base: u32,
    draft: &mut Draft,
) -> Result<(), Memory>
    ensures { lines.Adds (spec.bind_function scene.now place name.now base draft.old) result
        draft.new }
{
    match name {
        None => Ok(()),
        Some(name) => {
            draft.restart(base);
            let src = make_function(scene, place, draft)?;
            let node = Node::Bind {
                name: scene.name(name.text.units()),
                src,
                read_only: false,
            };
            draft.node(scene.handler, place, node)
        }
    }
}

/// A statement, if it is a function declaration.
fn declare_function(
    scene: &Scene<'_, '_>,
    statement: &Statement,
    base: u32,
    draft: &mut Draft,
) -> Result<(), Memory>
    ensures { lines.Adds (spec.declare_function_of scene.now statement.now base draft.old) result
        draft.new }
{
    match statement {
        Statement::Function(function) => {
            bind_function(scene, function.place, &function.name, base, draft)
        }
        _ => Ok(()),
    }
}

/// The function declarations among statements.
#[tactic(auto, unfolding(crate::specs::Functions::declare_functions))]
fn declare_functions(
    scene: &Scene<'_, '_>,
    statements: &[Statement],
    base: u32,
    draft: &mut Draft,
) -> Result<(), Memory>
    ensures { lines.Adds (spec.declare_functions scene.now statements.now base draft.old) result
        draft.new }
{
    for statement in statements {
        declare_function(scene, statement, base, draft)?;
    }
    Ok(())
}

/// The variables.
#[tactic(auto, unfolding(crate::specs::Functions::declare_variables))]
fn declare_variables(
    scene: &Scene<'_, '_>,
    place: Place,
    variables: &[Text16],
    draft: &mut Draft,
) -> Result<(), Memory>
    ensures { lines.Adds (spec.declare_variables scene.now place variables.now draft.old) result
        draft.new }
{
    for variable in variables {
        let name = scene.name(variable.units());
        draft.node(scene.handler, place, Node::Declare { name })?;
    }
    Ok(())
}

/// The end of a function, behind its statements.
fn end(scene: &Scene<'_, '_>, place: Place, base: u32, draft: &mut Draft) -> Result<(), Memory>
    ensures { lines.Adds (spec.ended scene.now place base draft.old) result draft.new }
{
    draft.restart(base);
    let src = constant(scene, place, Primitive::Undefined, draft)?;
    draft.node(scene.handler, place, Node::Return { src })?;
    draft.node(scene.handler, place, Node::Escape)
}

/// What a body does: its function declarations, its variables, its statements, and its end.
fn body(
    scene: &Scene<'_, '_>,
    place: Place,
    inside: &[Statement],
    base: u32,
    draft: &mut Draft,
) -> Result<(), Memory>
    ensures { lines.Adds (spec.with_body scene.now place inside.now base draft.old) result draft.new }
{
    declare_functions(scene, inside, base, draft)?;
    let variables = hoisted_variables(scene.alloc, inside)?;
    declare_variables(scene, place, variables.as_slice(), draft)?;
    let around = Around {
        scene,
        ways: &[],
        labels: &[],
    };
    statements(&around, base, inside, draft)?;
    end(scene, place, base, draft)
}

/// The first temporary of a function with that many parameters. Past the last number that a
/// register may have memory counts as refused.
fn first_temporary(parameters: usize) -> Result<u32, Memory>
    ensures { IfOk result (λ r. r ≡ spec.first_temporary parameters) }
{
    if parameters > 1_000_000_000 {
        return Err(Memory);
    }
    Ok(FIXED_REGISTERS + parameters as u32)
}

/// The listing of a program, which begins with a node: with a constant, if its first line is none.
#[tactic(auto, unfolding(crate::specs::Functions::beginning_with_node))]
fn beginning_with_node(scene: &Scene<'_, '_>, draft: Draft) -> Result<Draft, Memory>
    ensures { IfOk result (λ whole. whole.items ≡ spec.beginning_with_node scene.now draft.items) }
{
    if draft.begins_with_node() {
        return Ok(draft);
    }
    let mut first = Draft::new(scene.alloc, FIXED_REGISTERS, 0);
    constant(scene, FIRST_PLACE, Primitive::Undefined, &mut first)?;
    first.then(draft)
}

/// The listing of the program, at the beginning of its text. It fails where memory is refused, or
/// where the numbers of temporaries, spots or functions are used up.
#[tactic(auto, unfolding(crate::specs::Functions::program_listing))]
pub fn program_listing(scene: &Scene<'_, '_>, inside: &[Statement]) -> Result<Draft, Memory>
    ensures { IfOk result (λ draft. draft.items ≡ spec.program_listing scene.now inside.now) }
{
    let scene = unhandled(scene);
    let mut draft = Draft::new(scene.alloc, FIXED_REGISTERS, 0);
    body(&scene, FIRST_PLACE, inside, FIXED_REGISTERS, &mut draft)?;
    beginning_with_node(&scene, draft)
}

/// The listing of a function, at the place of its word `function`. It fails as `program_listing`
/// does, and where there are more than 1,000,000,000 parameters.
#[tactic(auto, unfolding(crate::specs::Functions::function_listing))]
pub fn function_listing(scene: &Scene<'_, '_>, function: &FunctionTree) -> Result<Draft, Memory>
    ensures { IfOk result (λ draft. draft.items ≡ spec.function_listing scene.now function.now) }
{
    let scene = unhandled(scene);
    let base = first_temporary(function.parameters.len())?;
    let mut draft = Draft::new(scene.alloc, base, 0);
    let mentions = mentions_arguments(function);
    enter(&scene, function.place, mentions, &mut draft)?;
    body(
        &scene,
        function.place,
        function.body.as_slice(),
        base,
        &mut draft,
    )?;
    Ok(draft)
}
