//! Calls and `new` (ES3 11.2.2 to 11.2.4).

ghost use Rattle.std.specs.Prelude.{map, []};
ghost use Rattle.ja_lower_draft.specs.code.Lines as lines;
ghost use Rattle.ja_lower_expressions.specs.Expressions as expressions;
ghost use Rattle.ja_lower_expressions.specs.Calls as spec;
ghost use Rattle.ja_lower_expressions.specs.code.Calls as code;

use crate::expression::value;
use crate::outcome::Outcome;
use crate::reference::get_value;
use crate::special_call::{call_with, list_special};
use ja_base::{Memory, Place, Reg, Seq, Site};
use ja_graph::{Args, Node};
use ja_lower_draft::conversion::constant;
use ja_lower_draft::{Draft, Scene};
use ja_prim::Primitive;
use ja_syntax::Expression;

/// Arguments, from the left to the right.
#[cycle(forms)]
#[tactic(auto, unfolding(crate::specs::Calls::list_arguments))]
fn list_arguments(
    scene: &Scene<'_, '_>,
    arguments: &[Expression],
    draft: &mut Draft,
) -> Result<Vec<Reg>, Memory>
    ensures { code.Lists (spec.list_arguments (map expressions.form arguments.now) scene.now
        draft.old []) result draft.new }
{
    let mut values = Vec::new(scene.alloc);
    for argument in arguments {
        let value = value(scene, argument, draft)?;
        values.push(value)?;
    }
    Ok(values)
}

/// Adds a call.
fn add_call(
    scene: &Scene<'_, '_>,
    place: Place,
    callee: Reg,
    receiver: Reg,
    values: Vec<Reg>,
    draft: &mut Draft,
) -> Result<Reg, Memory>
    ensures { lines.Gives (spec.with_call scene.now place callee receiver values.items draft.old)
        result draft.new }
{
    let args = Args::Registers(Seq::from_vec(values));
    call_with(scene, place, callee, receiver, args, draft)
}

/// Calls what an expression comes to: a reference is read, and its object is the receiver. A
/// special form is listed.
fn call_outcome(
    callee: Outcome,
    scene: &Scene<'_, '_>,
    place: Place,
    values: Vec<Reg>,
    draft: &mut Draft,
) -> Result<Reg, Memory>
    ensures { lines.Gives (spec.call_outcome callee scene.now place values.items draft.old) result
        draft.new }
{
    match callee {
        Outcome::Value(function) => {
            let receiver = constant(scene, place, Primitive::Null, draft)?;
            add_call(scene, place, function, receiver, values, draft)
        }
        Outcome::Name { base, .. } => {
            let function = get_value(scene, callee, draft)?;
            add_call(scene, place, function, base, values, draft)
        }
        Outcome::Member { object, .. } => {
            let function = get_value(scene, callee, draft)?;
            add_call(scene, place, function, object, values, draft)
        }
        Outcome::Special { form, .. } => list_special(form, scene, place, values, draft),
    }
}

/// The call of what stands before it.
#[cycle(forms)]
#[tactic(auto, unfolding(crate::specs::Calls::list_call))]
pub(crate) fn call(
    scene: &Scene<'_, '_>,
    arguments: &[Expression],
    place: Place,
    callee: Outcome,
    draft: &mut Draft,
) -> Result<Reg, Memory>
    ensures { lines.Gives (spec.list_call (map expressions.form arguments.now) place scene.now
        callee draft.old) result draft.new }
{
    let values = list_arguments(scene, arguments, draft)?;
    call_outcome(callee, scene, place, values, draft)
}

/// `new` behind its callee's value.
#[cycle(forms)]
#[tactic(auto, unfolding(crate::specs::Calls::new_of))]
pub(crate) fn new_of(
    scene: &Scene<'_, '_>,
    arguments: &[Expression],
    place: Place,
    callee: Reg,
    draft: &mut Draft,
) -> Result<Reg, Memory>
    ensures { lines.Gives (spec.new_of (map expressions.form arguments.now) place scene.now callee
        draft.old) result draft.new }
{
    let values = list_arguments(scene, arguments, draft)?;
    let dst = draft.fresh()?;
    let node = Node::New {
        dst,
        callee,
        args: Seq::from_vec(values),
        site: Site(0),
        error: Site(1),
    };
    draft.node(scene.handler, place, node)?;
    Ok(dst)
}
