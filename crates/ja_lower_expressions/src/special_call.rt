//! Calls of special forms, behind their arguments.

ghost use Rattle.ja_lower_draft.specs.Lines as lines;
ghost use Rattle.ja_lower_draft.specs.code.Lines as code_lines;
ghost use Rattle.ja_lower_expressions.specs.Specials as spec;

use crate::reference::object;
use crate::special::Special;
use ja_base::{Memory, Place, Reg, ScopeKind, Seq, Site};
use ja_graph::{Args, ErrorKind, Made, Node};
use ja_lower_draft::conversion::{constant, text};
use ja_lower_draft::{Draft, Scene};
use ja_prim::Primitive;

/// Adds `undefined`, where a special form has other arguments than it takes.
fn undefined(scene: &Scene<'_, '_>, place: Place, draft: &mut Draft) -> Result<Reg, Memory>
    ensures { code_lines.Gives (lines.with_const scene.now place Primitive.Undefined draft.old)
        result draft.new }
{
    constant(scene, place, Primitive::Undefined, draft)
}

/// `$get`
#[tactic(auto, unfolding(crate::specs::Specials::list_special))]
fn get(
    scene: &Scene<'_, '_>,
    place: Place,
    values: &[Reg],
    draft: &mut Draft,
) -> Result<Reg, Memory>
    ensures { code_lines.Gives (spec.list_special Special.Get scene.now place values.now draft.old)
        result draft.new }
{
    match values {
        [object, key] => {
            let (object, key) = (*object, *key);
            let dst = draft.fresh()?;
            draft.node(scene.handler, place, Node::ReadProp { dst, object, key })?;
            Ok(dst)
        }
        _ => undefined(scene, place, draft),
    }
}

/// `$put`
#[tactic(auto, unfolding(crate::specs::Specials::list_special))]
fn put(
    scene: &Scene<'_, '_>,
    place: Place,
    values: &[Reg],
    draft: &mut Draft,
) -> Result<Reg, Memory>
    ensures { code_lines.Gives (spec.list_special Special.Put scene.now place values.now draft.old)
        result draft.new }
{
    match values {
        [object, key, src] => {
            let src = *src;
            let node = Node::WriteProp {
                object: *object,
                key: *key,
                src,
                error: Site(0),
            };
            draft.node(scene.handler, place, node)?;
            Ok(src)
        }
        _ => undefined(scene, place, draft),
    }
}

/// `$delete`
#[tactic(auto, unfolding(crate::specs::Specials::list_special))]
fn delete(
    scene: &Scene<'_, '_>,
    place: Place,
    values: &[Reg],
    draft: &mut Draft,
) -> Result<Reg, Memory>
    ensures { code_lines.Gives (spec.list_special Special.Delete scene.now place values.now
        draft.old) result draft.new }
{
    match values {
        [object, key] => {
            let (object, key) = (*object, *key);
            let dst = draft.fresh()?;
            draft.node(scene.handler, place, Node::DeleteProp { dst, object, key })?;
            Ok(dst)
        }
        _ => undefined(scene, place, draft),
    }
}

/// `$has`
#[tactic(auto, unfolding(crate::specs::Specials::list_special))]
fn has(
    scene: &Scene<'_, '_>,
    place: Place,
    values: &[Reg],
    draft: &mut Draft,
) -> Result<Reg, Memory>
    ensures { code_lines.Gives (spec.list_special Special.Has scene.now place values.now draft.old)
        result draft.new }
{
    match values {
        [object, key] => {
            let (object, key) = (*object, *key);
            let dst = draft.fresh()?;
            draft.node(scene.handler, place, Node::HasProp { dst, object, key })?;
            Ok(dst)
        }
        _ => undefined(scene, place, draft),
    }
}

/// `$object`
#[tactic(auto, unfolding(crate::specs::Specials::list_special))]
fn to_object(
    scene: &Scene<'_, '_>,
    place: Place,
    values: &[Reg],
    draft: &mut Draft,
) -> Result<Reg, Memory>
    ensures { code_lines.Gives (spec.list_special Special.Object scene.now place values.now
        draft.old) result draft.new }
{
    match values {
        [src] => object(scene, place, *src, draft),
        _ => undefined(scene, place, draft),
    }
}

/// `$text`
#[tactic(auto, unfolding(crate::specs::Specials::list_special))]
fn to_text(
    scene: &Scene<'_, '_>,
    place: Place,
    values: &[Reg],
    draft: &mut Draft,
) -> Result<Reg, Memory>
    ensures { code_lines.Gives (spec.list_special Special.Text scene.now place values.now draft.old)
        result draft.new }
{
    match values {
        [src] => text(scene, place, *src, draft),
        _ => undefined(scene, place, draft),
    }
}

/// `$make_TypeError` and its like.
#[tactic(auto, unfolding(crate::specs::Specials::list_special))]
fn make(
    kind: ErrorKind,
    scene: &Scene<'_, '_>,
    place: Place,
    values: &[Reg],
    draft: &mut Draft,
) -> Result<Reg, Memory>
    ensures { code_lines.Gives (spec.list_special (Special.Make kind) scene.now place values.now
        draft.old) result draft.new }
{
    match values {
        [] => {
            let dst = draft.fresh()?;
            let node = Node::NewObject {
                dst,
                site: Site(0),
                kind: Made::Error(kind),
            };
            draft.node(scene.handler, place, node)?;
            Ok(dst)
        }
        _ => undefined(scene, place, draft),
    }
}

/// Adds a call with any arguments.
pub(crate) fn call_with(
    scene: &Scene<'_, '_>,
    place: Place,
    callee: Reg,
    receiver: Reg,
    args: Args,
    draft: &mut Draft,
) -> Result<Reg, Memory>
    ensures { code_lines.Gives (lines.with_result scene.now place
        (λ dst. Node.Call dst callee receiver args (lines.site 0)) draft.old) result draft.new }
{
    let dst = draft.fresh()?;
    let node = Node::Call {
        dst,
        callee,
        receiver,
        args,
        error: Site(0),
    };
    draft.node(scene.handler, place, node)?;
    Ok(dst)
}

/// `$call`
#[tactic(auto, unfolding(crate::specs::Specials::list_special))]
fn call(
    scene: &Scene<'_, '_>,
    place: Place,
    values: &[Reg],
    draft: &mut Draft,
) -> Result<Reg, Memory>
    ensures { code_lines.Gives (spec.list_special Special.Call scene.now place values.now draft.old)
        result draft.new }
{
    match values {
        [callee, receiver, arguments @ ..] => {
            let arguments = Vec::from_slice(scene.alloc, arguments)?;
            let args = Args::Registers(Seq::from_vec(arguments));
            call_with(scene, place, *callee, *receiver, args, draft)
        }
        _ => undefined(scene, place, draft),
    }
}

/// `$spread`
#[tactic(auto, unfolding(crate::specs::Specials::list_special))]
fn spread(
    scene: &Scene<'_, '_>,
    place: Place,
    values: &[Reg],
    draft: &mut Draft,
) -> Result<Reg, Memory>
    ensures { code_lines.Gives (spec.list_special Special.Spread scene.now place values.now
        draft.old) result draft.new }
{
    match values {
        [callee, receiver, array] => {
            let args = Args::Elements(*array);
            call_with(scene, place, *callee, *receiver, args, draft)
        }
        _ => undefined(scene, place, draft),
    }
}

/// `$tail`
#[tactic(auto, unfolding(crate::specs::Specials::list_special))]
fn tail(
    scene: &Scene<'_, '_>,
    place: Place,
    values: &[Reg],
    draft: &mut Draft,
) -> Result<Reg, Memory>
    ensures { code_lines.Gives (spec.list_special Special.Tail scene.now place values.now draft.old)
        result draft.new }
{
    match values {
        [callee, receiver] => call_with(scene, place, *callee, *receiver, Args::Tail, draft),
        _ => undefined(scene, place, draft),
    }
}

/// `$stop_Fraction` and its like. Nothing reads its value.
#[tactic(auto, unfolding(crate::specs::Specials::list_special))]
fn stop(
    kind: ScopeKind,
    scene: &Scene<'_, '_>,
    place: Place,
    values: &[Reg],
    draft: &mut Draft,
) -> Result<Reg, Memory>
    ensures { code_lines.Gives (spec.list_special (Special.Stop kind) scene.now place values.now
        draft.old) result draft.new }
{
    match values {
        [] => {
            let value = Reg(draft.temporary());
            draft.node(scene.handler, place, Node::Stop { kind })?;
            Ok(value)
        }
        _ => undefined(scene, place, draft),
    }
}

/// An operation of the built-in functions.
#[tactic(auto, unfolding(crate::specs::Specials::list_special))]
fn intrinsic(
    which: u32,
    scene: &Scene<'_, '_>,
    place: Place,
    values: Vec<Reg>,
    draft: &mut Draft,
) -> Result<Reg, Memory>
    ensures { code_lines.Gives (spec.list_special (Special.Intrinsic which) scene.now place
        values.items draft.old) result draft.new }
{
    let dst = draft.fresh()?;
    let args = Seq::from_vec(values);
    draft.node(scene.handler, place, Node::Intrinsic { dst, which, args })?;
    Ok(dst)
}

/// The call of a special form.
pub(crate) fn list_special(
    special: Special,
    scene: &Scene<'_, '_>,
    place: Place,
    values: Vec<Reg>,
    draft: &mut Draft,
) -> Result<Reg, Memory>
    ensures { code_lines.Gives (spec.list_special special scene.now place values.items draft.old)
        result draft.new }
{
    let given = values.as_slice();
    match special {
        Special::Get => get(scene, place, given, draft),
        Special::Put => put(scene, place, given, draft),
        Special::Delete => delete(scene, place, given, draft),
        Special::Has => has(scene, place, given, draft),
        Special::Object => to_object(scene, place, given, draft),
        Special::Text => to_text(scene, place, given, draft),
        Special::Make(kind) => make(kind, scene, place, given, draft),
        Special::Call => call(scene, place, given, draft),
        Special::Spread => spread(scene, place, given, draft),
        Special::Tail => tail(scene, place, given, draft),
        Special::Stop(kind) => stop(kind, scene, place, given, draft),
        Special::Intrinsic(which) => intrinsic(which, scene, place, values, draft),
    }
}
