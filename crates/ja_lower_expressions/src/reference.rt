//! What expressions come to: values, references (ES3 8.7) and special forms.

ghost use Rattle.std.specs.Prelude.{◌≡◌};
ghost use Rattle.ja_lower_draft.specs.code.Lines as lines;
ghost use Rattle.ja_lower_expressions.specs.References as spec;
ghost use Rattle.ja_lower_expressions.specs.code.References as code;

use crate::outcome::Outcome;
use crate::special::{Special, special_of};
use ja_base::{Memory, Place, Reg, Site};
use ja_graph::{Node, Wrappers};
use ja_lower_draft::conversion::{constant, text};
use ja_lower_draft::{Draft, Scene};
use ja_prim::{Primitive, Text16};

/// Reads what an expression comes to (GetValue).
pub(crate) fn get_value(
    scene: &Scene<'_, '_>,
    outcome: Outcome,
    draft: &mut Draft,
) -> Result<Reg, Memory>
    ensures { lines.Gives (spec.get_value scene.now outcome draft.old) result draft.new }
{
    match outcome {
        Outcome::Value(value) => Ok(value),
        Outcome::Name { base, name, place } => {
            let dst = draft.fresh()?;
            let node = Node::ReadRef {
                dst,
                base,
                name,
                error: Site(0),
            };
            draft.node(scene.handler, place, node)?;
            Ok(dst)
        }
        Outcome::Member { object, key, place } => {
            let dst = draft.fresh()?;
            draft.node(scene.handler, place, Node::ReadProp { dst, object, key })?;
            Ok(dst)
        }
        Outcome::Special { place, .. } => constant(scene, place, Primitive::Undefined, draft),
    }
}

/// Writes a register to a reference (PutValue), at the place of the form that writes.
pub fn put_value(
    scene: &Scene<'_, '_>,
    place: Place,
    outcome: Outcome,
    src: Reg,
    draft: &mut Draft,
) -> Result<(), Memory>
    ensures { lines.Adds (spec.put_value scene.now place outcome src draft.old) result draft.new }
{
    match outcome {
        Outcome::Value(_) | Outcome::Special { .. } => Ok(()),
        Outcome::Name { base, name, .. } => {
            draft.node(scene.handler, place, Node::WriteRef { base, name, src })
        }
        Outcome::Member { object, key, .. } => {
            let node = Node::WriteProp {
                object,
                key,
                src,
                error: Site(0),
            };
            draft.node(scene.handler, place, node)
        }
    }
}

/// Adds the object of a value.
pub fn object(
    scene: &Scene<'_, '_>,
    place: Place,
    src: Reg,
    draft: &mut Draft,
) -> Result<Reg, Memory>
    ensures { lines.Gives (spec.with_object scene.now place src draft.old) result draft.new }
{
    let dst = draft.fresh()?;
    let sites = Wrappers {
        boolean: Site(0),
        number: Site(1),
        text: Site(2),
    };
    let node = Node::ToObject {
        dst,
        src,
        sites,
        error: Site(3),
    };
    draft.node(scene.handler, place, node)?;
    Ok(dst)
}

/// The name of a variable.
fn variable(
    scene: &Scene<'_, '_>,
    text: &Text16,
    place: Place,
    draft: &mut Draft,
) -> Result<Outcome, Memory>
    ensures { code.Comes (spec.with_variable text.now place scene.now draft.old) result draft.new }
{
    let name = scene.name(text.units());
    let base = draft.fresh()?;
    draft.node(scene.handler, place, Node::FindName { dst: base, name })?;
    Ok(Outcome::Name { base, name, place })
}

/// The special form of a name, where names may be special forms.
fn special_in(scene: &Scene<'_, '_>, name: &[u16]) -> Option<Special>
    ensures { result ≡ spec.special_in scene.now name.now }
{
    if scene.specials {
        special_of(name)
    } else {
        None
    }
}

/// A name.
#[tactic(auto, unfolding(crate::specs::References::with_name))]
pub fn name(
    scene: &Scene<'_, '_>,
    text: &Text16,
    place: Place,
    draft: &mut Draft,
) -> Result<Outcome, Memory>
    ensures { code.Comes (spec.with_name text.now place scene.now draft.old) result draft.new }
{
    match special_in(scene, text.units()) {
        Some(form) => Ok(Outcome::Special { form, place }),
        None => variable(scene, text, place, draft),
    }
}

/// `.NAME` behind a value.
#[tactic(auto, unfolding(crate::specs::References::with_member))]
pub(crate) fn member(
    scene: &Scene<'_, '_>,
    name: &Text16,
    place: Place,
    src: Reg,
    draft: &mut Draft,
) -> Result<Outcome, Memory>
    ensures { code.Comes (spec.with_member name.now place scene.now src draft.old) result draft.new }
{
    let name = name.copy()?;
    let key = constant(scene, place, Primitive::Text(name), draft)?;
    let object = object(scene, place, src, draft)?;
    Ok(Outcome::Member { object, key, place })
}

/// `[F]` behind a value.
#[tactic(auto, unfolding(crate::specs::References::with_element))]
pub(crate) fn element(
    scene: &Scene<'_, '_>,
    place: Place,
    src: Reg,
    key: Reg,
    draft: &mut Draft,
) -> Result<Outcome, Memory>
    ensures { code.Comes (spec.with_element place scene.now src key draft.old) result draft.new }
{
    let object = object(scene, place, src, draft)?;
    let key = text(scene, place, key, draft)?;
    Ok(Outcome::Member { object, key, place })
}
