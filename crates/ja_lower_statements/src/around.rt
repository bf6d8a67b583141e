//! What is around a statement.

ghost use Rattle.std.specs.Prelude.{◌≡◌, ◌+◌, ◌∷◌, map, IfOk, OnOk, Some};
ghost use Rattle.ja_lower_draft.specs.Lines as lines;
ghost use Rattle.ja_lower_statements.specs.Statements as spec;
ghost use Rattle.ja_lower_statements.specs.code.Standing.{around_of, way_of};

use crate::way::Way;
use ja_base::Memory;
use ja_lower_draft::{Draft, Scene};
use ja_lower_listing::Spot;
use std::alloc::Global;

/// What is around a statement: the scene, the ways that its jumps leave, the innermost first, and
/// the labels right before it.
#[derive(Clone, Copy)]
pub struct Around<'s, 't, 'a> {
    pub scene: &'a Scene<'s, 't>,
    pub ways: &'a [Way<'a>],
    pub labels: &'a [&'a [u16]],
}

impl<'s, 't, 'a> Around<'s, 't, 'a> {
    /// The same without labels.
    pub fn unlabelled(&self) -> Around<'s, 't, 'a>
        ensures { around_of result ≡ spec.unlabelled (around_of self.now) }
    {
        Around {
            scene: self.scene,
            ways: self.ways,
            labels: &[],
        }
    }
}

/// A way, and those around it.
pub(crate) fn with_way<'a>(
    alloc: Global,
    way: Way<'a>,
    ways: &[Way<'a>],
) -> Result<Vec<Way<'a>>, Memory>
    ensures { IfOk result (λ all. map way_of all.items ≡ way_of way.entry ∷ map way_of ways.now) }
{
    let mut all = Vec::new(alloc);
    all.push(way)?;
    all.extend_from_slice(ways)?;
    Ok(all)
}

/// A label, and those before it.
pub(crate) fn with_label<'a>(
    alloc: Global,
    label: &'a [u16],
    labels: &[&'a [u16]],
) -> Result<Vec<&'a [u16]>, Memory>
    ensures { IfOk result (λ all. map (λ t. t.now) all.items ≡ label.now
        ∷ map (λ t. t.now) labels.now) }
{
    let mut all = Vec::new(alloc);
    all.push(label)?;
    all.extend_from_slice(labels)?;
    Ok(all)
}

/// The scene, where what is thrown goes to a handler.
pub(crate) fn handled_at<'a, 't>(scene: &Scene<'a, 't>, handler: Spot) -> Scene<'a, 't>
    ensures { result ≡ record scene.now { handler = Some handler } }
{
    Scene {
        alloc: scene.alloc,
        names: scene.names,
        functions: scene.functions,
        handler: Some(handler),
        specials: scene.specials,
    }
}

/// The first of the spots that a statement has taken.
pub(crate) fn first_spot(first: u32) -> Spot
    ensures { result ≡ spec.nth_spot first 0 }
{
    Spot(first)
}

/// One of the spots that a statement has taken. Past the last number memory counts as refused.
pub(crate) fn nth_spot(first: u32, index: u32) -> Result<Spot, Memory>
    ensures { IfOk result (λ spot. spot ≡ spec.nth_spot first index) }
{
    match first.checked_add(index) {
        Some(number) => Ok(Spot(number)),
        None => Err(Memory),
    }
}

/// The first two of the spots that a statement has taken. Past the last number memory counts as
/// refused.
pub(crate) fn two_spots(first: u32) -> Result<(Spot, Spot), Memory>
    ensures { IfOk result (λ spots. spots ≡ (spec.nth_spot first 0, spec.nth_spot first 1)) }
{
    match first.checked_add(1) {
        Some(second) => Ok((Spot(first), Spot(second))),
        None => Err(Memory),
    }
}

/// The four of the spots that a statement has taken. Past the last number memory counts as refused.
pub(crate) fn four_spots(first: u32) -> Result<(Spot, Spot, Spot, Spot), Memory>
    ensures { IfOk result (λ spots. spots ≡ (
      spec.nth_spot first 0,
      spec.nth_spot first 1,
      spec.nth_spot first 2,
      spec.nth_spot first 3,
    )) }
{
    match first.checked_add(3) {
        Some(fourth) => Ok((Spot(first), Spot(first + 1), Spot(first + 2), Spot(fourth))),
        None => Err(Memory),
    }
}

/// Takes two spots. Past the last number memory counts as refused.
pub(crate) fn take_two(draft: &mut Draft) -> Result<(Spot, Spot), Memory>
    ensures spots { IfOk result (λ spots. spots
        ≡ (lines.spot_of draft.old 0, lines.spot_of draft.old 1)) }
    ensures next { OnOk result (draft.new ≡ lines.behind_spots 2 draft.old) }
{
    let first = draft.take_spots(2)?;
    two_spots(first)
}

/// Takes three spots. Past the last number memory counts as refused.
pub(crate) fn take_three(draft: &mut Draft) -> Result<(Spot, Spot, Spot), Memory>
    ensures spots { IfOk result (λ spots. spots
        ≡ (lines.spot_of draft.old 0, lines.spot_of draft.old 1, lines.spot_of draft.old 2)) }
    ensures next { OnOk result (draft.new ≡ lines.behind_spots 3 draft.old) }
{
    let first = draft.take_spots(3)?;
    match first.checked_add(2) {
        Some(third) => Ok((Spot(first), Spot(first + 1), Spot(third))),
        None => Err(Memory),
    }
}

/// The register this many behind another one. Past the last number memory counts as refused.
pub(crate) fn later(base: u32, by: u32) -> Result<u32, Memory>
    ensures { IfOk result (λ register. register ≡ base + by) }
{
    match base.checked_add(by) {
        Some(number) => Ok(number),
        None => Err(Memory),
    }
}
