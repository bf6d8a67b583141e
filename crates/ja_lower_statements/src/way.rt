//! The ways out of a statement (ES3 12.7 to 12.9).

ghost use Rattle.std.specs.Prelude.{◌≡◌, [], None, map};
ghost use Rattle.std.specs.List.{list_any};
ghost use Rattle.std.specs.Str.{bytes_eq};
ghost use Rattle.ja_lower_draft.specs.code.Lines as lines;
ghost use Rattle.ja_lower_statements.specs.Ways as spec;
ghost use Rattle.ja_lower_statements.specs.code.Standing.{step_of, target_of, way_of, Leaves};
ghost use Rattle.ja_lower_statements.specs.Statements.{label_text};

use ja_base::{Memory, Place, Reg};
use ja_graph::SCOPE;
use ja_lower_draft::conversion::set;
use ja_lower_draft::{Draft, Scene, Template};
use ja_lower_listing::Spot;
use ja_syntax::Name;

/// What a jump comes to on its way out of a statement.
#[derive(Clone, Copy)]
pub enum Step {
    /// A loop: `break` goes to its end, `continue` to its next turn.
    Loop { end: Spot, turn: Spot },
    /// A `switch`.
    Switch { end: Spot },
    /// A statement of a label.
    Label { end: Spot },
    /// The block of a `catch`, whose `try` kept the scope chain in a register.
    Catch { saved: Reg },
    /// The block of a `try` with a `finally`, whose `try` kept the scope chain in a register.
    Finally { saved: Reg },
}

/// What a jump leaves on its way out of a statement, with the labels of a loop, the text of a
/// label, or the block of a `finally`.
#[derive(Clone, Copy)]
pub struct Way<'a> {
    step: Step,
    labels: &'a [&'a [u16]],
    text: &'a [u16],
    block: Option<&'a Template>,
}

impl<'a> Way<'a> {
    fn plain(step: Step) -> Way<'a>
        ensures { way_of result ≡ step_of step [] [] None }
    {
        Way {
            step,
            labels: &[],
            text: &[],
            block: None,
        }
    }

    /// A loop of these labels.
    pub fn of_loop(labels: &'a [&'a [u16]], end: Spot, turn: Spot) -> Way<'a>
        ensures { way_of result ≡ spec.of_loop (map (λ t. t.now) labels.now) end turn }
    {
        Way {
            step: Step::Loop { end, turn },
            labels,
            text: &[],
            block: None,
        }
    }

    /// A `switch`.
    pub fn of_switch(end: Spot) -> Way<'a>
        ensures { way_of result ≡ spec.of_switch end }
    {
        Way::plain(Step::Switch { end })
    }

    /// A statement of a label.
    pub fn of_label(text: &'a [u16], end: Spot) -> Way<'a>
        ensures { way_of result ≡ spec.of_label text.now end }
    {
        Way {
            step: Step::Label { end },
            labels: &[],
            text,
            block: None,
        }
    }

    /// The block of a `catch`.
    pub fn of_catch(saved: Reg) -> Way<'a>
        ensures { way_of result ≡ spec.of_catch saved }
    {
        Way::plain(Step::Catch { saved })
    }

    /// The block of a `try` with a `finally`.
    pub fn of_finally(saved: Reg, block: &'a Template) -> Way<'a>
        ensures { way_of result ≡ spec.of_finally saved block.now }
    {
        Way {
            step: Step::Finally { saved },
            labels: &[],
            text: &[],
            block: Some(block),
        }
    }
}

/// Whether a label is one of these.
fn is_among(label: &[u16], labels: &[&[u16]]) -> bool
    ensures { result ≡ list_any (bytes_eq label.now) (map (λ t. t.now) labels.now) }
{
    for other in labels {
        if label == *other {
            return true;
        }
    }
    false
}

/// Where `break` goes, if it is to this way.
fn break_target(label: &Option<Name>, way: &Way<'_>) -> Option<Spot>
    ensures { result ≡ spec.break_target (label_text label.now) (way_of way.now) }
{
    match label {
        None => match way.step {
            Step::Loop { end, .. } => Some(end),
            Step::Switch { end } => Some(end),
            Step::Label { .. } | Step::Catch { .. } | Step::Finally { .. } => None,
        },
        Some(label) => match way.step {
            Step::Label { end } => {
                if way.text == label.text.units() {
                    Some(end)
                } else {
                    None
                }
            }
            Step::Loop { .. } | Step::Switch { .. } | Step::Catch { .. } | Step::Finally { .. } =>
                None,
        },
    }
}

/// Where `continue` goes, if it is to this way.
fn continue_target(label: &Option<Name>, way: &Way<'_>) -> Option<Spot>
    ensures { result ≡ spec.continue_target (label_text label.now) (way_of way.now) }
{
    match label {
        None => match way.step {
            Step::Loop { turn, .. } => Some(turn),
            Step::Switch { .. } | Step::Label { .. } | Step::Catch { .. } | Step::Finally { .. } =>
                None,
        },
        Some(label) => match way.step {
            Step::Loop { turn, .. } => {
                if is_among(label.text.units(), way.labels) {
                    Some(turn)
                } else {
                    None
                }
            }
            Step::Switch { .. } | Step::Label { .. } | Step::Catch { .. } | Step::Finally { .. } =>
                None,
        },
    }
}

/// A statement that goes on elsewhere (12.7, 12.8).
#[derive(Clone, Copy)]
pub enum Jump {
    Break,
    Continue,
}

impl Jump {
    /// Where it goes, if it is to this way.
    fn target(self, label: &Option<Name>, way: &Way<'_>) -> Option<Spot>
        ensures { result ≡ target_of self (label_text label.now) (way_of way.now) }
    {
        match self {
            Jump::Break => break_target(label, way),
            Jump::Continue => continue_target(label, way),
        }
    }
}

/// Sets the scope chain to the register, if another one is in force.
fn set_scope(
    scene: &Scene<'_, '_>,
    place: Place,
    kept: Option<Reg>,
    saved: Reg,
    draft: &mut Draft,
) -> Result<(), Memory>
    ensures { lines.Adds (spec.with_scope scene.now place kept saved draft.old) result draft.new }
{
    match kept {
        None => Ok(()),
        Some(_) => set(scene, place, SCOPE, saved, draft),
    }
}

/// Leaves the block of a `try` with a `finally`, whose block is copied.
fn leave_finally(
    scene: &Scene<'_, '_>,
    place: Place,
    value: Option<Reg>,
    saved: Reg,
    block: &Template,
    kept: Option<Reg>,
    draft: &mut Draft,
) -> Result<Option<Reg>, Memory>
    ensures { Leaves (spec.leave scene.now place value (spec.of_finally saved block.now)
        (record { listing = draft.old; kept = kept })) result draft.new }
{
    set_scope(scene, place, kept, saved, draft)?;
    draft.block(block, value.unwrap_or(saved))?;
    Ok(None)
}

/// Leaves a way, with a value that is returned if there is one: the block of a `finally` is copied.
/// Tells which register keeps the scope chain that is to be in force, if another one is.
fn leave(
    scene: &Scene<'_, '_>,
    place: Place,
    value: Option<Reg>,
    way: &Way<'_>,
    kept: Option<Reg>,
    draft: &mut Draft,
) -> Result<Option<Reg>, Memory>
    ensures { Leaves (spec.leave scene.now place value (way_of way.now)
        (record { listing = draft.old; kept = kept })) result draft.new }
{
    match way.step {
        Step::Catch { saved } => Ok(Some(saved)),
        Step::Finally { saved } => match way.block {
            Some(block) => leave_finally(scene, place, value, saved, block, kept, draft),
            None => Ok(Some(saved)),
        },
        Step::Loop { .. } | Step::Switch { .. } | Step::Label { .. } => Ok(kept),
    }
}

/// Goes to the target of a jump, with the scope chain set if another one is in force.
fn arrive(
    scene: &Scene<'_, '_>,
    place: Place,
    kept: Option<Reg>,
    target: Spot,
    draft: &mut Draft,
) -> Result<(), Memory>
    ensures { lines.Adds (spec.arrive scene.now place (record { listing = draft.old; kept = kept })
        target) result draft.new }
{
    if let Some(kept) = kept {
        set(scene, place, SCOPE, kept, draft)?;
    }
    draft.jump(target)
}

/// Lists a `break` or a `continue` out of these ways, the innermost first (12.7, 12.8).
#[tactic(auto, unfolding(crate::specs::Ways::jump_to))]
pub(crate) fn jump_out(
    scene: &Scene<'_, '_>,
    place: Place,
    jump: Jump,
    label: &Option<Name>,
    ways: &[Way<'_>],
    draft: &mut Draft,
) -> Result<(), Memory>
    ensures { lines.Adds (spec.jump_to scene.now place (target_of jump (label_text label.now))
        (map way_of ways.now) (spec.leaving draft.old)) result draft.new }
{
    let mut kept = None;
    for way in ways {
        if let Some(target) = jump.target(label, way) {
            return arrive(scene, place, kept, target, draft);
        }
        kept = leave(scene, place, None, way, kept, draft)?;
    }
    Ok(())
}

/// Leaves all these ways, the innermost first, with a value that is returned (12.9).
#[tactic(auto, unfolding(crate::specs::Ways::leave_all))]
pub(crate) fn leave_all(
    scene: &Scene<'_, '_>,
    place: Place,
    value: Reg,
    ways: &[Way<'_>],
    draft: &mut Draft,
) -> Result<(), Memory>
    ensures { lines.Adds (spec.leave_all scene.now place value (map way_of ways.now)
        (spec.leaving draft.old)) result draft.new }
{
    let mut kept = None;
    for way in ways {
        kept = leave(scene, place, Some(value), way, kept, draft)?;
    }
    Ok(())
}
