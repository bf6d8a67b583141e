//! `if`, labels and `switch` (ES3 12.5, 12.11, 12.12).

ghost use Rattle.std.specs.Prelude.{map};
ghost use Rattle.ja_lower_expressions.specs.Expressions.{form};
ghost use Rattle.ja_lower_draft.specs.code.Lines as lines;
ghost use Rattle.ja_lower_statements.specs.code.Standing.{around_of};
ghost use Rattle.ja_lower_statements.specs.Statements as spec;
ghost use Rattle.ja_lower_statements.specs.code.Statements as code;

use crate::around::{Around, first_spot, later, two_spots, with_label, with_way};
use crate::clauses::{default_spot, spots_of, tests};
use crate::statement_list::{statement, statements};
use crate::statement_parts::branch_on;
use crate::way::Way;
use ja_base::{Memory, Place};
use ja_lower_draft::Draft;
use ja_lower_expressions::value;
use ja_lower_listing::Spot;
use ja_syntax::{Case, Expression, Name, Statement};

/// `if` without `else` (12.5).
#[cycle(statements)]
#[tactic(auto, unfolding(crate::specs::Statements::list_if_alone))]
pub(crate) fn if_alone(
    then: &Statement,
    condition: &Expression,
    around: &Around<'_, '_, '_>,
    base: u32,
    place: Place,
    draft: &mut Draft,
) -> Result<(), Memory>
    ensures { lines.Adds (spec.list_if_alone (form condition.now) (spec.does then.now) place
        (around_of around.now) base draft.old) result draft.new }
{
    let inner = around.unlabelled();
    draft.restart(base);
    let first = branch_on(condition, 1, around.scene, place, draft)?;
    statement(&inner, base, then, draft)?;
    draft.mark(first_spot(first))
}

/// `if` up to its `else` (12.5). Gives the first of its spots.
#[cycle(statements)]
#[tactic(auto, unfolding(crate::specs::Statements::list_then))]
pub(crate) fn if_then(
    then: &Statement,
    condition: &Expression,
    around: &Around<'_, '_, '_>,
    base: u32,
    place: Place,
    draft: &mut Draft,
) -> Result<u32, Memory>
    ensures { code.Spots (spec.list_then (form condition.now) (spec.does then.now) place
        (around_of around.now) base draft.old) result draft.new }
{
    let inner = around.unlabelled();
    draft.restart(base);
    let first = branch_on(condition, 2, around.scene, place, draft)?;
    statement(&inner, base, then, draft)?;
    Ok(first)
}

/// `if` from its `else` on (12.5).
#[cycle(statements)]
#[tactic(auto, unfolding(crate::specs::Statements::list_else))]
pub(crate) fn if_else(
    otherwise: &Statement,
    first: u32,
    around: &Around<'_, '_, '_>,
    base: u32,
    draft: &mut Draft,
) -> Result<(), Memory>
    ensures { lines.Adds (spec.list_else (spec.does otherwise.now) (around_of around.now) base
        (record { listing = draft.old; first = first })) result draft.new }
{
    let inner = around.unlabelled();
    let (other, end) = two_spots(first)?;
    draft.jump(end)?;
    draft.mark(other)?;
    statement(&inner, base, otherwise, draft)?;
    draft.mark(end)
}

/// A statement of a label (12.12).
#[cycle(statements)]
#[tactic(auto, unfolding(crate::specs::Statements::list_labelled))]
pub(crate) fn labelled(
    body: &Statement,
    label: &Name,
    around: &Around<'_, '_, '_>,
    base: u32,
    draft: &mut Draft,
) -> Result<(), Memory>
    ensures { lines.Adds (spec.list_labelled label.now (spec.does body.now) (around_of around.now)
        base draft.old) result draft.new }
{
    let scene = around.scene;
    let first = draft.take_spots(1)?;
    let end = first_spot(first);
    let text = label.text.units();
    let ways = with_way(scene.alloc, Way::of_label(text, end), around.ways)?;
    let labels = with_label(scene.alloc, text, around.labels)?;
    let inner = Around {
        scene,
        ways: ways.as_slice(),
        labels: labels.as_slice(),
    };
    statement(&inner, base, body, draft)?;
    draft.mark(end)
}

/// The bodies of clauses, whose spots are numbered from `first` on.
#[cycle(statements)]
#[tactic(auto, using(crate::proofs::StatementLemmas::body_of), unfolding(crate::specs::Statements::list_bodies))]
fn bodies(
    cases: &[Case],
    around: &Around<'_, '_, '_>,
    base: u32,
    first: u32,
    draft: &mut Draft,
) -> Result<(), Memory>
    ensures { lines.Adds (spec.list_bodies (map code.clause_of cases.now) (around_of around.now)
        base first draft.old) result draft.new }
{
    let mut number = first;
    for case in cases {
        draft.mark(Spot(number))?;
        statements(around, base, case.body.as_slice(), draft)?;
        number = later(number, 1)?;
    }
    Ok(())
}

/// `switch` (12.11): the tests in the order of the text, then the bodies.
#[cycle(statements)]
#[tactic(auto, unfolding(crate::specs::Statements::list_switch))]
pub(crate) fn switch(
    cases: &[Case],
    subject: &Expression,
    around: &Around<'_, '_, '_>,
    base: u32,
    place: Place,
    draft: &mut Draft,
) -> Result<(), Memory>
    ensures { lines.Adds (spec.list_switch (form subject.now) (map code.clause_of cases.now) place
        (around_of around.now) base draft.old) result draft.new }
{
    let scene = around.scene;
    draft.restart(base);
    let switched = value(scene, subject, draft)?;
    let count = spots_of(cases)?;
    let own = draft.take_spots(count)?;
    let end = first_spot(own);
    let first = later(own, 1)?;
    tests(cases, scene, place, switched, first, draft)?;
    let other = default_spot(cases, first, end)?;
    draft.jump(other)?;
    let ways = with_way(scene.alloc, Way::of_switch(end), around.ways)?;
    let inner = Around {
        scene,
        ways: ways.as_slice(),
        labels: &[],
    };
    let behind = later(switched.0, 1)?;
    bodies(cases, &inner, behind, first, draft)?;
    draft.mark(end)
}
