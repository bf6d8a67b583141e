//! What is listed of a `switch` beside the statements in it (ES3 12.11).

ghost use Rattle.std.specs.Prelude.{◌≡◌, ◌+◌, map, IfOk};
ghost use Rattle.ja_lower_draft.specs.code.Lines as lines;
ghost use Rattle.ja_lower_statements.specs.Statements as spec;
ghost use Rattle.ja_lower_statements.specs.code.Statements as code;

use crate::around::{first_spot, later};
use crate::statement_parts::branch;
use ja_base::{Memory, Place, Reg};
use ja_graph::{BinaryOp, Node};
use ja_lower_draft::{Draft, Scene};
use ja_lower_expressions::value;
use ja_lower_listing::Spot;
use ja_syntax::Case;

/// One more than there are clauses. Past the last number memory counts as refused.
pub(crate) fn spots_of(cases: &[Case]) -> Result<u32, Memory>
    ensures { IfOk result (λ n. n ≡ 1 + spec.count (map code.clause_of cases.now)) }
{
    let mut number = 1;
    for _case in cases {
        number = later(number, 1)?;
    }
    Ok(number)
}

/// A test goes to the spot of the clause's body, if the value is equal to it.
pub(crate) fn test(
    case: &Case,
    scene: &Scene<'_, '_>,
    place: Place,
    switched: Reg,
    body: Spot,
    draft: &mut Draft,
) -> Result<(), Memory>
    ensures { lines.Adds (spec.list_test (code.clause_of case.now).test scene.now place switched
        body draft.old) result draft.new }
{
    match &case.test {
        None => Ok(()),
        Some(test) => {
            let b = value(scene, test, draft)?;
            let dst = draft.fresh()?;
            let node = Node::Binary {
                dst,
                op: BinaryOp::StrictEq,
                a: switched,
                b,
            };
            draft.node(scene.handler, place, node)?;
            let first = draft.take_spots(1)?;
            let next = first_spot(first);
            branch(scene, place, Node::Branch { src: dst }, next, draft)?;
            draft.jump(body)?;
            draft.mark(next)
        }
    }
}

/// The tests of clauses whose bodies have spots from a number on.
#[tactic(auto, unfolding(crate::specs::Statements::list_tests))]
pub(crate) fn tests(
    cases: &[Case],
    scene: &Scene<'_, '_>,
    place: Place,
    switched: Reg,
    first: u32,
    draft: &mut Draft,
) -> Result<(), Memory>
    ensures { lines.Adds (spec.list_tests (map code.clause_of cases.now) scene.now place switched
        first draft.old) result draft.new }
{
    let mut number = first;
    for case in cases {
        test(case, scene, place, switched, Spot(number), draft)?;
        number = later(number, 1)?;
    }
    Ok(())
}

/// The spot of `default`, or of the end.
#[tactic(auto, unfolding(crate::specs::Statements::default_spot))]
pub(crate) fn default_spot(cases: &[Case], first: u32, end: Spot) -> Result<Spot, Memory>
    ensures { IfOk result (λ spot. spot ≡ spec.default_spot (map code.clause_of cases.now) first
        end) }
{
    let mut number = first;
    for case in cases {
        match &case.test {
            None => return Ok(Spot(number)),
            Some(_) => {
                number = later(number, 1)?;
            }
        }
    }
    Ok(end)
}
