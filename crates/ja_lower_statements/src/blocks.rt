//! The blocks of a `try` (ES3 12.14).

ghost use Rattle.std.specs.Prelude.{map};
ghost use Rattle.ja_lower_draft.specs.code.Lines as lines;
ghost use Rattle.ja_lower_statements.specs.code.Standing.{Guards, Keeps, around_of, guarded_at};
ghost use Rattle.ja_lower_statements.specs.Statements as spec;
ghost use Rattle.ja_lower_statements.specs.code.Statements as code;

use crate::around::{Around, first_spot, handled_at, later, nth_spot, with_way};
use crate::statement_list::statements;
use crate::trials::{Guarded, Kept, handler, ways_out};
use crate::way::Way;
use ja_base::{Memory, Place};
use ja_graph::SCOPE;
use ja_lower_draft::conversion::{copy, set};
use ja_lower_draft::{Draft, Template};
use ja_syntax::{Name, Statement};

/// A block whose errors are caught.
#[cycle(statements)]
#[tactic(auto, unfolding(crate::specs::Statements::list_guarded))]
fn guarded(
    block: &[Statement],
    around: &Around<'_, '_, '_>,
    base: u32,
    place: Place,
    draft: &mut Draft,
) -> Result<Guarded, Memory>
    ensures { Guards (spec.list_guarded (map spec.does block.now) place (around_of around.now) base
        draft.old) result draft.new }
{
    let outer = around.scene;
    let first = draft.take_spots(2)?;
    draft.restart(base);
    let saved = copy(outer, place, SCOPE, draft)?;
    let behind = later(base, 1)?;
    let scene = handled_at(outer, first_spot(first));
    let inner = Around {
        scene: &scene,
        ways: around.ways,
        labels: &[],
    };
    statements(&inner, behind, block, draft)?;
    Ok(Guarded { first, saved })
}

/// The handler and the block of a `catch`.
#[cycle(statements)]
#[tactic(auto, unfolding(crate::specs::Statements::list_caught))]
fn caught(
    body: &[Statement],
    parameter: &Name,
    around: &Around<'_, '_, '_>,
    base: u32,
    place: Place,
    guarded: Guarded,
    draft: &mut Draft,
) -> Result<(), Memory>
    ensures { lines.Adds (spec.list_caught parameter.now (map spec.does body.now) place
        (around_of around.now) base (guarded_at guarded draft.old)) result draft.new }
{
    let scene = around.scene;
    handler(parameter, scene, place, guarded, draft)?;
    let behind = later(base, 1)?;
    let ways = with_way(scene.alloc, Way::of_catch(guarded.saved), around.ways)?;
    let inner = Around {
        scene,
        ways: ways.as_slice(),
        labels: &[],
    };
    statements(&inner, behind, body, draft)?;
    set(scene, place, SCOPE, guarded.saved, draft)?;
    let end = nth_spot(guarded.first, 1)?;
    draft.mark(end)
}

/// Lists the block of a `finally` apart, and takes the spots of its `try`.
#[cycle(statements)]
#[tactic(auto, unfolding(crate::specs::Statements::keep_block))]
fn keep(
    block: &[Statement],
    around: &Around<'_, '_, '_>,
    base: u32,
    place: Place,
    draft: &mut Draft,
) -> Result<Kept, Memory>
    ensures { Keeps (spec.keep_block (map spec.does block.now) place (around_of around.now) base
        draft.old) result draft.new }
{
    let scene = around.scene;
    let first = draft.take_spots(4)?;
    draft.restart(base);
    let saved = copy(scene, place, SCOPE, draft)?;
    let inner = later(base, 1)?;
    let spot = draft.spot();
    let mut apart = Draft::new(scene.alloc, inner, spot);
    let unlabelled = around.unlabelled();
    statements(&unlabelled, inner, block, &mut apart)?;
    let template = Template::new(scene.alloc, apart, inner, draft.nodes())?;
    Ok(Kept {
        first,
        saved,
        template,
    })
}

/// A statement, if it is a `try`.
#[cycle(statements)]
#[tactic(auto, using(crate::proofs::StatementLemmas::does_try), unfolding(crate::specs::Statements::list_finally, crate::specs::Statements::list_catch))]
pub(crate) fn trial(
    statement: &Statement,
    around: &Around<'_, '_, '_>,
    base: u32,
    draft: &mut Draft,
) -> Result<(), Memory>
    ensures { lines.Adds (code.does_trial statement.now (around_of around.now) base draft.old)
        result draft.new }
{
    let scene = around.scene;
    match statement {
        Statement::Try {
            block,
            catch,
            finally,
            place,
        } => match finally {
            None => match catch {
                None => statements(around, base, block.as_slice(), draft),
                Some(catch) => {
                    let guarded = guarded(block.as_slice(), around, base, *place, draft)?;
                    caught(
                        catch.body.as_slice(),
                        &catch.parameter,
                        around,
                        base,
                        *place,
                        guarded,
                        draft,
                    )
                }
            },
            Some(finally) => {
                let kept = keep(finally.as_slice(), around, base, *place, draft)?;
                let behind = later(base, 1)?;
                let inside = handled_at(scene, first_spot(kept.first));
                let way = Way::of_finally(kept.saved, &kept.template);
                let ways = with_way(scene.alloc, way, around.ways)?;
                let inner = Around {
                    scene: &inside,
                    ways: ways.as_slice(),
                    labels: &[],
                };
                match catch {
                    None => {
                        statements(&inner, behind, block.as_slice(), draft)?;
                        ways_out(&kept, scene, *place, base, draft)
                    }
                    Some(catch) => {
                        let guarded = guarded(block.as_slice(), &inner, behind, *place, draft)?;
                        caught(
                            catch.body.as_slice(),
                            &catch.parameter,
                            &inner,
                            behind,
                            *place,
                            guarded,
                            draft,
                        )?;
                        ways_out(&kept, scene, *place, base, draft)
                    }
                }
            }
        },
        _ => Ok(()),
    }
}
