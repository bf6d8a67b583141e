//! The labels behind jumps, and the `:` behind a label (ES3 12.7, 12.8, 12.12).

ghost use Rattle.std.specs.Prelude.{◌≡◌, ℕ, true};
ghost use Rattle.ja_grammar.specs.code.Contexts.{context_of};
ghost use Rattle.ja_grammar.specs.Contexts as contexts;
ghost use Rattle.ja_grammar.specs.Input.{head, behind, strict};
ghost use Rattle.ja_grammar.specs.code.Input.{Follows};
ghost use Rattle.ja_grammar.specs.ReadStatement as spec;
ghost use Rattle.ja_grammar.specs.ReadStatement.{below};
ghost use Rattle.ja_parse_cursor.specs.code.Taking.{Takes};

use crate::context::{has_label, has_loop};
use crate::cursor::Cursor;
use crate::operator::is_label_behind;
use ja_base::Place;
use ja_grammar::{Context, Refusal, Stop};
use ja_syntax::Name;
use std::alloc::Global;

/// Takes the label behind the jump at `place`, if it is `allowed`; one that is only `known` breaks
/// a rule.
#[tactic(auto, unfolding(ja_grammar::specs::Input::strict))]
fn allowed_label(
    alloc: Global,
    cursor: &mut Cursor<'_>,
    allowed: bool,
    known: bool,
    place: Place,
) -> Result<Option<Name>, Stop>
    ensures { (depth : ℕ) → Follows (spec.labelled_by (strict depth) place (head cursor.old) allowed
        known cursor.old) result cursor.new }
{
    if allowed {
        let name = cursor.name(alloc)?;
        cursor.take();
        return Ok(Some(name));
    }
    if known {
        Err(Stop::Refused(Refusal::Broken(place)))
    } else {
        Err(Stop::Refused(Refusal::Unexpected))
    }
}

/// Reads the label behind the `continue` at `place`, if there is one on its line (12.7). A label of
/// no loop is refused as `Broken` at `place`, and one that is unknown as `Unexpected`.
#[tactic(auto, unfolding(ja_grammar::specs::ReadStatement::jump_target))]
pub fn continue_target(
    alloc: Global,
    cursor: &mut Cursor<'_>,
    context: &Context<'_>,
    place: Place,
) -> Result<Option<Name>, Stop>
    ensures { (depth : ℕ) → Follows (spec.jump_target (strict depth)
        (contexts.has_loop (context_of context.now)) (contexts.has_label (context_of context.now))
        true place cursor.old) result cursor.new }
{
    if !is_label_behind(cursor) {
        return Ok(None);
    }
    let word = cursor.word();
    let allowed = has_loop(context, word);
    let known = has_label(context, word);
    allowed_label(alloc, cursor, allowed, known, place)
}

/// Reads the label behind the `break` at `place`, if there is one on its line (12.8). One that is
/// unknown is refused as `Unexpected`; where there is none, and nothing to leave without one,
/// `Alone` at `place` is the refusal.
#[tactic(auto, unfolding(ja_grammar::specs::ReadStatement::jump_target))]
pub fn break_target(
    alloc: Global,
    cursor: &mut Cursor<'_>,
    context: &Context<'_>,
    place: Place,
) -> Result<Option<Name>, Stop>
    ensures { (depth : ℕ) → Follows (spec.jump_target (strict depth)
        (contexts.has_label (context_of context.now)) (contexts.has_label (context_of context.now))
        context.now.in_breakable place cursor.old) result cursor.new }
{
    if !is_label_behind(cursor) {
        return if context.in_breakable {
            Ok(None)
        } else {
            Err(Stop::Refused(Refusal::Alone(place)))
        };
    }
    let known = has_label(context, cursor.word());
    allowed_label(alloc, cursor, known, known, place)
}

/// Why the word of a jump is refused where there is nothing to leave (12.7, 12.8): `UnknownLabel`
/// where a label follows on its line that is none around, at that label's place, and else
/// `Unexpected`.
#[tactic(auto, unfolding(ja_grammar::specs::ReadStatement::without_target))]
pub fn without_target(cursor: &Cursor<'_>, context: &Context<'_>) -> Refusal
    ensures { result ≡ spec.without_target (context_of context.now) (head (behind cursor.now)) }
{
    let label = cursor.behind();
    if is_label_behind(&label) && !has_label(context, label.word()) {
        Refusal::UnknownLabel(label.place())
    } else {
        Refusal::Unexpected
    }
}

/// Takes the `:` behind the label at `place`, which counts. Where no level is left, that is refused
/// as `DeepLabel` at `place`.
#[tactic(auto, unfolding(ja_grammar::specs::ReadStatement::enter_label, ja_grammar::specs::Input::strict))]
fn enter_label(cursor: &mut Cursor<'_>, depth: usize, place: Place) -> Result<(), Stop>
    ensures { Takes (spec.enter_label (strict depth) place cursor.old) cursor.old result cursor.new }
{
    if depth == 0 {
        return Err(Stop::Refused(Refusal::DeepLabel(place)));
    }
    cursor.take();
    Ok(())
}

/// Takes a label and its `:` (12.12), which counts, where `depth` levels are left. A label that is
/// around already is refused as `Broken` at its place; where no level is left, it is `DeepLabel`
/// there.
#[tactic(auto, unfolding(ja_grammar::specs::ReadStatement::label))]
pub fn label(cursor: &mut Cursor<'_>, depth: usize, context: &Context<'_>) -> Result<(), Stop>
    ensures { Takes (spec.label (strict depth) (below strict depth) (context_of context.now)
        cursor.old) cursor.old result cursor.new }
{
    let place = cursor.place();
    let word = cursor.word();
    cursor.take();
    if has_label(context, word) {
        return Err(Stop::Refused(Refusal::Broken(place)));
    }
    enter_label(cursor, depth, place)
}
