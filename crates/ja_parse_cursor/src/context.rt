//! What stands around a statement (ES3 12.6 to 12.12, 13).

ghost use Rattle.std.specs.Prelude.{◌≡◌, ◌<◌, ◌∷◌, ◌&&◌, false, IfOk, map};
ghost use Rattle.std.specs.Str.{bytes_eq};
ghost use Rattle.std.specs.List.{list_any};
ghost use Rattle.ja_grammar.specs.Contexts as spec;
ghost use Rattle.ja_parse_cursor.specs.code.Marks as marks;
ghost use Rattle.ja_grammar.specs.code.Contexts.{context_of, label_of};

use ja_grammar::{Context, Label};
use std::alloc::{AllocError, Global};

/// Around the statements of the program.
pub fn program_context<'a>(alloc: Global) -> Context<'a>
    ensures { context_of result ≡ spec.program_context }
{
    Context {
        in_function: false,
        in_loop: false,
        in_breakable: false,
        labels: Vec::new(alloc),
    }
}

/// Around the statements of a function's body.
pub fn function_context<'a>(alloc: Global) -> Context<'a>
    ensures { context_of result ≡ spec.function_context }
{
    Context {
        in_function: true,
        in_loop: false,
        in_breakable: false,
        labels: Vec::new(alloc),
    }
}

/// This label, as that of a loop unless `left` is 0.
fn mark<'a>(label: &Label<'a>, left: usize) -> Label<'a>
    ensures { label_of result ≡ marks.marked_one left (label_of label.now) }
{
    Label {
        name: label.name,
        is_loop: if left == 0 { label.is_loop } else { true },
    }
}

/// These labels, of which the innermost `count` are those of a loop.

fn marked<'a>(
    alloc: Global,
    labels: &[Label<'a>],
    count: usize,
) -> Result<Vec<Label<'a>>, AllocError>
    ensures { IfOk result (λ copy. map label_of copy.items
        ≡ spec.marked count (map label_of labels.now)) }
{
    let mut copy = Vec::new(alloc);
    let mut left = count;
    for label in labels {
        copy.push(mark(label, left))?;
        left = left.saturating_sub(1);
    }
    Ok(copy)
}

/// Around the body of a loop that `count` labels stand directly before.
pub fn loop_context<'a>(
    alloc: Global,
    context: &Context<'a>,
    count: usize,
) -> Result<Context<'a>, AllocError>
    ensures { IfOk result (λ c. context_of c ≡ spec.loop_context (context_of context.now) count) }
{
    Ok(Context {
        in_function: context.in_function,
        in_loop: true,
        in_breakable: true,
        labels: marked(alloc, context.labels.as_slice(), count)?,
    })
}

/// Around the clauses of a `switch`.
pub fn switch_context<'a>(alloc: Global, context: &Context<'a>) -> Result<Context<'a>, AllocError>
    ensures { IfOk result (λ c. context_of c ≡ spec.switch_context (context_of context.now)) }
{
    Ok(Context {
        in_function: context.in_function,
        in_loop: context.in_loop,
        in_breakable: true,
        labels: Vec::from_slice(alloc, context.labels.as_slice())?,
    })
}

/// These labels behind one of this name, that of no loop.
fn labels_behind<'a>(
    alloc: Global,
    labels: &[Label<'a>],
    name: &'a [u16],
) -> Result<Vec<Label<'a>>, AllocError>
    ensures { IfOk result (λ copy. map label_of copy.items
        ≡ (record { name = name.now; is_loop = false }) ∷ map label_of labels.now) }
{
    let mut copy = Vec::new(alloc);
    copy.push(Label {
        name,
        is_loop: false,
    })?;
    copy.extend_from_slice(labels)?;
    Ok(copy)
}

/// Around a labelled statement.
pub fn labelled_context<'a>(
    alloc: Global,
    context: &Context<'a>,
    name: &'a [u16],
) -> Result<Context<'a>, AllocError>
    ensures { IfOk result (λ c. context_of c
        ≡ spec.labelled_context (context_of context.now) name.now) }
{
    Ok(Context {
        in_function: context.in_function,
        in_loop: context.in_loop,
        in_breakable: context.in_breakable,
        labels: labels_behind(alloc, context.labels.as_slice(), name)?,
    })
}

fn names_label(labels: &[Label<'_>], name: &[u16]) -> bool
    ensures { result ≡ list_any (λ l. bytes_eq l.name name.now) (map label_of labels.now) }
{
    for label in labels {
        if label.name == name {
            return true;
        }
    }
    false
}

fn names_loop(labels: &[Label<'_>], name: &[u16]) -> bool
    ensures { result ≡ list_any (λ l. l.is_loop && bytes_eq l.name name.now)
        (map label_of labels.now) }
{
    for label in labels {
        if label.is_loop && label.name == name {
            return true;
        }
    }
    false
}

/// Whether there is a label of this name.
#[tactic(auto, unfolding(ja_grammar::specs::Contexts::has_label))]
pub fn has_label(context: &Context<'_>, name: &[u16]) -> bool
    ensures { result ≡ spec.has_label (context_of context.now) name.now }
{
    names_label(context.labels.as_slice(), name)
}

/// Whether there is a loop with a label of this name.
#[tactic(auto, unfolding(ja_grammar::specs::Contexts::has_loop))]
pub fn has_loop(context: &Context<'_>, name: &[u16]) -> bool
    ensures { result ≡ spec.has_loop (context_of context.now) name.now }
{
    names_loop(context.labels.as_slice(), name)
}

/// Whether a `break` may stand there (12.8).
pub fn may_break(context: &Context<'_>) -> bool
    ensures { result ≡ spec.may_break (context_of context.now) }
{
    context.in_breakable || !context.labels.is_empty()
}
