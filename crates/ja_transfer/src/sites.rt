//! What the program says of the site of a label.

ghost use Rattle.std.specs.Prelude.{◌≡◌, not, is_some};
ghost use Rattle.std.specs.List.{list_any};
ghost use Rattle.ja_abstract.specs.Values.{is_function_label};
ghost use Rattle.ja_rows.specs.Edges.{is_activation_label};
ghost use Rattle.ja_transfer.specs.code.Callees.{entry_by};

use ja_astate::class_at;
use ja_base::{FnId, Label};
use ja_graph::{Class, Program};

/// How objects run a function: where they are called, or where they construct.
#[derive(Clone, Copy)]
pub enum Entry {
    Call,
    Construct,
}

/// The function that the objects of a label run, if they run one.
pub fn entry_at(program: &Program, entry: Entry, label: Label) -> Option<FnId>
    ensures { result ≡ entry_by entry program.now label }
{
    match program.sites.as_slice().get(label.site.0 as usize) {
        Some(site) => match entry {
            Entry::Call => site.calls,
            Entry::Construct => site.constructs,
        },
        None => None,
    }
}

/// Whether the objects of a label are activations.
pub(crate) fn is_activation(program: &Program, label: Label) -> bool
    ensures { result ≡ is_activation_label program.now label }
{
    matches!(class_at(program, label), Class::Activation)
}

/// Whether one of some labels has activations.
pub(crate) fn some_activation(program: &Program, labels: &[Label]) -> bool
    ensures { result ≡ list_any (is_activation_label program.now) labels.now }
{
    labels.iter().any(|label| is_activation(program, *label))
}

/// Whether the objects of a label are functions.
pub fn is_function(program: &Program, label: Label) -> bool
    ensures { result ≡ is_function_label program.now label }
{
    matches!(class_at(program, label), Class::Function)
}

/// Whether one of some labels has functions.
pub fn some_function(program: &Program, labels: &[Label]) -> bool
    ensures { result ≡ list_any (is_function_label program.now) labels.now }
{
    labels.iter().any(|label| is_function(program, *label))
}

/// Whether one of some labels has objects that are no functions.
pub fn some_other(program: &Program, labels: &[Label]) -> bool
    ensures { result ≡ list_any (λ l. not (is_function_label program.now l)) labels.now }
{
    labels.iter().any(|label| !is_function(program, *label))
}

/// Whether the objects of one of some labels run no function.
pub fn some_without(program: &Program, entry: Entry, labels: &[Label]) -> bool
    ensures { result ≡ list_any (λ l. not (is_some (entry_by entry program.now l))) labels.now }
{
    labels
        .iter()
        .any(|label| entry_at(program, entry, *label).is_none())
}
