//! The receivers of a call.

ghost use Rattle.std.specs.Prelude.{◌≡◌, ◌<◌, [], ◌∷◌, ◌++◌, IfOk, if◌then◌else◌, filter};
ghost use Rattle.ja_graph.specs.Program.{global};
ghost use Rattle.ja_abstract.specs.AbstractValue.{same_label};
ghost use Rattle.ja_abstract.specs.AbstractState.{labels_of, new};
ghost use Rattle.ja_rows.specs.Edges.{receivers};
ghost use Rattle.ja_aheap.specs.Heap.{heap_of};
ghost use Rattle.ja_value.specs.Value.{value_of};
ghost use Rattle.ja_transfer.specs.code.Receivers.{is_more};

use crate::sites::{is_activation, some_activation};
use crate::stepper::Stepper;
use ja_base::{Label, Memory};
use ja_graph::{GLOBAL, Program};
use ja_value::AValue;
use std::alloc::Global;

/// The label of the global object.
const GLOBAL_LABEL: Label = Label {
    site: GLOBAL,
    old: false,
};

/// Whether a label is that of the global object.
fn is_global(label: Label) -> bool
    ensures { result ≡ same_label (new global) label }
{
    label.site.0 == GLOBAL.0 && !label.old
}

/// Whether a label is one of receivers: activations aren't, and the global object is no other where
/// it is listed already.
fn is_more(program: &Program, is_listed: bool, label: Label) -> bool
    ensures { result ≡ is_more program.now is_listed label }
{
    !is_activation(program, label) && !(is_listed && is_global(label))
}

/// The label of the global object, if it is to be listed.
fn listed_first(alloc: Global, is_listed: bool) -> Result<Vec<Label>, Memory>
    ensures { IfOk result (λ v. v.items ≡ (if is_listed then new global ∷ [] else [])) }
{
    let mut labels = Vec::new(alloc);
    if is_listed {
        labels.push(GLOBAL_LABEL)?;
    }
    Ok(labels)
}

/// Adds the receivers among some labels.
fn add_receivers(
    program: &Program,
    labels: &[Label],
    is_listed: bool,
    receivers: &mut Vec<Label>,
) -> Result<(), Memory>
    ensures { IfOk result (λ _. receivers.new.items
        ≡ receivers.old.items ++ filter (is_more program.now is_listed) labels.now) }
{
    for label in labels {
        if is_more(program, is_listed, *label) {
            receivers.push(*label)?;
        }
    }
    Ok(())
}

impl Stepper<'_> {
    ghost use Rattle.ja_transfer.specs.Outcomes.{at_view};

    /// The labels of the receivers of a call: null, undefined and activations count as the global
    /// object (ES3 11.2.3).
    pub(crate) fn receivers(&self, value: &AValue) -> Result<Vec<Label>, Memory>
        requires { 0 < (heap_of self.now.reader.state.now.heap).sites }
        ensures { IfOk result (λ v. v.items ≡ filter (receivers (at_view self.now)
            (value_of value.now)) (labels_of self.now.reader.program.now)) }
    {
        let program = self.reader.program;
        let labels = self.reader.labels(&value.labels)?;
        let is_listed = value.flags.undefined
            | (value.flags.null | some_activation(program, &labels));
        let mut receivers = listed_first(self.reader.alloc, is_listed)?;
        add_receivers(program, &labels, is_listed, &mut receivers)?;
        Ok(receivers)
    }
}
