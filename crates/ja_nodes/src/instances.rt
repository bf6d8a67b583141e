//! The row of `instanceof` (ES3 11.8.6, 15.3.5.3).

ghost use Rattle.std.specs.Prelude.{◌≡◌, ◌<◌, ◌&&◌, ◌||◌, IfOk, vec_len};
ghost use Rattle.ja_abstract.specs.AbstractValue.{same_label};
ghost use Rattle.ja_abstract.specs.Values.{is_function_label};
ghost use Rattle.ja_rows.specs.Properties.{transfer_instance_of};
ghost use Rattle.ja_aheap.specs.Heap.{heap_of};
ghost use Rattle.ja_value.specs.Value.{labels_in};
ghost use Rattle.ja_transfer.specs.Outcomes.{at_view, IsOutcome};
ghost use Rattle.ja_nodes.specs.code.Instances.{functions_among, IsPrototype, AreAbove};

use ja_aheap::DemandList;
use ja_astate::{Ancestors, Looked};
use ja_base::{Label, Memory, Reg, Site};
use ja_graph::Program;
use ja_prim::Text16;
use ja_transfer::{Outcome, States, Stepper, is_function, some_function, some_other};
use ja_value::{AProp, AValue, LabelSet};
use std::alloc::Global;

/// What the TypeError says of a right operand that is no function.
const NO_FUNCTION: &[u8] = b"right operand of instanceof is not a function";

/// What it says of a `prototype` that is no object.
const NO_PROTOTYPE: &[u8] = b"prototype is not an object";

/// Adds a label to a set, if its objects are functions.
fn add_function(program: &Program, functions: &mut LabelSet, label: Label) -> Result<(), Memory>
    ensures { IfOk result (λ _. labels_in functions.new ≡ (λ l. labels_in functions.old l
        || (is_function_label program.now label && same_label label l))) }
{
    if !is_function(program, label) {
        return Ok(());
    }
    functions.insert(label)
}

/// The labels of functions among some.
fn functions_of(alloc: Global, program: &Program, labels: &[Label]) -> Result<LabelSet, Memory>
    ensures { IfOk result (λ s. labels_in s ≡ functions_among program.now labels.now) }
{
    let mut functions = LabelSet::new(alloc);
    for label in labels {
        add_function(program, &mut functions, *label)?;
    }
    Ok(functions)
}

/// What the functions of a value have at `prototype`, if it is asked for.
fn prototype_of(
    stepper: &Stepper<'_>,
    is_asked: bool,
    functions: &LabelSet,
) -> Result<Looked, Memory>
    ensures { IfOk result (IsPrototype (at_view stepper.now) is_asked (labels_in functions.now)) }
{
    let alloc = stepper.reader.alloc;
    if !is_asked {
        return Ok(Looked {
            property: AProp::nothing(alloc),
            demands: DemandList::new(alloc),
        });
    }
    let text = Text16::from_ascii(alloc, b"prototype")?;
    let key = stepper.reader.keys.text_key(&text);
    stepper.reader.get(functions, &[key])
}

/// Whether an object of some labels is on the chain of one of others, if there is one that it may
/// be on, and what that demands.
fn is_above(
    stepper: &Stepper<'_>,
    is_asked: bool,
    start: &LabelSet,
    prototypes: &LabelSet,
) -> Result<(bool, DemandList), Memory>
    ensures { IfOk result (AreAbove (at_view stepper.now) is_asked (labels_in start.now)
        (labels_in prototypes.now)) }
{
    if !is_asked {
        return Ok((false, DemandList::new(stepper.reader.alloc)));
    }
    let Ancestors {
        all: _,
        proper,
        demands,
    } = stepper.reader.ancestors(start)?;
    let is_above = proper.intersects(prototypes, stepper.reader.sites);
    Ok((is_above, demands))
}

/// Whether the right operand constructed the left one; what is no function, and a `prototype` that
/// is no object, throw a TypeError.
pub(crate) fn instance_of(
    stepper: &Stepper<'_>,
    dst: Reg,
    left: Reg,
    right: Reg,
    not_function: Site,
    not_object: Site,
) -> Result<Outcome, Memory>
    requires dst { dst.0 < vec_len stepper.now.reader.state.now.registers }
    requires left { left.0 < vec_len stepper.now.reader.state.now.registers }
    requires right { right.0 < vec_len stepper.now.reader.state.now.registers }
    requires registers { 0 < vec_len stepper.now.reader.state.now.registers }
    requires not_function { not_function.0 < (heap_of stepper.now.reader.state.now.heap).sites }
    requires not_object { not_object.0 < (heap_of stepper.now.reader.state.now.heap).sites }
    ensures { IfOk result (IsOutcome stepper.now (transfer_instance_of (at_view stepper.now)
        stepper.now.info.now dst left right not_function not_object)) }
{
    let reader = &stepper.reader;
    let left = reader.state.register(left);
    let right = reader.state.register(right);
    let callees = reader.labels(&right.labels)?;
    let functions = functions_of(reader.alloc, reader.program, &callees)?;
    let Looked {
        property,
        mut demands,
    } = prototype_of(stepper, left.has_labels(reader.sites), &functions)?;
    let prototype = &property.value;
    let has_object = prototype.has_labels(reader.sites);
    let (is_above, more) = is_above(stepper, has_object, &left.labels, &prototype.labels)?;
    demands.join(more)?;
    let is_function = some_function(reader.program, &callees);
    let is_none = (is_function & left.has_atoms()) | has_object;
    let is_other = right.has_atoms() | some_other(reader.program, &callees);
    let mut states = States::new(reader.alloc);
    stepper.type_error(&mut states, is_other, not_function, NO_FUNCTION)?;
    stepper.type_error(
        &mut states,
        prototype.has_non_object(),
        not_object,
        NO_PROTOTYPE,
    )?;
    let value = AValue::of_bools(reader.alloc, is_above, is_none);
    stepper.sets(&mut states, dst, value, stepper.info.next)?;
    Ok(stepper.outcome(states, demands))
}
