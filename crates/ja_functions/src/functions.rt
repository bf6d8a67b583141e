//! The row of a function that is made, with the object that its constructions inherit from (ES3
//! 13.2).

ghost use Rattle.std.specs.Prelude.{◌≡◌, ◌≢◌, ◌<◌, ◌≤◌, IfOk, Some, length, vec_len};
ghost use Rattle.ja_prim.specs.Texts.{max_units};
ghost use Rattle.ja_machine.specs.Frames.{parameters_of};
ghost use Rattle.ja_abstract.specs.AbstractState.{new};
ghost use Rattle.ja_abstract.specs.Keys.{text_key};
ghost use Rattle.ja_abstract.specs.Made.{function_own, parameter_ids, prototype_own};
ghost use Rattle.ja_rows.specs.Objects.{transfer_make_function};
ghost use Rattle.ja_aheap.specs.Heap.{heap_of};
ghost use Rattle.ja_aheap.specs.Objects.{own_in};
ghost use Rattle.ja_transfer.specs.Outcomes.{at_view, IsOutcome};
ghost use Rattle.ja_value.specs.Value.{labels_in};
ghost use Rattle.ja_functions.specs.code.Aged.{aged_at};

use crate::listed::{inherits, property_of, slot_of};
use ja_abstract::{Key, Slot};
use ja_aheap as heap;
use ja_aheap::DemandList;
use ja_base::{FnId, Label, Memory, Reg, Site};
use ja_graph::{
    ALL_ATTRS, DONT_DELETE, DONT_ENUM, FUNCTION_PROTOTYPE, LENGTH, OBJECT_PROTOTYPE, Program, SCOPE,
};
use ja_prim::Text16;
use ja_transfer::{Outcome, States, Stepper};
use ja_value::{AValue, LabelSet};

/// The key of a text of ASCII characters.
fn key_of(stepper: &Stepper<'_>, text: &[u8]) -> Result<Key, Memory>
    requires { length text.now ≤ max_units }
    ensures { IfOk result (λ k. k ≡ text_key stepper.now.reader.program.now text.now) }
{
    let text = Text16::from_ascii(stepper.reader.alloc, text)?;
    Ok(stepper.reader.keys.text_key(&text))
}

/// How many parameters a function has.
fn parameter_count(program: &Program, function: FnId) -> u32
    requires { length (parameter_ids program.now function) < 4294967296 }
    ensures { result ≡ parameters_of program.now function }
{
    match program.functions.as_slice().get(function.0 as usize) {
        Some(function) => function.parameters.len() as u32,
        None => 0,
    }
}

/// A function: its scope chain, the count of its parameters, and the object of its constructions.
fn function_made(
    stepper: &Stepper<'_>,
    function: FnId,
    chain: LabelSet,
    prototype: Site,
) -> Result<heap::Made, Memory>
    requires { length (parameter_ids stepper.now.reader.program.now function) < 4294967296 }
    ensures { IfOk result (λ m. own_in m ≡ function_own stepper.now.reader.program.now function
        (labels_in chain) (new prototype)) }
{
    let alloc = stepper.reader.alloc;
    let mut listed = Vec::new(alloc);
    listed.push(inherits(alloc, FUNCTION_PROTOTYPE)?)?;
    listed.push(slot_of(Slot::Scope, AValue::of_labels(alloc, chain)))?;
    let count = parameter_count(stepper.reader.program, function);
    let length = AValue::whole_constant(alloc, count);
    listed.push(property_of(Key::Name(LENGTH), length, ALL_ATTRS))?;
    let key = key_of(stepper, b"prototype")?;
    let label = Label {
        site: prototype,
        old: false,
    };
    let object = AValue::of_label(alloc, label)?;
    listed.push(property_of(key, object, DONT_DELETE))?;
    Ok(heap::Made { listed })
}

/// The object that the constructions of a function inherit from.
fn prototype_made(stepper: &Stepper<'_>, function: Site) -> Result<heap::Made, Memory>
    ensures { IfOk result (λ m. own_in m
        ≡ prototype_own stepper.now.reader.program.now (new function)) }
{
    let alloc = stepper.reader.alloc;
    let mut listed = Vec::new(alloc);
    listed.push(inherits(alloc, OBJECT_PROTOTYPE)?)?;
    let key = key_of(stepper, b"constructor")?;
    let label = Label {
        site: function,
        old: false,
    };
    let object = AValue::of_label(alloc, label)?;
    listed.push(property_of(key, object, DONT_ENUM))?;
    Ok(heap::Made { listed })
}

/// The scope chain at the node, after objects were made at two sites.
fn chain(stepper: &Stepper<'_>, first: Site, second: Site) -> Result<LabelSet, Memory>
    requires { 2 < vec_len stepper.now.reader.state.now.registers }
    ensures { IfOk result (λ s. labels_in s
        ≡ ((aged_at (at_view stepper.now).state first (Some second)).register 2).label) }
{
    let mut chain = stepper.reader.state.register(SCOPE).labels.copy()?;
    chain.age(first)?;
    chain.age(second)?;
    Ok(chain)
}

/// A function is made, with the object that its constructions inherit from: each has the other.
pub fn make_function(
    stepper: &Stepper<'_>,
    dst: Reg,
    function: FnId,
    site: Site,
    proto_site: Site,
) -> Result<Outcome, Memory>
    requires dst { dst.0 < vec_len stepper.now.reader.state.now.registers }
    requires scope { 2 < vec_len stepper.now.reader.state.now.registers }
    requires few { length (parameter_ids stepper.now.reader.program.now function) < 4294967296 }
    requires site { site.0 < (heap_of stepper.now.reader.state.now.heap).sites }
    requires proto_site { proto_site.0 < (heap_of stepper.now.reader.state.now.heap).sites }
    requires apart { site.0 ≢ proto_site.0 }
    ensures { IfOk result (IsOutcome stepper.now (transfer_make_function (at_view stepper.now)
        stepper.now.info.now dst function site proto_site)) }
{
    let alloc = stepper.reader.alloc;
    let chain = chain(stepper, site, proto_site)?;
    let object = AValue::of_label(alloc, Label { site, old: false })?;
    let made = function_made(stepper, function, chain, proto_site)?;
    let prototype = prototype_made(stepper, site)?;
    let mut state = stepper
        .reader
        .state
        .with_objects(alloc, site, made, proto_site, prototype)?;
    state.set_register(dst, object);
    let mut states = States::new(alloc);
    stepper.gives(&mut states, stepper.info.next, state)?;
    Ok(stepper.outcome(states, DemandList::new(alloc)))
}
