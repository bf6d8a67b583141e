//! The rows of nodes that make objects, or want them (ES3 9.9, 11.1.4, 11.1.5, 11.8.7).

ghost use Rattle.std.specs.Prelude.{◌≡◌, ◌<◌, IfOk, true, vec_len};
ghost use Rattle.ja_abstract.specs.AbstractState.{AbstractState};
ghost use Rattle.ja_abstract.specs.AbstractValue.{has_text};
ghost use Rattle.ja_abstract.specs.Made.{text_own};
ghost use Rattle.ja_rows.specs.Out.{makes, makes_if};
ghost use Rattle.ja_rows.specs.Objects.{transfer_to_object, transfer_need_object, transfer_new_object, wraps, bools_of, numbers_of};
ghost use Rattle.ja_aheap.specs.Heap.{heap_of};
ghost use Rattle.ja_aheap.specs.Objects.{own_in};
ghost use Rattle.ja_astate.specs.State.{state_of, HaveOneShape};
ghost use Rattle.ja_value.specs.Value.{value_of};
ghost use Rattle.ja_transfer.specs.Outcomes.{at_view, AreAdded, IsOutcome};

use crate::made::{empty_made, text_made, wrapper_made};
use ja_abstract::TextPart;
use ja_aheap as heap;
use ja_aheap::DemandList;
use ja_astate::AState;
use ja_base::{Label, Memory, Reg, Site};
use ja_graph::{BOOLEAN_PROTOTYPE, Made, NUMBER_PROTOTYPE, Wrappers};
use ja_transfer::{Outcome, States, Stepper};
use ja_value::AValue;
use std::alloc::Global;

/// What the TypeError says of a property of undefined or null.
const NOTHING: &[u8] = b"property of null or undefined";

/// What it says of a right operand of `in` that is no object.
const NOT_AN_OBJECT: &[u8] = b"right operand of in is not an object";

/// The state in which an object was made at a site, and a register has it.
pub(crate) fn makes(
    stepper: &Stepper<'_>,
    dst: Reg,
    site: Site,
    made: heap::Made,
) -> Result<AState, Memory>
    requires dst { dst.0 < vec_len stepper.now.reader.state.now.registers }
    requires site { site.0 < (heap_of stepper.now.reader.state.now.heap).sites }
    ensures state { IfOk result (λ a. state_of a
        ≡ makes (at_view stepper.now) dst site (λ (b : AbstractState). own_in made)) }
    ensures shape { IfOk result (HaveOneShape stepper.now.reader.state.now) }
{
    let alloc = stepper.reader.alloc;
    let object = AValue::of_label(alloc, Label { site, old: false })?;
    let mut state = stepper.reader.state.with_object(alloc, site, made)?;
    state.set_register(dst, object);
    Ok(state)
}

/// .. goes to the next node.
fn gives_made(
    stepper: &Stepper<'_>,
    states: &mut States,
    dst: Reg,
    site: Site,
    made: heap::Made,
) -> Result<(), Memory>
    requires dst { dst.0 < vec_len stepper.now.reader.state.now.registers }
    requires site { site.0 < (heap_of stepper.now.reader.state.now.heap).sites }
    ensures { IfOk result (λ _. AreAdded stepper.now (makes_if (at_view stepper.now) true dst site
        (own_in made) stepper.now.info.now.next) states.old states.new) }
{
    let state = makes(stepper, dst, site, made)?;
    stepper.gives(states, stepper.info.next, state)
}

/// An empty object, array or error (11.1.4, 11.1.5, 15.11).
pub(crate) fn new_object(
    stepper: &Stepper<'_>,
    dst: Reg,
    site: Site,
    kind: Made,
) -> Result<Outcome, Memory>
    requires dst { dst.0 < vec_len stepper.now.reader.state.now.registers }
    requires site { site.0 < (heap_of stepper.now.reader.state.now.heap).sites }
    ensures { IfOk result (IsOutcome stepper.now
        (transfer_new_object (at_view stepper.now) stepper.now.info.now dst site kind)) }
{
    let alloc = stepper.reader.alloc;
    let mut states = States::new(alloc);
    gives_made(stepper, &mut states, dst, site, empty_made(alloc, kind)?)?;
    Ok(stepper.outcome(states, DemandList::new(alloc)))
}

/// The truth values among a value.
fn bools_of(alloc: Global, value: &AValue) -> AValue
    ensures { value_of result ≡ bools_of (value_of value.now) }
{
    AValue::of_bools(alloc, value.flags.is_true, value.flags.is_false)
}

/// The numbers among a value.
fn numbers_of(alloc: Global, value: &AValue) -> AValue
    ensures { value_of result ≡ numbers_of (value_of value.now) }
{
    let mut numbers = AValue::of_number_part(alloc, value.number);
    numbers.flags.nan = value.flags.nan;
    numbers
}

/// The state in which the object of some primitives was made goes to the next node, if there are
/// some.
fn wraps(
    stepper: &Stepper<'_>,
    states: &mut States,
    dst: Reg,
    site: Site,
    prototype: Site,
    value: AValue,
) -> Result<(), Memory>
    requires dst { dst.0 < vec_len stepper.now.reader.state.now.registers }
    requires site { site.0 < (heap_of stepper.now.reader.state.now.heap).sites }
    ensures { IfOk result (λ _. AreAdded stepper.now (wraps (at_view stepper.now) dst site
        prototype (value_of value) stepper.now.info.now.next) states.old states.new) }
{
    if !value.is_present(stepper.reader.sites) {
        return Ok(());
    }
    let made = wrapper_made(stepper.reader.alloc, prototype, value)?;
    gives_made(stepper, states, dst, site, made)
}

/// .. of some texts.
fn wraps_text(
    stepper: &Stepper<'_>,
    states: &mut States,
    dst: Reg,
    site: Site,
    part: &TextPart,
) -> Result<(), Memory>
    requires dst { dst.0 < vec_len stepper.now.reader.state.now.registers }
    requires site { site.0 < (heap_of stepper.now.reader.state.now.heap).sites }
    ensures { IfOk result (λ _. AreAdded stepper.now (makes_if (at_view stepper.now)
        (has_text part.now) dst site (text_own part.now) stepper.now.info.now.next)
        states.old states.new) }
{
    if let TextPart::Nothing = part {
        return Ok(());
    }
    let made = text_made(stepper.reader.alloc, part)?;
    gives_made(stepper, states, dst, site, made)
}

/// ToObject (9.9): an object is itself, a primitive gets an object of its kind, and undefined and
/// null throw a TypeError.
pub(crate) fn to_object(
    stepper: &Stepper<'_>,
    dst: Reg,
    src: Reg,
    sites: Wrappers,
    error: Site,
) -> Result<Outcome, Memory>
    requires dst { dst.0 < vec_len stepper.now.reader.state.now.registers }
    requires src { src.0 < vec_len stepper.now.reader.state.now.registers }
    requires registers { 0 < vec_len stepper.now.reader.state.now.registers }
    requires boolean { sites.boolean.0 < (heap_of stepper.now.reader.state.now.heap).sites }
    requires number { sites.number.0 < (heap_of stepper.now.reader.state.now.heap).sites }
    requires text { sites.text.0 < (heap_of stepper.now.reader.state.now.heap).sites }
    requires error { error.0 < (heap_of stepper.now.reader.state.now.heap).sites }
    ensures { IfOk result (IsOutcome stepper.now
        (transfer_to_object (at_view stepper.now) stepper.now.info.now dst src sites error)) }
{
    let alloc = stepper.reader.alloc;
    let value = stepper.reader.state.register(src);
    let objects = AValue::of_labels(alloc, value.labels.copy()?);
    let bools = bools_of(alloc, value);
    let numbers = numbers_of(alloc, value);
    let mut states = States::new(alloc);
    stepper.sets(&mut states, dst, objects, stepper.info.next)?;
    wraps(
        stepper,
        &mut states,
        dst,
        sites.boolean,
        BOOLEAN_PROTOTYPE,
        bools,
    )?;
    wraps(
        stepper,
        &mut states,
        dst,
        sites.number,
        NUMBER_PROTOTYPE,
        numbers,
    )?;
    wraps_text(stepper, &mut states, dst, sites.text, &value.text)?;
    stepper.type_error(&mut states, value.has_nullish(), error, NOTHING)?;
    Ok(stepper.outcome(states, DemandList::new(alloc)))
}

/// What is no object throws a TypeError (11.8.7).
pub(crate) fn need_object(stepper: &Stepper<'_>, src: Reg, error: Site) -> Result<Outcome, Memory>
    requires src { src.0 < vec_len stepper.now.reader.state.now.registers }
    requires registers { 0 < vec_len stepper.now.reader.state.now.registers }
    requires error { error.0 < (heap_of stepper.now.reader.state.now.heap).sites }
    ensures { IfOk result (IsOutcome stepper.now
        (transfer_need_object (at_view stepper.now) stepper.now.info.now src error)) }
{
    let alloc = stepper.reader.alloc;
    let value = stepper.reader.state.register(src);
    let has_labels = value.has_labels(stepper.reader.sites);
    let mut states = States::new(alloc);
    stepper.goes(&mut states, has_labels, stepper.info.next)?;
    stepper.type_error(&mut states, value.has_atoms(), error, NOT_AN_OBJECT)?;
    Ok(stepper.outcome(states, DemandList::new(alloc)))
}
