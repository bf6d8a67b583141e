//! Abstract states of two sites and one name: objects that are made, written, and read through a
//! later state.

ghost use Rattle.std.specs.Prelude.{◌≡◌, IfOk, IsTrue, All, vec_len};
ghost use Rattle.ja_aheap.specs.Heap.{HeapMap, heap_of, has_key};
ghost use Rattle.ja_aheap.specs.declared.writes.Write.{Write};

use crate::out::Out;
use ja_abstract::{Key, NumberPart};
use ja_aheap::{Made, Write, Writes};
use ja_astate::AState;
use ja_base::{Label, Memory, NameId, Site};
use ja_value::{AProp, AValue};
use std::alloc::Global;

/// The one name of the program.
const NAME: Key = Key::Name(NameId(0));

const FIRST: Site = Site(0);

const SECOND: Site = Site(1);

fn new(site: Site) -> Label
    ensures { result.site ≡ site }
{
    Label { site, old: false }
}

fn old(site: Site) -> Label {
    Label { site, old: true }
}

/// One register, which has the object that was made last at the first site, of two.
fn entry(alloc: Global) -> Result<AState, Memory>
    ensures sites { IfOk result (λ a. (heap_of a.heap).sites ≡ 2) }
    ensures names { IfOk result (λ a. (heap_of a.heap).names ≡ 1) }
    ensures registers { IfOk result (λ a. vec_len a.registers ≡ 1) }
{
    let mut registers = Vec::new(alloc);
    registers.push(AValue::of_label(alloc, new(FIRST))?)?;
    AState::entry(alloc, registers, 2, 1)
}

/// An object with one property.
fn made(alloc: Global, value: AValue) -> Result<Made, Memory> {
    let mut listed = Vec::new(alloc);
    listed.push((NAME, AProp::bare(value)))?;
    Ok(Made { listed })
}

/// One write.
fn writes(alloc: Global, number: u32) -> Result<Writes, Memory>
    ensures { IfOk result (λ w. (h : HeapMap) → h.names ≡ 1
        → All (λ (x : Write). IsTrue (has_key h x.key)) w.list.items) }
{
    let mut list = Vec::new(alloc);
    list.push(Write {
        key: NAME,
        property: AProp::bare(AValue::whole_constant(alloc, number)),
        joins: false,
    })?;
    Ok(Writes { list })
}

/// The number of the property of an object.
fn number(state: &AState, label: Label) -> NumberPart {
    match state.heap.property(label, NAME) {
        Some(property) => property.value.number,
        None => NumberPart::Nothing,
    }
}

/// Whether the property of an object may be an object of a label.
fn names(state: &AState, label: Label, other: Label) -> bool {
    match state.heap.property(label, NAME) {
        Some(property) => property.value.labels.contains(other),
        None => false,
    }
}

/// Whether the register may have an object of a label.
fn has(state: &AState, label: Label) -> bool {
    match state.registers.as_slice().first() {
        Some(value) => value.labels.contains(label),
        None => false,
    }
}

/// Prints the number of the property of an object.
fn line_of_property(out: &mut Out, label: &str, state: &AState, object: Label) {
    out.line(label, "");
    match number(state, object) {
        NumberPart::One(number) => out.put_signed(number.get()),
        NumberPart::Index => out.put("any index"),
        _ => out.put("something else"),
    }
}

/// A state with an object that has a 5, whose register has an old one: a 7 is put in a fork, and
/// weakly in the state, and then the fork is joined with it.
fn writes_both(out: &mut Out) -> Result<(), Memory> {
    let alloc = out.alloc;
    let entry = entry(alloc)?;
    let five = AValue::whole_constant(alloc, 5);
    let mut state = entry.with_object(alloc, FIRST, made(alloc, five)?)?;
    out.line_of_bool(
        "the register has the object that is made",
        has(&state, new(FIRST)),
    );
    out.line_of_bool("it has the older one", has(&state, old(FIRST)));
    let mut fork = state.fork(alloc)?;
    fork.strongly(alloc, new(FIRST), writes(alloc, 7)?)?;
    line_of_property(out, "5, and a 7 put strongly", &fork, new(FIRST));
    state.weakly(alloc, new(FIRST), writes(alloc, 7)?)?;
    let is_changed = fork.join(alloc, &state)?;
    out.line_of_bool("a join with a 7 put weakly changes it", is_changed);
    line_of_property(out, "to", &fork, new(FIRST));
    let is_changed = fork.join(alloc, &state)?;
    out.line_of_bool("a second one changes it", is_changed);
    Ok(())
}

/// A state in which an object has that of another site, read through one in which an object more
/// was made there.
fn composes(out: &mut Out) -> Result<(), Memory> {
    let alloc = out.alloc;
    let entry = entry(alloc)?;
    let second = AValue::of_label(alloc, new(SECOND))?;
    let first = entry.with_objects(
        alloc,
        FIRST,
        made(alloc, second)?,
        SECOND,
        Made {
            listed: Vec::new(alloc),
        },
    )?;
    let three = AValue::whole_constant(alloc, 3);
    let later = entry.with_object(alloc, SECOND, made(alloc, three)?)?;
    let both = first.composed(alloc, &later)?;
    let is_newest = names(&both, new(FIRST), new(SECOND));
    out.line_of_bool(
        "an object of before has the newest of the later state",
        is_newest,
    );
    let is_older = names(&both, new(FIRST), old(SECOND));
    out.line_of_bool("it has an older one", is_older);
    out.line_of_bool("the register has the older one", has(&both, old(FIRST)));
    line_of_property(out, "the newest has", &both, new(SECOND));
    Ok(())
}

pub fn states(out: &mut Out) {
    let _ = writes_both(out);
    let _ = composes(out);
}
