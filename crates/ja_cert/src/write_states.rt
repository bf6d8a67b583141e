//! Writers of states, and of the values at entry.

ghost use Rattle.std.specs.Prelude.{◌≡◌, ◌++◌, [], ◌∷◌, ℕ, OnOk, map};
ghost use Rattle.std.specs.List.{flat_map};
ghost use Rattle.serde_json.specs.Written.{compact_text};
ghost use Rattle.ja_graph.specs.WellFormed.{IsWellFormed};
ghost use Rattle.ja_machine.specs.Frames.{parameters_of, registers_of};
ghost use Rattle.ja_abstract.specs.AbstractState.{keys_of, new, old};
ghost use Rattle.ja_value.specs.Value.{property_of, value_of};
ghost use Rattle.ja_aheap.specs.Heap.{heap_of, IsHeapOf};
ghost use Rattle.ja_astate.specs.State.{state_of, IsStateOf};
ghost use Rattle.ja_report.specs.Lines.{mask_line, mask_lines, object_lines, property_line, property_lines, register_line, register_lines};
ghost use Rattle.ja_cert.specs.Certificate.{lines_data, state_data};
ghost use Rattle.ja_cert.specs.code.Writing.{lines_text};

use crate::data;
use crate::pieces::{close_list, push_member};
use ja_abstract::{Key, Mask};
use ja_astate::AState;
use ja_base::{FnId, Label, Memory, Reg, Site};
use ja_graph::Program;
use ja_report::{is_entry, is_undefined, register_count, site_count};
use ja_texts::push_number;
use ja_value::{AProp, AValue};
use std::alloc::Global;

// ---- properties

#[tactic(auto, using(crate::proofs::Commas::lines_none), unfolding(ja_report::specs::Lines::property_line))]
fn push_property(
    text: &mut Vec<u8>,
    alloc: Global,
    program: &Program,
    label: Label,
    key: Key,
    property: &AProp,
) -> Result<(), Memory>
    requires { IsWellFormed program.now }
    ensures { OnOk result (text.new.items ≡ text.old.items ++ lines_text program.now
        (property_line program.now label key (property_of property.now))) }
{
    if is_entry(program, property) {
        return Ok(());
    }
    let line = data::property(alloc, program, label, key, property)?;
    push_member(text, alloc, line)
}

#[tactic(auto, using(crate::proofs::StateLemmas::property_kept))]
fn push_key_line(
    text: &mut Vec<u8>,
    alloc: Global,
    program: &Program,
    label: Label,
    key: Key,
    state: &AState,
) -> Result<(), Memory>
    requires { IsWellFormed program.now }
    ensures { OnOk result (text.new.items ≡ text.old.items ++ lines_text program.now
        (property_line program.now label key ((state_of state.now).property label key))) }
{
    if let Some(property) = state.heap.property(label, key) {
        push_property(text, alloc, program, label, key, property)?;
    }
    Ok(())
}

#[tactic(auto, using(crate::proofs::Rulesets::for_loops))]
fn push_object(
    text: &mut Vec<u8>,
    alloc: Global,
    program: &Program,
    keys: &[Key],
    label: Label,
    state: &AState,
) -> Result<(), Memory>
    requires program { IsWellFormed program.now }
    requires keys { keys.now ≡ keys_of program.now }
    ensures { OnOk result (text.new.items ≡ text.old.items ++ lines_text program.now
        (object_lines program.now label ((state_of state.now).property label))) }
{
    for key in keys {
        push_key_line(text, alloc, program, label, *key, state)?;
    }
    Ok(())
}

/// Writes the properties of a label, which has none where each is as at entry.
fn push_label_lines(
    text: &mut Vec<u8>,
    alloc: Global,
    program: &Program,
    keys: &[Key],
    label: Label,
    state: &AState,
) -> Result<(), Memory>
    requires program { IsWellFormed program.now }
    requires keys { keys.now ≡ keys_of program.now }
    ensures { OnOk result (text.new.items ≡ text.old.items ++ lines_text program.now
        (object_lines program.now label ((state_of state.now).property label))) }
{
    if state.heap.is_as_at_entry(label) {
        return Ok(());
    }
    push_object(text, alloc, program, keys, label, state)?;
    Ok(())
}

/// Writes the properties of the two labels of a site.
fn push_both_labels(
    text: &mut Vec<u8>,
    alloc: Global,
    program: &Program,
    keys: &[Key],
    site: Site,
    state: &AState,
) -> Result<(), Memory>
    requires program { IsWellFormed program.now }
    requires keys { keys.now ≡ keys_of program.now }
    ensures { OnOk result (text.new.items ≡ text.old.items ++ lines_text program.now
        (flat_map (λ l. object_lines program.now l ((state_of state.now).property l))
        (new site ∷ old site ∷ []))) }
{
    push_label_lines(
        text,
        alloc,
        program,
        keys,
        Label { site, old: false },
        state,
    )?;
    push_label_lines(text, alloc, program, keys, Label { site, old: true }, state)?;
    Ok(())
}

// Goes over the sites that nothing was written to at once.
fn push_properties(
    text: &mut Vec<u8>,
    alloc: Global,
    program: &Program,
    keys: &[Key],
    state: &AState,
) -> Result<(), Memory>
    requires program { IsWellFormed program.now }
    requires keys { keys.now ≡ keys_of program.now }
    ensures { OnOk result (text.new.items ≡ text.old.items ++ lines_text program.now
        (property_lines program.now (state_of state.now))) }
{
    let sites = site_count(program);
    let mut site = 0;
    'sites: while site < sites {
        let next = state.heap.untouched_to(Site(site)).0.min(sites);
        if next == site {
            push_both_labels(text, alloc, program, keys, Site(site), state)?;
            site += 1;
        } else {
            site = next;
        }
    }
    Ok(())
}

// ---- registers

#[tactic(auto, using(crate::proofs::Commas::lines_none), unfolding(ja_report::specs::Lines::register_line))]
fn push_register(
    text: &mut Vec<u8>,
    alloc: Global,
    program: &Program,
    function: FnId,
    number: u32,
    value: &AValue,
) -> Result<(), Memory>
    requires { IsWellFormed program.now }
    ensures { OnOk result (text.new.items ≡ text.old.items ++ lines_text program.now
        (register_line program.now (parameters_of program.now function) number
        (value_of value.now))) }
{
    if is_undefined(program, value) {
        return Ok(());
    }
    let line = data::register(alloc, program, number, value)?;
    push_member(text, alloc, line)
}

fn push_registers(
    text: &mut Vec<u8>,
    alloc: Global,
    program: &Program,
    function: FnId,
    state: &AState,
) -> Result<(), Memory>
    requires program { IsWellFormed program.now }
    requires state { IsStateOf program.now (registers_of program.now function) state.now }
    ensures { OnOk result (text.new.items ≡ text.old.items ++ lines_text program.now
        (register_lines program.now function (state_of state.now))) }
{
    for number in 0..register_count(program, function) {
        let value = state.register(Reg(number));
        push_register(text, alloc, program, function, number, value)?;
    }
    Ok(())
}

// ---- masks

#[tactic(auto, using(crate::proofs::Commas::lines_none), unfolding(ja_report::specs::Lines::mask_line))]
fn push_mask(
    text: &mut Vec<u8>,
    alloc: Global,
    program: &Program,
    site: Site,
    mask: Mask,
) -> Result<(), Memory>
    ensures { OnOk result (text.new.items ≡ text.old.items ++ lines_text program.now
        (mask_line site mask)) }
{
    if mask.none & !mask.some {
        return Ok(());
    }
    let line = data::mask(alloc, program, site, mask)?;
    push_member(text, alloc, line)
}

#[tactic(auto, using(crate::proofs::Rulesets::for_loops))]
fn push_masks(
    text: &mut Vec<u8>,
    alloc: Global,
    program: &Program,
    state: &AState,
) -> Result<(), Memory>
    requires { IsHeapOf program.now (heap_of state.now.heap) }
    ensures { OnOk result (text.new.items ≡ text.old.items ++ lines_text program.now
        (mask_lines program.now (state_of state.now))) }
{
    let sites = state.heap.masked(alloc)?;
    for site in &sites {
        push_mask(text, alloc, program, *site, state.heap.mask(*site))?;
    }
    Ok(())
}

// ---- states

/// Writes the list of the objects that a state has made.
fn push_mask_list(
    text: &mut Vec<u8>,
    alloc: Global,
    program: &Program,
    state: &AState,
) -> Result<(), Memory>
    requires { IsHeapOf program.now (heap_of state.now.heap) }
    ensures { OnOk result (text.new.items ≡ text.old.items ++ compact_text
        (lines_data program.now (mask_lines program.now (state_of state.now)))) }
{
    text.push(b'[')?;
    let start = text.len();
    push_masks(text, alloc, program, state)?;
    close_list(text, start)?;
    Ok(())
}

/// Writes the list of a state's properties.
fn push_property_list(
    text: &mut Vec<u8>,
    alloc: Global,
    program: &Program,
    keys: &[Key],
    state: &AState,
) -> Result<(), Memory>
    requires program { IsWellFormed program.now }
    requires keys { keys.now ≡ keys_of program.now }
    ensures { OnOk result (text.new.items ≡ text.old.items ++ compact_text
        (lines_data program.now (property_lines program.now (state_of state.now)))) }
{
    text.push(b'[')?;
    let start = text.len();
    push_properties(text, alloc, program, keys, state)?;
    close_list(text, start)?;
    Ok(())
}

/// Writes the list of a state's registers.
fn push_register_list(
    text: &mut Vec<u8>,
    alloc: Global,
    program: &Program,
    function: FnId,
    state: &AState,
) -> Result<(), Memory>
    requires program { IsWellFormed program.now }
    requires state { IsStateOf program.now (registers_of program.now function) state.now }
    ensures { OnOk result (text.new.items ≡ text.old.items ++ compact_text
        (lines_data program.now (register_lines program.now function (state_of state.now)))) }
{
    text.push(b'[')?;
    let start = text.len();
    push_registers(text, alloc, program, function, state)?;
    close_list(text, start)?;
    Ok(())
}

/// Writes a node of a function with its state.
pub(crate) fn push_state(
    text: &mut Vec<u8>,
    alloc: Global,
    program: &Program,
    keys: &[Key],
    function: FnId,
    node: usize,
    state: &AState,
) -> Result<(), Memory>
    requires program { IsWellFormed program.now }
    requires keys { keys.now ≡ keys_of program.now }
    requires state { IsStateOf program.now (registers_of program.now function) state.now }
    ensures { OnOk result (text.new.items ≡ text.old.items ++ compact_text
        (state_data program.now function node (state_of state.now))) }
{
    text.extend_from_slice(b"{\"alloc\":")?;
    push_mask_list(text, alloc, program, state)?;
    text.extend_from_slice(b",\"heap\":")?;
    push_property_list(text, alloc, program, keys, state)?;
    text.extend_from_slice(b",\"node\":")?;
    push_number(text, node as u64)?;
    text.extend_from_slice(b",\"registers\":")?;
    push_register_list(text, alloc, program, function, state)?;
    text.push(b'}')?;
    Ok(())
}
