//! Writers of the lines of a table: values at entry, and states.

ghost use Rattle.std.specs.Prelude.{◌≡◌, ◌++◌, [], ◌∷◌, false, OnOk};
ghost use Rattle.std.specs.List.{flat_map};
ghost use Rattle.ja_graph.specs.WellFormed.{IsWellFormed};
ghost use Rattle.ja_machine.specs.Frames.{parameters_of, registers_of};
ghost use Rattle.ja_abstract.specs.AbstractValue.{has_part};
ghost use Rattle.ja_abstract.specs.AbstractState.{keys_of, labels_below, new, old};
ghost use Rattle.ja_value.specs.Value.{value_of, property_of};
ghost use Rattle.ja_aheap.specs.Heap.{heap_of, IsHeapOf};
ghost use Rattle.ja_astate.specs.State.{state_of, IsStateOf};
ghost use Rattle.ja_report.specs.Lines.{entry, point, owner_text, property_text, value_sites, is_undefined, register_line, register_lines, has_attrs, is_known, is_entry, property_line, object_lines, property_lines, mask_line, mask_lines, state_lines};
ghost use Rattle.ja_report.specs.code.Output.{Adds};

use crate::output::Output;
use crate::texts::{push_attrs, push_key, push_register, push_site};
use crate::values::{name_label, push_value, site_count};
use ja_abstract::{AAttrs, Key, Mask, May, NumberPart, TextPart};
use ja_astate::AState;
use ja_base::{FnId, Label, Memory, Reg, Site};
use ja_graph::Program;
use ja_texts::push_number;
use ja_value::{AProp, AValue};
use std::alloc::Global;

// ---- properties

#[tactic(auto, unfolding(crate::specs::Lines::owner_text))]
fn push_owner(out: &mut Output, program: &Program, label: Label, key: Key) -> Result<(), Memory>
    ensures text { OnOk result (out.new.text.items ≡ out.old.text.items
        ++ owner_text program.now label key) }
    ensures named { OnOk result (out.new.named.items ≡ out.old.named.items ++ label.site.0 ∷ []) }
{
    name_label(out, program, label)?;
    out.text.push(b' ')?;
    push_key(&mut out.text, program, key)?;
    Ok(())
}

#[tactic(auto, unfolding(crate::specs::Lines::property_text))]
pub(crate) fn push_property_text(
    out: &mut Output,
    alloc: Global,
    program: &Program,
    label: Label,
    key: Key,
    property: &AProp,
) -> Result<(), Memory>
    requires { IsWellFormed program.now }
    ensures text { OnOk result (out.new.text.items ≡ out.old.text.items
        ++ property_text program.now label key (property_of property.now)) }
    ensures named { OnOk result (out.new.named.items ≡ out.old.named.items ++ label.site.0
        ∷ value_sites program.now (value_of property.now.value)) }
{
    push_owner(out, program, label, key)?;
    out.text.push(b' ')?;
    push_value(out, alloc, program, &property.value)?;
    out.text.push(b' ')?;
    push_attrs(&mut out.text, key, property.attrs)?;
    out.text.push(b'\n')?;
    Ok(())
}

fn is_known(attr: May) -> bool
    ensures { result ≡ is_known attr }
{
    attr.set | attr.unset
}

/// Whether an attribute is known.
fn has_attrs(attrs: AAttrs) -> bool
    ensures { result ≡ has_attrs attrs }
{
    is_known(attrs.read_only) | is_known(attrs.dont_enum) | is_known(attrs.dont_delete)
}

/// Whether a property is exactly as at entry.
#[tactic(auto, unfolding(crate::specs::Lines::is_entry))]
pub fn is_entry(program: &Program, property: &AProp) -> bool
    requires { IsWellFormed program.now }
    ensures { result ≡ is_entry program.now (property_of property.now) }
{
    let value = &property.value;
    let more = value.flags.absent | value.is_present(site_count(program));
    value.flags.entry & !more & !has_attrs(property.attrs)
}

#[tactic(auto, using(crate::proofs::Rulesets::for_push_property), unfolding(crate::specs::Lines::property_line, crate::specs::Lines::line_text, crate::specs::Lines::line_sites))]
fn push_property(
    out: &mut Output,
    alloc: Global,
    program: &Program,
    label: Label,
    key: Key,
    property: &AProp,
) -> Result<(), Memory>
    requires { IsWellFormed program.now }
    ensures { OnOk result (Adds program.now
        (property_line program.now label key (property_of property.now)) out.old out.new) }
{
    if is_entry(program, property) {
        return Ok(());
    }
    push_property_text(out, alloc, program, label, key, property)?;
    Ok(())
}

#[tactic(auto, using(crate::proofs::ObjectLemmas::property_kept))]
fn push_key_line(
    out: &mut Output,
    alloc: Global,
    program: &Program,
    label: Label,
    key: Key,
    state: &AState,
) -> Result<(), Memory>
    requires { IsWellFormed program.now }
    ensures { OnOk result (Adds program.now
        (property_line program.now label key ((state_of state.now).property label key))
        out.old out.new) }
{
    if let Some(property) = state.heap.property(label, key) {
        push_property(out, alloc, program, label, key, property)?;
    }
    Ok(())
}

fn push_object(
    out: &mut Output,
    alloc: Global,
    program: &Program,
    keys: &[Key],
    label: Label,
    state: &AState,
) -> Result<(), Memory>
    requires program { IsWellFormed program.now }
    requires keys { keys.now ≡ keys_of program.now }
    ensures { OnOk result (Adds program.now
        (object_lines program.now label ((state_of state.now).property label)) out.old out.new) }
{
    for key in keys {
        push_key_line(out, alloc, program, label, *key, state)?;
    }
    Ok(())
}

/// Writes the lines of a label, which has none where each property is as at entry.
fn push_label_lines(
    out: &mut Output,
    alloc: Global,
    program: &Program,
    keys: &[Key],
    label: Label,
    state: &AState,
) -> Result<(), Memory>
    requires program { IsWellFormed program.now }
    requires keys { keys.now ≡ keys_of program.now }
    ensures { OnOk result (Adds program.now
        (object_lines program.now label ((state_of state.now).property label)) out.old out.new) }
{
    if state.heap.is_as_at_entry(label) {
        return Ok(());
    }
    push_object(out, alloc, program, keys, label, state)?;
    Ok(())
}

/// Writes the lines of the two labels of a site.
fn push_both_labels(
    out: &mut Output,
    alloc: Global,
    program: &Program,
    keys: &[Key],
    site: Site,
    state: &AState,
) -> Result<(), Memory>
    requires program { IsWellFormed program.now }
    requires keys { keys.now ≡ keys_of program.now }
    ensures { OnOk result (Adds program.now
        (flat_map (λ l. object_lines program.now l ((state_of state.now).property l))
        (new site ∷ old site ∷ [])) out.old out.new) }
{
    push_label_lines(out, alloc, program, keys, Label { site, old: false }, state)?;
    push_label_lines(out, alloc, program, keys, Label { site, old: true }, state)?;
    Ok(())
}

// Goes over the sites that nothing was written to at once.
fn push_properties(
    out: &mut Output,
    alloc: Global,
    program: &Program,
    keys: &[Key],
    state: &AState,
) -> Result<(), Memory>
    requires program { IsWellFormed program.now }
    requires keys { keys.now ≡ keys_of program.now }
    ensures { OnOk result (Adds program.now (property_lines program.now (state_of state.now))
        out.old out.new) }
{
    let sites = site_count(program);
    let mut site = 0;
    'sites: while site < sites {
        let next = state.heap.untouched_to(Site(site)).0.min(sites);
        if next == site {
            push_both_labels(out, alloc, program, keys, Site(site), state)?;
            site += 1;
        } else {
            site = next;
        }
    }
    Ok(())
}

// ---- registers

/// Whether a value has some part but undefined; of labels, those of the first `sites` sites.
fn has_more(sites: u32, value: &AValue) -> bool
    ensures { let v = value_of value.now in
        result ≡ has_part (labels_below sites)
        (record v { flags = record v.flags { undefined = false } }) }
{
    let flags = value.flags;
    let flagged = flags.absent
        | flags.entry
        | flags.row
        | flags.null
        | flags.is_true
        | flags.is_false
        | flags.nan;
    let number = !matches!(value.number, NumberPart::Nothing);
    let text = !matches!(&value.text, TextPart::Nothing);
    flagged | number | text | value.labels.has_below(sites)
}

/// Whether a value is exactly undefined.
#[tactic(auto, unfolding(crate::specs::Lines::is_undefined))]
pub fn is_undefined(program: &Program, value: &AValue) -> bool
    requires { IsWellFormed program.now }
    ensures { result ≡ is_undefined program.now (value_of value.now) }
{
    value.flags.undefined & !has_more(site_count(program), value)
}

#[tactic(auto, using(crate::proofs::Rulesets::for_push_property), unfolding(crate::specs::Lines::register_line, crate::specs::Lines::line_text, crate::specs::Lines::line_sites))]
fn push_register_line(
    out: &mut Output,
    alloc: Global,
    program: &Program,
    parameters: u32,
    number: u32,
    value: &AValue,
) -> Result<(), Memory>
    requires { IsWellFormed program.now }
    ensures { OnOk result (Adds program.now
        (register_line program.now parameters number (value_of value.now)) out.old out.new) }
{
    if is_undefined(program, value) {
        return Ok(());
    }
    push_register(&mut out.text, parameters, number)?;
    out.text.push(b' ')?;
    push_value(out, alloc, program, value)?;
    out.text.push(b'\n')?;
    Ok(())
}

/// How many registers a function has.
pub fn register_count(program: &Program, function: FnId) -> u32
    ensures { result ≡ registers_of program.now function }
{
    match program.functions.as_slice().get(function.0 as usize) {
        Some(function) => function.registers,
        None => 0,
    }
}

/// How many parameters a function has, of which there are fewer than registers.
fn parameter_count(program: &Program, function: FnId) -> u32
    requires { IsWellFormed program.now }
    ensures { result ≡ parameters_of program.now function }
{
    match program.functions.as_slice().get(function.0 as usize) {
        Some(function) => function.parameters.len() as u32,
        None => 0,
    }
}

fn push_registers(
    out: &mut Output,
    alloc: Global,
    program: &Program,
    function: FnId,
    state: &AState,
) -> Result<(), Memory>
    requires program { IsWellFormed program.now }
    requires state { IsStateOf program.now (registers_of program.now function) state.now }
    ensures { OnOk result (Adds program.now
        (register_lines program.now function (state_of state.now)) out.old out.new) }
{
    let parameters = parameter_count(program, function);
    for number in 0..register_count(program, function) {
        let value = state.register(Reg(number));
        push_register_line(out, alloc, program, parameters, number, value)?;
    }
    Ok(())
}

// ---- masks

#[tactic(auto, using(crate::proofs::Rulesets::for_push_property), unfolding(crate::specs::Lines::mask_line, crate::specs::Lines::line_text, crate::specs::Lines::line_sites))]
fn push_mask(out: &mut Output, program: &Program, site: Site, mask: Mask) -> Result<(), Memory>
    ensures { OnOk result (Adds program.now (mask_line site mask) out.old out.new) }
{
    if mask.none & !mask.some {
        return Ok(());
    }
    out.text.extend_from_slice(b"alloc ")?;
    push_site(&mut out.text, program, site)?;
    out.text.extend_from_slice(match (mask.none, mask.some) {
        (true, true) => b" maybe\n",
        (false, true) => b" some\n",
        (_, false) => b" none\n",
    })?;
    out.named.push(site.0)?;
    Ok(())
}

fn push_masks(
    out: &mut Output,
    alloc: Global,
    program: &Program,
    state: &AState,
) -> Result<(), Memory>
    requires { IsHeapOf program.now (heap_of state.now.heap) }
    ensures { OnOk result (Adds program.now (mask_lines program.now (state_of state.now)) out.old
        out.new) }
{
    let sites = state.heap.masked(alloc)?;
    for site in &sites {
        push_mask(out, program, *site, state.heap.mask(*site))?;
    }
    Ok(())
}

// ---- states

#[tactic(auto, using(crate::proofs::OutputLemmas::adds_one), unfolding(crate::specs::Lines::line_text, crate::specs::Lines::line_sites))]
fn push_point(out: &mut Output, program: &Program, node: usize) -> Result<(), Memory>
    ensures { OnOk result (Adds program.now (point node ∷ []) out.old out.new) }
{
    out.text.extend_from_slice(b"point ")?;
    push_number(&mut out.text, node as u64)?;
    out.text.push(b'\n')?;
    Ok(())
}

#[tactic(auto, using(crate::proofs::OutputLemmas::adds_append), unfolding(crate::specs::Lines::state_lines))]
pub(crate) fn push_state(
    out: &mut Output,
    alloc: Global,
    program: &Program,
    keys: &[Key],
    function: FnId,
    node: usize,
    state: &AState,
) -> Result<(), Memory>
    requires program { IsWellFormed program.now }
    requires keys { keys.now ≡ keys_of program.now }
    requires state { IsStateOf program.now (registers_of program.now function) state.now }
    ensures { OnOk result (Adds program.now
        (state_lines program.now function node (state_of state.now)) out.old out.new) }
{
    push_point(out, program, node)?;
    push_registers(out, alloc, program, function, state)?;
    push_properties(out, alloc, program, keys, state)?;
    push_masks(out, alloc, program, state)?;
    Ok(())
}
