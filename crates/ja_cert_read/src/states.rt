//! States and values at entry, built of what is listed of them.

ghost use Rattle.std.specs.Prelude.{◌≡◌, ◌<◌, IfOk, IfSome, IsTrue, length, map, vec_len};
ghost use Rattle.std.specs.List.{AllByRecursion};
ghost use Rattle.ja_graph.specs.WellFormed.{IsWellFormed};
ghost use Rattle.ja_machine.specs.Frames.{registers_of};
ghost use Rattle.ja_aheap.specs.Entries.{entries_of};
ghost use Rattle.ja_aheap.specs.Heap.{heap_of};
ghost use Rattle.ja_astate.specs.State.{state_of, HaveOneShape, IsStateOf};
ghost use Rattle.ja_table.specs.Tables.{no_entries};
ghost use Rattle.ja_cert.specs.Wrong.{entry_wrong, mask_wrong, property_wrong, register_wrong};
ghost use Rattle.ja_cert_read.specs.Said.{said_state};
ghost use Rattle.ja_cert_read.specs.code.Building.{entries_with, entry_data, mask_data, mask_pair, mask_sites, plain_state, property_data, property_pairs, register_data, with_masks, with_properties, with_registers, AreEntriesOfParts, AreRight, AreWithin, IsBefore, IsOwnEntryAt, IsOwnPropertyAt, IsOwnRegisterAt, IsStateOfParts, SaysAll};
ghost use Rattle.ja_cert_parts.specs.declared.listed.MaskAt.{MaskAt};
ghost use Rattle.ja_cert_parts.specs.declared.listed.RegisterAt.{RegisterAt};

use crate::objects::set_properties;
use crate::starts::{Before, start};
use ja_abstract::Mask;
use ja_aheap::DemandedEntries;
use ja_astate::AState;
use ja_base::{FnId, Memory, Reg, Site};
use ja_cert_parts::{EntryAt, MaskAt, PropertyAt, RegisterAt};
use ja_graph::Program;
use std::alloc::Global;

// ---- registers

/// Sets registers of a state.
fn set_registers(state: &mut AState, registers: Vec<RegisterAt>)
    requires { AllByRecursion (λ (x : RegisterAt). x.register < vec_len state.old.registers)
        registers.items }
    ensures state { state_of state.new ≡ with_registers registers.items (state_of state.old) }
    ensures shape { HaveOneShape state.old state.new }
{
    let mut registers = registers;
    while let Some(listed) = registers.pop() {
        state.set_register(Reg(listed.register), listed.value);
    }
}

// ---- masks

/// Sites with their masks.
fn mask_pairs(alloc: Global, masks: &[MaskAt]) -> Result<Vec<(Site, Mask)>, Memory>
    ensures { IfOk result (λ v. v.items ≡ map mask_pair masks.now) }
{
    let mut pairs = Vec::new(alloc);
    for listed in masks {
        pairs.push((listed.site, listed.mask))?;
    }
    Ok(pairs)
}

/// Whether a state has a mask already.
fn has_mask(state: &AState, listed: &MaskAt) -> bool
    ensures { IsTrue result
        → (heap_of state.now.heap).mask listed.now.site.0 ≡ listed.now.mask }
{
    state.heap.mask(listed.site) == listed.mask
}

/// Whether a state has these masks already.
fn has_masks(state: &AState, masks: &[MaskAt]) -> bool
    ensures { IsTrue result → with_masks masks.now (state_of state.now) ≡ state_of state.now }
{
    for listed in masks {
        if !has_mask(state, listed) {
            return false;
        }
    }
    true
}

/// Sets masks of a state.
fn set_masks(state: &mut AState, alloc: Global, masks: Vec<MaskAt>) -> Result<(), Memory>
    requires { AllByRecursion (λ (x : MaskAt). x.site.0 < (heap_of state.old.heap).sites)
        masks.items }
    ensures state { IfOk result (λ _. state_of state.new
        ≡ with_masks masks.items (state_of state.old)) }
    ensures shape { IfOk result (λ _. HaveOneShape state.old state.new) }
{
    if has_masks(state, &masks) {
        return Ok(());
    }
    let pairs = mask_pairs(alloc, &masks)?;
    state.heap.set_masks(alloc, pairs)?;
    Ok(())
}

// ---- the whole

/// The state of a function with these registers, properties and masks, where they are its own. It
/// shares with the one before it, if there is one, what both have.
fn built_state(
    alloc: Global,
    program: &Program,
    function: FnId,
    before: Option<Before<'_>>,
    registers: Vec<RegisterAt>,
    heap: Vec<PropertyAt>,
    masks: Vec<MaskAt>,
) -> Result<AState, Memory>
    requires program { IsWellFormed program.now }
    requires before { IfSome before (IsBefore program.now function) }
    requires within { AreWithin (registers_of program.now function) (length program.now.sites)
        (length program.now.names) registers.items heap.items masks.items }
    ensures state { IfOk result (λ s. state_of s ≡ with_masks masks.items
        (with_properties heap.items (with_registers registers.items plain_state))) }
    ensures shape { IfOk result (IsStateOf program.now (registers_of program.now function)) }
{
    let mut state = start(alloc, program, function, before, &heap, &masks)?;
    set_registers(&mut state, registers);
    set_properties(&mut state, alloc, heap)?;
    set_masks(&mut state, alloc, masks)?;
    Ok(state)
}

/// The state of a function with these registers, properties and masks. Each other register is
/// undefined, each other property as at entry, and at no other site was something made. It shares
/// with the one before it, if there is one, what both have.
pub(crate) fn state_of_parts(
    alloc: Global,
    program: &Program,
    function: FnId,
    before: Option<Before<'_>>,
    registers: Vec<RegisterAt>,
    heap: Vec<PropertyAt>,
    masks: Vec<MaskAt>,
) -> Result<AState, Memory>
    requires program { IsWellFormed program.now }
    requires before { IfSome before (IsBefore program.now function) }
    requires registers { AreRight (register_wrong program.now function)
        (register_data program.now) registers.items }
    requires heap { AreRight (property_wrong program.now) (property_data program.now) heap.items }
    requires masks { AreRight (mask_wrong program.now) (mask_data program.now) masks.items }
    requires own_registers { AllByRecursion (IsOwnRegisterAt program.now) registers.items }
    requires own_heap { AllByRecursion (IsOwnPropertyAt program.now) heap.items }
    ensures parts { IfOk result (IsStateOfParts program.now function registers.items heap.items
        masks.items) }
    ensures said { IfOk result (λ s. said_state program.now (state_of s) ≡ state_of s) }
    ensures all { IfOk result (λ s. SaysAll (property_pairs heap.items) (mask_sites masks.items)
        (state_of s)) }
{
    let state = built_state(alloc, program, function, before, registers, heap, masks)?;
    Ok(state)
}

/// The values at entry that are listed, of those of one label and key the first.
fn built_entries(alloc: Global, entries: Vec<EntryAt>) -> Result<DemandedEntries, Memory>
    ensures { IfOk result (λ e. entries_of e ≡ entries_with entries.items no_entries) }
{
    let mut demanded = DemandedEntries::new(alloc);
    let mut entries = entries;
    while let Some(listed) = entries.pop() {
        demanded.set(alloc, listed.label, listed.key, listed.property)?;
    }
    Ok(demanded)
}

/// The values at entry that are listed.
pub(crate) fn entries_of_parts(
    alloc: Global,
    program: &Program,
    entries: Vec<EntryAt>,
) -> Result<DemandedEntries, Memory>
    requires right { AreRight (entry_wrong program.now) (entry_data program.now) entries.items }
    requires own { AllByRecursion (IsOwnEntryAt program.now) entries.items }
    ensures { IfOk result (AreEntriesOfParts program.now entries.items) }
{
    let demanded = built_entries(alloc, entries)?;
    Ok(demanded)
}
