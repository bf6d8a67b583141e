//! Where a state begins: as the one that was built before it, where that has nothing that isn't
//! listed of this one too, and else with nothing. So two states share what they have in common.

ghost use Rattle.std.specs.Prelude.{◌≡◌, ◌<◌, ◌&&◌, IfOk, IfSome, IsTrue, map, vec_len};
ghost use Rattle.std.specs.List.{AllByRecursion};
ghost use Rattle.ja_graph.specs.WellFormed.{IsWellFormed};
ghost use Rattle.ja_machine.specs.Frames.{registers_of};
ghost use Rattle.ja_abstract.specs.AbstractValue.{same_label, undefined_value};
ghost use Rattle.ja_abstract.specs.AbstractState.{same_key};
ghost use Rattle.ja_astate.specs.State.{state_of, register_in, IsStateOf};
ghost use Rattle.ja_cert_parts.specs.code.Ranks.{property_pair};
ghost use Rattle.ja_cert_parts.specs.declared.listed.MaskAt.{MaskAt as Masked};
ghost use Rattle.ja_cert_parts.specs.declared.listed.Pair.{Pair as Paired};
ghost use Rattle.ja_base.specs.declared.ids.Site.{Site as At};
ghost use Rattle.ja_cert_read.specs.code.Building.{is_property, lists_pair, lists_site, plain_state, with_heap_of, with_masks, with_properties, IsBefore};

use ja_abstract::Key;
use ja_aheap::key_number;
use ja_astate::AState;
use ja_base::{FnId, Label, Memory, Site};
use ja_cert_parts::{MaskAt, Pair, PropertyAt};
use ja_graph::Program;
use ja_value::AValue;
use std::alloc::Global;

/// The labels with keys, and the sites, of which something is listed of a state.
#[derive(Drop)]
pub(crate) struct Listed {
    pub pairs: Vec<Pair>,
    pub sites: Vec<Site>,
}

/// A state, with what is listed of it.
#[derive(Clone, Copy)]
pub(crate) struct Before<'a> {
    pub state: &'a AState,
    pub listed: &'a Listed,
}

// ---- what is listed

/// Whether two labels are the same.
pub(crate) fn same_label(a: Label, b: Label) -> bool
    ensures { result ≡ same_label a b }
{
    a.site.0 == b.site.0 && a.old == b.old
}

/// Whether two keys are the same.
fn same_key(a: Key, b: Key) -> bool
    ensures { result ≡ same_key a b }
{
    key_number(a) == key_number(b)
}

/// Whether a property is the one of a label and a key.
fn is_at(listed: &PropertyAt, pair: Pair) -> bool
    ensures { result ≡ is_property listed.now (pair.label, pair.key) }
{
    same_label(listed.label, pair.label) && same_key(listed.key, pair.key)
}

/// The labels with keys of properties.
fn pairs_of(alloc: Global, heap: &[PropertyAt]) -> Result<Vec<Pair>, Memory>
    ensures { IfOk result (λ v. v.items ≡ map property_pair heap.now) }
{
    let mut pairs = Vec::with_capacity(alloc, heap.len())?;
    for listed in heap {
        pairs.push(Pair {
            label: listed.label,
            key: listed.key,
        })?;
    }
    Ok(pairs)
}

/// The sites of masks.
fn sites_of(alloc: Global, masks: &[MaskAt]) -> Result<Vec<Site>, Memory>
    ensures { IfOk result (λ v. v.items ≡ map (λ (m : Masked). m.site) masks.now) }
{
    let mut sites = Vec::with_capacity(alloc, masks.len())?;
    for listed in masks {
        sites.push(listed.site)?;
    }
    Ok(sites)
}

/// What properties and masks are listed of.
pub(crate) fn listing(
    alloc: Global,
    heap: &[PropertyAt],
    masks: &[MaskAt],
) -> Result<Listed, Memory>
    ensures pairs { IfOk result (λ l. l.pairs.items ≡ map property_pair heap.now) }
    ensures sites { IfOk result (λ l. l.sites.items ≡ map (λ (m : Masked). m.site) masks.now) }
{
    let pairs = pairs_of(alloc, heap)?;
    let sites = sites_of(alloc, masks)?;
    Ok(Listed { pairs, sites })
}

// ---- whether it is listed again

/// The place of a property of a label and a key among others, at a place or behind it.
fn pair_place(heap: &[PropertyAt], from: usize, pair: Pair) -> Option<usize>
    ensures { IfSome result (λ _. IsTrue (lists_pair heap.now pair)) }
{
    for place in from..heap.len() {
        if is_at(&heap[place], pair) {
            return Some(place);
        }
    }
    None
}

/// Whether properties are told to be of each of some labels with keys, where both are in order.
fn list_pairs(heap: &[PropertyAt], pairs: &[Pair]) -> bool
    ensures { IsTrue result
        → AllByRecursion (λ (pair : Paired). IsTrue (lists_pair heap.now pair)) pairs.now }
{
    let mut from = 0;
    for pair in pairs {
        let Some(place) = pair_place(heap, from, *pair) else {
            return false;
        };
        from = place;
    }
    true
}

/// The place of a mask of a site among others, at a place or behind it.
fn site_place(masks: &[MaskAt], from: usize, site: Site) -> Option<usize>
    ensures { IfSome result (λ _. IsTrue (lists_site masks.now site)) }
{
    for place in from..masks.len() {
        if masks[place].site.0 == site.0 {
            return Some(place);
        }
    }
    None
}

/// Whether masks are told to be of each of some sites, where both are in order.
fn list_sites(masks: &[MaskAt], sites: &[Site]) -> bool
    ensures { IsTrue result
        → AllByRecursion (λ (site : At). IsTrue (lists_site masks.now site)) sites.now }
{
    let mut from = 0;
    for site in sites {
        let Some(place) = site_place(masks, from, *site) else {
            return false;
        };
        from = place;
    }
    true
}

// ---- the beginning

/// How many registers a function has.
fn register_count(program: &Program, function: FnId) -> u32
    ensures { result ≡ registers_of program.now function }
{
    match program.functions.as_slice().get(function.0 as usize) {
        Some(function) => function.registers,
        None => 0,
    }
}

/// So many values, each undefined.
fn undefined_values(alloc: Global, count: u32) -> Result<Vec<AValue>, Memory>
    ensures values { IfOk result (λ v. register_in v.items ≡ (λ r. undefined_value)) }
    ensures len { IfOk result (λ v. vec_len v ≡ count) }
{
    let mut values = Vec::with_capacity(alloc, count as usize)?;
    for _register in 0..count {
        values.push(AValue::undefined(alloc))?;
    }
    Ok(values)
}

/// The state of a function of which nothing is listed.
fn plain_state(alloc: Global, program: &Program, function: FnId) -> Result<AState, Memory>
    requires { IsWellFormed program.now }
    ensures state { IfOk result (λ s. state_of s ≡ plain_state) }
    ensures shape { IfOk result (IsStateOf program.now (registers_of program.now function)) }
{
    let registers = undefined_values(alloc, register_count(program, function))?;
    let sites = program.sites.len() as u32;
    let names = program.names.len() as u32;
    let state = AState::entry(alloc, registers, sites, names)?;
    Ok(state)
}

/// The state of a function with the heap of another one of its states, and no registers listed.
fn with_heap(
    alloc: Global,
    program: &Program,
    function: FnId,
    other: &AState,
) -> Result<AState, Memory>
    requires { IsStateOf program.now (registers_of program.now function) other.now }
    ensures state { IfOk result (λ s. state_of s ≡ with_heap_of (state_of other.now)) }
    ensures shape { IfOk result (IsStateOf program.now (registers_of program.now function)) }
{
    let registers = undefined_values(alloc, register_count(program, function))?;
    let heap = other.heap.fork()?;
    Ok(AState { registers, heap })
}

/// The state in which these properties and masks are to be set: once they are, it is as if they had
/// been set where nothing is listed.
pub(crate) fn start(
    alloc: Global,
    program: &Program,
    function: FnId,
    before: Option<Before<'_>>,
    heap: &[PropertyAt],
    masks: &[MaskAt],
) -> Result<AState, Memory>
    requires program { IsWellFormed program.now }
    requires before { IfSome before (IsBefore program.now function) }
    ensures state { IfOk result (λ s. with_masks masks.now (with_properties heap.now (state_of s))
        ≡ with_masks masks.now (with_properties heap.now plain_state)) }
    ensures shape { IfOk result (IsStateOf program.now (registers_of program.now function)) }
{
    if let Some(before) = before {
        if list_pairs(heap, &before.listed.pairs) && list_sites(masks, &before.listed.sites) {
            return with_heap(alloc, program, function, before.state);
        }
    }
    plain_state(alloc, program, function)
}
