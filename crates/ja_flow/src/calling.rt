//! The state of a caller at a node.

ghost use Rattle.std.specs.Prelude.{◌≡◌, ◌<◌, ◌&&◌, ◌||◌, IfOk, IfSome, vec_len};
ghost use Rattle.ja_graph.specs.declared.builtins.TheConstants as builtins;
ghost use Rattle.ja_abstract.specs.AbstractState.{aged, new};
ghost use Rattle.ja_abstract.specs.AbstractValue.{join, of_label, of_labels, same_label};
ghost use Rattle.ja_abstract.specs.Made.{constructed_own};
ghost use Rattle.ja_abstract.specs.Reading.{demands_of_get, get};
ghost use Rattle.ja_abstract.specs.Values.{has_non_object, value_if};
ghost use Rattle.ja_rows.specs.Calls as spec;
ghost use Rattle.ja_rows.specs.Edges.{runs};
ghost use Rattle.ja_rows.specs.Properties.{prototype_keys};
ghost use Rattle.ja_aheap.specs.Heap.{heap_of};
ghost use Rattle.ja_aheap.specs.Objects.{own_in};
ghost use Rattle.ja_astate.specs.State.{state_of, HaveOneShape};
ghost use Rattle.ja_astate.specs.Looks.{view_of, IsLooked};
ghost use Rattle.ja_transfer.specs.code.Callees.{entry_by};
ghost use Rattle.ja_value.specs.Value.{labels_in, value_of};
ghost use Rattle.ja_flow.specs.Flow.{IsCaller};
ghost use Rattle.ja_flow.specs.code.Calling.{callee_of, running_among, IsCalling, IsConstructing};

use crate::Caller;
use ja_abstract::{Key, Slot};
use ja_aheap::{DemandList, Made};
use ja_astate::{AState, Looked, Reader};
use ja_base::{FnId, Label, Memory, Reg, Site};
use ja_graph::{Node, OBJECT_PROTOTYPE, Program};
use ja_prim::Text16;
use ja_transfer::{Entry, entry_at};
use ja_value::{AProp, AValue, LabelSet};
use std::alloc::Global;

/// The caller's state at the node, after the object of a construction is made, and what this takes
/// from the caller's entry.
#[derive(Drop)]
pub struct Calling {
    /// The state, where it isn't the caller's own.
    made: Option<AState>,
    /// The pairs of the caller's entry that are demanded.
    pub demands: DemandList,
}

impl Calling {
    ghost use Rattle.ja_flow.specs.code.Calling.{state_in};

    /// The state, where that of the caller is lent.
    pub(crate) fn state<'a>(&'a self, own: &'a AState) -> &'a AState
        ensures { result.now ≡ state_in own.now self.now }
    {
        match &self.made {
            Some(made) => made,
            None => own,
        }
    }

    /// Reads the state, with the values at the caller's entry.
    pub(crate) fn reader<'a>(&'a self, caller: Reader<'a>) -> Reader<'a>
        requires { HaveOneShape caller.state.now (state_in caller.state.now self.now) }
        ensures view { view_of result ≡ record (view_of caller.entry) {
          state = state_of (state_in caller.entry.state.now self.now);
        } }
        ensures state { result.state.now ≡ state_in caller.entry.state.now self.now }
    {
        Reader {
            alloc: caller.alloc,
            program: caller.program,
            keys: caller.keys,
            sites: caller.sites,
            state: self.state(caller.state),
            entries: caller.entries,
        }
    }
}

/// The register of the callee, and how it runs a function, where a node calls or constructs.
fn callee_of(node: &Node) -> Option<(Entry, Reg)>
    ensures { result ≡ callee_of node.now }
{
    match node {
        Node::Call { callee, .. } => Some((Entry::Call, *callee)),
        Node::New { callee, .. } => Some((Entry::Construct, *callee)),
        _ => None,
    }
}

/// Whether the objects of a label run a function.
fn runs(program: &Program, entry: Entry, function: FnId, label: Label) -> bool
    ensures { result ≡ runs (entry_by entry program.now) function.0 label }
{
    match entry_at(program, entry, label) {
        Some(called) => called.0 == function.0,
        None => false,
    }
}

/// Adds a label if its objects run a function.
fn add_running(
    program: &Program,
    entry: Entry,
    function: FnId,
    labels: &mut LabelSet,
    label: Label,
) -> Result<(), Memory>
    ensures { IfOk result (λ _. labels_in labels.new ≡ (λ l. labels_in labels.old l
        || (runs (entry_by entry program.now) function.0 label && same_label label l))) }
{
    if runs(program, entry, function, label) {
        labels.insert(label)?;
    }
    Ok(())
}

/// Those of some labels whose objects run a function.
fn running(
    alloc: Global,
    program: &Program,
    entry: Entry,
    function: FnId,
    members: &[Label],
) -> Result<LabelSet, Memory>
    ensures { IfOk result (λ s. labels_in s
        ≡ running_among program.now entry function.0 members.now) }
{
    let mut labels = LabelSet::new(alloc);
    for label in members {
        add_running(program, entry, function, &mut labels, *label)?;
    }
    Ok(labels)
}

/// The callees at a node that run a function.
pub(crate) fn callees(reader: &Reader<'_>, node: &Node, function: FnId) -> Result<LabelSet, Memory>
    requires { IfSome (callee_of node.now) (λ c. c.1.0 < vec_len reader.now.state.now.registers) }
    ensures { IfOk result (λ s. labels_in s ≡ spec.callees reader.now.program.now
        (view_of reader.now).state node.now function.0) }
{
    let Some((entry, callee)) = callee_of(node) else {
        return Ok(LabelSet::new(reader.alloc));
    };
    let members = reader.labels(&reader.state.register(callee).labels)?;
    running(reader.alloc, reader.program, entry, function, &members)
}

/// What the objects of some labels have at `prototype`.
fn prototype_of(reader: &Reader<'_>, functions: &LabelSet) -> Result<Looked, Memory>
    ensures { IfOk result (IsLooked
        (get (view_of reader.now) (labels_in functions.now) (prototype_keys reader.now.program.now))
        (demands_of_get (view_of reader.now) (labels_in functions.now)
        (prototype_keys reader.now.program.now))) }
{
    let text = Text16::from_ascii(reader.alloc, b"prototype")?;
    let key = reader.keys.text_key(&text);
    reader.get(functions, &[key])
}

/// What an object inherits from by a `prototype`: its objects, and the one that all objects inherit
/// from where it may be none.
fn inherited(alloc: Global, prototype: &AValue) -> Result<AValue, Memory>
    ensures { IfOk result (λ v. value_of v ≡ join
        (value_if (has_non_object (value_of prototype.now))
        (of_label (new builtins.OBJECT_PROTOTYPE))) (of_labels (value_of prototype.now).label)) }
{
    let objects = AValue::of_labels(alloc, prototype.labels.copy()?);
    if !prototype.has_non_object() {
        return Ok(objects);
    }
    let label = Label {
        site: OBJECT_PROTOTYPE,
        old: false,
    };
    let mut all = AValue::of_label(alloc, label)?;
    all.join(alloc, &objects)?;
    Ok(all)
}

/// The object of a construction at a site: what it inherits from is all that it has.
fn constructed(alloc: Global, site: Site, prototype: &AValue) -> Result<Made, Memory>
    ensures { IfOk result (λ m. own_in m
        ≡ constructed_own (aged site (value_of prototype.now))) }
{
    let mut listed = Vec::new(alloc);
    let prototype = prototype.aged(alloc, site)?;
    listed.push((Key::Slot(Slot::Prototype), AProp::bare(prototype)))?;
    Ok(Made { listed })
}

/// The state after the object of a construction is made.
fn constructing(
    reader: &Reader<'_>,
    node: &Node,
    function: FnId,
    site: Site,
) -> Result<Calling, Memory>
    requires callee { IfSome (callee_of node.now)
        (λ c. c.1.0 < vec_len reader.now.state.now.registers) }
    requires site { site.0 < (heap_of reader.now.state.now.heap).sites }
    ensures { IfOk result (λ c. IsConstructing reader.now node.now function.0 site c) }
{
    let alloc = reader.alloc;
    let functions = callees(reader, node, function)?;
    let Looked { property, demands } = prototype_of(reader, &functions)?;
    let prototype = inherited(alloc, &property.value)?;
    let made = constructed(alloc, site, &prototype)?;
    let state = reader.state.with_object(alloc, site, made)?;
    Ok(Calling {
        made: Some(state),
        demands,
    })
}

/// The caller's state at the node of an edge, after the object of a construction is made.
pub fn calling_of(caller: &Caller<'_>) -> Result<Calling, Memory>
    requires { IsCaller caller.now }
    ensures { IfOk result (IsCalling caller.now) }
{
    let reader = &caller.reader;
    match &caller.info.node {
        Node::New { site, .. } => {
            constructing(
                reader,
                &caller.info.node,
                caller.edge.callee.function,
                *site,
            )
        }
        _ => Ok(Calling {
            made: None,
            demands: DemandList::new(reader.alloc),
        }),
    }
}
