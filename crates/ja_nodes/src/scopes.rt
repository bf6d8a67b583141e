//! The rows of scopes (ES3 12.14, 13).

ghost use Rattle.std.specs.Prelude.{◌≡◌, ◌<◌, ◌==◌, not, IfOk, IsTrue, All, length, vec_len};
ghost use Rattle.ja_base.specs.declared.ids.Label.{Label};
ghost use Rattle.ja_machine.specs.Nodes.{bound_attrs};
ghost use Rattle.ja_abstract.specs.AbstractState.{is_label, is_key};
ghost use Rattle.ja_rows.specs.Out.{goes};
ghost use Rattle.ja_rows.specs.Scopes.{transfer_bind, transfer_push_scope};
ghost use Rattle.ja_aheap.specs.Heap.{heap_of};
ghost use Rattle.ja_value.specs.Value.{property_of};
ghost use Rattle.ja_transfer.specs.Outcomes.{at_view, AreAdded, IsOutcome};
ghost use Rattle.ja_transfer.specs.code.Declares.{defined_over};

use crate::made::scope_made;
use crate::objects::makes;
use ja_abstract::Key;
use ja_aheap::DemandList;
use ja_base::{Label, Memory, NameId, Reg, Site};
use ja_graph::{Attrs, DONT_DELETE, SCOPE};
use ja_transfer::{Outcome, States, Stepper};
use ja_value::AProp;

/// The attributes of a name that is defined.
fn bound_attrs(read_only: bool) -> Attrs
    ensures { result ≡ bound_attrs read_only }
{
    Attrs {
        read_only,
        ..DONT_DELETE
    }
}

/// The state in which a property was defined at some labels of the program goes to the next node,
/// if there are some.
fn defines(
    stepper: &Stepper<'_>,
    states: &mut States,
    members: &[Label],
    key: Key,
    property: AProp,
) -> Result<(), Memory>
    requires members { All (λ (l : Label). IsTrue (is_label stepper.now.reader.program.now l))
        members.now }
    requires key { IsTrue (is_key stepper.now.reader.program.now key) }
    ensures { IfOk result (λ _. AreAdded stepper.now (goes (not (length members.now == 0))
        stepper.now.info.now.next (defined_over (at_view stepper.now) members.now key
        (property_of property))) states.old states.new) }
{
    if members.is_empty() {
        return Ok(());
    }
    let state = stepper.defined(members, key, property)?;
    stepper.gives(states, stepper.info.next, state)
}

/// A name is defined at the object in `scope` (10.1.3, 12.14, 13).
pub(crate) fn bind(
    stepper: &Stepper<'_>,
    name: NameId,
    src: Reg,
    read_only: bool,
) -> Result<Outcome, Memory>
    requires scope { 2 < vec_len stepper.now.reader.state.now.registers }
    requires src { src.0 < vec_len stepper.now.reader.state.now.registers }
    requires name { name.0 < length stepper.now.reader.program.now.names }
    ensures { IfOk result (IsOutcome stepper.now
        (transfer_bind (at_view stepper.now) stepper.now.info.now name src read_only)) }
{
    let reader = &stepper.reader;
    let members = reader.labels(&reader.state.register(SCOPE).labels)?;
    let value = reader.state.register(src).copy(reader.alloc)?;
    let property = AProp::with_attrs(value, bound_attrs(read_only));
    let mut states = States::new(reader.alloc);
    defines(stepper, &mut states, &members, Key::Name(name), property)?;
    Ok(stepper.outcome(states, DemandList::new(reader.alloc)))
}

/// An object more before the scope chain (12.14, 13).
pub(crate) fn push_scope(stepper: &Stepper<'_>, site: Site) -> Result<Outcome, Memory>
    requires scope { 2 < vec_len stepper.now.reader.state.now.registers }
    requires site { site.0 < (heap_of stepper.now.reader.state.now.heap).sites }
    ensures { IfOk result (IsOutcome stepper.now
        (transfer_push_scope (at_view stepper.now) stepper.now.info.now site)) }
{
    let alloc = stepper.reader.alloc;
    let mut chain = stepper.reader.state.register(SCOPE).labels.copy()?;
    chain.age(site)?;
    let state = makes(stepper, SCOPE, site, scope_made(alloc, chain)?)?;
    let mut states = States::new(alloc);
    stepper.gives(&mut states, stepper.info.next, state)?;
    Ok(stepper.outcome(states, DemandList::new(alloc)))
}
