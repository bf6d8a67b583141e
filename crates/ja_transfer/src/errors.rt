ghost use Rattle.std.specs.Prelude.{◌≡◌, ◌<◌, IfOk, length, vec_len};
ghost use Rattle.ja_prim.specs.Texts.{is_short};
ghost use Rattle.ja_machine.specs.Events.{unbound_message};
ghost use Rattle.ja_machine.specs.Nodes.{name_text};
ghost use Rattle.ja_abstract.specs.Made.{error_own};
ghost use Rattle.ja_rows.specs.Out.{with_error};
ghost use Rattle.ja_aheap.specs.Heap.{heap_of};
ghost use Rattle.ja_aheap.specs.Objects.{own_in};
ghost use Rattle.ja_astate.specs.State.{state_of, HaveOneShape};

use crate::stepper::Stepper;
use ja_abstract::{Key, Slot};
use ja_aheap::Made;
use ja_astate::AState;
use ja_base::{Label, Memory, NameId, Site};
use ja_graph::{MESSAGE, NO_ATTRS, Program, THROWN};
use ja_prim::{MAX_UNITS, Text16, push_ascii};
use ja_value::{AProp, AValue, exact_attrs, unknown_attrs};
use std::alloc::Global;

/// What the message of a ReferenceError says after the name.
const IS_NOT_BOUND: &[u8] = b" is not bound";

impl Stepper<'_> {
    ghost use Rattle.ja_transfer.specs.Outcomes.{at_view};

    /// The state in which an error was made and thrown.
    pub(crate) fn with_error(
        &self,
        error: Site,
        prototype: Site,
        message: Text16,
    ) -> Result<AState, Memory>
        requires registers { 0 < vec_len self.now.reader.state.now.registers }
        requires error { error.0 < (heap_of self.now.reader.state.now.heap).sites }
        ensures state { IfOk result (λ a. state_of a
            ≡ with_error (at_view self.now) error prototype message) }
        ensures shape { IfOk result (HaveOneShape self.now.reader.state.now) }
    {
        let alloc = self.reader.alloc;
        let thrown = AValue::of_label(
            alloc,
            Label {
                site: error,
                old: false,
            },
        )?;
        let made = error_made(alloc, prototype, message)?;
        let mut state = self.reader.state.with_object(alloc, error, made)?;
        state.set_register(THROWN, thrown);
        Ok(state)
    }
}

/// Whether units aren't too many for a text.
pub(crate) fn is_short(units: &[u16]) -> bool
    ensures { result ≡ is_short units.now }
{
    units.len() <= MAX_UNITS
}

/// An error that is to be made: its prototype, and its message (ES3 15.11).
fn error_made(alloc: Global, prototype: Site, message: Text16) -> Result<Made, Memory>
    ensures { IfOk result (λ m. own_in m ≡ error_own prototype message) }
{
    let prototype = AValue::of_label(
        alloc,
        Label {
            site: prototype,
            old: false,
        },
    )?;
    let inherits = AProp {
        value: prototype,
        attrs: unknown_attrs(),
    };
    let message = AProp {
        value: AValue::of_text(alloc, message),
        attrs: exact_attrs(NO_ATTRS),
    };
    let mut listed = Vec::new(alloc);
    listed.push((Key::Slot(Slot::Prototype), inherits))?;
    listed.push((Key::Name(MESSAGE), message))?;
    Ok(Made { listed })
}

/// The units of the message that a name isn't bound. They may be too many for a text.
pub(crate) fn unbound_message(
    alloc: Global,
    program: &Program,
    name: NameId,
) -> Result<Vec<u16>, Memory>
    requires { name.0 < length program.now.names }
    ensures { IfOk result (λ units. units.items ≡ unbound_message (name_text program.now name)) }
{
    let mut units = program.names.as_slice()[name.0 as usize]
        .units()
        .to_vec(alloc)?;
    push_ascii(&mut units, IS_NOT_BOUND)?;
    Ok(units)
}
