//! The state at hand after writes: at the one object of a label, or at all objects of one.

ghost use Rattle.std.specs.Prelude.{◌≡◌, ◌<◌, IfOk, IsTrue, vec_len};
ghost use Rattle.ja_abstract.specs.AbstractValue.{same_label};
ghost use Rattle.ja_abstract.specs.AbstractState.{is_label};
ghost use Rattle.ja_abstract.specs.InProgram.{AreAtKeys};
ghost use Rattle.ja_abstract.specs.Writes.{strong_update, weak_update};
ghost use Rattle.ja_rows.specs.Out.{goes, sets_in};
ghost use Rattle.ja_aheap.specs.Objects.{writes_of};
ghost use Rattle.ja_astate.specs.State.{state_of, HaveOneShape};
ghost use Rattle.ja_value.specs.Value.{value_of};

use crate::given::States;
use crate::stepper::Stepper;
use ja_aheap::Writes;
use ja_astate::AState;
use ja_base::{Label, Memory, NodeId, Reg};
use ja_value::AValue;

impl Stepper<'_> {
    ghost use Rattle.ja_transfer.specs.Outcomes.{at_view, AreAdded};

    /// The state at hand after writes at the one object of a label.
    pub fn strongly(&self, label: Label, writes: Writes) -> Result<AState, Memory>
        requires label { IsTrue (is_label self.now.reader.program.now label) }
        requires keys { AreAtKeys self.now.reader.program.now (writes_of writes) }
        ensures state { IfOk result (λ a. state_of a
            ≡ strong_update (at_view self.now).state label (writes_of writes)) }
        ensures shape { IfOk result (HaveOneShape self.now.reader.state.now) }
    {
        let mut state = self.reader.state.fork(self.reader.alloc)?;
        state.strongly(self.reader.alloc, label, writes)?;
        Ok(state)
    }

    /// Writes at all objects of a label in a state like the one at hand: each write joins.
    pub fn weakly(&self, state: &mut AState, label: Label, writes: Writes) -> Result<(), Memory>
        requires shape { HaveOneShape self.now.reader.state.now state.old }
        requires label { IsTrue (is_label self.now.reader.program.now label) }
        requires keys { AreAtKeys self.now.reader.program.now (writes_of writes) }
        ensures state { IfOk result (λ _. state_of state.new
            ≡ weak_update self.now.reader.program.now (state_of state.old) (same_label label)
            (λ m. writes_of writes)) }
        ensures shape { HaveOneShape self.now.reader.state.now state.new }
    {
        state.weakly(self.reader.alloc, label, writes)
    }

    /// A state of the function at hand goes to a node, if there is reason for it.
    pub fn gives_if(
        &self,
        states: &mut States,
        is_given: bool,
        next: NodeId,
        state: AState,
    ) -> Result<(), Memory>
        requires { HaveOneShape self.now.reader.state.now state }
        ensures { IfOk result (λ _. AreAdded self.now (goes is_given next (state_of state))
            states.old states.new) }
    {
        if !is_given {
            return Ok(());
        }
        self.gives(states, next, state)
    }

    /// A state of the function at hand with a value in a register goes to a node, if the value has
    /// some part.
    pub fn sets_in(
        &self,
        states: &mut States,
        state: AState,
        dst: Reg,
        value: AValue,
        next: NodeId,
    ) -> Result<(), Memory>
        requires dst { dst.0 < vec_len self.now.reader.state.now.registers }
        requires shape { HaveOneShape self.now.reader.state.now state }
        ensures { IfOk result (λ _. AreAdded self.now
            (sets_in (at_view self.now) (state_of state) dst (value_of value) next)
            states.old states.new) }
    {
        if !value.is_present(self.reader.sites) {
            return Ok(());
        }
        let mut state = state;
        state.set_register(dst, value);
        self.gives(states, next, state)
    }
}
