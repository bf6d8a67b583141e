ghost use Rattle.std.specs.Prelude.{◌≡◌, ◌<◌, [], ◌∷◌, IfOk, vec_len};
ghost use Rattle.ja_abstract.specs.Resolved.{Demands};
ghost use Rattle.ja_rows.specs.Out.{Given, out, goes, sets, throws, type_error};
ghost use Rattle.ja_aheap.specs.Heap.{heap_of};
ghost use Rattle.ja_aheap.specs.Objects.{demands_in};
ghost use Rattle.ja_astate.specs.State.{state_of, HaveOneShape};
ghost use Rattle.ja_value.specs.Value.{value_of};

use crate::errors::is_short;
use crate::outcome::Outcome;
use crate::stepper::Stepper;
use ja_aheap::DemandList;
use ja_astate::AState;
use ja_base::{Memory, NodeId, Reg, Site};
use ja_graph::TYPE_ERROR_PROTOTYPE;
use ja_prim::{Text16, push_ascii};
use ja_value::AValue;
use std::alloc::Global;

/// States with the nodes that they go to.
#[derive(Drop)]
pub struct States {
    pub list: Vec<(NodeId, AState)>,
}

impl States {
    ghost use Rattle.ja_transfer.specs.Outcomes.{given_of};

    /// No state.
    pub fn new(alloc: Global) -> States
        ensures { given_of result ≡ [] }
    {
        States {
            list: Vec::new(alloc),
        }
    }
}

impl Stepper<'_> {
    ghost use Rattle.ja_transfer.specs.Outcomes.{at_view, AreAdded, AreGiven, IsOutcome};

    /// States, and what is demanded, without a call edge.
    pub fn outcome(&self, states: States, demands: DemandList) -> Outcome
        ensures { (given : Given) → AreGiven self.now given states
            → IsOutcome self.now (out given (demands_in demands)) result }
    {
        Outcome {
            states,
            demands,
            edges: Vec::new(self.reader.alloc),
        }
    }

    /// A state of the function at hand goes to a node.
    pub fn gives(&self, states: &mut States, next: NodeId, state: AState) -> Result<(), Memory>
        requires { HaveOneShape self.now.reader.state.now state }
        ensures { IfOk result (λ _. AreAdded self.now ((next.0, state_of state) ∷ [])
            states.old states.new) }
    {
        states.list.push((next, state))?;
        Ok(())
    }

    /// The state as it is goes to a node, if there is reason for it.
    pub fn goes(&self, states: &mut States, is_given: bool, next: NodeId) -> Result<(), Memory>
        ensures { IfOk result (λ _. AreAdded self.now (goes is_given next (at_view self.now).state)
            states.old states.new) }
    {
        if !is_given {
            return Ok(());
        }
        let state = self.reader.state.fork(self.reader.alloc)?;
        self.gives(states, next, state)
    }

    /// The state with a value in a register goes to a node, if the value has some part.
    pub fn sets(
        &self,
        states: &mut States,
        dst: Reg,
        value: AValue,
        next: NodeId,
    ) -> Result<(), Memory>
        requires { dst.0 < vec_len self.now.reader.state.now.registers }
        ensures { IfOk result (λ _. AreAdded self.now
            (sets (at_view self.now) dst (value_of value) next) states.old states.new) }
    {
        if !value.is_present(self.reader.sites) {
            return Ok(());
        }
        let mut state = self.reader.state.fork(self.reader.alloc)?;
        state.set_register(dst, value);
        self.gives(states, next, state)
    }

    /// The state in which an error was made and thrown goes to the handler, if there is reason for
    /// it and its message isn't too long.
    pub fn throws(
        &self,
        states: &mut States,
        is_thrown: bool,
        error: Site,
        prototype: Site,
        message: Vec<u16>,
    ) -> Result<(), Memory>
        requires registers { 0 < vec_len self.now.reader.state.now.registers }
        requires error { error.0 < (heap_of self.now.reader.state.now.heap).sites }
        ensures { IfOk result (λ _. AreAdded self.now (throws (at_view self.now) is_thrown
            self.now.info.now error prototype message.items) states.old states.new) }
    {
        let is_given = is_thrown & is_short(&message);
        if !is_given {
            return Ok(());
        }
        let message = Text16::from_units(self.reader.alloc, message)?;
        let state = self.with_error(error, prototype, message)?;
        self.gives(states, self.info.handler, state)
    }

    /// The state in which a TypeError was made and thrown goes to the handler, if there is reason
    /// for it. Its message has a unit for each byte.
    pub fn type_error(
        &self,
        states: &mut States,
        is_thrown: bool,
        error: Site,
        message: &[u8],
    ) -> Result<(), Memory>
        requires registers { 0 < vec_len self.now.reader.state.now.registers }
        requires error { error.0 < (heap_of self.now.reader.state.now.heap).sites }
        ensures { IfOk result (λ _. AreAdded self.now (type_error (at_view self.now) is_thrown
            self.now.info.now error message.now) states.old states.new) }
    {
        if !is_thrown {
            return Ok(());
        }
        let mut units = Vec::new(self.reader.alloc);
        push_ascii(&mut units, message)?;
        self.throws(states, true, error, TYPE_ERROR_PROTOTYPE, units)
    }
}
