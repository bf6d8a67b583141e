ghost use Rattle.std.specs.Prelude.{◌≡◌, ◌<◌, IfOk, IfSome, vec_len};
ghost use Rattle.ja_graph.specs.declared.node.Args.{Args};
ghost use Rattle.ja_machine.specs.Calls.{default_function};
ghost use Rattle.ja_abstract.specs.AbstractValue.{join, of_labels};
ghost use Rattle.ja_abstract.specs.Values.{value_if, primitives_of};
ghost use Rattle.ja_rows.specs.Edges.{transfer_convert, transfer_call, is_kept, is_converted};
ghost use Rattle.ja_aheap.specs.Heap.{heap_of};
ghost use Rattle.ja_value.specs.Value.{value_of};

use crate::given::States;
use crate::outcome::Outcome;
use crate::sites::{Entry, some_without};
use crate::stepper::Stepper;
use crate::values::join_if;
use ja_aheap::DemandList;
use ja_base::{FnId, Memory, Reg, Site};
use ja_graph::{Hint, Program};
use ja_value::AValue;

/// What the TypeError says of a callee that runs no function.
const NOT_A_FUNCTION: &[u8] = b"call of a value that is not a function";

/// The function that gives default values of a kind.
fn default_function(program: &Program, hint: Hint) -> FnId
    ensures { result ≡ default_function program.now hint }
{
    match hint {
        Hint::Number => program.value_first,
        Hint::Text => program.text_first,
    }
}

impl Stepper<'_> {
    ghost use Rattle.ja_transfer.specs.Outcomes.{at_view, point_of, IsOutcome};

    /// Whether an object may stay as it is beside another operand: an object, undefined or null
    /// (11.9.3).
    fn is_kept(&self, other: Option<Reg>) -> bool
        requires { IfSome other (λ r. r.0 < vec_len self.now.reader.state.now.registers) }
        ensures { result ≡ is_kept (at_view self.now) other }
    {
        match other {
            None => false,
            Some(other) => {
                let other = self.reader.state.register(other);
                other.has_labels(self.reader.sites) | other.has_nullish()
            }
        }
    }

    /// Whether the default value of an object may be asked for beside another operand.
    fn is_converted(&self, other: Option<Reg>) -> Result<bool, Memory>
        requires { IfSome other (λ r. r.0 < vec_len self.now.reader.state.now.registers) }
        ensures { IfOk result (λ b. b ≡ is_converted (at_view self.now) other) }
    {
        let Some(other) = other else {
            return Ok(true);
        };
        let mut value = self
            .reader
            .state
            .register(other)
            .primitives_of(self.reader.alloc)?;
        value.flags.undefined = false;
        value.flags.null = false;
        Ok(value.has_atoms())
    }

    /// The primitives of a value, and its objects where they are kept.
    fn unconverted(&self, value: &AValue, is_kept: bool) -> Result<AValue, Memory>
        ensures { IfOk result (λ v. value_of v ≡ join
            (value_if is_kept (of_labels (value_of value.now).label))
            (primitives_of (value_of value.now))) }
    {
        let alloc = self.reader.alloc;
        let objects = AValue::of_labels(alloc, value.labels.copy()?);
        let primitives = value.primitives_of(alloc)?;
        join_if(alloc, is_kept, objects, primitives)
    }

    /// ToPrimitive (9.1), beside another operand where there is one.
    pub fn convert(
        &self,
        dst: Reg,
        src: Reg,
        kind: Hint,
        other: Option<Reg>,
    ) -> Result<Outcome, Memory>
        requires dst { dst.0 < vec_len self.now.reader.state.now.registers }
        requires src { src.0 < vec_len self.now.reader.state.now.registers }
        requires other { IfSome other
            (λ r. r.0 < vec_len self.now.reader.state.now.registers) }
        ensures { IfOk result (IsOutcome self.now
            (transfer_convert (at_view self.now) (point_of self.now) self.now.info.now dst src kind
            other)) }
    {
        let value = self.reader.state.register(src);
        let function = default_function(self.reader.program, kind);
        let edges = self.edges_if(self.is_converted(other)?, function, &value.labels)?;
        let value = self.unconverted(value, self.is_kept(other))?;
        let mut states = States::new(self.reader.alloc);
        self.sets(&mut states, dst, value, self.info.next)?;
        Ok(Outcome {
            states,
            demands: DemandList::new(self.reader.alloc),
            edges,
        })
    }

    /// A call (11.2.3): what runs no function throws a TypeError, and each function that is run has
    /// an edge for each receiver.
    pub fn call(&self, callee: Reg, receiver: Reg, error: Site) -> Result<Outcome, Memory>
        requires callee { callee.0 < vec_len self.now.reader.state.now.registers }
        requires receiver { receiver.0 < vec_len self.now.reader.state.now.registers }
        requires registers { 0 < vec_len self.now.reader.state.now.registers }
        requires error { error.0 < (heap_of self.now.reader.state.now.heap).sites }
        ensures { IfOk result (λ o. (dst : Reg) (args : Args) → IsOutcome self.now
            (transfer_call (at_view self.now) (point_of self.now) self.now.info.now dst callee
            receiver args error) o) }
    {
        let callee = self.reader.state.register(callee);
        let callees = self.reader.labels(&callee.labels)?;
        let is_other = callee.has_atoms()
            | some_without(self.reader.program, Entry::Call, &callees);
        let edges = self.call_edges(&callees, self.reader.state.register(receiver))?;
        let mut states = States::new(self.reader.alloc);
        self.type_error(&mut states, is_other, error, NOT_A_FUNCTION)?;
        Ok(Outcome {
            states,
            demands: DemandList::new(self.reader.alloc),
            edges,
        })
    }
}
