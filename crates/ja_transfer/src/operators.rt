ghost use Rattle.std.specs.Prelude.{◌≡◌, ◌<◌, IfOk, vec_len};
ghost use Rattle.ja_abstract.specs.Reading.{no_demands};
ghost use Rattle.ja_rows.specs.Out.{out, sets};
ghost use Rattle.ja_value.specs.Value.{value_of};
ghost use Rattle.ja_rows.specs.Operators.{transfer_const, transfer_move, transfer_unary, transfer_binary, transfer_branch, transfer_throw};

use crate::given::States;
use crate::outcome::Outcome;
use crate::stepper::Stepper;
use ja_aheap::DemandList;
use ja_base::{Memory, NodeId, Reg};
use ja_graph::{BinaryOp, THROWN, UnaryOp};
use ja_prim::Primitive;
use ja_value::AValue;

impl Stepper<'_> {
    ghost use Rattle.ja_transfer.specs.Outcomes.{at_view, IsOutcome};

    /// The state with a value in a register, and nothing else.
    fn sets_alone(&self, dst: Reg, value: AValue, next: NodeId) -> Result<Outcome, Memory>
        requires { dst.0 < vec_len self.now.reader.state.now.registers }
        ensures { IfOk result (IsOutcome self.now
            (out (sets (at_view self.now) dst (value_of value) next) no_demands)) }
    {
        let mut states = States::new(self.reader.alloc);
        self.sets(&mut states, dst, value, next)?;
        Ok(self.outcome(states, DemandList::new(self.reader.alloc)))
    }

    /// A register is a constant.
    pub fn constant(&self, dst: Reg, value: &Primitive) -> Result<Outcome, Memory>
        requires { dst.0 < vec_len self.now.reader.state.now.registers }
        ensures { IfOk result (IsOutcome self.now
            (transfer_const (at_view self.now) self.now.info.now dst value.now)) }
    {
        let value = AValue::of_primitive(self.reader.alloc, value)?;
        self.sets_alone(dst, value, self.info.next)
    }

    /// A register is another.
    pub fn copies(&self, dst: Reg, src: Reg) -> Result<Outcome, Memory>
        requires dst { dst.0 < vec_len self.now.reader.state.now.registers }
        requires src { src.0 < vec_len self.now.reader.state.now.registers }
        ensures { IfOk result (IsOutcome self.now
            (transfer_move (at_view self.now) self.now.info.now dst src)) }
    {
        let value = self.reader.state.register(src).copy(self.reader.alloc)?;
        self.sets_alone(dst, value, self.info.next)
    }

    /// An operator on one value (11.4).
    pub fn unary(&self, dst: Reg, op: UnaryOp, src: Reg) -> Result<Outcome, Memory>
        requires dst { dst.0 < vec_len self.now.reader.state.now.registers }
        requires src { src.0 < vec_len self.now.reader.state.now.registers }
        ensures { IfOk result (IsOutcome self.now
            (transfer_unary (at_view self.now) self.now.info.now dst op src)) }
    {
        let value = self.unary_value(op, self.reader.state.register(src))?;
        self.sets_alone(dst, value, self.info.next)
    }

    /// An operator on two values (11.5 to 11.10).
    pub fn binary(&self, dst: Reg, op: BinaryOp, a: Reg, b: Reg) -> Result<Outcome, Memory>
        requires dst { dst.0 < vec_len self.now.reader.state.now.registers }
        requires a { a.0 < vec_len self.now.reader.state.now.registers }
        requires b { b.0 < vec_len self.now.reader.state.now.registers }
        ensures { IfOk result (IsOutcome self.now
            (transfer_binary (at_view self.now) self.now.info.now dst op a b)) }
    {
        let a = self.reader.state.register(a);
        let value = self.binary_value(op, a, self.reader.state.register(b))?;
        self.sets_alone(dst, value, self.info.next)
    }

    /// To one node on true, to the other on false.
    pub fn branch(&self, src: Reg) -> Result<Outcome, Memory>
        requires { src.0 < vec_len self.now.reader.state.now.registers }
        ensures { IfOk result (IsOutcome self.now
            (transfer_branch (at_view self.now) self.now.info.now src)) }
    {
        let flags = self.reader.state.register(src).flags;
        let mut states = States::new(self.reader.alloc);
        self.goes(&mut states, flags.is_true, self.info.next)?;
        self.goes(&mut states, flags.is_false, self.info.other)?;
        Ok(self.outcome(states, DemandList::new(self.reader.alloc)))
    }

    /// A value is thrown (12.13).
    pub fn throw(&self, src: Reg) -> Result<Outcome, Memory>
        requires registers { 0 < vec_len self.now.reader.state.now.registers }
        requires src { src.0 < vec_len self.now.reader.state.now.registers }
        ensures { IfOk result (IsOutcome self.now
            (transfer_throw (at_view self.now) self.now.info.now src)) }
    {
        let value = self.reader.state.register(src).copy(self.reader.alloc)?;
        self.sets_alone(THROWN, value, self.info.handler)
    }
}
