ghost use Rattle.std.specs.Prelude.{◌≡◌, IfOk};
ghost use Rattle.ja_machine.specs.Frames.{register_of, with_register};

use ja_base::{FnId, Memory, NodeId, Reg};
use ja_machine::{Addr, Value};
use ja_operations::copies::copy_value;
use ja_prim::{Primitive, Text16};
use std::alloc::Global;
use std::collections::VecDeque;

/// The names that remain to a `for`-`in`, by the number of its list.
#[derive(Drop)]
pub struct Listed {
    pub list: Reg,
    pub names: VecDeque<Text16>,
}

/// The function that runs: the node that it stands at, the number of steps made at its entry, the
/// receiver, the function object if it has one, the scope chain and the arguments with which it was
/// entered, its registers, and the names that remain to its `for`-`in`s.
#[derive(Drop)]
pub struct Frame {
    pub function: FnId,
    pub node: NodeId,
    pub born: u64,
    pub receiver: Addr,
    pub callee: Option<Addr>,
    pub scope: Addr,
    pub arguments: Vec<Value>,
    pub registers: Vec<Value>,
    pub lists: Vec<Listed>,
}

impl Frame {
    ghost use Rattle.ja_step.specs.code.Steps.{frame_of, or_undefined};

    /// What a register holds. One that there isn't is undefined.
    pub fn register(&self, register: Reg) -> Option<&Value>
        ensures { or_undefined result ≡ register_of (frame_of self.now) register }
    {
        self.registers.get(register.0 as usize)
    }

    /// What a register holds, in memory of its own.
    pub fn held(&self, alloc: Global, register: Reg) -> Result<Value, Memory>
        ensures { IfOk result (λ v. v ≡ register_of (frame_of self.now) register) }
    {
        match self.register(register) {
            Some(value) => copy_value(alloc, value),
            None => Ok(Value::Primitive(Primitive::Undefined)),
        }
    }

    /// Sets a register, if there is one of this number.
    pub fn set_register(&mut self, register: Reg, value: Value)
        ensures { frame_of self.new ≡ with_register (frame_of self.old) register value }
    {
        if let Some(slot) = self.registers.get_mut(register.0 as usize) {
            *slot = value;
        }
    }
}
