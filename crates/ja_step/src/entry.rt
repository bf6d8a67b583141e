//! How a function is entered (ES3 10.2.3, 13.2.1): its registers, and its frame above its caller's.

ghost use Rattle.std.specs.Prelude.{◌≡◌, ◌+◌, ◌++◌, ◌∷◌, ◌<◌, ◌-◌, ◌^◌, IfOk, OnOk, map, replicate};
ghost use Rattle.std.specs.List.{range_with_len};
ghost use Rattle.ja_machine.specs.Calls.{chain_of};
ghost use Rattle.ja_machine.specs.Events.{next_state};
ghost use Rattle.ja_machine.specs.Frames as frames;
ghost use Rattle.ja_machine.specs.Frames.{undefined};
ghost use Rattle.ja_step.specs.code.Steps.{frame_of, conf_of, leads_to};

use crate::scopes::parameters_of;
use crate::{Conf, Frame};
use ja_base::{FnId, Memory, NodeId};
use ja_graph::{GLOBAL, Program};
use ja_machine::{Addr, End, Value};
use ja_operations::arguments::{argument, argument_count, object_or_undefined};
use ja_operations::made::first_of;
use ja_prim::Primitive;
use std::alloc::Global;
use std::mem;

/// How many registers a function has.
fn registers_of(program: &Program, function: FnId) -> u64
    ensures { result ≡ frames.registers_of program.now function }
{
    match program.functions.as_slice().get(function.0 as usize) {
        Some(function) => u64::from(function.registers),
        None => 0,
    }
}

/// Adds the parameters: an argument that is missing is undefined.
fn push_parameters(
    alloc: Global,
    registers: &mut Vec<Value>,
    parameters: u64,
    arguments: &[Value],
) -> Result<(), Memory>
    ensures { OnOk result (registers.new.items ≡ registers.old.items
        ++ map (frames.argument arguments.now) (range_with_len 0 parameters)) }
{
    for index in 0..parameters {
        let value = argument(alloc, arguments, index as usize)?;
        registers.push(value)?;
    }
    Ok(())
}

/// Adds registers that are undefined.
fn push_undefined(registers: &mut Vec<Value>, count: u64) -> Result<(), Memory>
    ensures { OnOk result (registers.new.items ≡ registers.old.items ++ replicate count undefined) }
{
    for _register in 0..count {
        registers.push(Value::Primitive(Primitive::Undefined))?;
    }
    Ok(())
}

/// The registers with which a function is entered: `thrown`, `this`, `scope`, `callee`, `count`,
/// the parameters, the rest of the arguments and the temporaries.
fn entry_registers(
    alloc: Global,
    program: &Program,
    function: FnId,
    receiver: Addr,
    callee: Option<Addr>,
    chain: Addr,
    arguments: &[Value],
) -> Result<Vec<Value>, Memory>
    ensures { IfOk result (λ registers. registers.items
        ≡ frames.entry_registers (frames.registers_of program.now function)
        (frames.parameters_of program.now function) receiver callee chain arguments.now) }
{
    let parameters = parameters_of(program, function);
    let size = registers_of(program, function);
    let temporaries = size.saturating_sub(5).saturating_sub(parameters);
    let count = argument_count(arguments)?;
    let mut registers = Vec::with_capacity(alloc, size as usize)?;
    registers.push(Value::Primitive(Primitive::Undefined))?;
    registers.push(Value::Object(receiver))?;
    registers.push(Value::Object(chain))?;
    registers.push(object_or_undefined(callee))?;
    registers.push(count)?;
    push_parameters(alloc, &mut registers, parameters, arguments)?;
    push_undefined(&mut registers, temporaries)?;
    Ok(registers)
}

/// The frame of a function that is entered after so many steps.
pub(crate) fn entered(
    alloc: Global,
    program: &Program,
    steps: u64,
    function: FnId,
    receiver: Addr,
    callee: Option<Addr>,
    chain: Addr,
    arguments: Vec<Value>,
) -> Result<Frame, Memory>
    ensures { IfOk result (λ frame. frame_of frame
        ≡ frames.entered program.now steps function receiver callee chain arguments.items) }
{
    let registers = entry_registers(
        alloc, program, function, receiver, callee, chain, &arguments,
    )?;
    Ok(Frame {
        function,
        node: NodeId(0),
        born: steps,
        receiver,
        callee,
        scope: chain,
        arguments,
        registers,
        lists: Vec::new(alloc),
    })
}

impl Conf {
    /// The scope chain of a function object (`[[Scope]]`).
    fn chain_of(&self, callee: Option<Addr>) -> Addr
        ensures { result ≡ chain_of self.now.heap callee }
    {
        let Some(callee) = callee else {
            return first_of(GLOBAL);
        };
        match self.heap.object(callee) {
            Some(object) => object.scope().unwrap_or(first_of(GLOBAL)),
            None => first_of(GLOBAL),
        }
    }

    /// A function is entered; its caller stays at its node.
    pub(crate) fn enters(
        &mut self,
        alloc: Global,
        program: &Program,
        function: FnId,
        receiver: Addr,
        callee: Option<Addr>,
        arguments: Vec<Value>,
    ) -> Result<Option<End>, Memory>
        requires { self.old.steps < 2 ^ 64 - 1 }
        ensures { let c = conf_of self.old in
            IfOk result (λ end. leads_to self.old end self.new
            ≡ next_state c c.heap (frames.entered program.now (c.steps + 1) function receiver callee
            (chain_of c.heap callee) arguments.items ∷ c.frames)) }
    {
        let chain = self.chain_of(callee);
        let steps = self.steps + 1;
        let frame = entered(
            alloc, program, steps, function, receiver, callee, chain, arguments,
        )?;
        let caller = mem::replace(&mut self.frame, frame);
        self.below.push(caller)?;
        Ok(None)
    }
}
