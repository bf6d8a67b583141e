//! The node that asks for the default value of an object (ES3 8.6.2.6).

ghost use Rattle.std.specs.Prelude.{◌≡◌, ◌<◌, ◌-◌, ◌^◌, IfOk};
ghost use Rattle.std.specs.Option.{option_map};
ghost use Rattle.ja_machine.specs.Calls as calls;
ghost use Rattle.ja_step.specs.code.Steps.{held, standing, leads_to};

use crate::Conf;
use ja_base::{FnId, Memory, Reg};
use ja_graph::{Hint, NodeInfo, Program};
use ja_machine::{End, Value};
use ja_prim::Primitive;
use std::alloc::Global;

/// The function that gives default values of a kind.
fn default_function(program: &Program, hint: Hint) -> FnId
    ensures { result ≡ calls.default_function program.now hint }
{
    match hint {
        Hint::Number => program.value_first,
        Hint::Text => program.text_first,
    }
}

impl Conf {
    /// Whether an object stays as it is beside the other operand of an equality: an object,
    /// undefined or null (11.9.3).
    fn stays_beside(&self, other: Option<Reg>) -> bool
        ensures { result ≡ calls.stays (option_map (held self.now) other) }
    {
        let Some(other) = other else {
            return false;
        };
        match self.frame.register(other) {
            None | Some(Value::Object(_)) => true,
            Some(Value::Primitive(Primitive::Undefined | Primitive::Null)) => true,
            Some(Value::Primitive(_)) => false,
        }
    }

    /// The default value of an object, which a function gives, and a primitive value itself.
    pub(crate) fn converts(
        &mut self,
        alloc: Global,
        program: &Program,
        info: &NodeInfo,
        dst: Reg,
        src: Reg,
        hint: Hint,
        other: Option<Reg>,
    ) -> Result<Option<End>, Memory>
        requires { self.old.steps < 2 ^ 64 - 1 }
        ensures { IfOk result (λ end. leads_to self.old end self.new
            ≡ calls.convert_step program.now (standing self.old info.now) dst hint
            (option_map (held self.old) other) (held self.old src)) }
    {
        match self.frame.register(src) {
            Some(Value::Object(a)) if !self.stays_beside(other) => {
                let function = default_function(program, hint);
                let receiver = *a;
                self.enters(alloc, program, function, receiver, None, Vec::new(alloc))
            }
            _ => self.moves(alloc, info, dst, src),
        }
    }
}
