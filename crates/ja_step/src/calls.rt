//! The node that calls (ES3 11.2.3).

ghost use Rattle.std.specs.Prelude.{◌≡◌, ◌<◌, ◌-◌, ◌^◌, IfOk};
ghost use Rattle.std.specs.Option.{option_map};
ghost use Rattle.ja_machine.specs.Calls as calls;
ghost use Rattle.ja_step.specs.code.Steps.{held, or_undefined, standing, leads_to};

use crate::Conf;
use crate::properties::object_in;
use ja_base::{FnId, Memory, Reg, ScopeKind, Site};
use ja_graph::{Args, Class, GLOBAL, NodeInfo, Program, SiteInfo, TYPE_ERROR_PROTOTYPE};
use ja_machine::{Addr, End, Value};
use ja_operations::made::first_of;
use ja_operations::messages::not_a_function;
use ja_prim::Primitive;
use std::alloc::Global;

/// What the program tells of the site of a value, if it is an object.
pub(crate) fn site_of<'a>(program: &'a Program, value: Option<&Value>) -> Option<&'a SiteInfo>
    ensures { option_map (λ site. site.now) result
        ≡ calls.site_of program.now (or_undefined value.entry) }
{
    match value {
        Some(Value::Object(a)) => program.sites.as_slice().get(a.site.0 as usize),
        _ => None,
    }
}

/// The function that `[[Call]]` of a value runs.
fn function_called(program: &Program, value: Option<&Value>) -> Option<FnId>
    ensures { result ≡ calls.function_called program.now (or_undefined value.entry) }
{
    match site_of(program, value) {
        Some(site) => site.calls,
        None => None,
    }
}

/// Whether a class is that of activations.
fn is_activation(class: Option<Class>) -> bool
    ensures { result ≡ calls.is_activation class }
{
    match class {
        Some(Class::Activation) => true,
        _ => false,
    }
}

impl Conf {
    /// The receiver of a call (10.1.6, 11.2.3): in place of null, undefined and an activation the
    /// global object. Other primitive values are none.
    fn receiver_of(&self, receiver: Reg) -> Option<Addr>
        ensures { result ≡ calls.receiver_of self.now.heap (held self.now receiver) }
    {
        match self.frame.register(receiver) {
            Some(Value::Object(a)) if !is_activation(self.heap.class_at(*a)) => Some(*a),
            None | Some(Value::Object(_)) => Some(first_of(GLOBAL)),
            Some(Value::Primitive(Primitive::Undefined | Primitive::Null)) => {
                Some(first_of(GLOBAL))
            }
            Some(Value::Primitive(_)) => None,
        }
    }

    /// A function is called. What can't be called throws a TypeError.
    pub(crate) fn calls(
        &mut self,
        alloc: Global,
        program: &Program,
        info: &NodeInfo,
        callee: Reg,
        receiver: Reg,
        arguments: &Args,
        error: Site,
    ) -> Result<Option<End>, Memory>
        requires { self.old.steps < 2 ^ 64 - 1 }
        ensures { IfOk result (λ end. leads_to self.old end self.new
            ≡ calls.call_step program.now (standing self.old info.now) (held self.old callee)
            (held self.old receiver) arguments.now error) }
    {
        let Some(function) = function_called(program, self.frame.register(callee)) else {
            let message = not_a_function(alloc)?;
            return self.throws(alloc, info, error, TYPE_ERROR_PROTOTYPE, message);
        };
        let Some(receiver) = self.receiver_of(receiver) else {
            return Ok(self.left_scope(info, ScopeKind::Register));
        };
        let callee = object_in(self.frame.register(callee));
        match self.given(alloc, arguments)? {
            Ok(arguments) => self.enters(alloc, program, function, receiver, callee, arguments),
            Err(kind) => Ok(self.left_scope(info, kind)),
        }
    }
}
