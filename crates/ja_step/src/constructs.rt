//! The node that constructs (ES3 11.2.2, 13.2.2).

ghost use Rattle.std.specs.Prelude.{◌≡◌, ◌<◌, ◌-◌, ◌^◌, IfOk};
ghost use Rattle.ja_machine.specs.Calls as calls;
ghost use Rattle.ja_machine.specs.Objects as objects;
ghost use Rattle.ja_step.specs.code.Steps.{held, or_undefined, standing, leads_to};

use crate::Conf;
use crate::calls::site_of;
use crate::properties::object_in;
use ja_base::{FnId, Memory, Reg, Site};
use ja_graph::{Class, NodeInfo, OBJECT_PROTOTYPE, Program, TYPE_ERROR_PROTOTYPE};
use ja_heap::Object;
use ja_machine::{Addr, End, Slots, Value};
use ja_operations::made::first_of;
use ja_operations::messages::not_a_constructor;
use ja_prim::Text16;
use std::alloc::Global;

/// The function that `[[Construct]]` of a value runs.
fn function_constructing(program: &Program, value: Option<&Value>) -> Option<FnId>
    ensures { result ≡ calls.function_constructing program.now (or_undefined value.entry) }
{
    match site_of(program, value) {
        Some(site) => site.constructs,
        None => None,
    }
}

/// What a construction makes, with its prototype.
fn constructed_object(alloc: Global, prototype: Addr) -> Object
    ensures { result ≡ objects.constructed_object prototype }
{
    let slots = Slots {
        prototype: Some(prototype),
        outer: None,
        scope: None,
        value: None,
        arguments: false,
    };
    Object::new(alloc, Class::Object, slots)
}

impl Conf {
    /// The prototype of what a function constructs: its `prototype`, if that is an object.
    fn prototype_of_callee(&self, alloc: Global, callee: Option<Addr>) -> Result<Addr, Memory>
        ensures { IfOk result (λ prototype. prototype
            ≡ calls.prototype_of_callee self.now.heap callee) }
    {
        let Some(callee) = callee else {
            return Ok(first_of(OBJECT_PROTOTYPE));
        };
        let name = Text16::from_ascii(alloc, b"prototype")?;
        match self.object_at(callee, &name) {
            Some(prototype) => Ok(prototype),
            None => Ok(first_of(OBJECT_PROTOTYPE)),
        }
    }

    /// A function constructs: an object is made, and the function is entered with it as its
    /// receiver. What can't construct throws a TypeError.
    pub(crate) fn constructs(
        &mut self,
        alloc: Global,
        program: &Program,
        info: &NodeInfo,
        callee: Reg,
        arguments: &[Reg],
        site: Site,
        error: Site,
    ) -> Result<Option<End>, Memory>
        requires { self.old.steps < 2 ^ 64 - 1 }
        ensures { IfOk result (λ end. leads_to self.old end self.new
            ≡ calls.new_step program.now (standing self.old info.now) (held self.old callee)
            arguments.now site error) }
    {
        let Some(function) = function_constructing(program, self.frame.register(callee)) else {
            let message = not_a_constructor(alloc)?;
            return self.throws(alloc, info, error, TYPE_ERROR_PROTOTYPE, message);
        };
        let callee = object_in(self.frame.register(callee));
        let arguments = match self.register_values(alloc, arguments)? {
            Ok(arguments) => arguments,
            Err(kind) => return Ok(self.left_scope(info, kind)),
        };
        let prototype = self.prototype_of_callee(alloc, callee)?;
        let object = constructed_object(alloc, prototype);
        let receiver = self.heap.alloc(site, object)?;
        self.enters(alloc, program, function, receiver, callee, arguments)
    }
}
