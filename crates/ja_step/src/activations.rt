//! The node that makes the activation of a function, with its arguments object (ES3 10.1.6,
//! 10.1.8).

ghost use Rattle.std.specs.Prelude.{◌≡◌, [], Some, None, IfOk, codes};
ghost use Rattle.ja_graph.specs.WellFormed.{IsWellFormed};
ghost use Rattle.ja_machine.specs.Frames.{scope};
ghost use Rattle.ja_machine.specs.Heap.{with_new, new_address};
ghost use Rattle.ja_machine.specs.Nodes.{parameter_names, enter, enters_scope, enter_step};
ghost use Rattle.ja_machine.specs.declared.machine.Value.TheVariants as value;
ghost use Rattle.ja_machine.specs.Objects as objects;
ghost use Rattle.ja_step.specs.code.Steps.{held, standing, leads_to};

use crate::Conf;
use ja_base::{Memory, ScopeKind, Site};
use ja_graph::{DONT_DELETE, NodeInfo, Program, SCOPE};
use ja_heap::Object;
use ja_machine::{Addr, Content, End, Value};
use ja_operations::activations::{
    arguments_object, empty_activation, parameters, sharing, with_parameters,
};
use ja_prim::Text16;
use std::alloc::Global;

impl Conf {
    /// The activation of the function that runs, with its parameters.
    fn activation(
        &self,
        alloc: Global,
        program: &Program,
        outer: Addr,
        flags: &[bool],
    ) -> Result<Object, Memory>
        requires { IsWellFormed program.now }
        ensures { IfOk result (λ o. o ≡ objects.activation outer
            (objects.with_parameters [] (parameter_names program.now self.now.frame.function)
            self.now.frame.arguments.items flags.now)) }
    {
        let object = empty_activation(alloc, outer);
        let names = parameters(program, self.frame.function);
        let arguments = self.frame.arguments.as_slice();
        with_parameters(alloc, program, object, names, arguments, flags)
    }

    /// A function without an arguments object has its activation before its scope chain.
    fn enters_alone(
        &mut self,
        alloc: Global,
        program: &Program,
        info: &NodeInfo,
        site: Site,
        outer: Addr,
    ) -> Result<Option<End>, Memory>
        requires { IsWellFormed program.now }
        ensures { IfOk result (λ end. leads_to self.old end self.new
            ≡ enter (standing self.old info.now) site outer
            (parameter_names program.now self.old.frame.function) None) }
    {
        let object = self.activation(alloc, program, outer, &[])?;
        self.makes(info, SCOPE, site, object)
    }

    /// The activation with its arguments object, which is at an address.
    fn activation_with(
        &self,
        alloc: Global,
        program: &Program,
        outer: Addr,
        flags: &[bool],
        list: Addr,
    ) -> Result<Object, Memory>
        requires { IsWellFormed program.now }
        ensures { let bound = objects.with_parameters []
            (parameter_names program.now self.now.frame.function) self.now.frame.arguments.items
            flags.now in IfOk result (λ o. o ≡ objects.activation outer
            (objects.with_property bound (objects.property_with (codes "arguments")
            (value.Object list) DONT_DELETE))) }
    {
        let mut object = self.activation(alloc, program, outer, flags)?;
        let name = Text16::from_ascii(alloc, b"arguments")?;
        let list = Content::Value(Value::Object(list));
        object.set_property(alloc, &name, list, DONT_DELETE, false)?;
        Ok(object)
    }

    /// An activation and its arguments object are made, and the activation is put before the scope
    /// chain.
    fn makes_both(
        &mut self,
        info: &NodeInfo,
        site: Site,
        object: Object,
        list: Site,
        elements: Object,
    ) -> Result<Option<End>, Memory>
        ensures { let h = self.old.heap in IfOk result
            (λ end. leads_to self.old end self.new
            ≡ enters_scope (standing self.old info.now)
            (with_new (with_new h site object) list elements) (new_address h site)) }
    {
        let made = self.heap.alloc(site, object)?;
        let _ = self.heap.alloc(list, elements)?;
        Ok(self.sets(info, SCOPE, Value::Object(made)))
    }

    /// A function with an arguments object has both, which share values.
    fn enters_with(
        &mut self,
        alloc: Global,
        program: &Program,
        info: &NodeInfo,
        site: Site,
        outer: Addr,
        list: Site,
    ) -> Result<Option<End>, Memory>
        requires { IsWellFormed program.now }
        ensures { IfOk result (λ end. leads_to self.old end self.new
            ≡ enter (standing self.old info.now) site outer
            (parameter_names program.now self.old.frame.function) (Some list)) }
    {
        let names = parameters(program, self.frame.function);
        let arguments = self.frame.arguments.as_slice();
        let flags = sharing(alloc, program, names, arguments)?;
        let elements = arguments_object(alloc, self.frame.callee, arguments, flags.as_slice())?;
        let address = self.new_address(list);
        let object = self.activation_with(alloc, program, outer, flags.as_slice(), address)?;
        self.makes_both(info, site, object, list, elements)
    }

    /// A function's activation is put before its scope chain, with its arguments object, if it has
    /// one.
    pub(crate) fn enters_scope(
        &mut self,
        alloc: Global,
        program: &Program,
        info: &NodeInfo,
        site: Site,
        list: Option<Site>,
    ) -> Result<Option<End>, Memory>
        requires { IsWellFormed program.now }
        ensures { IfOk result (λ end. leads_to self.old end self.new
            ≡ enter_step program.now (standing self.old info.now) site list (held self.old scope)) }
    {
        let Some(Value::Object(outer)) = self.frame.register(SCOPE) else {
            return Ok(self.left_scope(info, ScopeKind::Register));
        };
        let outer = *outer;
        match list {
            Some(list) => self.enters_with(alloc, program, info, site, outer, list),
            None => self.enters_alone(alloc, program, info, site, outer),
        }
    }
}
