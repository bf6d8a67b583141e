//! The nodes that make functions and objects of a scope chain, and those that add to them (ES3
//! 10.1.3, 12.14, 13).

ghost use Rattle.std.specs.Prelude.{◌≡◌, ◌<◌, ◌≤◌, IfOk, length};
ghost use Rattle.ja_prim.specs.Judged.{max_magnitude};
ghost use Rattle.ja_machine.specs.Frames.{scope, parameters_of};
ghost use Rattle.ja_machine.specs.Heap.{new_address, with_new};
ghost use Rattle.ja_machine.specs.Objects as objects;
ghost use Rattle.ja_machine.specs.Events.{sets_in};
ghost use Rattle.ja_machine.specs.declared.machine.Value.TheVariants as value;
ghost use Rattle.ja_machine.specs.Nodes.{make_function_step, declare_step, bind_step, push_scope_step};
ghost use Rattle.ja_step.specs.code.Steps.{held, standing, leads_to};

use crate::Conf;
use ja_base::{FnId, Memory, NameId, Reg, ScopeKind, Site};
use ja_graph::{Attrs, DONT_DELETE, NodeInfo, Program, SCOPE};
use ja_machine::{Addr, Content, End, Value};
use ja_operations::made::{function_object, prototype_object, scope_object};
use ja_operations::messages::name_text;
use ja_prim::Primitive;
use std::alloc::Global;

/// How many parameters a function has.
pub(crate) fn parameters_of(program: &Program, function: FnId) -> u64
    ensures { result ≡ parameters_of program.now function }
{
    match program.functions.as_slice().get(function.0 as usize) {
        Some(function) => function.parameters.len() as u64,
        None => 0,
    }
}

impl Conf {
    /// The address of the next object of a site.
    pub(crate) fn new_address(&self, site: Site) -> Addr
        ensures { result ≡ new_address self.now.heap site }
    {
        Addr {
            site,
            ordinal: self.heap.count(site),
        }
    }

    /// A function object and the object that its constructions inherit from, each with the other
    /// (13.2).
    pub(crate) fn makes_function(
        &mut self,
        alloc: Global,
        program: &Program,
        info: &NodeInfo,
        dst: Reg,
        function: FnId,
        site: Site,
        proto_site: Site,
    ) -> Result<Option<End>, Memory>
        requires { parameters_of program.now function ≤ max_magnitude }
        ensures { IfOk result (λ end. leads_to self.old end self.new
            ≡ make_function_step program.now (standing self.old info.now) dst function site
            proto_site (held self.old scope)) }
    {
        match self.frame.register(SCOPE) {
            Some(Value::Object(chain)) => {
                let chain = *chain;
                let parameters = parameters_of(program, function);
                self.makes_pair(alloc, info, dst, parameters, chain, site, proto_site)
            }
            _ => Ok(self.left_scope(info, ScopeKind::Register)),
        }
    }

    /// The two objects, over a scope chain.
    fn makes_pair(
        &mut self,
        alloc: Global,
        info: &NodeInfo,
        dst: Reg,
        parameters: u64,
        chain: Addr,
        site: Site,
        proto_site: Site,
    ) -> Result<Option<End>, Memory>
        requires { parameters ≤ max_magnitude }
        ensures { IfOk result (λ end. leads_to self.old end self.new
            ≡ (let h = self.old.heap in let f = new_address h site in
            sets_in (standing self.old info.now)
            (with_new (with_new h site (objects.function_object parameters chain
            (new_address h proto_site))) proto_site (objects.prototype_object f)) dst
            (value.Object f))) }
    {
        let prototype = self.new_address(proto_site);
        let object = function_object(alloc, parameters, chain, prototype)?;
        let function = self.heap.alloc(site, object)?;
        let object = prototype_object(alloc, function)?;
        let _ = self.heap.alloc(proto_site, object)?;
        Ok(self.sets(info, dst, Value::Object(function)))
    }

    /// A variable is added to the object in `scope`, unless the name is there (10.1.3).
    pub(crate) fn declares(
        &mut self,
        alloc: Global,
        program: &Program,
        info: &NodeInfo,
        name: NameId,
    ) -> Result<Option<End>, Memory>
        requires { name.0 < length program.now.names }
        ensures { IfOk result (λ end. leads_to self.old end self.new
            ≡ declare_step program.now (standing self.old info.now) name (held self.old scope)) }
    {
        match self.frame.register(SCOPE) {
            Some(Value::Object(a)) => {
                let a = *a;
                let name = name_text(program, name);
                if self.heap.own(a, name).is_none() {
                    let undefined = Content::Value(Value::Primitive(Primitive::Undefined));
                    self.heap.define(alloc, a, name, undefined, DONT_DELETE)?;
                }
                Ok(self.goes_on(info))
            }
            _ => Ok(self.left_scope(info, ScopeKind::Register)),
        }
    }

    /// A name is defined on the object in `scope` (10.1.3, 12.14, 13). A value that a parameter
    /// shares with `arguments` leaves the profile.
    pub(crate) fn binds(
        &mut self,
        alloc: Global,
        program: &Program,
        info: &NodeInfo,
        name: NameId,
        src: Reg,
        read_only: bool,
    ) -> Result<Option<End>, Memory>
        requires { name.0 < length program.now.names }
        ensures { IfOk result (λ end. leads_to self.old end self.new
            ≡ bind_step program.now (standing self.old info.now) name read_only (held self.old src)
            (held self.old scope)) }
    {
        match self.frame.register(SCOPE) {
            Some(Value::Object(a)) => {
                let a = *a;
                let name = name_text(program, name);
                if self.heap.is_shared(a, name) {
                    return Ok(self.left_scope(info, ScopeKind::SharedArgument));
                }
                let value = self.frame.held(alloc, src)?;
                let attrs = Attrs {
                    read_only,
                    ..DONT_DELETE
                };
                self.heap
                    .define(alloc, a, name, Content::Value(value), attrs)?;
                Ok(self.goes_on(info))
            }
            _ => Ok(self.left_scope(info, ScopeKind::Register)),
        }
    }

    /// A new object is put before the scope chain (12.14, 13).
    pub(crate) fn pushes_scope(
        &mut self,
        alloc: Global,
        info: &NodeInfo,
        site: Site,
    ) -> Result<Option<End>, Memory>
        ensures { IfOk result (λ end. leads_to self.old end self.new
            ≡ push_scope_step (standing self.old info.now) site (held self.old scope)) }
    {
        match self.frame.register(SCOPE) {
            Some(Value::Object(outer)) => {
                let object = scope_object(alloc, *outer);
                self.makes(info, SCOPE, site, object)
            }
            _ => Ok(self.left_scope(info, ScopeKind::Register)),
        }
    }
}
