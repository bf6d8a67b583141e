//! The nodes that look names up along the scope chain (ES3 10.1.4) and read them there (8.7.1).

ghost use Rattle.std.specs.Prelude.{◌≡◌, ◌<◌, IfOk, length};
ghost use Rattle.ja_machine.specs.Frames.{scope};
ghost use Rattle.ja_machine.specs.Events.{sets_content};
ghost use Rattle.ja_machine.specs.Nodes as nodes;
ghost use Rattle.ja_machine.specs.Nodes.{name_text, find_name_step, read_ref_step, read_soft_step};
ghost use Rattle.ja_step.specs.code.Steps.{held, standing, leads_to};

use crate::Conf;
use ja_base::{Memory, NameId, Reg, ScopeKind, Site};
use ja_graph::{NodeInfo, Program, REFERENCE_ERROR_PROTOTYPE, SCOPE};
use ja_machine::{Addr, Content, End, Value};
use ja_operations::copies::copy_content;
use ja_operations::messages::{name_text, unbound};
use ja_prim::{Primitive, Text16};
use std::alloc::Global;

impl Conf {
    /// What `[[Get]]` of an object gives (8.6.2.1), or undefined.
    pub(crate) fn read(&self, alloc: Global, a: Addr, name: &Text16) -> Result<Content, Memory>
        ensures { IfOk result (λ content. content ≡ nodes.read self.now.heap a name.now) }
    {
        match self.heap.content_at(a, name) {
            Some(content) => copy_content(alloc, content),
            None => Ok(Content::Value(Value::Primitive(Primitive::Undefined))),
        }
    }

    /// The object of a scope chain that has the name, or null.
    fn found(&self, chain: Addr, name: &Text16) -> Value
        ensures { result ≡ nodes.find_name self.now.heap chain name.now }
    {
        match self.heap.find_name(chain, name) {
            Some(found) => Value::Object(found),
            None => Value::Primitive(Primitive::Null),
        }
    }

    /// A name is looked for along the scope chain.
    pub(crate) fn finds_name(
        &mut self,
        program: &Program,
        info: &NodeInfo,
        dst: Reg,
        name: NameId,
    ) -> Option<End>
        requires { name.0 < length program.now.names }
        ensures { leads_to self.old result self.new
            ≡ find_name_step program.now (standing self.old info.now) dst name (held self.old scope) }
    {
        match self.frame.register(SCOPE) {
            Some(Value::Object(chain)) => {
                let found = self.found(*chain, name_text(program, name));
                self.sets(info, dst, found)
            }
            _ => self.left_scope(info, ScopeKind::Register),
        }
    }

    /// A register is set to what an object has under a name.
    pub(crate) fn reads(
        &mut self,
        alloc: Global,
        info: &NodeInfo,
        dst: Reg,
        a: Addr,
        name: &Text16,
    ) -> Result<Option<End>, Memory>
        ensures { IfOk result (λ end. leads_to self.old end self.new
            ≡ sets_content (standing self.old info.now) dst (nodes.read self.old.heap a name.now)) }
    {
        let content = self.read(alloc, a, name)?;
        Ok(self.sets_content(info, dst, content))
    }

    /// A name is read of the object that has it. Where there is none, a ReferenceError is thrown.
    pub(crate) fn reads_name(
        &mut self,
        alloc: Global,
        program: &Program,
        info: &NodeInfo,
        dst: Reg,
        base: Reg,
        name: NameId,
        error: Site,
    ) -> Result<Option<End>, Memory>
        requires { name.0 < length program.now.names }
        ensures { IfOk result (λ end. leads_to self.old end self.new
            ≡ read_ref_step program.now (standing self.old info.now) dst name error
            (held self.old base)) }
    {
        let name = name_text(program, name);
        match self.frame.register(base) {
            Some(Value::Object(a)) => {
                let a = *a;
                self.reads(alloc, info, dst, a, name)
            }
            Some(Value::Primitive(Primitive::Null)) => {
                let message = unbound(alloc, name)?;
                self.throws(alloc, info, error, REFERENCE_ERROR_PROTOTYPE, message)
            }
            _ => Ok(self.left_scope(info, ScopeKind::Register)),
        }
    }

    /// As a name is read, but where no object has it, it is undefined (11.4.3).
    pub(crate) fn reads_softly(
        &mut self,
        alloc: Global,
        program: &Program,
        info: &NodeInfo,
        dst: Reg,
        base: Reg,
        name: NameId,
    ) -> Result<Option<End>, Memory>
        requires { name.0 < length program.now.names }
        ensures { IfOk result (λ end. leads_to self.old end self.new
            ≡ read_soft_step program.now (standing self.old info.now) dst name (held self.old base)) }
    {
        match self.frame.register(base) {
            Some(Value::Object(a)) => {
                let a = *a;
                self.reads(alloc, info, dst, a, name_text(program, name))
            }
            Some(Value::Primitive(Primitive::Null)) => {
                Ok(self.sets(info, dst, Value::Primitive(Primitive::Undefined)))
            }
            _ => Ok(self.left_scope(info, ScopeKind::Register)),
        }
    }
}
