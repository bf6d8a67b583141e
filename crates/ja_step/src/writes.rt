//! What is written and deleted: of names (ES3 8.7.2, 11.4.1), and of properties (8.6.2.2, 8.6.2.5).

ghost use Rattle.std.specs.Prelude.{◌≡◌, ◌<◌, IfOk, length};
ghost use Rattle.ja_machine.specs.Nodes.{puts, wrong_length, not_taken, deletes, is_array_at, write_ref_step, delete_ref_step};
ghost use Rattle.ja_machine.specs.Objects.{first_of};
ghost use Rattle.ja_step.specs.code.Steps.{held, standing, leads_to};

use crate::Conf;
use ja_base::{Memory, NameId, Reg, ScopeKind, Site};
use ja_graph::{Class, GLOBAL, NodeInfo, Program, RANGE_ERROR_PROTOTYPE};
use ja_machine::{Addr, End, Put, Value};
use ja_operations::made::first_of;
use ja_operations::messages::{array_length, name_text};
use ja_prim::{Primitive, Text16};
use std::alloc::Global;

impl Conf {
    /// A property is put by a key. A length of an array that is none throws a RangeError.
    pub(crate) fn puts_property(
        &mut self,
        alloc: Global,
        info: &NodeInfo,
        a: Addr,
        name: &Text16,
        value: Value,
        error: Site,
    ) -> Result<Option<End>, Memory>
        ensures { IfOk result (λ end. leads_to self.old end self.new
            ≡ puts (standing self.old info.now) (wrong_length (standing self.old info.now) error) a
            name.now value) }
    {
        match self.heap.put(alloc, a, name, value)? {
            Put::Done | Put::Ignored => Ok(self.goes_on(info)),
            Put::RangeError => {
                let message = array_length(alloc)?;
                self.throws(alloc, info, error, RANGE_ERROR_PROTOTYPE, message)
            }
            Put::LengthObject => Ok(self.left_scope(info, ScopeKind::LengthObject)),
            Put::SharedArgument => Ok(self.left_scope(info, ScopeKind::SharedArgument)),
        }
    }

    /// A name is put on an object that is no array, so that no length is put.
    fn puts_name(
        &mut self,
        alloc: Global,
        info: &NodeInfo,
        a: Addr,
        name: &Text16,
        value: Value,
    ) -> Result<Option<End>, Memory>
        ensures { IfOk result (λ end. leads_to self.old end self.new
            ≡ puts (standing self.old info.now) (not_taken (standing self.old info.now)) a name.now
            value) }
    {
        match self.heap.put(alloc, a, name, value)? {
            Put::Done | Put::Ignored => Ok(self.goes_on(info)),
            Put::RangeError => Ok(self.left_scope(info, ScopeKind::Register)),
            Put::LengthObject => Ok(self.left_scope(info, ScopeKind::LengthObject)),
            Put::SharedArgument => Ok(self.left_scope(info, ScopeKind::SharedArgument)),
        }
    }

    /// Whether an object is an array.
    fn is_array_at(&self, a: Addr) -> bool
        ensures { result ≡ is_array_at self.now.heap a }
    {
        match self.heap.class_at(a) {
            Some(Class::Array) => true,
            _ => false,
        }
    }

    /// A name is written on the object that has it, and where there is none, on the global object
    /// (8.7.2).
    pub(crate) fn writes_name(
        &mut self,
        alloc: Global,
        program: &Program,
        info: &NodeInfo,
        base: Reg,
        name: NameId,
        src: Reg,
    ) -> Result<Option<End>, Memory>
        requires { name.0 < length program.now.names }
        ensures { IfOk result (λ end. leads_to self.old end self.new
            ≡ write_ref_step program.now (standing self.old info.now) name (held self.old src)
            (held self.old base)) }
    {
        let a = match self.frame.register(base) {
            Some(Value::Object(a)) => {
                let a = *a;
                if self.is_array_at(a) {
                    return Ok(self.left_scope(info, ScopeKind::Register));
                }
                a
            }
            Some(Value::Primitive(Primitive::Null)) => first_of(GLOBAL),
            _ => return Ok(self.left_scope(info, ScopeKind::Register)),
        };
        let value = self.frame.held(alloc, src)?;
        self.puts_name(alloc, info, a, name_text(program, name), value)
    }

    /// A property is deleted, and a register is set to whether it could be. A value that a
    /// parameter shares with `arguments` isn't deleted.
    pub(crate) fn deletes(
        &mut self,
        info: &NodeInfo,
        dst: Reg,
        a: Addr,
        name: &Text16,
    ) -> Option<End>
        ensures { leads_to self.old result self.new
            ≡ deletes (standing self.old info.now) dst a name.now }
    {
        if self.heap.can_delete(a, name) && self.heap.is_shared(a, name) {
            return self.left_scope(info, ScopeKind::SharedArgument);
        }
        let deleted = self.heap.delete(a, name);
        self.sets(info, dst, Value::Primitive(Primitive::Bool(deleted)))
    }

    /// A name is deleted of the object that has it; where there is none, that gives true (11.4.1).
    pub(crate) fn deletes_name(
        &mut self,
        program: &Program,
        info: &NodeInfo,
        dst: Reg,
        base: Reg,
        name: NameId,
    ) -> Option<End>
        requires { name.0 < length program.now.names }
        ensures { leads_to self.old result self.new
            ≡ delete_ref_step program.now (standing self.old info.now) dst name (held self.old base) }
    {
        match self.frame.register(base) {
            Some(Value::Object(a)) => {
                let a = *a;
                self.deletes(info, dst, a, name_text(program, name))
            }
            Some(Value::Primitive(Primitive::Null)) => {
                self.sets(info, dst, Value::Primitive(Primitive::Bool(true)))
            }
            _ => self.left_scope(info, ScopeKind::Register),
        }
    }
}
