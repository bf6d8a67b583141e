//! The nodes that make objects and ask for them (ES3 9.9, 11.1.4, 11.1.5, 11.8.6, 11.8.7).

ghost use Rattle.std.specs.Prelude.{◌≡◌, IfOk, codes};
ghost use Rattle.ja_machine.specs.Nodes.{makes, to_object_step, need_object_step, is_function, has_instance, instance_of, instance_of_step};
ghost use Rattle.ja_machine.specs.Heap.{content_at};
ghost use Rattle.ja_machine.specs.Objects.{empty_object};
ghost use Rattle.ja_step.specs.code.Places.{object_held};
ghost use Rattle.ja_step.specs.code.Steps.{held, standing, leads_to};

use crate::Conf;
use ja_base::{Memory, Reg, Site};
use ja_graph::{Class, Made, NodeInfo, TYPE_ERROR_PROTOTYPE, Wrappers};
use ja_machine::{Addr, Content, End, Value};
use ja_operations::made::{boolean_object, empty_object, number_object, text_object};
use ja_operations::messages::{no_function, no_prototype, not_an_object, nothing};
use ja_prim::{Primitive, Text16};
use std::alloc::Global;

/// Whether a class is that of functions.
fn is_function(class: Option<Class>) -> bool
    ensures { result ≡ is_function class }
{
    match class {
        Some(Class::Function) => true,
        _ => false,
    }
}

impl Conf {
    /// A new empty object, array or error.
    pub(crate) fn makes_empty(
        &mut self,
        alloc: Global,
        info: &NodeInfo,
        dst: Reg,
        site: Site,
        made: Made,
    ) -> Result<Option<End>, Memory>
        ensures { IfOk result (λ end. leads_to self.old end self.new
            ≡ makes (standing self.old info.now) dst site (empty_object made)) }
    {
        let object = empty_object(alloc, made)?;
        self.makes(info, dst, site, object)
    }

    /// The object of a value (9.9). Of undefined and null a TypeError is thrown.
    pub(crate) fn to_object(
        &mut self,
        alloc: Global,
        info: &NodeInfo,
        dst: Reg,
        src: Reg,
        sites: Wrappers,
        error: Site,
    ) -> Result<Option<End>, Memory>
        ensures { IfOk result (λ end. leads_to self.old end self.new
            ≡ to_object_step (standing self.old info.now) dst sites error (held self.old src)) }
    {
        match self.frame.register(src) {
            Some(Value::Object(a)) => {
                let a = *a;
                Ok(self.sets(info, dst, Value::Object(a)))
            }
            None | Some(Value::Primitive(Primitive::Undefined | Primitive::Null)) => {
                let message = nothing(alloc)?;
                self.throws(alloc, info, error, TYPE_ERROR_PROTOTYPE, message)
            }
            Some(Value::Primitive(Primitive::Bool(truth))) => {
                let object = boolean_object(alloc, *truth);
                self.makes(info, dst, sites.boolean, object)
            }
            Some(Value::Primitive(Primitive::Number(number))) => {
                let object = number_object(alloc, *number);
                self.makes(info, dst, sites.number, object)
            }
            Some(Value::Primitive(Primitive::Text(text))) => {
                let object = text_object(alloc, text)?;
                self.makes(info, dst, sites.text, object)
            }
        }
    }

    /// What is no object throws a TypeError (11.8.7).
    pub(crate) fn needs_object(
        &mut self,
        alloc: Global,
        info: &NodeInfo,
        src: Reg,
        error: Site,
    ) -> Result<Option<End>, Memory>
        ensures { IfOk result (λ end. leads_to self.old end self.new
            ≡ need_object_step (standing self.old info.now) error (held self.old src)) }
    {
        match self.frame.register(src) {
            Some(Value::Object(_)) => Ok(self.goes_on(info)),
            _ => {
                let message = not_an_object(alloc)?;
                self.throws(alloc, info, error, TYPE_ERROR_PROTOTYPE, message)
            }
        }
    }

    /// The object that a property holds, if there is the property and it holds one.
    pub(crate) fn object_at(&self, a: Addr, name: &Text16) -> Option<Addr>
        ensures { result ≡ object_held (content_at self.now.heap a name.now) }
    {
        match self.heap.content_at(a, name) {
            Some(Content::Value(Value::Object(held))) => Some(*held),
            _ => None,
        }
    }

    /// Whether an object inherits from what a function has as its `prototype` (15.3.5.3), which is
    /// to be an object.
    fn has_instance(
        &mut self,
        alloc: Global,
        info: &NodeInfo,
        dst: Reg,
        not_object: Site,
        function: Addr,
        left: Addr,
    ) -> Result<Option<End>, Memory>
        ensures { IfOk result (λ end. leads_to self.old end self.new
            ≡ has_instance (standing self.old info.now) dst not_object left
            (content_at self.old.heap function (codes "prototype"))) }
    {
        let name = Text16::from_ascii(alloc, b"prototype")?;
        match self.object_at(function, &name) {
            Some(prototype) => {
                let inherits = self.heap.inherits_from(left, prototype);
                Ok(self.sets(info, dst, Value::Primitive(Primitive::Bool(inherits))))
            }
            None => {
                let message = no_prototype(alloc)?;
                self.throws(alloc, info, not_object, TYPE_ERROR_PROTOTYPE, message)
            }
        }
    }

    /// Whether a function constructed a value. No primitive value was constructed.
    fn instance_of(
        &mut self,
        alloc: Global,
        info: &NodeInfo,
        dst: Reg,
        not_object: Site,
        function: Addr,
        left: Reg,
    ) -> Result<Option<End>, Memory>
        ensures { IfOk result (λ end. leads_to self.old end self.new
            ≡ instance_of (standing self.old info.now) dst not_object function (held self.old left)) }
    {
        match self.frame.register(left) {
            Some(Value::Object(left)) => {
                let left = *left;
                self.has_instance(alloc, info, dst, not_object, function, left)
            }
            _ => { Ok(self.sets(info, dst, Value::Primitive(Primitive::Bool(false)))) }
        }
    }

    /// Whether `right` constructed `left` (11.8.6). What is no function throws a TypeError.
    pub(crate) fn is_instance(
        &mut self,
        alloc: Global,
        info: &NodeInfo,
        dst: Reg,
        left: Reg,
        right: Reg,
        not_function: Site,
        not_object: Site,
    ) -> Result<Option<End>, Memory>
        ensures { IfOk result (λ end. leads_to self.old end self.new
            ≡ instance_of_step (standing self.old info.now) dst not_function not_object
            (held self.old left) (held self.old right)) }
    {
        if let Some(Value::Object(function)) = self.frame.register(right) {
            let function = *function;
            if is_function(self.heap.class_at(function)) {
                return self.instance_of(alloc, info, dst, not_object, function, left);
            }
        }
        let message = no_function(alloc)?;
        self.throws(alloc, info, not_function, TYPE_ERROR_PROTOTYPE, message)
    }
}
