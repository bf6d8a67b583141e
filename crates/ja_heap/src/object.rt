ghost use Rattle.std.specs.Prelude.{◌≡◌, [], not, if◌then◌else◌, filter, map};
ghost use Rattle.std.specs.Prelude.{Some, IfOk, IfSome, OnOk, OnErr, is_some, pos, ◌+◌};
ghost use Rattle.std.specs.Option.{option_map};
ghost use Rattle.ja_prim.specs.Conversions.{index_of};
ghost use Rattle.ja_machine.specs.declared.machine.Property.{Property};
ghost use Rattle.ja_machine.specs.Heap.{property_of};
ghost use Rattle.ja_machine.specs.Objects.{object_with};
ghost use Rattle.ja_machine.specs.Objects as objects;
ghost use Rattle.ja_machine.specs.Writes as spec;
ghost use Rattle.ja_machine.specs.code.Writes as code;

use crate::properties::Properties;
use ja_base::Memory;
use ja_graph::{Attrs, Class};
use ja_machine::{Addr, Content, Property, Slots, Value};
use ja_prim::{Int, Num, Primitive, Text16, array_index, to_text};
use std::alloc::Global;
use std::marker::Model;

/// An object (ES3 8.6.2): its class, its internal properties, and its properties in order of
/// insertion. Contracts see the object of the machine. To let it go is one call.
pub struct Object {
    class: Class,
    is_arguments: bool,
    prototype: Option<Addr>,
    outer: Option<Addr>,
    scope: Option<Addr>,
    value: Option<Primitive>,
    properties: Properties,
}

/// The name of an element. There is none where memory is refused, or the number is no index.
fn element_name(alloc: Global, index: u32) -> Option<Text16>
    ensures { IfSome result (λ name. index_of name ≡ Some index) }
{
    let number = Primitive::Number(Num::Whole(Int::new(i64::from(index)).unwrap()));
    match to_text(alloc, &number) {
        Ok(name) => {
            if array_index(&name) == Some(index) {
                Some(name)
            } else {
                None
            }
        }
        Err(_) => None,
    }
}

impl Model for Object {
    ghost use Rattle.ja_machine.specs.declared.machine.Object.{Object as MachineObject};

    ghost Value = { MachineObject };

    ghost view = { λ o. record {
      class = o.class;
      slots = record {
        prototype = o.prototype;
        outer = o.outer;
        scope = o.scope;
        value = o.value;
        arguments = o.is_arguments;
      };
      properties = o.properties;
    } };
}

impl Drop for Object {
    fn drop(self) {
        let Object {
            class: _,
            is_arguments: _,
            prototype: _,
            outer: _,
            scope: _,
            value: _,
            properties: _,
        } = self;
    }
}

impl Object {
    /// An object without properties.
    pub fn new(alloc: Global, class: Class, slots: Slots) -> Object
        ensures { result ≡ object_with class slots [] }
    {
        Object {
            class,
            is_arguments: slots.arguments,
            prototype: slots.prototype,
            outer: slots.outer,
            scope: slots.scope,
            value: slots.value,
            properties: Properties::new(alloc),
        }
    }

    /// The object with a property more, or with another in place of the one of its name.
    pub fn with(
        mut self,
        alloc: Global,
        name: &Text16,
        content: Content,
        attrs: Attrs,
    ) -> Result<Object, Memory>
        ensures { IfOk result (λ o. o ≡ record self {
          properties = spec.with_definition self.properties name.now content attrs;
        }) }
    {
        self.define(alloc, name, content, attrs)?;
        Ok(self)
    }

    /// The class.
    pub fn class(&self) -> Class
        ensures { result ≡ self.now.class }
    {
        self.class
    }

    /// The object that it inherits from.
    pub fn prototype(&self) -> Option<Addr>
        ensures { result ≡ self.now.slots.prototype }
    {
        self.prototype
    }

    /// The next object of a scope chain.
    pub fn outer(&self) -> Option<Addr>
        ensures { result ≡ self.now.slots.outer }
    {
        self.outer
    }

    /// The scope chain of a function.
    pub fn scope(&self) -> Option<Addr>
        ensures { result ≡ self.now.slots.scope }
    {
        self.scope
    }

    /// The internal value.
    pub fn value(&self) -> Option<&Primitive>
        ensures { option_map (λ q. q.now) result ≡ self.now.slots.value }
    {
        self.value.as_ref()
    }

    /// Whether it is an arguments object.
    pub fn is_arguments(&self) -> bool
        ensures { result ≡ self.now.slots.arguments }
    {
        self.is_arguments
    }

    /// An own property.
    pub fn property(&self, name: &Text16) -> Option<&Property>
        ensures { option_map (λ q. q.now) result ≡ property_of self.now name.now }
    {
        self.properties.get(name)
    }

    /// Sets the value of a property: its attributes stay, and a new property comes last and has
    /// none. After `Memory` the object is as it was.
    pub fn set_value(&mut self, alloc: Global, name: &Text16, v: Value) -> Result<(), Memory>
        ensures written { OnOk result (self.new ≡ spec.object_with_value self.old name.now v) }
        ensures kept { OnErr result (self.new ≡ self.old) }
    {
        self.properties.set_value(alloc, name, v)
    }

    /// Sets the value of a property that is there: its attributes stay. It takes no memory.
    pub(crate) fn replace_value(&mut self, name: &Text16, v: Value)
        ensures { self.new ≡ (if is_some (property_of self.old name.now)
            then spec.object_with_value self.old name.now v
            else self.old) }
    {
        self.properties.replace_value(name, v);
    }

    /// Sets the content and the attributes of a property, which comes last where it is new. After
    /// `Memory` the object is as it was.
    pub fn define(
        &mut self,
        alloc: Global,
        name: &Text16,
        content: Content,
        attrs: Attrs,
    ) -> Result<(), Memory>
        ensures defined { OnOk result (self.new ≡ record self.old {
          properties = spec.with_definition self.old.properties name.now content attrs;
        }) }
        ensures kept { OnErr result (self.new ≡ self.old) }
    {
        self.properties.define(alloc, name, content, attrs)
    }

    /// Puts a property in place of the one of its name, or behind the others. After `Memory` the
    /// object is as it was.
    pub fn set_property(
        &mut self,
        alloc: Global,
        name: &Text16,
        content: Content,
        attrs: Attrs,
        shared: bool,
    ) -> Result<(), Memory>
        ensures set { OnOk result (self.new ≡ record self.old {
          properties = objects.with_property self.old.properties
              (record { name = name.now; content = content; attrs = attrs; shared = shared });
        }) }
        ensures kept { OnErr result (self.new ≡ self.old) }
    {
        self.properties.put(alloc, name, content, attrs, shared)
    }

    /// Removes a property, if it is there.
    pub fn remove(&mut self, name: &Text16)
        ensures { self.new ≡ record self.old {
          properties = spec.without self.old.properties name.now;
        } }
    {
        self.properties.remove(name);
    }

    /// Shares a property from now on, if it is there.
    pub fn share(&mut self, name: &Text16)
        ensures { self.new ≡ record self.old {
          properties = map (code.shared_from_now name.now) self.old.properties;
        } }
    {
        self.properties.share(name);
    }

    /// Deletes the elements from a new length on, below the old one. Where that is one element
    /// alone, it is found by its name.
    pub(crate) fn cut_below(&mut self, alloc: Global, new: u32, old: i64)
        ensures { self.new ≡ record self.old {
          properties = filter (λ (q : Property). not (spec.is_cut new (Some old) q))
              self.old.properties;
        } }
    {
        if i64::from(new) >= old {
            return;
        }
        if i64::from(new) + 1 < old {
            self.properties.cut(new, old);
            return;
        }
        match element_name(alloc, new) {
            Some(name) => self.properties.remove(&name),
            None => self.properties.cut(new, old),
        }
    }

    /// The properties, in order of insertion.
    pub(crate) fn properties(&self) -> &Properties
        ensures { result.now ≡ self.now.properties }
    {
        &self.properties
    }
}
