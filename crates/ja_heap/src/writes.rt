//! What changes a property (ES3 8.6.2.2, 8.6.2.5), and an array's length with it (15.4.5.1).
ghost use Rattle.std.specs.Prelude.{◌≡◌, ◌<◌, ◌^◌, Some, IfOk, IfSome, OnOk, OnErr, filter, map, not};
ghost use Rattle.std.specs.Option.{option_map_or};
ghost use Rattle.ja_prim.specs.Conversions.{to_number, index_of};
ghost use Rattle.ja_machine.specs.declared.machine.Addr.{Addr};
ghost use Rattle.ja_machine.specs.declared.machine.Heap.{Heap};
ghost use Rattle.ja_machine.specs.declared.machine.Object.{Object};
ghost use Rattle.ja_machine.specs.declared.machine.Property.{Property};
ghost use Rattle.ja_machine.specs.declared.machine.Put.TheVariants.{Done};
ghost use Rattle.ja_machine.specs.Heap.{object_at, with_object, property_of};
ghost use Rattle.ja_machine.specs.Writes as spec;
ghost use Rattle.ja_machine.specs.code.Writes as code;

use crate::{Heap, Object};
use ja_base::Memory;
use ja_graph::{Attrs, Class};
use ja_machine::{Addr, Content, Put, Value};
use ja_prim::{Int, Num, Prim, Primitive, Text16, array_index, to_num};
use std::alloc::Global;

/// Whether a class is that of arrays.
fn is_array(class: Class) -> bool
    ensures { result ≡ spec.is_array class }
{
    matches!(class, Class::Array)
}

/// A whole number as a value.
fn whole_number(n: u32) -> Value
    ensures { result ≡ spec.whole_number n }
{
    Value::Primitive(Primitive::Number(Num::Whole(Int::new(i64::from(n)).unwrap())))
}

/// The unsigned 32-bit number that a value's number is, if it is one (ES3 15.4.5.1, steps 12 and
/// 13).
fn unsigned_number(value: &Prim) -> Option<u32>
    ensures value { result ≡ spec.unsigned_number (to_number value.now) }
    ensures small { IfSome result (λ n. n < 2 ^ 32) }
{
    let number = to_num(value).ok()?;
    match number {
        Num::Whole(n) => u32::try_from(n.get()).ok(),
        Num::NaN => None,
    }
}

/// The whole number that is held, if it is one.
fn whole_number_of(content: &Content) -> Option<Int>
    ensures { result ≡ spec.number_held content.now }
{
    match content {
        Content::Value(Value::Primitive(Primitive::Number(Num::Whole(n)))) => Some(*n),
        _ => None,
    }
}

impl Object {
    /// The whole number that an array's length is, if it is one.
    fn length(&self, length: &Text16) -> Option<Int>
        ensures { result ≡ spec.property_number (property_of self.now length.now) }
    {
        whole_number_of(&self.property(length)?.content)
    }

    /// Sets an element: a length that isn't above its index becomes one more than the index (ES3
    /// 15.4.5.1, steps 8 to 10).
    fn put_element(
        &mut self,
        alloc: Global,
        length: &Text16,
        name: &Text16,
        v: Value,
    ) -> Result<(), Memory>
        requires { length.now ≡ spec.length_name }
        ensures put { OnOk result (self.new ≡ spec.with_element self.old name.now v
            (index_of name.now)) }
        ensures kept { OnErr result (self.new ≡ self.old) }
    {
        let old = self.length(length);
        self.set_value(alloc, name, v)?;
        if let (Some(index), Some(old)) = (array_index(name), old) {
            if i64::from(index) >= old.get() {
                self.replace_value(length, whole_number(index + 1));
            }
        }
        Ok(())
    }

    /// Deletes the elements from a new length on, below the old one, if that is a number.
    fn cut(&mut self, alloc: Global, new: u32, old: Option<Int>)
        ensures { self.new ≡ record self.old {
          properties = filter
              (λ (q : Property). not (spec.is_cut new old q)) self.old.properties;
        } }
    {
        match old {
            None => {}
            Some(old) => self.cut_below(alloc, new, old.get()),
        }
    }

    /// Sets an array's length: elements that aren't below it are deleted (ES3 15.4.5.1, steps 14
    /// and 15). The length is set first, since that may take memory.
    fn put_length(&mut self, alloc: Global, length: &Text16, n: u32) -> Result<(), Memory>
        requires { length.now ≡ spec.length_name }
        ensures put { OnOk result (self.new ≡ spec.with_length self.old n) }
        ensures kept { OnErr result (self.new ≡ self.old) }
    {
        let old = self.length(length);
        self.set_value(alloc, length, whole_number(n))?;
        self.cut(alloc, n, old);
        Ok(())
    }

    /// Sets an array's length, if the value is a length (ES3 15.4.5.1, steps 12 to 15).
    fn put_length_value(&mut self, alloc: Global, length: &Text16, v: Value) -> Result<Put, Memory>
        requires { length.now ≡ spec.length_name }
        ensures put { IfOk result (λ end. (h : Heap) (a : Addr) → object_at h a ≡ Some self.old
            → spec.written (with_object h a self.new) end ≡ spec.put_length_value h a self.old v) }
        ensures kept { OnErr result (self.new ≡ self.old) }
    {
        match v {
            Value::Object(_) => Ok(Put::LengthObject),
            Value::Primitive(value) => match unsigned_number(&value) {
                None => Ok(Put::RangeError),
                Some(n) => {
                    self.put_length(alloc, length, n)?;
                    Ok(Put::Done)
                }
            },
        }
    }

    /// What a put does to the object whose property it sets.
    fn put(
        &mut self,
        alloc: Global,
        length: &Text16,
        name: &Text16,
        v: Value,
    ) -> Result<Put, Memory>
        requires { length.now ≡ spec.length_name }
        ensures put { IfOk result (λ end. (h : Heap) (a : Addr) → object_at h a ≡ Some self.old
            → spec.written (with_object h a self.new) end ≡ spec.put_own h a self.old name.now v) }
        ensures kept { OnErr result (self.new ≡ self.old) }
    {
        if !is_array(self.class()) {
            self.set_value(alloc, name, v)?;
            return Ok(Put::Done);
        }
        if name.units() == length.units() {
            return self.put_length_value(alloc, length, v);
        }
        self.put_element(alloc, length, name, v)?;
        Ok(Put::Done)
    }
}

impl Heap {
    /// Sets the value of a property (ES3 8.6.2.2, 15.4.5.1). All but `Done` leave the heap as it
    /// was, and so does `Memory`, which comes where memory is refused.
    pub fn put(&mut self, alloc: Global, a: Addr, name: &Text16, v: Value) -> Result<Put, Memory>
        ensures put { IfOk result (λ end. spec.written self.new end
            ≡ spec.put self.old a name.now v) }
        ensures kept { OnErr result (self.new ≡ self.old) }
    {
        if !self.can_put(a, name) {
            return Ok(Put::Ignored);
        }
        if self.is_shared(a, name) {
            return Ok(Put::SharedArgument);
        }
        self.put_own(alloc, a, name, v)
    }

    /// Sets the value of a property where nothing hinders it.
    fn put_own(&mut self, alloc: Global, a: Addr, name: &Text16, v: Value) -> Result<Put, Memory>
        ensures put { IfOk result (λ end. spec.written self.new end
            ≡ option_map_or (λ o. spec.put_own self.old a o name.now v) (object_at self.old a)
            (spec.written self.old Done)) }
        ensures kept { OnErr result (self.new ≡ self.old) }
    {
        let objects = match self.objects.get_mut(a.site.0 as usize) {
            None => return Ok(Put::Done),
            Some(objects) => objects,
        };
        match objects.get_mut(a.ordinal as usize) {
            None => return Ok(Put::Done),
            Some(object) => object.put(alloc, &self.length, name, v),
        }
    }

    /// Defines a name on an object: its content and its attributes. A new name comes last. After
    /// `Memory` the heap is as it was.
    pub fn define(
        &mut self,
        alloc: Global,
        a: Addr,
        name: &Text16,
        content: Content,
        attrs: Attrs,
    ) -> Result<(), Memory>
        ensures defined { OnOk result (self.new ≡ spec.define self.old a name.now content attrs) }
        ensures kept { OnErr result (self.new ≡ self.old) }
    {
        let objects = match self.objects.get_mut(a.site.0 as usize) {
            None => return Ok(()),
            Some(objects) => objects,
        };
        match objects.get_mut(a.ordinal as usize) {
            None => return Ok(()),
            Some(object) => object.define(alloc, name, content, attrs),
        }
    }

    /// Whether a deletion gives true (ES3 8.6.2.5).
    pub fn can_delete(&self, a: Addr, name: &Text16) -> bool
        ensures { result ≡ spec.can_delete self.now a name.now }
    {
        match self.own(a, name) {
            Some(held) => !held.attrs.dont_delete,
            None => true,
        }
    }

    /// Deletes a property if it can be deleted, and tells whether it can (ES3 8.6.2.5).
    pub fn delete(&mut self, a: Addr, name: &Text16) -> bool
        ensures deleted { result ≡ spec.can_delete self.old a name.now }
        ensures heap { self.new ≡ spec.delete self.old a name.now }
    {
        if !self.can_delete(a, name) {
            return false;
        }
        self.remove(a, name);
        true
    }

    /// Removes an own property, if it is there.
    fn remove(&mut self, a: Addr, name: &Text16)
        ensures { self.new ≡ spec.changed self.old a
            (λ (o : Object). record o { properties = spec.without o.properties name.now }) }
    {
        let objects = match self.objects.get_mut(a.site.0 as usize) {
            None => return,
            Some(objects) => objects,
        };
        match objects.get_mut(a.ordinal as usize) {
            None => return,
            Some(object) => object.remove(name),
        }
    }

    /// Marks an own property, if it is there: from now on a parameter and an element of `arguments`
    /// share its value (ES3 10.1.8).
    pub fn mark(&mut self, a: Addr, name: &Text16)
        ensures { self.new ≡ spec.changed self.old a
            (λ (o : Object). record o {
              properties = map (code.shared_from_now name.now)
                  o.properties;
            }) }
    {
        let objects = match self.objects.get_mut(a.site.0 as usize) {
            None => return,
            Some(objects) => objects,
        };
        match objects.get_mut(a.ordinal as usize) {
            None => return,
            Some(object) => object.share(name),
        }
    }
}
