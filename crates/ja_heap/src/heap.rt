ghost use Rattle.std.specs.Prelude.{◌≡◌, ◌==◌, ◌+◌, ◌++◌, not, ◌∷◌, [], IfOk, OnOk, OnErr};
ghost use Rattle.std.specs.Option.{option_map, option_to_list};
ghost use Rattle.ja_machine.specs.Calls.{has_elements_at};
ghost use Rattle.ja_machine.specs.Heap as spec;

use crate::Object;
use ja_base::{Label, Memory, Site};
use ja_graph::Class;
use ja_machine::{Addr, Property};
use ja_prim::Text16;
use std::alloc::Global;
use std::marker::Model;

/// All objects: for each site those that were made there, in order, fewer than 2^64. None is
/// removed. Contracts see the heap of the machine. To let it go is one call.
pub struct Heap {
    pub(crate) objects: Vec<Vec<Object>>,
    /// How many objects there are in all.
    pub(crate) size: u64,
    /// The name `length`, by which the lengths of arrays are looked up.
    pub(crate) length: Text16,
}

impl Model for Heap {
    ghost use Rattle.std.specs.Prelude.{◌≡◌, map};
    ghost use Rattle.ja_machine.specs.declared.machine.Heap.{Heap as MachineHeap};
    ghost use Rattle.ja_machine.specs.Heap.{size as size_of};
    ghost use Rattle.ja_machine.specs.Writes.{length_name};

    ghost Value = { MachineHeap };

    ghost view = { λ h. record { objects = map (λ site. site.items) h.objects.items } };

    ghost invariant = { λ h. (h.size ≡ size_of (record { objects = map (λ site. site.items) h.objects.items }))
        × (h.length ≡ length_name) };
}

impl Drop for Heap {
    fn drop(self) {
        let Heap {
            objects: _,
            size: _,
            length: _,
        } = self;
    }
}

/// One more, or `Memory` where that isn't below 2^64.
fn one_more(size: u64) -> Result<u64, Memory>
    ensures { IfOk result (λ n. n ≡ size + 1) }
{
    size.checked_add(1).ok_or(Memory)
}

impl Heap {
    /// The heap without sites.
    pub fn new(alloc: Global) -> Result<Heap, Memory>
        ensures { IfOk result (λ h. h ≡ record { objects = [] }) }
    {
        Ok(Heap {
            objects: Vec::new(alloc),
            size: 0,
            length: Text16::from_ascii(alloc, b"length")?,
        })
    }

    /// Adds a site behind the others, with one object or none.
    pub fn add_site(&mut self, alloc: Global, object: Option<Object>) -> Result<(), Memory>
        ensures added { OnOk result (self.new
            ≡ record { objects = self.old.objects ++ option_to_list object ∷ [] }) }
        ensures kept { OnErr result (self.new ≡ self.old) }
    {
        let mut objects = Vec::new(alloc);
        let mut size = self.size;
        if let Some(object) = object {
            size = one_more(size)?;
            objects.push(object)?;
        }
        self.objects.push(objects)?;
        self.size = size;
        Ok(())
    }

    /// Makes an object at a site.
    pub fn alloc(&mut self, site: Site, object: Object) -> Result<Addr, Memory>
        ensures heap { OnOk result (self.new ≡ spec.with_new self.old site object) }
        ensures address { IfOk result (λ a. a ≡ spec.new_address self.old site) }
        ensures kept { OnErr result (self.new ≡ self.old) }
    {
        let address = Addr {
            site,
            ordinal: self.count(site),
        };
        let size = one_more(self.size)?;
        match self.objects.get_mut(site.0 as usize) {
            None => Ok(address),
            Some(objects) => {
                objects.push(object)?;
                self.size = size;
                Ok(address)
            }
        }
    }

    /// The objects that were made at a site, in order.
    fn objects_of(&self, site: Site) -> &[Object]
        ensures { result.now ≡ spec.objects_of self.now site }
    {
        match self.objects.get(site.0 as usize) {
            Some(objects) => objects.as_slice(),
            None => &[],
        }
    }

    /// How many objects were made at a site.
    pub fn count(&self, site: Site) -> u64
        ensures { result ≡ spec.count self.now site }
    {
        self.objects_of(site).len() as u64
    }

    /// The label of an object: it is the new one exactly where it is the last that was made at its
    /// site.
    pub fn label_of(&self, a: Addr) -> Label
        ensures { result ≡ record {
          site = a.site;
          old = not (a.ordinal + 1 == spec.count self.now a.site);
        } }
    {
        let count = self.count(a.site);
        let is_last = 0 < count && a.ordinal == count - 1;
        Label {
            site: a.site,
            old: !is_last,
        }
    }

    /// The object of an address, if it is one of the heap.
    pub fn object(&self, a: Addr) -> Option<&Object>
        ensures { option_map (λ o. o.now) result ≡ spec.object_at self.now a }
    {
        self.objects_of(a.site).get(a.ordinal as usize)
    }

    /// The class of an object.
    pub fn class_at(&self, a: Addr) -> Option<Class>
        ensures { result ≡ spec.class_at self.now a }
    {
        Some(self.object(a)?.class())
    }

    /// Whether an object is an array or an arguments object, whose elements a function is called
    /// with (ES3 15.3.4.3).
    pub fn has_elements(&self, a: Addr) -> bool
        ensures { result ≡ has_elements_at self.now a }
    {
        match self.object(a) {
            Some(object) => match object.class() {
                Class::Array => true,
                _ => object.is_arguments(),
            },
            None => false,
        }
    }

    /// An own property.
    pub fn own(&self, a: Addr, name: &Text16) -> Option<&Property>
        ensures { option_map (λ q. q.now) result ≡ spec.own self.now a name.now }
    {
        self.object(a)?.property(name)
    }

    /// Whether the own property of the name is there, and shared by a parameter and `arguments`
    /// (ES3 10.1.8).
    pub fn is_shared(&self, a: Addr, name: &Text16) -> bool
        ensures { result ≡ spec.is_shared self.now a name.now }
    {
        match self.own(a, name) {
            Some(held) => held.shared,
            None => false,
        }
    }
}
