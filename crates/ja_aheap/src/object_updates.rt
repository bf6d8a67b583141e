ghost use Rattle.std.specs.Prelude.{◌≡◌, IfOk, if◌then◌else◌, [], ◌∷◌};
ghost use Rattle.ja_abstract.specs.AbstractValue.{join_properties};
ghost use Rattle.ja_abstract.specs.AbstractState.{same_key};
ghost use Rattle.ja_abstract.specs.Writes.{replaced_at, joined_at};
ghost use Rattle.ja_aheap.specs.Objects.{own_in, write_of, writes_of};
ghost use Rattle.ja_value.specs.Value.{property_of};

use crate::{AObject, Made, Write, Writes};
use ja_abstract::Key;
use ja_base::Memory;
use ja_value::AProp;
use std::alloc::Global;

impl AObject {
    ghost use Rattle.ja_aheap.specs.Objects.{object_of};

    /// An object with these properties, and no others.
    pub fn made(alloc: Global, made: Made) -> Result<AObject, Memory>
        ensures { IfOk result (λ o. object_of o ≡ own_in made) }
    {
        let mut object = AObject::absent(alloc);
        let mut listed = made.listed;
        while let Some((key, property)) = listed.pop() {
            object.write(alloc, key, property)?;
        }
        Ok(object)
    }

    /// Joins a property in at a key. After `Memory` the object is as it was.
    fn join_at(&mut self, alloc: Global, key: Key, property: &AProp) -> Result<(), Memory>
        ensures { IfOk result (λ _. object_of self.new ≡ (λ k. if same_key key k
            then join_properties (object_of self.old k) (property_of property.now)
            else object_of self.old k)) }
    {
        let mut joined = self.read(key).copy(alloc)?;
        joined.join(alloc, property)?;
        self.write(alloc, key, joined)?;
        Ok(())
    }

    /// Makes a write, which replaces what was there if it doesn't only join.
    fn replace_one(&mut self, alloc: Global, write: Write) -> Result<(), Memory>
        ensures { IfOk result (λ _. object_of self.new
            ≡ (λ k. replaced_at (write_of write ∷ []) (object_of self.old k) k)) }
    {
        if write.joins {
            self.join_at(alloc, write.key, &write.property)
        } else {
            self.write(alloc, write.key, write.property)
        }
    }

    /// Makes writes, the last of the list first: each replaces what was there if it doesn't only
    /// join. After `Memory` some of them may have been made.
    pub fn strongly(&mut self, alloc: Global, writes: Writes) -> Result<(), Memory>
        ensures { IfOk result (λ _. object_of self.new
            ≡ (λ k. replaced_at (writes_of writes) (object_of self.old k) k)) }
    {
        let mut list = writes.list;
        while let Some(write) = list.pop() {
            self.replace_one(alloc, write)?;
        }
        Ok(())
    }

    /// Makes writes, the last of the list first: each joins. After `Memory` some of them may have
    /// been made.
    pub fn weakly(&mut self, alloc: Global, writes: Writes) -> Result<(), Memory>
        ensures { IfOk result (λ _. object_of self.new
            ≡ (λ k. joined_at (writes_of writes) (object_of self.old k) k)) }
    {
        let mut list = writes.list;
        while let Some(write) = list.pop() {
            self.join_at(alloc, write.key, &write.property)?;
        }
        Ok(())
    }
}
