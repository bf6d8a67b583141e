ghost use Rattle.std.specs.Prelude.{◌≡◌, ◌<◌, ◌*◌, ◌+◌, ◌==◌, ℕ, if◌then◌else◌, IfOk, OnErr, length, slice_get};
ghost use Rattle.std.specs.Option.{option_map};
ghost use Rattle.ja_base.specs.declared.ids.Label.{Label};
ghost use Rattle.ja_abstract.specs.declared.abstraction.Key.{Key};
ghost use Rattle.ja_abstract.specs.AbstractState.{aged_property};
ghost use Rattle.ja_aheap.specs.Heap.{made_in, property_at};
ghost use Rattle.ja_aheap.specs.Objects.{object_of};
ghost use Rattle.ja_aheap.specs.code.Own.{own_in_place, join_owns, aged_own, moved_in};
ghost use Rattle.ja_trie.specs.Join.{kept_or};
ghost use Rattle.ja_trie.specs.Nodes.{ArePaths};

use crate::masks::made_masks;
use crate::{AHeap, AObject};
use ja_base::{Label, Memory, Site};
use ja_trie::{Shared, Steps};
use ja_value::label_number;
use std::alloc::Global;
use std::sync::ledger::Ledger;

/// The objects after an object more was made at a site, each at its place. Those that don't mention
/// the object that was new are shared.
fn aged_objects<L: Ledger>(
    alloc: Global,
    objects: &Shared<AObject>,
    site: Site,
    steps: &mut Steps<L>,
) -> Result<Shared<AObject>, Memory>
    ensures aged { IfOk result (λ aged. (n : ℕ) → option_map object_of (slice_get aged n)
        ≡ option_map (λ (o : _). aged_own site (object_of o)) (slice_get objects.now n)) }
    ensures long { IfOk result (λ aged. length aged ≡ length objects.now) }
    ensures nodes { ArePaths (length objects.now) (length objects.now) steps.old steps.new }
{
    let mut aged = objects.fork()?;
    aged.join_with(
        objects,
        |object: &AObject, _same: &AObject|
            ensures { IfOk result (λ o. object_of (kept_or object.now o)
                ≡ aged_own site (object_of object.now)) }
        { object.aged(alloc, site) },
        steps,
    )?;
    Ok(aged)
}

/// Joins the object of a place into the one of another place.
fn join_place<L: Ledger>(
    objects: &mut Shared<AObject>,
    alloc: Global,
    names: u32,
    into: u32,
    from: u32,
    steps: &mut Steps<L>,
) -> Result<(), Memory>
    requires into { into < length objects.old }
    requires from { from < length objects.old }
    ensures joined { IfOk result (λ _. (n : ℕ) → own_in_place names objects.new n
        ≡ (if into == n then join_owns (own_in_place names objects.old into)
        (own_in_place names objects.old from) else own_in_place names objects.old n)) }
    ensures long { length objects.new ≡ length objects.old }
    ensures nodes { ArePaths (length objects.old) 1 steps.old steps.new }
{
    match objects.get(into).joined(alloc, names, objects.get(from))? {
        Some(joined) => {
            objects.set(into, joined, steps)?;
            Ok(())
        }
        None => Ok(()),
    }
}

/// Joins the object that was new at a site into the old one, and puts one in its place that has
/// each key exactly absent. After `Memory` the first may be done, and not the second.
fn move_object<L: Ledger>(
    objects: &mut Shared<AObject>,
    alloc: Global,
    names: u32,
    site: Site,
    steps: &mut Steps<L>,
) -> Result<(), Memory>
    requires within { 2 * site.0 + 1 < length objects.old }
    requires few { length objects.old < 4294967296 }
    ensures moved { IfOk result (λ _. (l : Label) (k : Key) → property_at objects.new names l k
        ≡ moved_in names site (property_at objects.old names) l k) }
    ensures long { IfOk result (λ _. length objects.new ≡ length objects.old) }
    ensures nodes { ArePaths (length objects.old) 2 steps.old steps.new }
{
    let new = label_number(Label { site, old: false }) as u32;
    let old = label_number(Label { site, old: true }) as u32;
    join_place(objects, alloc, names, old, new, steps)?;
    objects.set(new, AObject::absent(alloc), steps)?;
    Ok(())
}

impl AHeap {
    ghost use Rattle.ja_aheap.specs.Heap.{heap_of};

    /// The objects after an object more was made at a site. Where no property may be the object that
    /// was new, no object is looked at.
    fn aged<L: Ledger>(
        &self,
        alloc: Global,
        site: Site,
        steps: &mut Steps<L>,
    ) -> Result<Shared<AObject>, Memory>
        ensures aged { IfOk result (λ aged. (l : Label) (k : Key)
            → property_at aged self.now.names l k
            ≡ aged_property site (property_at self.now.objects self.now.names l k)) }
        ensures long { IfOk result (λ aged. length aged ≡ length self.now.objects) }
        ensures nodes { ArePaths (length self.now.objects) (length self.now.objects)
            steps.old steps.new }
    {
        if self.mentioned.contains(Label { site, old: false }) {
            return aged_objects(alloc, &self.objects, site, steps);
        }
        let objects = self.objects.fork()?;
        Ok(objects)
    }

    /// Makes an object more at a site: the object that was new is old, and the new one has each
    /// key exactly absent.
    pub fn allocate<L: Ledger>(
        &mut self,
        alloc: Global,
        site: Site,
        steps: &mut Steps<L>,
    ) -> Result<(), Memory>
        requires { site.0 < (heap_of self.old).sites }
        ensures made { IfOk result (λ _. heap_of self.new ≡ made_in (heap_of self.old) site) }
        ensures kept { OnErr result (heap_of self.new ≡ heap_of self.old) }
        ensures nodes { ArePaths (2 * (heap_of self.old).sites)
            (2 * (heap_of self.old).sites + 2) steps.old steps.new }
    {
        let mentioned = self.mentioned.made_at(alloc, site)?;
        let mut objects = self.aged(alloc, site, steps)?;
        move_object(&mut objects, alloc, self.names, site, steps)?;
        self.masks = made_masks(alloc, &self.masks, site)?;
        self.objects = objects;
        self.mentioned = mentioned;
        Ok(())
    }
}
