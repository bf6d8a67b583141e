//! What renaming comes to: the labels of an object at the entry of a function and now. The
//! functions do nothing; their contracts are the laws.

ghost use Rattle.std.specs.Prelude.{◌≡◌, ℕ, false, [], ◌∷◌};
ghost use Rattle.std.specs.List.{list_any};
ghost use Rattle.ja_base.specs.declared.ids.Label.{Label};
ghost use Rattle.ja_base.specs.declared.ids.Site.{Site};
ghost use Rattle.ja_machine.specs.declared.machine.Heap.{Heap};
ghost use Rattle.ja_abstract.specs.declared.abstraction.Mask.{Mask};
ghost use Rattle.ja_abstract.specs.AbstractValue.{Labels};
ghost use Rattle.ja_abstract.specs.AbstractState.{new, old};
ghost use Rattle.ja_abstract.specs.Resolved.{origins, renamed_labels};
ghost use Rattle.ja_meaning.specs.RenamingLaws.{IsAged, HaveOrigins, AreRenamed, KnowsRenamed};

/// Of any two heaps, of which the second has all objects of the first, and masks that hold of them:
/// an object that was in the first had one of the origins of the label that it has now; so the
/// renamed labels have the label now of each object that had one of the labels; and what was known
/// of its contents is known of them. A label is renamed exactly where one of its origins is among
/// the labels. Where no object was made at a site, an old one was old; where some was made, the new
/// one wasn't there.
pub fn renaming_is_by_origins()
    ensures origins { (e c : Heap) (mask : ℕ → Mask) → IsAged e c mask → HaveOrigins e c mask }
    ensures labels { (e c : Heap) (mask : ℕ → Mask) → IsAged e c mask → AreRenamed e c mask }
    ensures contents { (e c : Heap) (mask : ℕ → Mask) → IsAged e c mask → KnowsRenamed e c mask }
    ensures exactly { (mask : ℕ → Mask) (set : Labels) (l : Label)
        → renamed_labels mask set l ≡ list_any set (origins mask l) }
    ensures old_alone { (mask : ℕ → Mask) (s : Site) → (mask s.0).some ≡ false
        → origins mask (old s) ≡ old s ∷ [] }
    ensures none_new { (mask : ℕ → Mask) (s : Site) → (mask s.0).none ≡ false
        → origins mask (new s) ≡ [] }
{}
