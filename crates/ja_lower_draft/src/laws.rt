//! What copies of a block are. The functions do nothing; their contracts are the laws.

ghost use Rattle.std.specs.Prelude.{◌≡◌, false, List, ◌++◌, ◌∷◌, []};
ghost use Rattle.ja_base.specs.declared.ids.Reg.{Reg};
ghost use Rattle.ja_lower_listing.specs.declared.item.Item.{Item};
ghost use Rattle.ja_lower_listing.specs.declared.item.Item.TheVariants as item;
ghost use Rattle.ja_lower_listing.specs.Listing.{block_of, assembled};
ghost use Rattle.ja_lower_draft.specs.Copies.{Template, does_nothing, with_block};
ghost use Rattle.ja_lower_draft.specs.Laws.{block_in_copy};
ghost use Rattle.ja_lower_draft.specs.Lines.{Listing};

/// Each way out has a copy of the block of a `finally`, unless the block does nothing: it has the
/// nodes of the block in the same order and at the same places, with the same edges, with the
/// temporaries of the block moved up to behind the register that the copy stands above, and every
/// other register as it was.
#[tactic(auto, using(crate::proofs::CopyLemmas::copy_alike))]
pub fn copies_are_alike()
    ensures { (t : Template) (above : Reg) (l : Listing) → does_nothing t.block ≡ false
        → (with_block t above l).items ≡ l.items
        ++ item.Copy (block_in_copy t.temporary above t.block) ∷ [] }
{}

/// Whatever block it is, and whatever stands behind it, lines come to the same block and the same
/// graph as with a copy: one of a block that does nothing would change neither.
#[tactic(auto, using(crate::proofs::Rulesets::for_ways_out_are_as_with_copies))]
pub fn ways_out_are_as_with_copies()
    ensures block { (t : Template) (above : Reg) (l : Listing) (more : List Item)
        → block_of ((with_block t above l).items ++ more) ≡ block_of (l.items
        ++ item.Copy (block_in_copy t.temporary above t.block) ∷ more) }
    ensures graph { (t : Template) (above : Reg) (l : Listing) (more : List Item)
        → assembled ((with_block t above l).items ++ more) ≡ assembled (l.items
        ++ item.Copy (block_in_copy t.temporary above t.block) ∷ more) }
{}
