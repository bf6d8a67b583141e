ghost use Rattle.std.specs.Prelude.{◌≡◌, ◌≢◌, ◌==◌, ◌↔◌, ℕ, IfOk, IfSome, IsSome, IsTrue, true, if◌then◌else◌};
ghost use Rattle.std.specs.Option.{option_map_or};
ghost use Rattle.std.specs.Ordering.{nat_cmp};
ghost use Rattle.std.specs.BTreeMap.{get};
ghost use Rattle.ja_abstract.specs.AbstractState.{join_masks, exactly_some};
ghost use Rattle.ja_aheap.specs.Heap.{masks_with};
ghost use Rattle.ja_value.specs.Labels.{mask_in};

use crate::maps::{all_beside, all_listed, fill, put};
use ja_abstract::Mask;
use ja_base::{Memory, Site};
use ja_value::mask_at;
use std::alloc::Global;
use std::collections::BTreeMap;
use std::rc::Rc;

/// Two masks joined.
fn join(mask: Mask, other: Mask) -> Mask
    ensures { result ≡ join_masks mask other }
{
    Mask {
        none: mask.none | other.none,
        some: mask.some | other.some,
    }
}

/// Whether another mask has each part of a first.
fn leq(mask: Mask, other: Mask) -> bool
    ensures { IsTrue result ↔ (join_masks mask other ≡ other) }
{
    (!mask.none | other.none) & (!mask.some | other.some)
}

/// Whether some masks and others are kept at the same sites, and the others have each part of the
/// first. It goes over both once, and says nothing where it answers false.
fn leq_beside(masks: &BTreeMap<u64, Mask>, others: &BTreeMap<u64, Mask>) -> bool
    ensures { result ≡ true → (s : ℕ)
        → join_masks (mask_in masks.now s) (mask_in others.now s) ≡ mask_in others.now s }
{
    all_beside(
        masks,
        others,
        |mask: &Mask, other: &Mask| leq(*mask, *other),
    )
}

/// Whether other masks have each part of some, at the sites that these keep.
fn leq_at_kept(masks: &BTreeMap<u64, Mask>, others: &BTreeMap<u64, Mask>) -> bool
    ensures { IsTrue result ↔ ((q : ℕ) → IsSome (get nat_cmp masks.now q)
        → join_masks (mask_in masks.now q) (mask_in others.now q) ≡ mask_in others.now q) }
{
    all_listed(masks, |site: u64, mask: &Mask| {
        leq(*mask, mask_at(others, site))
    })
}

/// Whether other masks have each part of some, at the sites that the others keep.
fn leq_at_kept_of(masks: &BTreeMap<u64, Mask>, others: &BTreeMap<u64, Mask>) -> bool
    ensures { IsTrue result ↔ ((q : ℕ) → IsSome (get nat_cmp others.now q)
        → join_masks (mask_in masks.now q) (mask_in others.now q) ≡ mask_in others.now q) }
{
    all_listed(others, |site: u64, other: &Mask| {
        leq(mask_at(masks, site), *other)
    })
}

/// Whether other masks have each part of some.
pub fn leq_masks(masks: &BTreeMap<u64, Mask>, others: &BTreeMap<u64, Mask>) -> bool
    ensures { IsTrue result ↔ ((s : ℕ)
        → join_masks (mask_in masks.now s) (mask_in others.now s) ≡ mask_in others.now s) }
{
    leq_beside(masks, others) || (leq_at_kept(masks, others) && leq_at_kept_of(masks, others))
}

/// Masks with others joined in, or `None` where that changes none.
pub fn joined_masks(
    alloc: Global,
    masks: &BTreeMap<u64, Mask>,
    others: &BTreeMap<u64, Mask>,
) -> Result<Option<Rc<BTreeMap<u64, Mask>>>, Memory>
    ensures joined { IfOk result (λ m. (s : ℕ)
        → mask_in (option_map_or (λ (new : _). new.value) m masks.now) s
        ≡ join_masks (mask_in masks.now s) (mask_in others.now s)) }
    ensures changed { IfOk result (λ m.
        IfSome m (λ new. mask_in new.value ≢ mask_in masks.now)) }
{
    if leq_masks(others, masks) {
        return Ok(None);
    }
    let mut joined = BTreeMap::new(alloc);
    fill(&mut joined, masks, |site: u64, mask: &Mask| {
        Ok(join(*mask, mask_at(others, site)))
    })?;
    fill(&mut joined, others, |site: u64, other: &Mask| {
        Ok(join(mask_at(masks, site), *other))
    })?;
    Ok(Some(Rc::new(alloc, joined)?))
}

/// The masks after an object more was made at a site.
pub fn made_masks(
    alloc: Global,
    masks: &BTreeMap<u64, Mask>,
    site: Site,
) -> Result<Rc<BTreeMap<u64, Mask>>, Memory>
    ensures { IfOk result (λ m. (s : ℕ) → mask_in m.value s
        ≡ (if site.0 == s then exactly_some else mask_in masks.now s)) }
{
    let some = Mask {
        none: false,
        some: true,
    };
    let mut made = masks.clone()?;
    put(&mut made, u64::from(site.0), some)?;
    Ok(Rc::new(alloc, made)?)
}

/// The masks after some are set, of those of one site the first.
pub fn masks_with(
    alloc: Global,
    masks: &BTreeMap<u64, Mask>,
    others: Vec<(Site, Mask)>,
) -> Result<Rc<BTreeMap<u64, Mask>>, Memory>
    ensures { IfOk result (λ m. (s : ℕ) → mask_in m.value s
        ≡ masks_with others.items (mask_in masks.now) s) }
{
    let mut set = BTreeMap::new(alloc);
    fill(&mut set, masks, |_site: u64, mask: &Mask| Ok(*mask))?;
    let mut others = others;
    while let Some((site, mask)) = others.pop() {
        put(&mut set, u64::from(site.0), mask)?;
    }
    Ok(Rc::new(alloc, set)?)
}
