ghost use Rattle.std.specs.Prelude.{◌≡◌, ◌<◌, ◌*◌, length};
ghost use Rattle.ja_value.specs.Labels.{mask_in};
ghost use Rattle.ja_value.specs.Value.{labels_in};
ghost use Rattle.ja_aheap.specs.code.Masks.{NothingBeyond};
ghost use Rattle.ja_aheap.specs.code.Mentioned.{AreMentioned};

use crate::AObject;
use crate::mentioned::Mentioned;
use ja_abstract::Mask;
use ja_trie::Shared;
use std::collections::BTreeMap;
use std::rc::Rc;

/// An abstract heap of a program with so many sites and names: an object for each label, and a mask
/// for each site. The labels that some property may be are among those that are mentioned.
#[derive(Drop)]
pub struct AHeap {
    pub(crate) sites: u32,
    pub(crate) names: u32,
    pub(crate) objects: Shared<AObject>,
    pub(crate) masks: Rc<BTreeMap<u64, Mask>>,
    pub(crate) mentioned: Mentioned,
    ghost placed: { length objects ≡ 2 * sites },
    ghost few: { 2 * sites < 4294967296 },
    ghost counted: { NothingBeyond sites (mask_in masks.value) },
    ghost mentions: { AreMentioned names objects (labels_in mentioned) },
}
