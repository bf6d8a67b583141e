ghost use Rattle.std.specs.Prelude.{◌≡◌, IfOk, IfSome};

use ja_prim::Text16;
use std::alloc::{AllocError, Global};

/// How many texts are kept.
const SLOTS: usize = 1024;

/// Texts of tokens that were read, at most one in each slot, so that a token whose text was read
/// before shares its units.
#[derive(Drop)]
pub(crate) struct Texts {
    kept: Vec<Option<Text16>>,
}

/// The slot of a text.
fn slot_of(text: &Text16) -> usize {
    let mut hash: u32 = 0;
    for unit in text.units() {
        hash = hash.wrapping_mul(31).wrapping_add(u32::from(*unit));
    }
    hash as usize % SLOTS
}

impl Texts {
    /// No text is kept.
    pub(crate) fn new(alloc: Global) -> Result<Texts, AllocError> {
        let mut kept = Vec::new(alloc);
        for _slot in 0..SLOTS {
            kept.push(None)?;
        }
        Ok(Texts { kept })
    }

    /// The text that is kept in a slot, if it is this one.
    fn kept_in(&self, slot: usize, text: &Text16) -> Result<Option<Text16>, AllocError>
        ensures { IfOk result (λ found. IfSome found (λ same. same ≡ text.now)) }
    {
        match self.kept.get(slot) {
            Some(Some(kept)) => {
                if kept == text {
                    Ok(Some(kept.copy()?))
                } else {
                    Ok(None)
                }
            }
            _ => Ok(None),
        }
    }

    /// The same text: the one that is kept, if it is this one; else this one is kept from now on.
    pub(crate) fn shared(&mut self, text: Text16) -> Result<Text16, AllocError>
        ensures { IfOk result (λ same. same ≡ text) }
    {
        let slot = slot_of(&text);
        if let Some(kept) = self.kept_in(slot, &text)? {
            return Ok(kept);
        }
        if slot < self.kept.len() {
            self.kept[slot] = Some(text.copy()?);
        }
        Ok(text)
    }
}
