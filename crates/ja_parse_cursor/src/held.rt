//! Parts of a tree in the hands of the functions that read it.

ghost use Rattle.std.specs.Prelude.{◌≡◌, IfOk};

use sqlite_items::Boxed;
use std::alloc::{AllocError, Global};
use std::marker::Model;

/// A part of a tree behind a box. Contracts see the part. To let it go is one call, where a part by
/// itself would be taken to pieces at each place that may let it go.
pub struct Held<T> {
    part: Boxed<T>,
}

impl<T> Model for Held<T> {
    ghost Value = { T };

    ghost coded = { T.code };

    ghost view = { λ h. h.part };
}

impl<T: Drop> Drop for Held<T> {
    fn drop(self) {
        let Held { part: _ } = self;
    }
}

impl<T> Held<T> {
    pub fn get(&self) -> &T
        ensures { result.now ≡ self.now }
    {
        self.part.get()
    }

    /// The part in its own memory, as a tree has it.
    pub fn into_boxed(self) -> Boxed<T>
        ensures { result ≡ self }
    {
        let Held { part } = self;
        part
    }

    pub fn into_inner(self) -> T
        ensures { result ≡ self }
    {
        self.into_boxed().into_inner()
    }
}

impl<T: Drop> Held<T> {
    /// It fails where memory is refused.
    pub fn new(alloc: Global, part: T) -> Result<Held<T>, AllocError>
        ensures { IfOk result (λ h. h ≡ part) }
    {
        Ok(Held {
            part: Boxed::new(alloc, part)?,
        })
    }
}
