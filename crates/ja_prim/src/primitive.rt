ghost use Rattle.std.specs.Prelude.{◌≡◌, IfOk};

use crate::{Int, Text16};
use std::alloc::AllocError;

/// A number of the profile: NaN, or a whole number. Minus zero is zero.
#[derive(Clone, Copy, Debug, PartialEq, Eq)]
pub enum Num {
    NaN,
    Whole(Int),
}

/// A primitive value of ES3 8.1 to 8.5.
#[derive(Drop)]
pub enum Primitive {
    Undefined,
    Null,
    Bool(bool),
    Number(Num),
    Text(Text16),
}

impl Primitive {
    /// The same value; a text shares its units. It takes no memory, and fails where 2^64 - 1 texts
    /// share them.
    pub fn copy(&self) -> Result<Primitive, AllocError>
        ensures { IfOk result (λ copy. copy ≡ self.now) }
    {
        Ok(match self {
            Primitive::Undefined => Primitive::Undefined,
            Primitive::Null => Primitive::Null,
            Primitive::Bool(truth) => Primitive::Bool(*truth),
            Primitive::Number(number) => Primitive::Number(*number),
            Primitive::Text(text) => Primitive::Text(text.copy()?),
        })
    }
}

/// The short name of [`Primitive`].
pub type Prim = Primitive;
