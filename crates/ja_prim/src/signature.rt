ghost use Rattle.std.specs.Prelude.{◌≡◌, ◌||◌};

use crate::Text16;

/// The kinds of primitive values (ES3 8.1 to 8.5) that a host device may answer: `Kinds::NUMBER`,
/// or `Kinds::NUMBER.with(Kinds::TEXT)`.
#[derive(Clone, Copy, Debug, PartialEq, Eq)]
pub struct Kinds {
    pub undefined: bool,
    pub null: bool,
    pub boolean: bool,
    pub number: bool,
    pub text: bool,
}

impl Kinds {
    /// No kind: to be filled in, since a device that declares none is refused.
    pub const NONE: Kinds = Kinds {
        undefined: false,
        null: false,
        boolean: false,
        number: false,
        text: false,
    };

    /// Undefined alone.
    pub const UNDEFINED: Kinds = Kinds {
        undefined: true,
        ..Kinds::NONE
    };

    /// Null alone.
    pub const NULL: Kinds = Kinds {
        null: true,
        ..Kinds::NONE
    };

    /// Truth values alone.
    pub const BOOLEAN: Kinds = Kinds {
        boolean: true,
        ..Kinds::NONE
    };

    /// Numbers alone: whole ones, and NaN.
    pub const NUMBER: Kinds = Kinds {
        number: true,
        ..Kinds::NONE
    };

    /// Texts alone.
    pub const TEXT: Kinds = Kinds {
        text: true,
        ..Kinds::NONE
    };

    /// These kinds and others.
    pub fn with(self, others: Kinds) -> Kinds
        ensures undefined { result.undefined ≡ (self.undefined || others.undefined) }
        ensures null { result.null ≡ (self.null || others.null) }
        ensures boolean { result.boolean ≡ (self.boolean || others.boolean) }
        ensures number { result.number ≡ (self.number || others.number) }
        ensures text { result.text ≡ (self.text || others.text) }
    {
        Kinds {
            undefined: self.undefined || others.undefined,
            null: self.null || others.null,
            boolean: self.boolean || others.boolean,
            number: self.number || others.number,
            text: self.text || others.text,
        }
    }
}

/// The name of a host device, and the kinds of its answers.
#[derive(Drop)]
pub struct Signature {
    pub name: Text16,
    pub kinds: Kinds,
}
