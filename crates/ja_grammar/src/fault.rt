use ja_base::{Place, ScopeKind};
use std::alloc::{AllocError, AllocFailed};
use thiserror::Error;

/// Why reading ends at a token: no text of the language has that token, or the text's end, behind
/// the tokens before it.
#[derive(Clone, Copy, Debug, PartialEq, Eq)]
pub enum Refusal {
    /// Nothing more is to be said.
    Unexpected,
    /// The token is `/` or `/=`, and an expression may begin there.
    RegExp,
    /// The token is the word `arguments`, and a declared name may stand there.
    Arguments,
    /// The token would stand under one more level than there are.
    Deep,
    /// The token is the `:` behind a label at this place, and the label would stand under one more
    /// level than there are.
    DeepLabel(Place),
    /// The token is forbidden by the word at this place: it makes the operand of a `++` or `--` no
    /// reference, closes a label inside itself, or is no loop's label of a `continue`.
    Broken(Place),
    /// The operand of the `++` or `--` at this place is complete, and no reference.
    Operand(Place),
    /// The `break` at this place has no label behind it, and there is nothing to leave without one.
    Alone(Place),
    /// The token is the word of a jump where there is nothing to leave, and no label around is the
    /// one behind it, at this place.
    UnknownLabel(Place),
}

/// Why a function that reads gives nothing.
#[derive(Clone, Copy, Debug, PartialEq, Eq)]
pub enum Stop {
    Refused(Refusal),
    Memory,
}

/// Why a text has no tree. `Syntax`: it is not in the language. `Scope`: it leaves the profile.
/// `Depth`: a token stands under more than 200 levels. `Memory`: memory was refused.
#[derive(Clone, Copy, Debug, PartialEq, Eq, Error)]
pub enum ParseFault {
    #[error("not in the language at {place:?}")]
    Syntax { place: Place },
    #[error("out of the profile at {place:?}: {kind:?}")]
    Scope { kind: ScopeKind, place: Place },
    #[error("nested deeper than 200 levels at {place:?}")]
    Depth { place: Place },
    #[error("memory was refused")]
    Memory,
}

impl From<AllocError> for Stop {
    ghost use Rattle.ja_grammar.specs.declared.fault.Stop.TheVariants.{Memory};
    ghost use Rattle.std.specs.Prelude.{◌≡◌};

    ghost from_gives = { λ _ e. e ≡ Memory };

    fn from(_: AllocError) -> Self {
        Stop::Memory
    }
}

impl<T: Drop> From<AllocFailed<T>> for Stop {
    ghost use Rattle.ja_grammar.specs.declared.fault.Stop.TheVariants.{Memory};
    ghost use Rattle.std.specs.Prelude.{◌≡◌};

    ghost from_gives = { λ _ e. e ≡ Memory };

    fn from(_: AllocFailed<T>) -> Self {
        Stop::Memory
    }
}
