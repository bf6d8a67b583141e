//! The lines of a listing as contracts see them, also where they aren't kept.

ghost use Rattle.std.specs.Prelude.{◌≡◌, List};
ghost use Rattle.std.specs.Borrow.{ftrue};
ghost use Rattle.ja_lower_listing.specs.declared.item.Item.{Item};

use crate::moves::Moves;
use crate::part::Part;
use std::marker::Model;

/// All lines of a listing. They exist only in proofs: a value has no bytes, and to make one does
/// nothing.
#[derive(Drop)]
pub struct Listed {
    pub ghost lines: { List Item },
}

impl Model for Listed {
    ghost also_owns = { λ _. ftrue };
}

/// How lines come about.
#[derive(Clone, Copy, Drop)]
pub enum Growth<'a> {
    /// There are none.
    Nothing,
    /// Lines, and that of a part.
    With(&'a Listed, &'a Part),
    /// Lines, and a copy of the block to which other lines come.
    WithCopy(&'a Listed, &'a Listed, Moves),
    /// Lines, and others behind them.
    Both(&'a Listed, &'a Listed),
}

impl Listed {
    ghost use Rattle.ja_lower_draft.specs.code.Listed.{grown_lines};

    /// The lines that come about so.
    pub(crate) fn grown(_growth: &Growth<'_>) -> Listed
        ensures { result.lines ≡ grown_lines _growth.now }
    {
        Listed {}
    }
}
