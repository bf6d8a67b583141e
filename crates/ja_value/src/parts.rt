ghost use Rattle.std.specs.Prelude.{◌≡◌, ◌≤◌, length};
ghost use Rattle.std.specs.List.{list_any};
ghost use Rattle.ja_graph.specs.declared.program.Program.{Program};
ghost use Rattle.ja_abstract.specs.AbstractValue.{has_present_flag, is_present, has_part};
ghost use Rattle.ja_abstract.specs.AbstractState.{labels_below};
ghost use Rattle.ja_abstract.specs.Made.{one_number};
ghost use Rattle.ja_abstract.specs.Parts.{has_primitive};
ghost use Rattle.ja_abstract.specs.Rank.{flag_rank, flags_rank, rank};
ghost use Rattle.ja_abstract.specs.Values.{has_atoms, has_nullish, has_non_object};

use crate::AValue;
use crate::numbers::{has_number, number_alone, number_has, number_rank};
use crate::texts::{has_text, text_has, text_rank};
use ja_abstract::Flags;
use ja_prim::{Int, Num, Primitive};

/// Whether a flag besides `absent` and `entry` is set.
fn has_present_flag(flags: Flags) -> bool
    ensures { result ≡ has_present_flag flags }
{
    flags.row | flags.undefined | flags.null | flags.is_true | flags.is_false | flags.nan
}

/// 1 for a flag that is set, and 0 for another.
fn flag_rank(flag: bool) -> u64
    ensures value { result ≡ flag_rank flag }
    ensures small { result ≤ 1 }
{
    if flag { 1 } else { 0 }
}

/// The number of flags.
fn flags_rank(flags: Flags) -> u64
    ensures value { result ≡ flags_rank flags }
    ensures small { result ≤ 8 }
{
    flag_rank(flags.absent)
        + flag_rank(flags.entry)
        + flag_rank(flags.row)
        + flag_rank(flags.undefined)
        + flag_rank(flags.null)
        + flag_rank(flags.is_true)
        + flag_rank(flags.is_false)
        + flag_rank(flags.nan)
}

impl AValue {
    ghost use Rattle.ja_value.specs.Value.{value_of};

    /// Whether some part is there besides `absent` and `entry`; of labels, those of the first
    /// `sites` sites.
    pub fn is_present(&self, sites: u32) -> bool
        ensures { result ≡ is_present (labels_below sites) (value_of self.now) }
    {
        has_present_flag(self.flags)
            | has_number(&self.number)
            | has_text(&self.text)
            | self.labels.has_below(sites)
    }

    /// Whether some part is there; of labels, those of the first `sites` sites.
    pub fn has_part(&self, sites: u32) -> bool
        ensures { result ≡ has_part (labels_below sites) (value_of self.now) }
    {
        self.flags.absent | self.flags.entry | self.is_present(sites)
    }

    /// Whether a primitive is among the value.
    pub fn has_primitive(&self, primitive: &Primitive) -> bool
        ensures { result ≡ has_primitive (value_of self.now) primitive.now }
    {
        match primitive {
            Primitive::Undefined => self.flags.undefined,
            Primitive::Null => self.flags.null,
            Primitive::Bool(true) => self.flags.is_true,
            Primitive::Bool(false) => self.flags.is_false,
            Primitive::Number(Num::NaN) => self.flags.nan,
            Primitive::Number(Num::Whole(number)) => number_has(self.number, *number),
            Primitive::Text(text) => text_has(&self.text, text),
        }
    }

    /// Whether some primitive is among the value.
    pub fn has_atoms(&self) -> bool
        ensures { result ≡ has_atoms (value_of self.now) }
    {
        let flags = self.flags;
        flags.undefined
            | flags.null
            | flags.is_true
            | flags.is_false
            | flags.nan
            | has_number(&self.number)
            | has_text(&self.text)
    }

    /// Whether an object is among the value: a label of the first `sites` sites.
    pub fn has_labels(&self, sites: u32) -> bool
        ensures { result ≡ list_any (value_of self.now).label (labels_below sites) }
    {
        self.labels.has_below(sites)
    }

    /// Whether undefined or null is among the value.
    pub fn has_nullish(&self) -> bool
        ensures { result ≡ has_nullish (value_of self.now) }
    {
        self.flags.undefined | self.flags.null
    }

    /// Whether something that isn't an object is among the value: absent and a row too.
    pub fn has_non_object(&self) -> bool
        ensures { result ≡ has_non_object (value_of self.now) }
    {
        self.flags.absent | self.flags.row | self.has_atoms()
    }

    /// The one number that the value is, if it is nothing else; labels are those of the first
    /// `sites` sites, which are those of a program.
    pub fn one_number(&self, sites: u32) -> Option<Int>
        ensures { (p : Program) → length p.sites ≡ sites
            → result ≡ one_number p (value_of self.now) }
    {
        let others = self.flags.absent
            | self.flags.entry
            | has_present_flag(self.flags)
            | has_text(&self.text)
            | self.labels.has_below(sites);
        if others {
            return None;
        }
        number_alone(self.number)
    }

    /// How far up the value stands, from 0 on: the number of its flags, 0 to 3 for its number part
    /// and for its text part, and the number of its labels among those of the first `sites` sites.
    /// A value that is above another, and isn't below it, has a higher rank.
    pub fn rank(&self, sites: u32) -> u64
        ensures { result ≡ rank (labels_below sites) (value_of self.now) }
    {
        flags_rank(self.flags)
            + number_rank(self.number)
            + text_rank(&self.text)
            + self.labels.count_below(sites)
    }
}
