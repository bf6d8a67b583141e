//! The parts of abstract values, properties and objects (Jensen, Møller and Thiemann, SAS 2009 and
//! 2010).

use ja_base::NameId;
use ja_prim::{Int, Text16};

/// The parts of an abstract value that have no more to say than that they are there: `absent` for a
/// missing property or an empty slot, `entry` for what was there when the function was entered, and
/// `row` for a property that is out of the profile.
#[derive(Clone, Copy, Debug, PartialEq, Eq)]
pub struct Flags {
    pub absent: bool,
    pub entry: bool,
    pub row: bool,
    pub undefined: bool,
    pub null: bool,
    pub is_true: bool,
    pub is_false: bool,
    pub nan: bool,
}

/// The whole numbers of an abstract value: none, one, the array indices, all others, or all.
#[derive(Clone, Copy, Debug, PartialEq, Eq)]
pub enum NumberPart {
    Nothing,
    One(Int),
    Index,
    OtherWhole,
    Whole,
}

/// The texts of an abstract value: none, one, the texts of array indices, all others, or all.
#[derive(Drop)]
pub enum TextPart {
    Nothing,
    One(Text16),
    IndexText,
    OtherText,
    Text,
}

/// Whether an attribute may be set and may be unset.
#[derive(Clone, Copy, Debug, PartialEq, Eq)]
pub struct May {
    pub set: bool,
    pub unset: bool,
}

/// What is known of the attributes of an abstract property.
#[derive(Clone, Copy, Debug, PartialEq, Eq)]
pub struct AAttrs {
    pub read_only: May,
    pub dont_enum: May,
    pub dont_delete: May,
}

/// How many objects were made at a site since the entry of a function: maybe none, maybe some.
#[derive(Clone, Copy, Debug, PartialEq, Eq)]
pub struct Mask {
    pub none: bool,
    pub some: bool,
}

/// An internal property.
#[derive(Clone, Copy, Debug, PartialEq, Eq)]
pub enum Slot {
    Prototype,
    Outer,
    Scope,
    Value,
}

/// What an abstract object tells apart: the names of the program, the other texts of array indices
/// together, all other texts together, and the internal properties.
#[derive(Clone, Copy, Debug, PartialEq, Eq)]
pub enum Key {
    Name(NameId),
    OtherIndex,
    OtherName,
    Slot(Slot),
}

/// What an operation on texts and numbers takes at a place.
#[derive(Clone, Copy, Debug, PartialEq, Eq)]
pub enum Sort {
    Text,
    Number,
}
