ghost use Rattle.std.specs.Prelude.{◌≡◌, ◌≢◌, ◌↔◌, ℕ, ℤ, List, IfOk, OnErr, IsTrue, true, false};
ghost use Rattle.ja_abstract.specs.declared.abstraction.NumberPart.TheVariants as number_part;
ghost use Rattle.ja_abstract.specs.declared.abstraction.TextPart.TheVariants as text_part;
ghost use Rattle.ja_abstract.specs.AbstractValue.{join, join_flags, present_part};
ghost use Rattle.ja_abstract.specs.AbstractState.{aged};
ghost use Rattle.ja_abstract.specs.Order.{LeqValue};
ghost use Rattle.ja_abstract.specs.Profile.{IsNumberOfProfile, IsTextOfProfile};
ghost use Rattle.ja_abstract.specs.Resolved.{renamed_labels};
ghost use Rattle.ja_abstract.specs.Values.{primitives_of, as_read};
ghost use Rattle.ja_value.specs.Labels.{mask_in};

use crate::LabelSet;
use crate::numbers::{leq_numbers, widen_number};
use crate::texts::{changed_text, copy_text_part, leq_texts, replace_text};
use ja_abstract::{Flags, Mask, NumberPart, TextPart};
use ja_base::{Memory, Site};
use std::alloc::Global;
use std::collections::BTreeMap;

/// An abstract value (Jensen, Møller and Thiemann, SAS 2009). Its text shares its units with the
/// other values that have it. The one number and the one text that it may be are of the profile.
pub struct AValue {
    pub flags: Flags,
    pub number: NumberPart,
    pub text: TextPart,
    pub labels: LabelSet,
    pub ghost number_of_profile: { (z : ℤ) → number ≡ number_part.One z → IsNumberOfProfile z },
    pub ghost text_of_profile: { (t : List ℕ) → text ≡ text_part.One t → IsTextOfProfile t },
}

impl Drop for AValue {
    fn drop(self) {
        let AValue {
            flags: _,
            number: _,
            text: _,
            labels: _,
        } = self;
    }
}

/// No flag.
pub(crate) const NO_FLAGS: Flags = Flags {
    absent: false,
    entry: false,
    row: false,
    undefined: false,
    null: false,
    is_true: false,
    is_false: false,
    nan: false,
};

/// The flags of either side.
pub fn join_flags(a: Flags, b: Flags) -> Flags
    ensures { result ≡ join_flags a b }
{
    Flags {
        absent: a.absent | b.absent,
        entry: a.entry | b.entry,
        row: a.row | b.row,
        undefined: a.undefined | b.undefined,
        null: a.null | b.null,
        is_true: a.is_true | b.is_true,
        is_false: a.is_false | b.is_false,
        nan: a.nan | b.nan,
    }
}

/// Whether two values have the same flags.
pub fn same_flags(a: Flags, b: Flags) -> bool
    ensures { IsTrue result ↔ (a ≡ b) }
{
    a == b
}

/// Whether other flags have each of some flags.
fn leq_flags(flags: Flags, other: Flags) -> bool
    ensures { IsTrue result ↔ (join_flags other flags ≡ other) }
{
    same_flags(join_flags(other, flags), other)
}

/// Adds flags, and tells whether one of them is new.
pub fn widen_flags(flags: &mut Flags, other: Flags) -> bool
    ensures joined { flags.new ≡ join_flags flags.old other }
    ensures changed { result ≡ true → flags.new ≢ flags.old }
    ensures same { result ≡ false → flags.new ≡ flags.old }
{
    let joined = join_flags(*flags, other);
    let same = same_flags(joined, *flags);
    *flags = joined;
    !same
}

impl AValue {
    ghost use Rattle.ja_value.specs.Value.{value_of};

    /// The same value once more. The text is shared, and up to two labels take no memory.
    pub fn copy(&self, alloc: Global) -> Result<AValue, Memory>
        ensures { IfOk result (λ v. value_of v ≡ value_of self.now) }
    {
        let text = copy_text_part(alloc, &self.text)?;
        let labels = self.labels.copy()?;
        Ok(AValue {
            flags: self.flags,
            number: self.number,
            text,
            labels,
        })
    }

    /// Whether another value has each part of this one, so that a join of this one changes nothing.
    pub fn leq(&self, other: &AValue) -> bool
        ensures order { IsTrue result ↔ LeqValue (value_of self.now) (value_of other.now) }
        ensures joined { IsTrue result ↔ (join (value_of other.now) (value_of self.now)
            ≡ value_of other.now) }
    {
        leq_flags(self.flags, other.flags)
            & leq_numbers(self.number, other.number)
            & leq_texts(&self.text, &other.text)
            & self.labels.is_subset(&other.labels)
    }

    /// Whether this value holds another, so that a join changes nothing.
    pub fn covers(&self, other: &AValue) -> bool
        ensures { IsTrue result ↔ (join (value_of self.now) (value_of other.now)
            ≡ value_of self.now) }
    {
        other.leq(self)
    }

    /// Joins another value in, and tells whether the value changed. After `Memory` it is as it was.
    pub fn join(&mut self, alloc: Global, other: &AValue) -> Result<bool, Memory>
        ensures joined { IfOk result (λ _. value_of self.new
            ≡ join (value_of self.old) (value_of other.now)) }
        ensures changed { IfOk result (λ c. c ≡ true → value_of self.new ≢ value_of self.old) }
        ensures same { IfOk result (λ c. c ≡ false → value_of self.new ≡ value_of self.old) }
        ensures kept { OnErr result (value_of self.new ≡ value_of self.old) }
    {
        let text = changed_text(alloc, &self.text, &other.text)?;
        let labels = self.labels.join(&other.labels)?;
        let flags = widen_flags(&mut self.flags, other.flags);
        let number = widen_number(&mut self.number, other.number);
        let text = replace_text(&mut self.text, text);
        Ok(flags | number | text | labels)
    }

    /// The value after an object more was made at a site: the label that was new is old.
    pub fn aged(&self, alloc: Global, site: Site) -> Result<AValue, Memory>
        ensures { IfOk result (λ v. value_of v ≡ aged site (value_of self.now)) }
    {
        let mut value = self.copy(alloc)?;
        value.labels.age(site)?;
        Ok(value)
    }

    /// The value at the entry with the labels that its objects have now, by the masks of their
    /// sites.
    pub fn renamed(&self, alloc: Global, masks: &BTreeMap<u64, Mask>) -> Result<AValue, Memory>
        ensures { IfOk result (λ v. value_of v ≡ record (value_of self.now) {
          label = renamed_labels (mask_in masks.now) (value_of self.now).label;
        }) }
    {
        let text = copy_text_part(alloc, &self.text)?;
        let labels = self.labels.renamed(alloc, masks)?;
        Ok(AValue {
            flags: self.flags,
            number: self.number,
            text,
            labels,
        })
    }

    /// The value without `absent` and `entry`. It takes no memory.
    pub fn present_part(self) -> AValue
        ensures { value_of result ≡ present_part (value_of self) }
    {
        let mut value = self;
        value.flags.absent = false;
        value.flags.entry = false;
        value
    }

    /// What is absent reads as undefined, and a row leaves the profile. It takes no memory.
    pub fn as_read(self) -> AValue
        ensures { value_of result ≡ as_read (value_of self) }
    {
        let mut value = self;
        value.flags.undefined = value.flags.undefined | value.flags.absent;
        value.flags.absent = false;
        value.flags.entry = false;
        value.flags.row = false;
        value
    }

    /// The value without its objects, and without what is absent, as at entry or a row.
    pub fn primitives_of(&self, alloc: Global) -> Result<AValue, Memory>
        ensures { IfOk result (λ v. value_of v ≡ primitives_of (value_of self.now)) }
    {
        let flags = Flags {
            absent: false,
            entry: false,
            row: false,
            ..self.flags
        };
        let text = copy_text_part(alloc, &self.text)?;
        Ok(AValue {
            flags,
            number: self.number,
            text,
            labels: LabelSet::new(alloc),
        })
    }
}
