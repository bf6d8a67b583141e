//! The objects on prototype chains, and the names that `for`-`in` shows of them (ES3 12.6.4).

ghost use Rattle.std.specs.Prelude.{◌≡◌, IfOk, IsTrue, map};
ghost use Rattle.ja_abstract.specs.AbstractState.{is_key};
ghost use Rattle.ja_abstract.specs.Keys.{text_keys};
ghost use Rattle.ja_abstract.specs.Reading.{ancestors, proper_ancestors, demands_of_ancestors};
ghost use Rattle.ja_abstract.specs.Reading.{names_shown, demands_of_shown, demands_of_own, both};
ghost use Rattle.ja_abstract.specs.Reading.{key_value, may_show};
ghost use Rattle.ja_abstract.specs.Resolved.{join_values};
ghost use Rattle.ja_aheap.specs.Objects.{demands_in};
ghost use Rattle.ja_value.specs.Value.{labels_in, value_of};
ghost use Rattle.ja_astate.specs.code.Chains.{chain_met, some_show, shown_text};
ghost use Rattle.ja_astate.specs.code.Pairs.{demands_over};

use crate::Reader;
use crate::met::Met;
use crate::walks::Asks;
use ja_abstract::{Key, Slot, TextPart};
use ja_aheap::DemandList;
use ja_base::{Label, Memory};
use ja_graph::Program;
use ja_value::{AProp, AValue, LabelSet};
use std::alloc::Global;
use std::mem;

/// The objects on the prototype chains of some labels.
#[derive(Drop)]
pub struct Ancestors {
    /// Those of the labels themselves too.
    pub all: LabelSet,
    /// Those that are reached by one prototype or more.
    pub proper: LabelSet,
    /// The pairs of the entry that the walk demands.
    pub demands: DemandList,
}

/// The names that are shown, and the pairs of the entry that this demands.
#[derive(Drop)]
pub struct Shown {
    pub value: AValue,
    pub demands: DemandList,
}

/// Asks objects for their prototypes.
#[derive(Clone, Copy)]
struct Chains<'a> {
    reader: Reader<'a>,
}

impl Asks for Chains<'_> {
    ghost use Rattle.ja_astate.specs.Looks.{view_of};

    ghost meets = { λ s. chain_met (view_of s.reader) };

    fn ask(&self, label: Label) -> Result<Met, Memory> {
        let alloc = self.reader.alloc;
        let mut demands = DemandList::new(alloc);
        let next = self
            .reader
            .links(label, Key::Slot(Slot::Prototype), true, &mut demands)?;
        let labels = next.labels.copy()?;
        Ok(Met {
            labels,
            property: AProp::bare(AValue::of_labels(alloc, next.labels)),
            may_end: next.may_end,
            demands,
        })
    }
}

/// The text of a key.
fn key_value(alloc: Global, program: &Program, key: Key) -> Result<AValue, Memory>
    requires { IsTrue (is_key program.now key) }
    ensures { IfOk result (λ v. value_of v ≡ key_value program.now key) }
{
    let text = match key {
        Key::Name(name) => TextPart::One(program.name(name).copy()?),
        Key::OtherIndex => TextPart::IndexText,
        Key::OtherName => TextPart::OtherText,
        Key::Slot(_) => TextPart::Nothing,
    };
    Ok(AValue::of_text_part(alloc, text))
}

impl Reader<'_> {
    ghost use Rattle.ja_astate.specs.Looks.{view_of, AreAncestors, IsShown};

    /// The objects on the prototype chains of some labels.
    pub fn ancestors(&self, start: &LabelSet) -> Result<Ancestors, Memory>
        ensures { IfOk result (AreAncestors (ancestors (view_of self.now) (labels_in start.now))
            (proper_ancestors (view_of self.now) (labels_in start.now))
            (demands_of_ancestors (view_of self.now) (labels_in start.now))) }
    {
        let chains = Chains { reader: *self };
        let mut met = self.walk(&chains, start)?;
        let none = LabelSet::new(self.alloc);
        Ok(Ancestors {
            proper: mem::replace(&mut met.property.value.labels, none),
            all: met.labels,
            demands: met.demands,
        })
    }

    /// Whether the objects of a label may have an enumerable property at a key.
    fn may_show(&self, label: Label, key: Key) -> Result<bool, Memory>
        ensures { IfOk result (λ b. b ≡ may_show (view_of self.now) key label) }
    {
        let property = self.own(label, &[key])?;
        Ok(property.value.is_present(self.sites) & property.attrs.dont_enum.unset)
    }

    /// Whether those of one of some labels may.
    fn some_show(&self, labels: &[Label], key: Key) -> Result<bool, Memory>
        ensures { IfOk result (λ b. b ≡ some_show (view_of self.now) labels.now key) }
    {
        for label in labels {
            if self.may_show(*label, key)? {
                return Ok(true);
            }
        }
        Ok(false)
    }

    /// The text of a key, if one of some labels may show it.
    fn shown_text(&self, labels: &[Label], key: Key) -> Result<AValue, Memory>
        requires { IsTrue (is_key self.now.program.now key) }
        ensures { IfOk result (λ v. value_of v ≡ shown_text (view_of self.now) labels.now key) }
    {
        if self.some_show(labels, key)? {
            key_value(self.alloc, self.program, key)
        } else {
            Ok(AValue::empty(self.alloc))
        }
    }

    /// The texts of the keys that one of some labels may show.
    fn shown_by(&self, labels: &[Label]) -> Result<AValue, Memory>
        ensures { IfOk result (λ v. value_of v
            ≡ join_values (map (shown_text (view_of self.now) labels.now)
            (text_keys self.now.program.now))) }
    {
        let mut sum = AValue::empty(self.alloc);
        let keys = self.keys.texts();
        for key in keys {
            let text = self.shown_text(labels, *key)?;
            sum.join(self.alloc, &text)?;
        }
        Ok(sum)
    }

    /// Demands what the objects of some labels have themselves at each key of a text.
    fn demand_texts(&self, labels: &[Label], demands: &mut DemandList) -> Result<(), Memory>
        ensures { IfOk result (λ _. demands_in demands.new ≡ both (demands_in demands.old)
            (demands_over labels.now (λ l. demands_of_own (view_of self.now) l
            (text_keys self.now.program.now)))) }
    {
        for label in labels {
            self.demand_own(*label, self.keys.texts(), demands)?;
        }
        Ok(())
    }

    /// The names that a `for`-`in` over the objects of some labels may show.
    pub fn shown(&self, start: &LabelSet) -> Result<Shown, Memory>
        ensures { IfOk result (IsShown (names_shown (view_of self.now) (labels_in start.now))
            (demands_of_shown (view_of self.now) (labels_in start.now))) }
    {
        let Ancestors {
            all,
            proper: _,
            mut demands,
        } = self.ancestors(start)?;
        let members = self.labels(&all)?;
        let value = self.shown_by(&members)?;
        self.demand_texts(&members, &mut demands)?;
        Ok(Shown { value, demands })
    }
}
