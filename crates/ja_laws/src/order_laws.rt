//! What the order of abstract values, properties and states comes to. The functions do nothing;
//! their contracts are the laws.

ghost use Rattle.std.specs.Prelude.{◌<◌, List};
ghost use Rattle.ja_base.specs.declared.ids.Label.{Label};
ghost use Rattle.ja_abstract.specs.declared.abstraction.NumberPart.{NumberPart};
ghost use Rattle.ja_abstract.specs.declared.abstraction.TextPart.{TextPart};
ghost use Rattle.ja_abstract.specs.AbstractValue.{AbstractValue};
ghost use Rattle.ja_abstract.specs.Order.{LeqValue, LeqProperty, LeqState};
ghost use Rattle.ja_abstract.specs.Rank.{among, rank};
ghost use Rattle.ja_laws.specs.OrderLaws.{IsOrder, HasNumbersOf, HasTextsOf, HasAllOf};
ghost use Rattle.ja_laws.specs.OrderLaws.{IsNumberBelow, IsTextBelow};

/// Abstract values, properties and states are ordered.
pub fn parts_are_ordered()
    ensures values { IsOrder LeqValue }
    ensures properties { IsOrder LeqProperty }
    ensures states { IsOrder LeqState }
{}

/// A value is below another exactly where the other has each primitive, each label, and `absent`,
/// `entry` and `row` where it has them.
pub fn order_is_by_parts()
    ensures below { (a b : AbstractValue) → LeqValue a b → HasAllOf b a }
    ensures above { (a b : AbstractValue) → HasAllOf b a → LeqValue a b }
{}

/// The number part and the text part of a value have what another one has exactly where that is
/// nothing, the same, a constant of this class, or where this is all numbers, all texts.
pub fn classes_are_ordered()
    ensures below_numbers { (a b : NumberPart) → IsNumberBelow a b → HasNumbersOf b a }
    ensures numbers_below { (a b : NumberPart) → HasNumbersOf b a → IsNumberBelow a b }
    ensures below_texts { (a b : TextPart) → IsTextBelow a b → HasTextsOf b a }
    ensures texts_below { (a b : TextPart) → HasTextsOf b a → IsTextBelow a b }
{}

/// A value that is above another, and isn't below it as far as the labels of a list go, has a higher
/// rank.
pub fn ranks_rise()
    ensures { (labels : List Label) (a b : AbstractValue) → LeqValue a b
        → (LeqValue (among labels b) a → ⊥) → rank labels a < rank labels b }
{}
