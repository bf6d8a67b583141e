ghost use Rattle.std.specs.Prelude.{◌≡◌, ◌≢◌, ◌≤◌, ◌↔◌, ℤ, IsTrue, true, false};
ghost use Rattle.ja_prim.specs.Index.{is_index};
ghost use Rattle.ja_abstract.specs.AbstractValue.{has_number, number_class, join_classes, join_numbers};
ghost use Rattle.ja_abstract.specs.Made.{number_alone};
ghost use Rattle.ja_abstract.specs.Parts.{number_has};
ghost use Rattle.ja_abstract.specs.Profile.{IsNumberOfProfile};
ghost use Rattle.ja_abstract.specs.Rank.{number_rank};
ghost use Rattle.ja_abstract.specs.declared.abstraction.NumberPart.TheVariants as number_part;

use crate::profile::number_of_profile;
use ja_abstract::NumberPart;
use ja_prim::Int;

/// One more than the greatest array index (ES3 15.4).
const INDEX_END: i64 = 4_294_967_295;

/// Whether a number is an array index (ES3 15.4).
pub fn is_index(number: Int) -> bool
    ensures { result ≡ is_index number }
{
    let number = number.get();
    0 <= number && number < INDEX_END
}

/// The class of a number part: a constant's, or the part itself.
pub fn number_class(part: NumberPart) -> NumberPart
    ensures { result ≡ number_class part }
{
    match part {
        NumberPart::One(number) => {
            if is_index(number) {
                NumberPart::Index
            } else {
                NumberPart::OtherWhole
            }
        }
        part => part,
    }
}

/// The least class that holds two classes, neither of them `Nothing`.
fn join_classes(a: NumberPart, b: NumberPart) -> NumberPart
    ensures { result ≡ join_classes a b }
{
    match a {
        NumberPart::Index => match b {
            NumberPart::Index => NumberPart::Index,
            _ => NumberPart::Whole,
        },
        NumberPart::OtherWhole => match b {
            NumberPart::OtherWhole => NumberPart::OtherWhole,
            _ => NumberPart::Whole,
        },
        _ => NumberPart::Whole,
    }
}

/// A constant joined with a part.
fn join_one(number: Int, part: NumberPart) -> NumberPart
    ensures { result ≡ join_numbers (number_part.One number) part }
{
    let one = NumberPart::One(number);
    match part {
        NumberPart::Nothing => one,
        NumberPart::One(other) => {
            if number == other {
                one
            } else {
                join_classes(number_class(one), number_class(part))
            }
        }
        _ => join_classes(number_class(one), part),
    }
}

/// The least number part that holds two.
pub fn join_numbers(a: NumberPart, b: NumberPart) -> NumberPart
    ensures { result ≡ join_numbers a b }
{
    match a {
        NumberPart::Nothing => b,
        NumberPart::One(number) => join_one(number, b),
        _ => match b {
            NumberPart::Nothing => a,
            _ => join_classes(a, number_class(b)),
        },
    }
}

/// Whether two number parts are the same.
pub fn same_numbers(a: &NumberPart, b: &NumberPart) -> bool
    ensures { IsTrue result ↔ (a.now ≡ b.now) }
{
    *a == *b
}

/// Whether a number is there.
pub fn has_number(part: &NumberPart) -> bool
    ensures { result ≡ has_number part.now }
{
    !matches!(part, NumberPart::Nothing)
}

/// Whether another number part has each number of a first.
pub fn leq_numbers(part: NumberPart, other: NumberPart) -> bool
    ensures { IsTrue result ↔ (join_numbers other part ≡ other) }
{
    same_numbers(&join_numbers(other, part), &other)
}

/// Whether a number is among a number part.
pub fn number_has(part: NumberPart, number: Int) -> bool
    ensures { result ≡ number_has part number }
{
    match part {
        NumberPart::Nothing => false,
        NumberPart::One(one) => one == number,
        NumberPart::Index => is_index(number),
        NumberPart::OtherWhole => !is_index(number),
        NumberPart::Whole => true,
    }
}

/// The one number that a number part is.
pub fn number_alone(part: NumberPart) -> Option<Int>
    ensures { result ≡ number_alone part }
{
    match part {
        NumberPart::One(number) => Some(number),
        _ => None,
    }
}

/// How much of a number part is known: 0 for none, 1 for one number, 2 for a class, 3 for all.
pub fn number_rank(part: NumberPart) -> u64
    ensures value { result ≡ number_rank part }
    ensures small { result ≤ 3 }
{
    match part {
        NumberPart::Nothing => 0,
        NumberPart::One(_) => 1,
        NumberPart::Index | NumberPart::OtherWhole => 2,
        NumberPart::Whole => 3,
    }
}

/// Joins a number part in, and tells whether the part changed.
pub fn widen_number(part: &mut NumberPart, other: NumberPart) -> bool
    ensures joined { part.new ≡ join_numbers part.old other }
    ensures changed { result ≡ true → part.new ≢ part.old }
    ensures same { result ≡ false → part.new ≡ part.old }
    ensures profile { (z : ℤ) → part.new ≡ number_part.One z → IsNumberOfProfile z }
{
    let joined = join_numbers(*part, other);
    let same = same_numbers(&joined, part);
    *part = number_of_profile(joined);
    !same
}
