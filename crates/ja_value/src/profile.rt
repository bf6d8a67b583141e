ghost use Rattle.std.specs.Prelude.{◌≡◌, ◌≤◌, ℕ, ℤ, List, length};
ghost use Rattle.ja_prim.specs.Texts.{max_units};
ghost use Rattle.ja_abstract.specs.declared.abstraction.NumberPart.TheVariants as number_part;
ghost use Rattle.ja_abstract.specs.declared.abstraction.TextPart.TheVariants as text_part;
ghost use Rattle.ja_abstract.specs.Profile.{IsNumberOfProfile, IsTextOfProfile};

use ja_abstract::{NumberPart, TextPart};

/// The same number part: its number is of the profile, by its type.
pub fn number_of_profile(part: NumberPart) -> NumberPart
    ensures same { result ≡ part }
    ensures profile { (z : ℤ) → part ≡ number_part.One z → IsNumberOfProfile z }
{
    match part {
        NumberPart::One(number) => {
            number.get();
            NumberPart::One(number)
        }
        part => part,
    }
}

/// Units make a text of the profile where there aren't too many, since each has 16 bits.
fn units_of_profile(units: &[u16])
    requires { length units.now ≤ max_units }
    ensures { IsTextOfProfile units.now }
{}

/// The same text part: its text is of the profile, by its type.
pub fn text_of_profile(part: TextPart) -> TextPart
    ensures same { result ≡ part }
    ensures profile { (t : List ℕ) → part ≡ text_part.One t → IsTextOfProfile t }
{
    match part {
        TextPart::One(text) => {
            units_of_profile(text.units());
            TextPart::One(text)
        }
        part => part,
    }
}
