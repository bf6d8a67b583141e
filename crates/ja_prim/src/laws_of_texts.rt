//! What the definitions of conversions, equality, order and literals come to. The functions do
//! nothing; their contracts are the laws.
ghost use Rattle.std.specs.Prelude.{◌≡◌, ℕ, ℤ, Bool, true, false, not, List, Ok};
ghost use Rattle.ja_prim.specs.declared.primitive.Num.{Num};
ghost use Rattle.ja_prim.specs.declared.primitive.Num.TheVariants.{Whole};
ghost use Rattle.ja_prim.specs.declared.primitive.Primitive.{Primitive};
ghost use Rattle.ja_prim.specs.declared.primitive.Primitive.TheVariants.{Number, Text};
ghost use Rattle.ja_prim.specs.Comparison.{strict_equal};
ghost use Rattle.ja_prim.specs.Judged.{signed};
ghost use Rattle.ja_prim.specs.LawsOfTexts.{IsReadBack, is_nan, is_less, IsTransitive, IsRanked, IsLiteralValue};
ghost use Rattle.ja_prim.specs.Numerals.{placed};

/// The number of the text of a number is that number (ES3 9.8.1).
pub fn numbers_are_read_back()
    ensures { (n : Num) → IsReadBack n }
{}

/// `===` is symmetric and transitive, and each value but NaN is equal to itself (ES3 11.9.6).
pub fn strict_equality_is_an_equivalence()
    ensures symmetric { (a b : Primitive) → strict_equal a b ≡ strict_equal b a }
    ensures transitive { (a b c : Primitive) → strict_equal a b ≡ true → strict_equal b c ≡ true
        → strict_equal a c ≡ true }
    ensures reflexive { (a : Primitive) → strict_equal a a ≡ not (is_nan a) }
{}

/// No value is less than itself (ES3 11.8.5). Among texts, and among numbers, what is less than a
/// lesser one is less, and of two texts, or two numbers that aren't NaN, just one of less, equal
/// and greater holds. (Of mixed values it doesn't: `"10"` is less than `"9"`, and `"9"` less than
/// 10, but `"10"` isn't less than 10.)
pub fn order_is_strict()
    ensures irreflexive { (a : Primitive) → is_less a a ≡ false }
    ensures texts { (a b c : List ℕ) → IsTransitive (Text a) (Text b) (Text c) }
    ensures numbers { (l m n : Num) → IsTransitive (Number l) (Number m) (Number n) }
    ensures ranked_texts { (a b : List ℕ) → IsRanked (Text a) (Text b) }
    ensures ranked_numbers { (m n : ℤ) → IsRanked (Number (Whole m)) (Number (Whole n)) }
{}

/// A decimal literal has a whole value exactly where m * 10^up / 10^down is a whole number that the
/// profile has, and it is that number (ES3 9.3.1).
pub fn literals_are_exact()
    ensures exact { (negative below : Bool) (m e f v : ℕ)
        → placed negative below m e f ≡ Ok (Whole (signed negative v))
        → IsLiteralValue below m e f v }
    ensures found { (negative below : Bool) (m e f v : ℕ) → IsLiteralValue below m e f v
        → placed negative below m e f ≡ Ok (Whole (signed negative v)) }
{}
