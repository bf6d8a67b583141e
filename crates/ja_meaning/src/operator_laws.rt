//! What the operators on abstract values come to beside those of the machine (ES3 9, 11.4 to
//! 11.10). The functions do nothing; their contracts are the laws.

ghost use Rattle.std.specs.Prelude.{◌≡◌};
ghost use Rattle.ja_base.specs.declared.ids.Label.{Label};
ghost use Rattle.ja_graph.specs.declared.node.BinaryOp.TheVariants as binary_op;
ghost use Rattle.ja_abstract.specs.AbstractValue.{AbstractValue};
ghost use Rattle.ja_abstract.specs.Reading.{View};
ghost use Rattle.ja_abstract.specs.Values.{binary, turned};
ghost use Rattle.ja_meaning.specs.OperatorLaws.{UnaryIsCovered, BinaryIsCovered};
ghost use Rattle.ja_meaning.specs.OperatorLaws.{UnaryMayStop, BinaryMayStop};
ghost use Rattle.ja_meaning.specs.OperatorLaws.{UnaryIsExact, BinaryIsExact};
ghost use Rattle.ja_meaning.specs.OperatorLaws.{IsUnsigned, IsLabelOf};
ghost use Rattle.ja_meaning.specs.OperatorLaws.{AreEqualByLabels, IsToldByLabel};

/// Of values that abstract values have, primitives or objects, the result of the machine's operator
/// is in what the abstract operator gives of these; or the machine stops, and the abstract operator
/// says that it may. (That a remainder doesn't stop is known of numbers of the profile alone.)
pub fn operators_cover()
    ensures unary { UnaryIsCovered }
    ensures binary { BinaryIsCovered }
    ensures unary_stops { UnaryMayStop }
    ensures binary_stops { BinaryMayStop }
{}

/// Of one constant each, the abstract operators give exactly what the machine gives.
pub fn operators_are_exact()
    ensures unary { UnaryIsExact }
    ensures binary { BinaryIsExact }
{}

/// The unsigned number of 32 bits of each number that a value has is in what is given of the value,
/// and of one number just that is given.
pub fn unsigned_numbers_are_told()
    ensures { IsUnsigned }
{}

/// `!=` and `!==` give true where `==` and `===` give false, and false where those give true.
pub fn inequality_is_turned()
    ensures loose { (w : View) (a b : AbstractValue)
        → binary w binary_op.LooseNe a b ≡ turned (binary w binary_op.LooseEq a b) }
    ensures strict { (w : View) (a b : AbstractValue)
        → binary w binary_op.StrictNe a b ≡ turned (binary w binary_op.StrictEq a b) }
{}

/// What the operators give of objects is told by their labels.
pub fn labels_are_told()
    ensures equality { (w : View) → AreEqualByLabels w }
    ensures one { (w : View) (l : Label) → IsLabelOf w l → IsToldByLabel w l }
{}
