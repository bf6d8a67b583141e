//! What the abstract operations of the built-in functions come to beside those of the machine. The
//! functions do nothing; their contracts are the laws.

ghost use Rattle.std.specs.Prelude.{◌≡◌, length};
ghost use Rattle.ja_base.specs.declared.ids.Label.{Label};
ghost use Rattle.ja_machine.specs.Intrinsics as machine;
ghost use Rattle.ja_abstract.specs.Operations as abstract;
ghost use Rattle.ja_abstract.specs.Reading.{View};
ghost use Rattle.ja_meaning.specs.OperatorLaws.{IsLabelOf};
ghost use Rattle.ja_meaning.specs.OperationLaws.{TakeTheirValues, ResultsAreOfKinds};
ghost use Rattle.ja_meaning.specs.OperationLaws.{GiveNoOtherKind, AreExact};
ghost use Rattle.ja_meaning.specs.OperationLaws.{IsToldBySite, IsToldByReadings};

/// There are as many abstract operations as the machine has, and they take as many values.
pub fn abstract_operations_are_listed()
    ensures all { length abstract.operations ≡ length machine.operations }
    ensures take { TakeTheirValues }
{}

/// The results of each operation are booleans, texts, numbers, or any primitives, and the abstract
/// operation gives no other part than those.
pub fn operations_keep_their_kinds()
    ensures results { ResultsAreOfKinds }
    ensures given { GiveNoOtherKind }
{}

/// Of one constant each, an abstract operation gives exactly what the machine's gives, or nothing
/// where that doesn't take them.
pub fn operations_are_exact()
    ensures { AreExact }
{}

/// Of one object the abstract operations give what its site and its resolved readings say.
pub fn objects_are_told()
    ensures by_site { (w : View) (l : Label) → IsLabelOf w l → IsToldBySite w l }
    ensures by_readings { (w : View) (l : Label) → IsLabelOf w l → IsToldByReadings w l }
{}
