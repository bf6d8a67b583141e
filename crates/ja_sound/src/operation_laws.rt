//! What the operations of the built-in functions give in a run. The function does nothing; its
//! contract is the law.

ghost use Rattle.ja_sound.specs.OperationLaws.{OperationsCover};

/// What an operation of the machine gives of values is in what the abstract operation of its number
/// gives of abstract values that have them.
pub fn operations_cover()
    ensures { OperationsCover }
{}
