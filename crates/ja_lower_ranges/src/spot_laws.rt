//! The spots of a listing stand where they are led to. The functions do nothing; their contracts
//! are the laws.

ghost use Rattle.std.specs.Prelude.{List};
ghost use Rattle.ja_syntax.specs.declared.tree.FunctionOf.{FunctionOf};
ghost use Rattle.ja_syntax.specs.declared.tree.Statement.{Statement};
ghost use Rattle.ja_lower_draft.specs.Lines.{Scene};
ghost use Rattle.ja_lower_statements.specs.Functions.{program_listing, function_listing};
ghost use Rattle.ja_lower_ranges.specs.Spots.{HasItsSpots};

/// Each spot to which an edge or a jump of a program leads stands in its listing, and only once.
#[tactic(auto, using(crate::proofs::HoldingFunctions::program_has_spots))]
pub fn programs_have_their_spots()
    ensures { (scene : Scene) (statements : List Statement)
        → HasItsSpots (program_listing scene statements) }
{}

/// Each spot to which an edge or a jump of a function leads stands in its listing, and only once.
#[tactic(auto, using(crate::proofs::HoldingFunctions::function_has_spots))]
pub fn functions_have_their_spots()
    ensures { (scene : Scene) (f : FunctionOf Statement) → HasItsSpots (function_listing scene f) }
{}
