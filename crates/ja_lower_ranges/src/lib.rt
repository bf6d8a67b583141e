//! The numbers in what is listed of a function are in range. The functions do nothing; their
//! contracts are the laws.
//!
//! Laws alone: in what is listed of any text whose names and functions are found a node sets
//! `thrown`, `scope` or a temporary, its name and its function are of the program, and its sites
//! are numbered in their order; each function of the text is then found with its own names and
//! functions; the last node is Escape; each edge of a copied block leads to one of its nodes or out
//! of it; a run of a program begins at node 0. Whatever way leaves a `catch`, the scope chain is
//! again what it was at its `try` (`scope_laws.rt`); each spot to which an edge or a jump leads
//! stands in the listing, and only once (`spot_laws.rt`).
#![tactic(auto)]

pub mod scope_laws;
pub mod spot_laws;

ghost use Rattle.std.specs.Prelude.{◌≡◌, List, length};
ghost use Rattle.std.specs.List.{AllByRecursion};
ghost use Rattle.ja_lower_names.specs.TextOrder.{functions_in};
ghost use Rattle.ja_syntax.specs.declared.tree.FunctionOf.{FunctionOf};
ghost use Rattle.ja_syntax.specs.declared.tree.Statement.{Statement};
ghost use Rattle.ja_lower_listing.specs.declared.item.Target.TheVariants as target;
ghost use Rattle.ja_lower_listing.specs.Laws.{EndsWithEscape, CopiesAreWhole};
ghost use Rattle.ja_lower_listing.specs.Listing.{way_on};
ghost use Rattle.ja_lower_statements.specs.Functions.{program_listing, function_listing};
ghost use Rattle.ja_lower_draft.specs.Lines.{Scene};
ghost use Rattle.ja_lower_ranges.specs.Found.{HasText, HasFunction};
ghost use Rattle.ja_lower_ranges.specs.InRange.{AllInRange, limits_of};

/// The numbers of the nodes of a program are in range, where its names and functions are found.
#[tactic(auto, using(crate::proofs::FunctionRanges::program_in_range))]
pub fn programs_are_in_range()
    ensures { (scene : Scene) (statements : List Statement) → HasText scene statements
        → AllInRange (limits_of 0 scene) (program_listing scene statements) }
{}

/// The numbers of the nodes of a function are in range, where its names and functions are found.
#[tactic(auto, using(crate::proofs::FunctionRanges::function_in_range))]
pub fn functions_are_in_range()
    ensures { (scene : Scene) (f : FunctionOf Statement) → HasFunction scene f
        → AllInRange (limits_of (length f.parameters) scene) (function_listing scene f) }
{}

/// A scene that has the names and the functions of a text has each function of the text, with the
/// names and the functions in it.
pub fn functions_have_their_parts()
    ensures { (scene : Scene) (statements : List Statement) → HasText scene statements
        → AllByRecursion (HasFunction scene) (functions_in statements) }
{}

/// The block of each copy in the listing of a program or of a function has the nodes to which its
/// edges lead, where its names and functions are found.
#[tactic(auto, using(crate::proofs::Rulesets::for_copies_are_whole))]
pub fn copies_are_whole()
    ensures program { (scene : Scene) (statements : List Statement) → HasText scene statements
        → CopiesAreWhole (program_listing scene statements) }
    ensures function { (scene : Scene) (f : FunctionOf Statement) → HasFunction scene f
        → CopiesAreWhole (function_listing scene f) }
{}

/// The listing of a program ends with Escape.
#[tactic(auto, using(crate::proofs::FunctionRanges::program_ends))]
pub fn programs_end_with_escape()
    ensures { (scene : Scene) (statements : List Statement)
        → EndsWithEscape (program_listing scene statements) }
{}

/// The listing of a function ends with Escape.
#[tactic(auto, using(crate::proofs::FunctionRanges::function_ends))]
pub fn functions_end_with_escape()
    ensures { (scene : Scene) (f : FunctionOf Statement)
        → EndsWithEscape (function_listing scene f) }
{}

/// A run of a program begins at its first node: that is where its listing leads from the beginning.
#[tactic(auto, using(crate::proofs::FunctionRanges::program_begins))]
pub fn programs_begin_at_their_first_node()
    ensures { (scene : Scene) (statements : List Statement)
        → way_on (program_listing scene statements) (program_listing scene statements)
        ≡ target.Node 0 }
{}
