//! What lowered functions are in a program that has them, those of a text, and behind them those of
//! devices and the built-in ones. The functions do nothing; their contracts are the laws.

ghost use Rattle.std.specs.Prelude.{◌≡◌, ◌≤◌, ◌+◌, ◌*◌, ◌++◌, ℕ, Bool, List, Some, length, map, slice_get};
ghost use Rattle.std.specs.List.{AllByRecursion, range_with_len};
ghost use Rattle.ja_graph.specs.declared.program.Function.{Function};
ghost use Rattle.ja_graph.specs.declared.program.Program.{Program};
ghost use Rattle.ja_graph.specs.declared.program.SiteInfo.{SiteInfo};
ghost use Rattle.ja_graph.specs.WellFormed.{IsFunctionWellFormed, OwnedMaking, makings_from, IsSiteTold, NamesFunctions, max_registers, node_count};
ghost use Rattle.ja_lower.specs.Limits.{function_count, prelude_count, size_of, prelude_size_of};
ghost use Rattle.ja_lower.specs.Lowering.{AreAllowed, names_of, scene_with, prelude_names, prelude_bodies, lowered};
ghost use Rattle.ja_lower.specs.Setting.{Setting, names_before, text_of, with_others, whole};
ghost use Rattle.ja_lower.specs.declared.lowered.Lowered.{Lowered};
ghost use Rattle.ja_lower_ranges.specs.Found.{HasText};
ghost use Rattle.ja_syntax.specs.declared.tree.Statement.{Statement};

/// Each name and each function that a text looks up is found among those that it is lowered with,
/// with or without special forms.
pub fn scenes_have_their_texts()
    ensures { (specials : Bool) (names : List (List ℕ)) (statements : List Statement)
        → HasText (scene_with specials (names_of specials names statements) statements) statements }
{}

/// The names of built-in functions keep their numbers where a text is lowered with them first,
/// whatever more names it is lowered with: these and its own only follow.
pub fn prelude_names_come_first()
    ensures { (names more : List (List ℕ)) (prelude : List Statement) (first : ℕ)
        (statements : List Statement) → (own : List (List ℕ))
        × ((lowered (prelude_names names prelude ++ more) first statements).names
        ≡ prelude_names names prelude ++ own) }
{}

/// What a text is lowered to has its parts one after the other: the text, then the functions of
/// devices, which have no sites, then the built-in ones.
#[tactic(auto, using(crate::proofs::WellFormedLemmas::parts_follow))]
pub fn parts_follow_one_another()
    ensures { (s : Setting) (text : Lowered) → text ≡ text_of s → whole s ≡ with_others s text }
{}

/// Each function is well formed in a program that has these functions, names and devices, and at
/// most 262,144 registers in each, where there is a path for each built-in function and each of
/// their nodes is allowed.
#[tactic(auto, using(crate::proofs::WellFormedLemmas::functions_are_well_formed))]
pub fn functions_are_well_formed()
    ensures { (s : Setting) (p : Program) (f : ℕ) (fn : Function)
        → length s.paths ≡ prelude_count s.prelude
        → AreAllowed (prelude_bodies (prelude_names s.names s.prelude) s.prelude)
        → p.functions ≡ (whole s).functions → p.names ≡ (whole s).names
        → p.signatures ≡ s.signatures → slice_get p.functions f ≡ Some fn
        → fn.registers ≤ max_registers → IsFunctionWellFormed p fn }
{}

/// The sites of the nodes are numbered by function and node, without a gap.
#[tactic(auto, using(crate::proofs::WellFormedLemmas::sites_are_numbered))]
pub fn sites_are_numbered()
    ensures { (s : Setting) → map (λ (m : OwnedMaking). m.making.site.0)
        (makings_from 0 (whole s).functions)
        ≡ range_with_len s.first_site (length (whole s).sites) }
{}

/// A program tells the class and the owner of each site of a node, where it has these sites behind
/// as many others as the number of the first one says.
pub fn sites_are_told()
    ensures { (s : Setting) (front : List SiteInfo) (p : Program) → length front ≡ s.first_site
        → p.sites ≡ front ++ (whole s).sites
        → AllByRecursion (IsSiteTold p) (makings_from 0 (whole s).functions) }
{}

/// The functions that are told of each site of a node are those of a program that has these
/// functions, where there is a path for each built-in one.
pub fn sites_name_functions()
    ensures { (s : Setting) (p : Program) → length s.paths ≡ prelude_count s.prelude
        → p.functions ≡ (whole s).functions → AllByRecursion (NamesFunctions p) (whole s).sites }
{}

/// There are at most four sites for each node.
#[tactic(auto, using(crate::proofs::WellFormedLemmas::sites_are_few))]
pub fn sites_are_few()
    ensures { (s : Setting) → length (whole s).sites ≤ 4 * node_count (whole s).functions }
{}

/// The functions have no more nodes than what is counted against the limit, of the text and of the
/// built-in functions, and three for each device.
#[tactic(auto, using(crate::proofs::WellFormedLemmas::nodes_are_within_the_size))]
pub fn nodes_are_within_the_size()
    ensures { (s : Setting) → node_count (whole s).functions
        ≤ size_of (names_before s) s.statements + 3 * length s.signatures
        + prelude_size_of s.names s.prelude }
{}

/// There are as many functions as the text has, and then one for each device and one for each path
/// of a built-in one, where each of these has a path.
#[tactic(auto, using(crate::proofs::Rulesets::for_functions_are_counted))]
pub fn functions_are_counted()
    ensures text { (names : List (List ℕ)) (first : ℕ) (statements : List Statement)
        → length (lowered names first statements).functions ≡ function_count statements }
    ensures whole { (s : Setting) → length s.paths ≡ prelude_count s.prelude
        → length (whole s).functions
        ≡ function_count s.statements + length s.signatures + length s.paths }
{}
