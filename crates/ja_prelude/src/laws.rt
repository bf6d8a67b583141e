//! What the texts of the built-in functions come to. The functions do nothing; their contracts are
//! the laws.

ghost use Rattle.std.specs.Prelude.{◌≡◌, ◌≤◌, ◌==◌, ◌++◌, ◌∷◌, [], ℕ, List, None, true, length, map, slice_get};
ghost use Rattle.std.specs.List.{AllByRecursion, list_all};
ghost use lib.Chars.{codes};
ghost use Rattle.ja_base.specs.declared.ids.ScopeKind.TheVariants.{CodeMaker, Radix, Range};
ghost use Rattle.ja_grammar.specs.Language.{Spells, max_levels};
ghost use Rattle.ja_graph.specs.Node.{function_in};
ghost use Rattle.ja_graph.specs.WellFormed.{builtin_names};
ghost use Rattle.ja_lex.specs.Tokens.{tokens};
ghost use Rattle.ja_lower.specs.Limits.{prelude_count, prelude_size_of};
ghost use Rattle.ja_lower.specs.Lowering as lower;
ghost use Rattle.ja_lower_names.specs.TextOrder.{functions_in};
ghost use Rattle.ja_syntax.specs.declared.tree.Statement.{Statement};
ghost use Rattle.ja_prelude.specs.Reading.{AreSpelled, is_few, is_text, numbered, tree_of};
ghost use Rattle.ja_prelude.specs.Prelude.{by_path, own_names, parameter_counts, stops};
ghost use Rattle.ja_prelude.specs.Prelude.{stopping_operations, warned_nodes, warned_told};
ghost use Rattle.ja_prelude.specs.Prelude.{prelude_bodies, prelude_names, prelude_paths};
ghost use Rattle.ja_prelude.specs.Prelude.{prelude_statements};
ghost use Rattle.ja_prelude.specs.Table.{function_paths, lengths, parameters_told};
ghost use Rattle.ja_prelude.specs.Texts.{error_kinds, error_texts, prelude_texts, texts_at};
ghost use Rattle.ja_prelude.specs.Uses.{uses, uses_told};
ghost use Rattle.ja_prelude.specs.declared.texts.TheConstants.{FUNCTION_COUNT};
ghost use Rattle.ja_prelude.specs.Functions.{functions};

/// Each text is in the language and short, and its tree is that of the grammar.
#[tactic(auto, using(crate::proofs::Rulesets::for_texts_are_read))]
pub fn texts_are_read()
    ensures read { list_all (λ f. is_text f.1) functions ≡ true }
    ensures few { list_all (λ f. is_few f.1) functions ≡ true }
    ensures spelled { (text : List ℕ) → is_text text ≡ true
        → Spells max_levels (numbered 1 (tokens text)) (tree_of text) }
{}

/// A text in the language has no other tree by the grammar, whatever the number of levels.
pub fn texts_have_one_tree()
    ensures { (text : List ℕ) → is_text text ≡ true → (levels : ℕ) (statements : List Statement)
        → Spells levels (numbered 1 (tokens text)) statements → statements ≡ tree_of text }
{}

/// The built-in functions are the trees that the grammar gives to their texts, one behind the
/// other, and it gives them no others.
pub fn trees_are_the_grammars()
    ensures trees { AreSpelled prelude_texts prelude_statements }
    ensures no_others { (statements : List Statement) → AreSpelled prelude_texts statements
        → statements ≡ prelude_statements }
{}

/// Each text is one function, in which no other stands, and there is a path for each.
#[tactic(auto, using(crate::proofs::Rulesets::for_texts_are_functions))]
pub fn texts_are_functions()
    ensures each { list_all (λ f. length (functions_in (tree_of f.1)) == 1) functions ≡ true }
    ensures functions { prelude_count prelude_statements ≡ FUNCTION_COUNT }
    ensures paths { length prelude_paths ≡ FUNCTION_COUNT }
{}

/// The functions are those of the table, and the two default values behind them: each has the path
/// of its object, and as many parameters as the `length` of the object says; but four that serve
/// further arguments by a parameter have one more (15.4.4.4, 15.4.4.12, 15.5.4.7, 15.5.4.8).
#[tactic(auto, using(crate::proofs::Facts::paths_are_told, crate::proofs::Facts::lengths_are_told))]
pub fn functions_are_those_of_the_table()
    ensures paths { prelude_paths ≡ function_paths ++ codes "%valueFirst" ∷ codes "%textFirst"
        ∷ [] }
    ensures lengths { map (λ row. slice_get parameter_counts row.number) lengths
        ≡ map parameters_told lengths }
{}

/// The names that each program begins with.
#[tactic(auto, using(crate::proofs::Facts::names_are, crate::proofs::Facts::names_counted))]
pub fn names_are_told()
    ensures names { prelude_names ≡ builtin_names ++ own_names }
    ensures count { length prelude_names ≡ 142 }
{}

/// The functions have few nodes, where each parameter of one counts as one more.
#[tactic(auto, using(crate::proofs::Facts::nodes_are_few))]
pub fn nodes_are_few()
    ensures { prelude_size_of builtin_names prelude_statements ≤ 4096 }
{}

/// Each node is allowed in any program, so none asks a device; and none makes a function.
#[tactic(auto, using(crate::proofs::Rulesets::for_nodes_are_allowed))]
pub fn nodes_are_allowed()
    ensures allowed { lower.AreAllowed (lower.prelude_bodies prelude_names prelude_statements) }
    ensures alone { AllByRecursion (λ body.
        AllByRecursion (λ info. function_in info.node ≡ None) body.nodes)
        (lower.prelude_bodies prelude_names prelude_statements) }
{}

/// The functions that may stop, with the kinds of their stops: those that make functions of texts
/// (15.3), the one that takes a radix (15.7.4.2), and the greatest and the least of no numbers
/// (15.8.2.11, 15.8.2.12).
#[tactic(auto, using(crate::proofs::Facts::stops_are))]
pub fn stops_are_told()
    ensures { by_path stops prelude_bodies ≡ (codes "Function", CodeMaker)
        ∷ (codes "Function", CodeMaker) ∷ (codes "Number.prototype.toString", Radix)
        ∷ (codes "Math.max", Range) ∷ (codes "Math.min", Range) ∷ [] }
{}

/// The functions in which an operation stands that may leave the profile with more than
/// `TextLength`, with that operation: those of the numbers at the front of a text (15.1.2.2,
/// 15.1.2.3), and of small and great letters (15.5.4.16, 15.5.4.18).
#[tactic(auto, using(crate::proofs::Facts::stopping_operations_are))]
pub fn stopping_operations_are_told()
    ensures { by_path stopping_operations prelude_bodies ≡ (codes "parseInt", codes "$parse_int")
        ∷ (codes "parseFloat", codes "$parse_float")
        ∷ (codes "String.prototype.toLowerCase", codes "$lower")
        ∷ (codes "String.prototype.toUpperCase", codes "$upper") ∷ [] }
{}

/// The functions with nodes that may be warned of, as calls of non-functions or properties of null
/// or undefined, and how many of them each has: those that read `arguments.length`, make an object
/// of a value, or call what they are given. No function of arrays, of texts or of `Math` is among
/// them but `String` itself.
#[tactic(auto, using(crate::proofs::Facts::warned_nodes_are))]
pub fn warned_nodes_are_told()
    ensures { by_path warned_nodes prelude_bodies ≡ warned_told }
{}

/// The functions of errors have one text, but for the name of the kind: what a call makes and what
/// `new` makes is an error of the function's own kind with its message (15.11.1.1, 15.11.2.1,
/// 15.11.7.2, 15.11.7.4).
#[tactic(auto, using(crate::proofs::Templates::errors))]
pub fn errors_are_made_alike()
    ensures { texts_at error_kinds ≡ error_texts }
{}

/// What the functions do with their `this`, in the order of their texts. A default value comes of
/// both methods, in the order of the hint (8.6.2.6): each is read of the object and, where it is an
/// object, called on it; what this call gives is returned where it is no object; and behind both a
/// TypeError is thrown.
#[tactic(auto, using(crate::proofs::Facts::uses_are))]
pub fn uses_are_told()
    ensures { by_path uses prelude_bodies ≡ uses_told }
{}
