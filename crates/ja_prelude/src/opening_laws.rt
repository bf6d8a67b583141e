//! What a program has that begins with the built-in objects, with their sites and their names. The
//! functions do nothing; their contracts are the laws.

ghost use Rattle.std.specs.Prelude.{◌≡◌, ◌+◌, ◌<◌, ◌≤◌, ◌++◌, ℕ, List, [], Some, None, IsSome, length, slice_get, take};
ghost use Rattle.std.specs.List.{AllByRecursion, fold};
ghost use Rattle.ja_lower_names.specs.Names.{with_name};
ghost use Rattle.ja_graph.specs.Program.{object_spec};
ghost use Rattle.ja_graph.specs.WellFormed.{IsBuiltin, IsObjectWellFormed, NamesFunctions, builtin_names};
ghost use Rattle.ja_graph.specs.declared.builtins.TheConstants.{BUILTIN_CLASSES};
ghost use Rattle.ja_graph.specs.declared.program.Class.{Class};
ghost use Rattle.ja_graph.specs.declared.program.ObjectSpec.{ObjectSpec};
ghost use Rattle.ja_graph.specs.declared.program.Program.{Program};
ghost use Rattle.ja_graph.specs.declared.program.SiteInfo.{SiteInfo};
ghost use Rattle.ja_prelude.specs.Table.{builtin_sites, opening_objects};
ghost use Rattle.ja_prelude.specs.declared.texts.TheConstants.{FUNCTION_COUNT};

/// Names that are each added once are all different, and where some follow the built-in ones, and
/// then others, these come first.
pub fn names_come_first()
    ensures distinct { (first us : List (List ℕ)) (i j : ℕ) (t : List ℕ)
        → slice_get (fold with_name (fold with_name [] first) us) i ≡ Some t
        → slice_get (fold with_name (fold with_name [] first) us) j ≡ Some t → i ≡ j }
    ensures first { (us vs : List (List ℕ))
        → take (length builtin_names) (fold with_name
        (fold with_name [] (fold with_name (fold with_name [] builtin_names) us)) vs)
        ≡ builtin_names }
    ensures many { (us vs : List (List ℕ)) → length builtin_names
        ≤ length (fold with_name (fold with_name []
        (fold with_name (fold with_name [] builtin_names) us)) vs) }
{}

/// Each object of the table is well formed, where the program tells their sites, and each site of
/// the table has its object.
pub fn objects_are_well_formed()
    ensures objects { (first : ℕ) (p : Program) (others : List SiteInfo)
        → p.sites ≡ builtin_sites first ++ others → p.opening ≡ opening_objects
        → length builtin_names ≤ length p.names → (i : ℕ) (o : ObjectSpec)
        → slice_get p.opening i ≡ Some o → IsObjectWellFormed p i o }
    ensures all { (p : Program) (s : ℕ) → p.opening ≡ opening_objects → s < length p.opening
        → IsSome (object_spec p s) }
{}

/// The sites of the table have the classes of their objects, no owners, and functions of the
/// program.
pub fn sites_are_told()
    ensures classes { (first : ℕ) (p : Program) (others : List SiteInfo)
        → p.sites ≡ builtin_sites first ++ others → p.opening ≡ opening_objects
        → (s : ℕ) (c : Class) → slice_get BUILTIN_CLASSES s ≡ Some c → IsBuiltin p s c }
    ensures unowned { (first : ℕ) (p : Program) (others : List SiteInfo)
        → p.sites ≡ builtin_sites first ++ others → p.opening ≡ opening_objects → (s : ℕ)
        → s < length p.opening → (info : SiteInfo) → slice_get p.sites s ≡ Some info
        → info.owner ≡ None }
    ensures functions { (first : ℕ) (p : Program) → first + FUNCTION_COUNT ≤ length p.functions
        → AllByRecursion (NamesFunctions p) (builtin_sites first) }
{}
