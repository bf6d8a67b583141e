//! What the table of the built-in objects says, by its names. The functions do nothing; their
//! contracts are the laws.

ghost use Rattle.std.specs.Prelude.{◌≡◌, ℕ, true, Some, length, map, slice_get};
ghost use Rattle.std.specs.List.{flat_map, list_all, list_any, range_with_len};
ghost use Rattle.std.specs.Option.{is_some, option_and_then, option_map, option_to_list};
ghost use Rattle.std.specs.Str.{bytes_eq};
ghost use lib.Chars.{codes};
ghost use Rattle.ja_graph.specs.WellFormed.{builtin_names};
ghost use Rattle.ja_graph.specs.declared.builtins.TheConstants.{BUILTIN_CLASSES};
ghost use Rattle.ja_prelude.specs.Described.{descriptions, names_in_order, object_at};
ghost use Rattle.ja_prelude.specs.Table.{attrs_told, builtin_sites, construct_of, function_of, functions_of, is_at_its_path, is_function_class, is_of_its_kind, named_sites, names_at, opening_objects, path_of, prototype_told, rows_of, scope_rows, table_rows};
ghost use Rattle.ja_prelude.specs.declared.texts.TheConstants.{VALUE_FIRST};

/// The number of each property is that of its name in the table.
#[tactic(auto, using(crate::proofs::TableLemmas::properties_are_named))]
pub fn properties_are_named()
    ensures { map (λ o. map (λ q. slice_get builtin_names q.name.0) o.properties) opening_objects
        ≡ map (λ row. map (λ e. Some e.name) row.entries) table_rows }
{}

/// Each named site has the class of its object, and the path under which reports print it; and no
/// other site is built in.
#[tactic(auto, using(crate::proofs::Rulesets::for_sites_are_named))]
pub fn sites_are_named()
    ensures classes { (first : ℕ) → map (λ o.
        option_map (λ info. info.class) (slice_get (builtin_sites first) o.site.0)) named_sites
        ≡ map (λ o. Some o.class) named_sites }
    ensures paths { (first : ℕ) → map (λ o.
        option_and_then (λ info. info.builtin) (slice_get (builtin_sites first) o.site.0))
        named_sites ≡ map (λ o. Some o.path) named_sites }
    ensures all { (first : ℕ) → length named_sites ≡ length (builtin_sites first) }
{}

/// The functions of the table are numbered by the sites of their objects, that of `[[Call]]` before
/// that of `[[Construct]]`. Functions can be called, and no other objects; and those construct that
/// have a property `prototype`.
#[tactic(auto, using(crate::proofs::Rulesets::for_functions_are_numbered))]
pub fn functions_are_numbered()
    ensures numbers { (first : ℕ) → flat_map functions_of (builtin_sites first)
        ≡ map (function_of first) (range_with_len 0 VALUE_FIRST) }
    ensures called { (first : ℕ) → map (λ info. is_some info.calls) (builtin_sites first)
        ≡ map is_function_class BUILTIN_CLASSES }
    ensures constructing { map (λ row. is_some (construct_of row.object.role)) table_rows
        ≡ map (λ row. list_any (λ e. bytes_eq e.name (codes "prototype")) row.entries) table_rows }
{}

/// Each property that holds an object holds the one at its own path, or it is `constructor` and
/// holds the one whose `prototype` has it. The name of a kind of errors is held by `name` of their
/// prototype alone; that each of these holds it is said by `objects_are_described`.
#[tactic(auto, using(crate::proofs::Rulesets::for_objects_are_at_their_paths))]
pub fn objects_are_at_their_paths()
    ensures objects { list_all (λ row. list_all (λ e. is_at_its_path row.path e.name e.content)
        row.entries) table_rows ≡ true }
    ensures errors { list_all (λ row. list_all (λ e. is_of_its_kind row.path e.name e.content)
        row.entries) table_rows ≡ true }
{}

/// The objects are those that the standard describes: each has its internal value, if it has one,
/// and its properties in their order, each with what it holds.
#[tactic(auto, using(crate::proofs::Described::objects, crate::proofs::Described::no_others))]
pub fn objects_are_described()
    ensures objects { map (λ d. object_at d.path) descriptions ≡ map (λ d. Some d) descriptions }
    ensures all { length opening_objects ≡ length descriptions }
{}

/// The names of the properties are numbered in the order of their objects' descriptions, each where
/// it is first; last come those that other objects have too (10.1.8).
#[tactic(auto, using(crate::proofs::Described::names))]
pub fn names_are_in_order()
    ensures { builtin_names ≡ names_in_order }
{}

/// Each object has the prototype that the standard gives it.
#[tactic(auto, using(crate::proofs::TableLemmas::prototypes_are_told))]
pub fn prototypes_are_told()
    ensures { map (λ row. map path_of (option_to_list row.object.prototype)) table_rows
        ≡ map prototype_told table_rows }
{}

/// Each property has the attributes of its kind.
#[tactic(auto, using(crate::proofs::TableLemmas::attributes_are_told))]
pub fn attributes_are_told()
    ensures { map (λ row. map (λ e. e.attrs) row.entries) table_rows
        ≡ map (λ row. map (λ e. attrs_told row.path e.name) row.entries) table_rows }
{}

/// The rows of the table are what is out of the profile.
#[tactic(auto, using(crate::proofs::TableLemmas::rows_are_told))]
pub fn rows_are_told()
    ensures { map rows_of table_rows ≡ map (λ row. names_at scope_rows row.path) table_rows }
{}
