//! What the numbers of the built-in names stand for. The function does nothing; its contract is the
//! law.

ghost use Rattle.std.specs.Prelude.{◌≡◌, Some, slice_get};
ghost use lib.Chars.{codes};
ghost use Rattle.ja_graph.specs.WellFormed.{builtin_names};
ghost use Rattle.ja_graph.specs.declared.builtins.TheConstants as numbers;

/// The names that other crates go by have their numbers.
pub fn names_are_numbered()
    ensures name { slice_get builtin_names numbers.NAME.0 ≡ Some (codes "name") }
    ensures message { slice_get builtin_names numbers.MESSAGE.0 ≡ Some (codes "message") }
    ensures length { slice_get builtin_names numbers.LENGTH.0 ≡ Some (codes "length") }
    ensures callee { slice_get builtin_names numbers.CALLEE.0 ≡ Some (codes "callee") }
    ensures arguments { slice_get builtin_names numbers.ARGUMENTS.0 ≡ Some (codes "arguments") }
{}
