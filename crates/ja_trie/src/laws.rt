//! What the bound on nodes comes to at some lengths. The function does nothing; its contract is the
//! law.
ghost use Rattle.std.specs.Prelude.{ℕ, ◌+◌, ◌*◌, ◌≤◌};
ghost use Rattle.ja_trie.specs.Nodes.{ArePaths};

/// A `set`, which has one place to put, makes at most 1 node in a list of 8 places, 2 in one of 9,
/// 3 in one of 512 and 4 in one of 513; a join that puts no place makes none.
pub fn nodes_by_length()
    ensures of_8 { (from to : ℕ) → ArePaths 8 1 from to → to ≤ from + 1 }
    ensures of_9 { (from to : ℕ) → ArePaths 9 1 from to → to ≤ from + 2 }
    ensures of_512 { (from to : ℕ) → ArePaths 512 1 from to → to ≤ from + 3 }
    ensures of_513 { (from to : ℕ) → ArePaths 513 1 from to → to ≤ from + 4 }
    ensures of_none { (long from to : ℕ) → ArePaths long 0 from to → to ≤ from }
{}
