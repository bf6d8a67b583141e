//! How long a list of visits may be that builds a table, and how high some programs are. The
//! functions do nothing; their contracts are the laws.

ghost use Rattle.std.specs.Prelude.{◌≡◌, ◌≤◌, ◌∷◌, [], List, length};
ghost use Rattle.ja_graph.specs.declared.program.Function.{Function};
ghost use Rattle.ja_graph.specs.declared.program.Program.{Program};
ghost use Rattle.ja_graph.specs.WellFormed.{IsWellFormed};
ghost use Rattle.ja_rows.specs.declared.table.Item.{Item};
ghost use Rattle.ja_rows.specs.Table.{Table, IsBuilt, IsClosed};
ghost use Rattle.ja_height.specs.Counts.{HasCounts, IsOfSize};
ghost use Rattle.ja_height.specs.Height.{height};

/// A list of visits that builds a table of a program is at most as long as the program is high, and
/// where it is as long, the table is closed. So a solver that may make that many visits, and keeps
/// those that change its table, doesn't stop before this is closed.
pub fn built_lists_are_short()
    ensures short { (p : Program) (items : List Item) (t : Table) → IsWellFormed p
        → IsBuilt p items t → length items ≤ height p }
    ensures closed { (p : Program) (items : List Item) (t : Table) → IsWellFormed p
        → IsBuilt p items t → height p ≤ length items → IsClosed p t }
{}

/// The heights of programs of some sizes, by arithmetic apart from the definition. The first has
/// one site, no name, and a function of one register and one node. The second has three sites and
/// four names, and in one of its two functions a node that enters functions.
pub fn heights_of_small_programs()
    ensures one { (p : Program) (f : Function) → IsOfSize p 1 0 (f ∷ []) → HasCounts f 1 1 0
        → height p ≡ 1120 }
    ensures two { (p : Program) (f g : Function) → IsOfSize p 3 4 (f ∷ g ∷ [])
        → HasCounts f 2 2 1 → HasCounts g 3 1 0 → height p ≡ 48570 }
{}
