//! What the definition of what stands behind messages comes to, and which files are read. The
//! functions do nothing; their contracts are the laws.

ghost use Rattle.std.specs.Prelude.{◌≡◌, ◌++◌, ◌∷◌, [], codes, false};
ghost use Rattle.ja_lint_top.specs.Ending.{counted_line, counts_by, promise};
ghost use Rattle.ja_lint_top.specs.Refusals.{known_as, names_of};
ghost use Rattle.ja_lint_top.specs.declared.asking.Format.TheVariants as format;

/// The counts of faults, of those that are certain, and of reads; the reads that are only counted,
/// of which a page names no option; and the promise.
pub fn examples_of_endings()
    ensures one { counts_by 1 0 0 ≡ codes "1 fault, 0 of them certain" }
    ensures several { counts_by 3 2 1 ≡ codes "3 faults, 2 of them certain; "
        ++ codes "1 read of what isn't known to this tool" }
    ensures lines { counted_line format.Text 2
        ≡ codes "2 reads in built-in functions of what isn't known to this tool "
        ++ codes "(--rows tells each)\n" }
    ensures page { counted_line format.Html 1
        ≡ codes "1 read in built-in functions of what isn't known to this tool\n" }
    ensures none { counted_line format.Text 0 ≡ [] }
    ensures clean { promise (codes "a.js" ∷ codes "b.js" ∷ []) false
        ≡ codes "no run of a.js and b.js calls a non-function, "
        ++ codes "reads a property of null or undefined, or meets an unbound name" }
{}

/// Standard input is read where no file is named, and a file that is named twice is read once.
pub fn examples_of_names()
    ensures none { names_of [] ≡ codes "-" ∷ [] }
    ensures twice { names_of (codes "a.js" ∷ codes "b.js" ∷ codes "a.js" ∷ [])
        ≡ codes "a.js" ∷ codes "b.js" ∷ [] }
    ensures stdin { known_as (codes "-") ≡ codes "<stdin>" }
    ensures unnamed { known_as [] ≡ codes "''" }
{}
