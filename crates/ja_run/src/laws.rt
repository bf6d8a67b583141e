//! What runs are under the answers that are given. The functions do nothing; their contracts are
//! the laws.

ghost use Rattle.ja_graph.specs.declared.program.Program.{Program};
ghost use Rattle.ja_graph.specs.WellFormed.{IsWellFormed};
ghost use Rattle.ja_run.specs.Run.{AnswersFit, ArePrefixes, RunsOnce};

/// Each answer that is given is one that the state wants, where each device answers within its
/// kinds: so the laws of every run hold of this one.
pub fn answers_fit()
    ensures { (p : Program) → IsWellFormed p → AnswersFit p }
{}

/// A program has one run of at most so many steps under the same answers of its devices.
pub fn runs_once()
    ensures { (p : Program) → RunsOnce p }
{}

/// A run to n steps is a prefix of the run to n + 1 in which devices give the same answers, and
/// maybe more.
pub fn runs_are_prefixes()
    ensures { (p : Program) → ArePrefixes p }
{}
