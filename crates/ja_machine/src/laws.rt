//! What holds of every run of a program, and of the operations that it may name. The functions do
//! nothing; their contracts are the laws.

ghost use Rattle.std.specs.Prelude.{◌≡◌, map};
ghost use Rattle.std.specs.List.{AllByRecursion};
ghost use Rattle.ja_graph.specs.declared.builtins.TheConstants.{INTRINSICS};
ghost use Rattle.ja_graph.specs.declared.program.Program.{Program};
ghost use Rattle.ja_graph.specs.WellFormed.{IsWellFormed};
ghost use Rattle.ja_machine.specs.Intrinsics.{Operation, TakesItsValues, operations};
ghost use Rattle.ja_machine.specs.Machine.{opening_state};
ghost use Rattle.ja_machine.specs.Runs.{AreStates, NeverStuck, HaveSteps, StepsKeepStates};
ghost use Rattle.ja_machine.specs.Runs.{AreSteps, ObjectsStay, NamesAreDistinct, ChainsEnd};
ghost use Rattle.ja_machine.specs.State.{IsState};

/// After each list of answers a state has a frame, its frames and its heap are as they should be,
/// each object has the class of its site, is an arguments object where its site is one of them, and
/// has a scope chain if it runs a function; each site without a node has one object, and no other
/// site has more than steps were made. No frame has more than 4,294,967,295 arguments.
pub fn states_are_kept()
    ensures { (p : Program) → IsWellFormed p → AreStates p }
{}

/// No run is stuck: each state that is reached has a step with each answer that it wants, and with
/// no other.
pub fn never_stuck()
    ensures { (p : Program) → IsWellFormed p → NeverStuck p }
{}

/// Any state that is as it should be, whether a run comes to it or not, has a step with each answer
/// that it wants, and with no other.
pub fn states_have_steps()
    ensures { (p : Program) → IsWellFormed p → HaveSteps p }
{}

/// The state in which a run begins is as it should be, and so is each state to which a step leads
/// from one that is.
pub fn steps_keep_states()
    ensures opening { (p : Program) → IsWellFormed p → IsState p (opening_state p) }
    ensures steps { (p : Program) → IsWellFormed p → StepsKeepStates p }
{}

/// Each step counts one more. Where the run goes on, the top frame stands at `next`, at `other` or,
/// of a node that may throw, at `handler` of the node at which it stood; or a function is entered
/// above it; or it is left, and its caller stands at `next` of its node after a Return, at
/// `handler` after an Escape. Where the run ends, the heap and the frames stay.
pub fn steps_go_along_edges()
    ensures { (p : Program) → AreSteps p }
{}

/// No object is ever removed, and each keeps its class and its internal properties.
pub fn objects_stay()
    ensures { (p : Program) → ObjectsStay p }
{}

/// `for`-`in` shows no name twice, neither of one object nor of one and its prototypes (12.6.4), in
/// any heap that is as it should be: no name is the same text as one after it.
pub fn names_are_distinct()
    ensures { (p : Program) → NamesAreDistinct p }
{}

/// A chain of prototypes, and one of scopes, meets no object twice, and ends: so following as many
/// links as the heap has objects follows all of them.
pub fn chains_end()
    ensures { (p : Program) → IsWellFormed p → ChainsEnd p }
{}

/// The operations of the built-in functions are those of `ja_graph::INTRINSICS`, by their numbers,
/// and take as many values: one that is given fewer or more leaves the profile.
pub fn operations_are_listed()
    ensures names { map (λ (o : Operation). o.name) operations ≡ map (λ row. row.0.now) INTRINSICS }
    ensures counts { map (λ (o : Operation). o.takes) operations ≡ map (λ row. row.1) INTRINSICS }
    ensures takes { AllByRecursion TakesItsValues operations }
{}
