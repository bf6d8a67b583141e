//! What holds of the meaning of abstract states. The functions do nothing; their contracts are the
//! laws.

ghost use Rattle.ja_graph.specs.declared.program.Program.{Program};
ghost use Rattle.ja_machine.specs.declared.machine.Heap.{Heap};
ghost use Rattle.ja_machine.specs.State.{IsHeap};
ghost use Rattle.ja_abstract.specs.AbstractState.{AbstractState};
ghost use Rattle.ja_abstract.specs.Composed.{composed};
ghost use Rattle.ja_meaning.specs.Meaning.{Grows, HoldsOfHeap};

/// Three heaps, of which none loses an object of the one before: what one state says of the first
/// and the second, and another one of the second and the third, their composition says of the first
/// and the third.
pub fn moments_compose()
    ensures { (p : Program) (first second third : Heap) (before after : AbstractState)
        → IsHeap p second → Grows first second → Grows second third
        → HoldsOfHeap p first second before → HoldsOfHeap p second third after
        → HoldsOfHeap p first third (composed p before after) }
{}
