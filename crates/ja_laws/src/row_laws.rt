//! What the rows say, in other words. The functions do nothing; their contracts are the laws.

ghost use Rattle.std.specs.Prelude.{◌≡◌, ℕ, true, false, IfSome, IsTrue, IsSome, List, [], ◌∷◌};
ghost use Rattle.std.specs.List.{AllByRecursion};
ghost use Rattle.ja_base.specs.declared.ids.Context.{Context};
ghost use Rattle.ja_base.specs.declared.ids.Label.{Label};
ghost use Rattle.ja_base.specs.declared.ids.Reg.{Reg};
ghost use Rattle.ja_base.specs.declared.ids.ScopeKind.{ScopeKind};
ghost use Rattle.ja_base.specs.declared.ids.Site.{Site};
ghost use Rattle.ja_graph.specs.declared.node.Args.{Args};
ghost use Rattle.ja_graph.specs.declared.node.Node.TheVariants as node;
ghost use Rattle.ja_graph.specs.declared.node.NodeInfo.{NodeInfo};
ghost use Rattle.ja_graph.specs.declared.program.Program.{Program};
ghost use Rattle.ja_graph.specs.WellFormed.{IsWellFormed};
ghost use Rattle.ja_machine.specs.Frames.{thrown};
ghost use Rattle.ja_abstract.specs.declared.abstraction.Key.{Key};
ghost use Rattle.ja_abstract.specs.AbstractState.{AbstractState, with_register};
ghost use Rattle.ja_abstract.specs.InProgram.{IsInProgram};
ghost use Rattle.ja_abstract.specs.Order.{LeqProperty};
ghost use Rattle.ja_abstract.specs.Reading.{View, has_present};
ghost use Rattle.ja_rows.specs.declared.table.Edge.{Edge};
ghost use Rattle.ja_rows.specs.declared.table.Item.{Item};
ghost use Rattle.ja_rows.specs.Calls.{filled_with, given_back};
ghost use Rattle.ja_rows.specs.Edges.{calls_at, constructs_at};
ghost use Rattle.ja_laws.specs.RowLaws.{AllRun, AreThere, GoTo, HasOne, IsEntered, IsJoined, NoneRun};
ghost use Rattle.ja_rows.specs.Out.{Out, Point, at, nowhere, throws};
ghost use Rattle.ja_rows.specs.Table.{Table, IsBuilt, IsClosed, applied, effects_fill, effects_step};
ghost use Rattle.ja_rows.specs.Transfer.{transfer_node};

/// A Branch on `true` alone goes on to `next` and gives no state to `other`, and one on `false`
/// alone the other way round; the state is as it was.
pub fn branches_are_taken()
    ensures on_true { (w : View) (x : Point) (i : NodeInfo) (src : Reg)
        → (at w src).flags.is_true ≡ true → (at w src).flags.is_false ≡ false
        → (transfer_node w x i (node.Branch src)).states ≡ (i.next.0, w.state) ∷ [] }
    ensures on_false { (w : View) (x : Point) (i : NodeInfo) (src : Reg)
        → (at w src).flags.is_true ≡ false → (at w src).flags.is_false ≡ true
        → (transfer_node w x i (node.Branch src)).states ≡ (i.other.0, w.state) ∷ [] }
{}

/// A Return, an Escape and a Stop give nothing: no state, no demand, no edge.
pub fn exits_give_nothing()
    ensures returns { (w : View) (x : Point) (i : NodeInfo) (src : Reg)
        → transfer_node w x i (node.Return src) ≡ nowhere }
    ensures escapes { (w : View) (x : Point) (i : NodeInfo)
        → transfer_node w x i node.Escape ≡ nowhere }
    ensures stops { (w : View) (x : Point) (i : NodeInfo) (kind : ScopeKind)
        → transfer_node w x i (node.Stop kind) ≡ nowhere }
{}

/// What is thrown goes to the handler and nowhere else: a value by a Throw, with the state as it
/// was, an error of a node, and what comes out of a callee at its Escape.
pub fn exceptions_reach_handlers()
    ensures values { (w : View) (x : Point) (i : NodeInfo) (src : Reg)
        → IsTrue (has_present w (at w src)) → (transfer_node w x i (node.Throw src)).states
        ≡ (i.handler.0, with_register w.state thrown (at w src)) ∷ [] }
    ensures errors { (w : View) (i : NodeInfo) (error proto : Site) (text : List ℕ)
        → GoTo i.handler (throws w true i error proto text) }
    ensures escapes { (w : View) (e : Edge) (i : NodeInfo) (exit : AbstractState)
        → GoTo i.handler (given_back w e i exit node.Escape) }
{}

/// A Call or a New of functions alone gives no state, only edges; and one of what runs no function
/// has no edge.
pub fn calls_enter_functions()
    ensures calls { (w : View) (x : Point) (i : NodeInfo) (dst callee receiver : Reg) (args : Args)
        (error : Site) → AllRun (calls_at w.program) (at w callee)
        → (transfer_node w x i (node.Call dst callee receiver args error)).states ≡ [] }
    ensures constructions { (w : View) (x : Point) (i : NodeInfo) (dst callee : Reg)
        (args : List Reg) (site error : Site) → AllRun (constructs_at w.program) (at w callee)
        → (transfer_node w x i (node.New dst callee args site error)).states ≡ [] }
    ensures no_calls { (w : View) (x : Point) (i : NodeInfo) (dst callee receiver : Reg)
        (args : Args) (error : Site) → NoneRun (calls_at w.program) (at w callee)
        → (transfer_node w x i (node.Call dst callee receiver args error)).edges ≡ [] }
    ensures no_constructions { (w : View) (x : Point) (i : NodeInfo) (dst callee : Reg)
        (args : List Reg) (site error : Site) → NoneRun (constructs_at w.program) (at w callee)
        → (transfer_node w x i (node.New dst callee args site error)).edges ≡ [] }
{}

/// After the visit of a step the table has each state that the node gives and each pair that it
/// demands, and each callee is entered. After the fill of an edge each pair that the callee demands
/// has at least the value that the caller's state gives.
pub fn visits_reach_callees()
    ensures states { (t : Table) (w : View) (x : Point) (o : Out)
        → AllByRecursion (IsJoined (applied t (effects_step w x o)) x.context) o.states }
    ensures demands { (t : Table) (w : View) (x : Point) (o : Out)
        → AreThere (applied t (effects_step w x o)) x.context o.demands }
    ensures callees { (t : Table) (w : View) (x : Point) (o : Out)
        → AllByRecursion (IsEntered w x (applied t (effects_step w x o))) o.edges }
    ensures fills { (t : Table) (e : Edge) (w : View) (i : NodeInfo) (l : Label) (k : Key)
        → IsSome (t.entry e.callee l k) → HasOne (LeqProperty (filled_with w e i.node l k))
        ((applied t (effects_fill t e w i)).entry e.callee l k) }
{}

/// Each state of a table that visits build speaks of the program alone: at any other label and any
/// other key it is as at entry, and at any other site nothing was made. So it can be kept as an
/// object for each label of the program, with a property for each key of the program.
pub fn states_keep_to_programs()
    ensures { (p : Program) (items : List Item) (t : Table) → IsWellFormed p → IsBuilt p items t
        → (x : Context) (n : ℕ) → IfSome (t.state x n) (IsInProgram p) }
{}

/// Each program has a closed table, so what is proved of these isn't of none: the one that says
/// everything is closed, since no visit has more to say.
pub fn closed_tables_exist()
    ensures { (p : Program) → (t : Table) × IsClosed p t }
{}
