//! Register `scope` has the scope chain in force: whatever way leaves a `catch`, it is again what
//! it was at its `try`. The functions do nothing; their contracts are the laws.

ghost use Rattle.std.specs.Prelude.{◌≡◌, ℕ, ◌+◌, true, false, List, ◌∷◌, ◌++◌, Option, Some, None};
ghost use Rattle.std.specs.List.{list_any};
ghost use Rattle.ja_base.specs.declared.ids.Place.{Place};
ghost use Rattle.ja_base.specs.declared.ids.Reg.{Reg};
ghost use Rattle.ja_syntax.specs.declared.tree.Name.{Name};
ghost use Rattle.ja_lower_listing.specs.declared.item.Spot.{Spot};
ghost use Rattle.ja_lower_draft.specs.Copies.{Template, with_block};
ghost use Rattle.ja_lower_draft.specs.Lines.{Listing, Scene, register};
ghost use Rattle.ja_lower_expressions.specs.Literals.{list_named_function};
ghost use Rattle.ja_lower_statements.specs.Ways.{Way, of_finally, jump_to, leave_all, leaving};
ghost use Rattle.ja_lower_statements.specs.Statements.{Around, Does, Guarded, unlabelled, inside, handled_at, nth_spot, list_all_statements, list_guarded, list_handler, list_catch, keep_block, list_ways_out, protected, list_finally};
ghost use Rattle.ja_lower_ranges.specs.Scope.{kept_in, scope_behind, is_catch, AreLeft, HaveNoBlocks, IsThatOutside, Arrives, RunsBlock, before_block, KeepsScope, SetsScope, CatchesWith};

/// A `try` keeps the scope chain in a register below the temporaries of its block, before the
/// block.
#[tactic(auto, using(crate::proofs::Rulesets::for_tries_keep_their_scope))]
pub fn tries_keep_their_scope()
    ensures catch { (block : List Does) (place : Place) (around : Around) (base : ℕ) (l : Listing)
        → let g = list_guarded block place around base l in
        KeepsScope around.scene place g.saved (base + 1) l g.listing
        (list_all_statements block (handled_at (nth_spot g.first 0) (unlabelled around)) (base + 1)) }
    ensures finally { (block : Does) (finally : List Does) (place : Place) (around : Around)
        (base : ℕ) (l : Listing) → let k = keep_block finally place around base l in
        KeepsScope around.scene place k.saved (base + 1) l
        (list_finally block finally place around base l)
        (λ before. list_ways_out place around.scene base k.first k.saved k.template
        (block (protected k around) (base + 1) before)) }
{}

/// The handler of a `try` first sets `scope` to what the `try` kept.
#[tactic(auto, using(crate::proofs::ScopeLaws::catch_sets, crate::proofs::ScopeLaws::finally_sets))]
pub fn handlers_set_their_scope()
    ensures catch { (parameter : Name) (place : Place) (scene : Scene) (g : Guarded)
        → SetsScope scene place (nth_spot g.first 0) g.saved
        (list_handler parameter place scene g).items }
    ensures finally { (place : Place) (scene : Scene) (base first : ℕ) (saved : Reg)
        (block : Template) (l : Listing) → SetsScope scene place (nth_spot first 0) saved
        (list_ways_out place scene base first saved block l).items }
{}

/// The body of a `catch` has a new object before the scope chain that its `try` kept. Behind the
/// body `scope` is what the `try` kept.
#[tactic(auto, using(crate::proofs::ScopeLaws::catch_ends, crate::proofs::ScopeLaws::catch_body))]
pub fn catches_end_with_their_scope()
    ensures body { (block : List Does) (parameter : Name) (body : List Does) (place : Place)
        (around : Around) (base : ℕ) (l : Listing)
        → let g = list_guarded block place around base l in
        CatchesWith around.scene place g.saved (nth_spot g.first 1)
        (λ way. list_all_statements body (inside way around) (base + 1))
        (list_catch block parameter body place around base l) }
    ensures ends { (block : List Does) (parameter : Name) (body : List Does) (place : Place)
        (around : Around) (base : ℕ) (l : Listing)
        → scope_behind (list_catch block parameter body place around base l).items
        ≡ kept_in (list_guarded block place around base l).saved }
{}

/// A jump that leaves some `catch` arrives at its target with `scope` set to what was kept by a
/// `try` outside of which it leaves no `catch`. One that leaves no `catch` arrives with `scope` as
/// it was.
#[tactic(auto, using(crate::proofs::ScopeLaws::jump_sets, crate::proofs::ScopeLaws::jump_keeps))]
pub fn jumps_leave_catches_with_their_scope()
    ensures sets { (scene : Scene) (place : Place) (target : Way → Option Spot)
        (ways outer : List Way) (way : Way) (spot : Spot) (l : Listing) → AreLeft target ways
        → list_any is_catch ways ≡ true → target way ≡ Some spot
        → Arrives spot (IsThatOutside ways) (jump_to scene place target (ways ++ way ∷ outer)
        (leaving l)) }
    ensures keeps { (scene : Scene) (place : Place) (target : Way → Option Spot)
        (ways outer : List Way) (way : Way) (spot : Spot) (l : Listing) → AreLeft target ways
        → list_any is_catch ways ≡ false → target way ≡ Some spot
        → Arrives spot (λ chain. chain ≡ scope_behind l.items)
        (jump_to scene place target (ways ++ way ∷ outer) (leaving l)) }
{}

/// Before a copy of the block of a `finally` `scope` is set to what its `try` kept, where a `catch`
/// was left on the way to it. The jump or the return goes on behind the copy as from there; the
/// copy is passed over.
#[tactic(auto, using(crate::proofs::Rulesets::for_blocks_are_run_with_their_scope))]
pub fn blocks_are_run_with_their_scope()
    ensures jump { (scene : Scene) (place : Place) (target : Way → Option Spot)
        (inner outer : List Way) (saved : Reg) (block : Template) (l : Listing)
        → AreLeft target inner → HaveNoBlocks inner → target (of_finally saved block) ≡ None
        → RunsBlock block saved (before_block inner saved (scope_behind l.items))
        (λ behind. jump_to scene place target outer (leaving behind))
        (jump_to scene place target (inner ++ of_finally saved block ∷ outer) (leaving l)) }
    ensures returned { (scene : Scene) (place : Place) (value : Reg) (inner outer : List Way)
        (saved : Reg) (block : Template) (l : Listing) → HaveNoBlocks inner
        → RunsBlock block value (before_block inner saved (scope_behind l.items))
        (λ behind. leave_all scene place value outer (leaving behind))
        (leave_all scene place value (inner ++ of_finally saved block ∷ outer) (leaving l)) }
    ensures copy { (block : Template) (above : Reg) (l : Listing)
        → scope_behind (with_block block above l).items ≡ scope_behind l.items }
{}

/// A function with a name, which is made with an object of its own before the scope chain, ends
/// with `scope` as it was kept.
#[tactic(auto, using(crate::proofs::ScopeLaws::named_function_ends))]
pub fn named_functions_end_with_their_scope()
    ensures { (name : Name) (place : Place) (scene : Scene) (l : Listing)
        → scope_behind (list_named_function name place scene l).listing.items
        ≡ kept_in (register l.temporary) }
{}
