//! What the definitions of calls and of messages come to. The functions do nothing; their contracts
//! are the laws.

ghost use Rattle.std.specs.Prelude.{◌≡◌, Bool, true, false, length, IsTrue, List};
ghost use Rattle.ja_base.specs.declared.ids.FnId.{FnId};
ghost use Rattle.ja_base.specs.declared.ids.Place.{Place};
ghost use Rattle.ja_files.specs.declared.file.File.{File};
ghost use Rattle.ja_graph.specs.declared.program.Program.{Program};
ghost use Rattle.ja_rows.specs.declared.table.Edge.{Edge};
ghost use Rattle.ja_rows.specs.declared.table.Warning.{Warning};
ghost use Rattle.ja_rows.specs.declared.table.WarningKind.TheVariants.{NoObject, NotAFunction, ScopeRow};
ghost use Rattle.ja_rows.specs.Table.{Table};
ghost use Rattle.ja_show.specs.declared.message.Level.TheVariants.{Certain, Possible, Note};
ghost use Rattle.ja_lint_top.specs.declared.links.Link.{Link};
ghost use Rattle.ja_show.specs.declared.message.Message.{Message};
ghost use Rattle.ja_lint_top.specs.Calls.{AreCallers, AreLinks, Calls, IsCaller, IsOfText};
ghost use Rattle.ja_lint_top.specs.Telling.{level_of, AreTold};

/// An operation of the text that calls a function is one of its callers. Where a built-in function
/// calls another function, the callers of the one are callers of the other.
pub fn calls_are_followed()
    ensures itself { (p : Program) (t : Table) (at : Place) (f : FnId) → Calls p t at f
        → IsCaller p t f at }
    ensures built_in { (p : Program) (t : Table) (at : Place) (e : Edge) → IsTrue (t.edge e)
        → (IsOfText p e.caller.function → ⊥) → IsCaller p t e.caller.function at
        → IsCaller p t e.callee.function at }
{}

/// The callers of a function are one list, and so are the links of a text.
pub fn calls_have_one_list()
    ensures callers { (p : Program) (t : Table) (f : FnId) (xs ys : List Place)
        → AreCallers p t f xs → AreCallers p t f ys → xs ≡ ys }
    ensures links { (p : Program) (t : Table) (xs ys : List Link)
        → AreLinks p t xs → AreLinks p t ys → xs ≡ ys }
{}

/// Each warning has one message.
pub fn warnings_have_messages()
    ensures { (files : List File) (p : Program) (t : Table) (ws : List Warning)
        (ms : List Message) → AreTold files p t ws ms → length ms ≡ length ws }
{}

/// A fault that certainly comes is of the level `Certain`, one that may come of `Possible`, and a
/// read of what the analysis doesn't know of `Note`.
pub fn examples_of_messages()
    ensures certain { level_of NoObject true ≡ Certain }
    ensures possible { level_of NotAFunction false ≡ Possible }
    ensures row { (certain : Bool) → level_of ScopeRow certain ≡ Note }
{}
