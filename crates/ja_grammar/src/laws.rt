//! What a refusal says determines it, and is said of no text of the language. The functions do
//! nothing; their contracts are the laws.

ghost use Rattle.std.specs.Prelude.{◌≡◌, ◌≢◌, ℕ, List, ◌++◌, codes, replicate};
ghost use Rattle.ja_base.specs.declared.ids.ScopeKind.TheVariants as scope;
ghost use Rattle.ja_lex.specs.Tokens.{tokens};
ghost use Rattle.ja_syntax.specs.declared.tree.Statement.{Statement};
ghost use Rattle.ja_grammar.specs.declared.fault.ParseFault.{ParseFault};
ghost use Rattle.ja_grammar.specs.declared.fault.ParseFault.TheVariants.{Syntax, Scope, Depth};
ghost use Rattle.ja_grammar.specs.Language.{IsRefused, Spells, max_levels};

/// Two refusals of one text are the same: one kind and one place.
pub fn refused_once()
    ensures { (text : List ℕ) (f g : ParseFault) → IsRefused (tokens text) f
        → IsRefused (tokens text) g → f ≡ g }
{}

/// A text that is refused is none of the language: no statements are its.
pub fn refused_is_none()
    ensures { (text : List ℕ) (f : ParseFault) → IsRefused (tokens text) f
        → (xs : List Statement) → Spells max_levels (tokens text) xs → ⊥ }
{}

/// What each of these texts is refused with: a `/` where no expression begins, and one where one
/// begins; `arguments` where no name is declared, and where one is; a `++` whose operand is
/// complete and no reference; what stands behind a name that is no label; what stands behind a
/// `break` that may stand there; and the first `(` that is too deep, whatever stands behind it.
pub fn these_are_right()
    ensures division { IsRefused (tokens (codes "var a /b/"))
        (Syntax (record { line = 1; column = 7 })) }
    ensures expression { IsRefused (tokens (codes "a = /b/"))
        (Scope scope.RegExp (record { line = 1; column = 5 })) }
    ensures lookup { IsRefused (tokens (codes "a arguments"))
        (Syntax (record { line = 1; column = 3 })) }
    ensures declaration { IsRefused (tokens (codes "var arguments"))
        (Scope scope.ArgumentsName (record { line = 1; column = 5 })) }
    ensures operand { IsRefused (tokens (codes "++ 1 eval"))
        (Syntax (record { line = 1; column = 1 })) }
    ensures name { IsRefused (tokens (codes "(a:b)")) (Syntax (record { line = 1; column = 3 })) }
    ensures jump { IsRefused (tokens (codes "for(;;){break 1}"))
        (Syntax (record { line = 1; column = 15 })) }
    ensures deep { IsRefused (tokens (replicate 300 40)) (Depth (record { line = 1; column = 201 })) }
    ensures deeper { IsRefused (tokens (replicate 201 40 ++ codes ")"))
        (Depth (record { line = 1; column = 201 })) }
{}

/// What none of these texts is refused with: a `/` where no expression begins; `arguments` where no
/// name is declared; what stands behind the complete operand of a `++`; a name that is no label; a
/// `break` that may stand there; of 300 `(` another than the first that is too deep; and what is
/// wrong behind one.
pub fn others_are_wrong()
    ensures division { IsRefused (tokens (codes "var a /b/"))
        (Scope scope.RegExp (record { line = 1; column = 7 })) → ⊥ }
    ensures lookup { IsRefused (tokens (codes "a arguments"))
        (Scope scope.ArgumentsName (record { line = 1; column = 3 })) → ⊥ }
    ensures operand { IsRefused (tokens (codes "++ 1 eval"))
        (Scope scope.Eval (record { line = 1; column = 6 })) → ⊥ }
    ensures name { IsRefused (tokens (codes "(a:b)")) (Syntax (record { line = 1; column = 2 }))
        → ⊥ }
    ensures jump { IsRefused (tokens (codes "for(;;){break 1}"))
        (Syntax (record { line = 1; column = 9 })) → ⊥ }
    ensures deep { (n : ℕ) → n ≢ 201 → IsRefused (tokens (replicate 300 40))
        (Depth (record { line = 1; column = n })) → ⊥ }
    ensures deeper { IsRefused (tokens (replicate 201 40 ++ codes ")"))
        (Syntax (record { line = 1; column = 202 })) → ⊥ }
{}
