//! What the definitions of excerpts and of messages come to. The functions do nothing; their
//! contracts are the laws.

ghost use Rattle.std.specs.Prelude.{◌≡◌, ◌∷◌, ◌++◌, [], codes, encode_utf8, replicate, Some, None};
ghost use Rattle.ja_files.specs.Files.{spot_at};
ghost use Rattle.ja_lex.specs.Spots.{place_at};
ghost use Rattle.ja_show.specs.Laws.{told};
ghost use Rattle.ja_show.specs.Lines.{excerpt};
ghost use Rattle.ja_show.specs.Messages.{messages_text};
ghost use Rattle.ja_show.specs.declared.message.Level.TheVariants.{Certain, Error, Note};

/// Below `x` behind a tab and U+4E2D, the caret stands behind a tab and two blanks; the CR at the
/// end isn't shown. U+202E is shown as U+FFFD. Of 200 characters, those around the 150th are shown.
pub fn examples_of_excerpts()
    ensures wide { excerpt ((9 ∷ 0x4E2D ∷ codes "x\r") ∷ []) (place_at 1 3)
        ≡ codes "\t" ++ encode_utf8 0x4E2D ++ codes "x\n\t  ^\n" }
    ensures hidden { excerpt ((0x202E ∷ codes "x") ∷ []) (place_at 1 2)
        ≡ encode_utf8 0xFFFD ++ codes "x\n ^\n" }
    ensures long { excerpt (replicate 200 97 ∷ []) (place_at 1 150)
        ≡ codes "..." ++ replicate 100 97 ++ codes "...\n" ++ replicate 62 32 ++ codes "^\n" }
{}

/// A fault in the second of two files. A fault in a built-in function that two places call: it
/// stands at the first one. An error that is about no place. A note about a file that isn't there:
/// its name is empty, and no line is shown.
pub fn examples_of_messages()
    ensures at_a_place { messages_text (codes "a.js" ∷ codes "b.js" ∷ [])
        (codes "x" ∷ codes "x;f()\n" ∷ [])
        (told Certain (Some (spot_at 1 (place_at 1 3))) (codes "unbound name (certain)") [] ∷ [])
        ≡ codes "b.js:1:3: warning: unbound name (certain)\nx;f()\n  ^\n" }
    ensures called { messages_text (codes "a.js" ∷ codes "b.js" ∷ [])
        (codes "x" ∷ codes "f();\nf()" ∷ [])
        (told Certain None (codes "a row")
        (spot_at 1 (place_at 2 1) ∷ spot_at 1 (place_at 1 1) ∷ spot_at 0 (place_at 1 1) ∷ []) ∷ [])
        ≡ codes "b.js:2:1: warning: a row, also called at b.js:1:1, a.js:1:1\nf()\n^\n" }
    ensures of_the_tool { messages_text [] []
        (told Error None (codes "the input failed") [] ∷ [])
        ≡ codes "tajs-lint: error: the input failed\n" }
    ensures past_the_files { messages_text (codes "a.js" ∷ []) (codes "x" ∷ [])
        (told Note (Some (spot_at 1 (place_at 3 1))) (codes "a row") [] ∷ [])
        ≡ codes ":3:1: note: a row\n" }
    ensures no_controls { messages_text ((27 ∷ codes "[7m") ∷ []) (codes "x" ∷ [])
        (told Note (Some (spot_at 0 (place_at 1 1))) (codes "a row") [] ∷ [])
        ≡ encode_utf8 0xFFFD ++ codes "[7m:1:1: note: a row\nx\n^\n" }
{}
