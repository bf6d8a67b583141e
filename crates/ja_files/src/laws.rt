//! What the definitions of lines, of one text of files and of spots come to. The functions do
//! nothing; their contracts are the laws.

ghost use Rattle.std.specs.Prelude.{◌≡◌, ◌≢◌, ◌+◌, ◌-◌, ◌<◌, ◌≤◌, ◌∷◌, ◌++◌, [], List, ℕ, codes};
ghost use Rattle.std.specs.Prelude.{drop, if◌then◌else◌, length, slice_get, slice_index, None};
ghost use Rattle.ja_base.specs.declared.ids.Place.{Place};
ghost use Rattle.ja_lex.specs.Spots.{beginning, ends_line, past, place_at};
ghost use Rattle.ja_prim.specs.Characters.{char_at};
ghost use Rattle.ja_files.specs.Files.{first_lines_of, in_front, joined_text, spot_at, spot_of};
ghost use Rattle.ja_files.specs.Files.{unmarked_characters, unmarked_text};
ghost use Rattle.ja_files.specs.Lines.{endings, line_at, lines_of};
ghost use Rattle.ja_files.specs.Order.{IsBelow, IsSpotBelow, IsSpotUpTo, IsUpTo};

/// There is one line more than there are characters that end theirs.
pub fn lines_are_counted()
    ensures { (cs : List ℕ) → length (lines_of cs) ≡ endings cs + 1 }
{}

/// The character behind `n` others stands in the line and at the column of its place, unless it
/// ends its line. Where it does, and at the end of the text, the line has no more characters.
pub fn lines_hold_places()
    ensures { (cs : List ℕ) (n : ℕ) → let at = (past n beginning cs).place in
        slice_get (line_at (lines_of cs) at.line) (at.column - 1)
        ≡ (if ends_line (drop n cs) then None else slice_get cs n) }
{}

/// The lines of `a`, CR, LF, `b` and U+2028 are `a` with the CR, `b`, and an empty one.
pub fn examples_of_lines()
    ensures { lines_of (97 ∷ 13 ∷ 10 ∷ 98 ∷ 0x2028 ∷ [])
        ≡ (97 ∷ 13 ∷ []) ∷ (98 ∷ []) ∷ [] ∷ [] }
{}

/// A file `text` with some files before it and some behind: the character behind `n` others of it
/// stands in the one text behind all that is in front of the file, and the spot of its place there
/// is the file, and the place of the character in it. The end of the file is found in the same way
/// where it is the last one, and else where no CR is there, which goes on to the LF behind it.
pub fn characters_are_found()
    ensures same { (before behind : List (List ℕ)) (text : List ℕ) (n : ℕ) → n < length text
        → slice_get (joined_text (before ++ text ∷ behind)) (length (in_front before) + n)
        ≡ slice_get text n }
    ensures found { (before behind : List (List ℕ)) (text : List ℕ) (n : ℕ) → n < length text
        → let texts = before ++ text ∷ behind in
        spot_of (first_lines_of texts)
        (past (length (in_front before) + n) beginning (joined_text texts)).place
        ≡ spot_at (length before) (past n beginning text).place }
    ensures ended { (before behind : List (List ℕ)) (text : List ℕ)
        → char_at text (length text - 1) ≢ 13 → let texts = before ++ text ∷ behind in
        spot_of (first_lines_of texts)
        (past (length (in_front before) + length text) beginning (joined_text texts)).place
        ≡ spot_at (length before) (past (length text) beginning text).place }
    ensures last { (before : List (List ℕ)) (text : List ℕ)
        → let texts = before ++ text ∷ [] in
        spot_of (first_lines_of texts)
        (past (length (in_front before) + length text) beginning (joined_text texts)).place
        ≡ spot_at (length before) (past (length text) beginning text).place }
{}

/// The `n`-th line of a file is the line of the one text that stands `n - 1` lines behind the
/// file's first one: a place there has its spot in that file and line, at the same column.
pub fn places_are_found()
    ensures { (before behind : List (List ℕ)) (text : List ℕ) (n column : ℕ) → 1 ≤ n
        → n ≤ length (lines_of text) → let firsts = first_lines_of (before ++ text ∷ behind) in
        spot_of firsts (place_at (slice_index firsts (length before) + (n - 1)) column)
        ≡ spot_at (length before) (place_at n column) }
{}

/// What is in order in the one text is in order in the files.
pub fn spots_keep_order()
    ensures order { (texts : List (List ℕ)) (a b : Place) → IsUpTo a b
        → let firsts = first_lines_of texts in
        IsSpotUpTo (spot_of firsts a) (spot_of firsts b) }
    ensures strict { (texts : List (List ℕ)) (a b : Place) → IsBelow a b
        → let firsts = first_lines_of texts in
        IsSpotBelow (spot_of firsts a) (spot_of firsts b) }
{}

/// The files of two lines each, `a` and `b`, `c` and `d`; the first one with an LF at its end; with
/// a CR at its end; and an empty one. Without files there is no text. A mark of the byte order is
/// left out once.
pub fn examples_of_files()
    ensures none { joined_text [] ≡ [] }
    ensures alone { joined_text (codes "a\n" ∷ []) ≡ codes "a\n" }
    ensures two { joined_text (codes "a\nb" ∷ codes "c\nd" ∷ []) ≡ codes "a\nb\n;\nc\nd" }
    ensures two_begin { first_lines_of (codes "a\nb" ∷ codes "c\nd" ∷ []) ≡ 1 ∷ 4 ∷ [] }
    ensures two_spots { spot_of (1 ∷ 4 ∷ []) (place_at 5 1) ≡ spot_at 1 (place_at 2 1) }
    ensures line_feed { first_lines_of (codes "a\n" ∷ codes "c" ∷ []) ≡ 1 ∷ 4 ∷ [] }
    ensures carriage_return { first_lines_of (codes "a\r" ∷ codes "c" ∷ []) ≡ 1 ∷ 3 ∷ [] }
    ensures empty { first_lines_of ([] ∷ codes "c" ∷ []) ≡ 1 ∷ 3 ∷ [] }
    ensures marked { unmarked_characters (0xFEFF ∷ 0xFEFF ∷ codes "c") ≡ 0xFEFF ∷ codes "c" }
    ensures marked_bytes { unmarked_text (0xEF ∷ 0xBB ∷ 0xBF ∷ codes "c") ≡ codes "c" }
{}
