//! What the words come to. The functions do nothing; their contracts are the laws.

ghost use Rattle.std.specs.Prelude.{◌≡◌, ◌<◌, ◌++◌, [], ◌∷◌, ℕ, List, Option, None, Some, true, false, pos, codes, length, replicate, slice_get};
ghost use Rattle.ja_base.specs.declared.ids.FnId.{FnId};
ghost use Rattle.ja_base.specs.declared.ids.Place.{Place};
ghost use Rattle.ja_base.specs.declared.ids.Site.{Site};
ghost use Rattle.ja_graph.specs.declared.program.Class.TheVariants as class;
ghost use Rattle.ja_graph.specs.declared.program.Program.{Program};
ghost use Rattle.ja_graph.specs.declared.program.SiteInfo.{SiteInfo};
ghost use Rattle.ja_abstract.specs.declared.abstraction.NumberPart.TheVariants as number_part;
ghost use Rattle.ja_abstract.specs.declared.abstraction.TextPart.TheVariants as text_part;
ghost use Rattle.ja_abstract.specs.AbstractState.{new, old};
ghost use Rattle.ja_abstract.specs.AbstractValue.{no_value, no_flags, of_label, join, null_value, row_value, undefined_value, AbstractValue};
ghost use Rattle.ja_files.specs.declared.file.File.{File};
ghost use Rattle.ja_files.specs.Files.{name_of};
ghost use Rattle.ja_report.specs.Report.{builtin_owner};
ghost use Rattle.ja_show.specs.Messages.{shown_name};
ghost use Rattle.ja_rows.specs.declared.table.Warning.{Warning};
ghost use Rattle.ja_rows.specs.declared.table.WarningKind.{WarningKind};
ghost use Rattle.ja_rows.specs.declared.table.WarningKind.TheVariants.{NotAFunction, NoObject, ScopeRow, UnboundName};
ghost use Rattle.ja_lint_text.specs.Values.{alternatives, function_text, info_words, name_words, site_words, value_words};
ghost use Rattle.ja_lint_text.specs.Words.{constructs, nullish_words, warning_words};

/// Alternatives as people list them: at most four, and how many others there are.
pub fn examples_of_lists()
    ensures none { alternatives [] ≡ codes "nothing" }
    ensures one { alternatives (codes "a" ∷ []) ≡ codes "a" }
    ensures two { alternatives (codes "a" ∷ codes "b" ∷ []) ≡ codes "a or b" }
    ensures three { alternatives (codes "a" ∷ codes "b" ∷ codes "c" ∷ []) ≡ codes "a, b or c" }
    ensures five { alternatives (codes "a" ∷ codes "b" ∷ codes "c" ∷ codes "d" ∷ codes "e" ∷ [])
        ≡ codes "a, b, c, d or one other" }
    ensures six { alternatives (codes "a" ∷ codes "b" ∷ codes "c" ∷ codes "d" ∷ codes "e"
        ∷ codes "f" ∷ []) ≡ codes "a, b, c, d or one of 2 others" }
{}

/// The values without objects of any program: undefined, null or a truth value, numbers, a string,
/// of a long one its front, and what is out of the profile.
pub fn examples_of_values()
    ensures undefined { (p : Program) (fs : List File) (ls : List ℕ)
        → value_words p fs ls undefined_value ≡ codes "undefined" }
    ensures mixed { (p : Program) (fs : List File) (ls : List ℕ) → value_words p fs ls
        (record no_value { flags = record no_flags { null = true; is_true = true; is_false = true } })
        ≡ codes "null, true or false" }
    ensures number { (p : Program) (fs : List File) (ls : List ℕ) → value_words p fs ls
        (record no_value { number = number_part.One (pos 3) }) ≡ codes "the number 3" }
    ensures numbers { (p : Program) (fs : List File) (ls : List ℕ) → value_words p fs ls
        (record no_value { flags = record no_flags { nan = true }; number = number_part.Index })
        ≡ codes "NaN or a whole number" }
    ensures text { (p : Program) (fs : List File) (ls : List ℕ) → value_words p fs ls
        (record no_value { text = text_part.One (codes "a") }) ≡ codes "the string \"a\"" }
    ensures long { (p : Program) (fs : List File) (ls : List ℕ) → value_words p fs ls
        (record no_value { text = text_part.One (replicate 21 97) })
        ≡ codes "the string \"aaaaaaaaaaaaaaaaaaaa\".." }
    ensures texts { (p : Program) (fs : List File) (ls : List ℕ) → value_words p fs ls
        (record no_value { text = text_part.OtherText }) ≡ codes "a string" }
    ensures unknown { (p : Program) (fs : List File) (ls : List ℕ)
        → value_words p fs ls row_value ≡ codes "what isn't known to this tool" }
    ensures nothing { (p : Program) (fs : List File) (ls : List ℕ)
        → value_words p fs ls no_value ≡ codes "nothing" }
{}

/// The objects of a site are told once, the new one and the old ones.
pub fn sites_are_told_once()
    ensures new { (p : Program) (fs : List File) (ls : List ℕ) (s : Site) → s.0 < length p.sites
        → value_words p fs ls (of_label (new s)) ≡ site_words p fs ls s }
    ensures both { (p : Program) (fs : List File) (ls : List ℕ) (s : Site) → s.0 < length p.sites
        → value_words p fs ls (join (of_label (new s)) (of_label (old s))) ≡ site_words p fs ls s }
{}

/// Objects that the text makes in a file that is shown as `util.js`, by their class, and where the
/// file has no name; and those that a built-in function makes.
pub fn examples_of_objects()
    ensures arrays { (p : Program) (file : File) (info : SiteInfo)
        → shown_name (name_of file) ≡ codes "util.js"
        → builtin_owner p info ≡ None → info.calls ≡ None → info.class ≡ class.Array
        → info.place ≡ (record { line = 16; column = 12 })
        → info_words p (file ∷ []) (1 ∷ []) info ≡ codes "the array made at util.js:16:12" }
    ensures functions { (p : Program) (file : File) (info : SiteInfo) (f : FnId)
        → shown_name (name_of file) ≡ codes "util.js"
        → builtin_owner p info ≡ None → info.calls ≡ Some f
        → info.place ≡ (record { line = 5; column = 22 })
        → info_words p (file ∷ []) (1 ∷ []) info ≡ codes "the function at util.js:5:22" }
    ensures unnamed { (p : Program) (file : File) (info : SiteInfo)
        → shown_name (name_of file) ≡ [] → builtin_owner p info ≡ None → info.calls ≡ None
        → info.class ≡ class.Object → info.place ≡ (record { line = 16; column = 12 })
        → info_words p (file ∷ []) (1 ∷ []) info ≡ codes "the object made at 16:12" }
    ensures built_in { (p : Program) (fs : List File) (ls : List ℕ) (info : SiteInfo) (f : FnId)
        → builtin_owner p info ≡ Some f
        → info_words p fs ls info ≡ codes "an object made in " ++ function_text p f }
{}

/// A built-in function goes by its name, but for those that convert objects.
pub fn examples_of_names()
    ensures built_in { name_words (codes "Array.prototype.join")
        ≡ codes "Array.prototype.join" }
    ensures conversion { name_words (codes "%valueFirst")
        ≡ codes "a conversion of an object to a primitive value" }
{}

/// A warning of each kind, with a name and without, and where it is possible alone.
pub fn examples_of_warnings()
    ensures unbound { (p : Program) (fs : List File) (ls : List ℕ) (at : Place) (v : AbstractValue)
        → warning_words p fs ls
        (record { kind = UnboundName; place = at; builtin = None; certain = true }) v
        (Some (codes "prnt")) ≡ codes "'prnt' is bound nowhere (certain)" }
    ensures unnamed { (p : Program) (fs : List File) (ls : List ℕ) (at : Place) (v : AbstractValue)
        → warning_words p fs ls
        (record { kind = UnboundName; place = at; builtin = None; certain = false }) v None
        ≡ codes "a name may be bound nowhere (possible)" }
    ensures property { (p : Program) (fs : List File) (ls : List ℕ) (at : Place)
        → warning_words p fs ls
        (record { kind = NoObject; place = at; builtin = None; certain = true }) undefined_value
        (Some (codes "toString")) ≡ codes "property 'toString' of undefined (certain)" }
    ensures some_property { (p : Program) (fs : List File) (ls : List ℕ) (at : Place)
        → warning_words p fs ls
        (record { kind = NoObject; place = at; builtin = None; certain = true }) null_value None
        ≡ codes "a property of null (certain)" }
    ensures possible_property { (p : Program) (fs : List File) (ls : List ℕ) (at : Place)
        → warning_words p fs ls
        (record { kind = NoObject; place = at; builtin = None; certain = false })
        (record no_value { flags = record no_flags { null = true; is_true = true } })
        (Some (codes "name"))
        ≡ codes "property 'name' of what may be null: it is null or true (possible)" }
    ensures nullish { nullish_words (record no_flags { undefined = true }) ≡ codes "undefined" }
    ensures both { nullish_words (record no_flags { undefined = true; null = true })
        ≡ codes "null or undefined" }
    ensures call { (p : Program) (fs : List File) (ls : List ℕ) (at : Place)
        → constructs p None at ≡ false → warning_words p fs ls
        (record { kind = NotAFunction; place = at; builtin = None; certain = true })
        undefined_value (Some (codes "f"))
        ≡ codes "call of 'f', which is no function: it is undefined (certain)" }
    ensures construction { (p : Program) (fs : List File) (ls : List ℕ) (at : Place)
        → constructs p None at ≡ true → warning_words p fs ls
        (record { kind = NotAFunction; place = at; builtin = None; certain = true })
        (record no_value { number = number_part.One (pos 3) }) (Some (codes "f"))
        ≡ codes "new of 'f', which is no constructor: it is the number 3 (certain)" }
    ensures some_call { (p : Program) (fs : List File) (ls : List ℕ) (at : Place)
        → constructs p None at ≡ false → warning_words p fs ls
        (record { kind = NotAFunction; place = at; builtin = None; certain = false })
        undefined_value None ≡ codes "call of undefined, which may be no function (possible)" }
    ensures row { (p : Program) (fs : List File) (ls : List ℕ) (at : Place) (v : AbstractValue)
        → warning_words p fs ls
        (record { kind = ScopeRow; place = at; builtin = None; certain = false }) v
        (Some (codes "Date"))
        ≡ codes "'Date' isn't known to this tool; what follows it isn't checked" }
    ensures some_row { (p : Program) (fs : List File) (ls : List ℕ) (at : Place)
        (v : AbstractValue) (f : FnId) → warning_words p fs ls
        (record { kind = ScopeRow; place = at; builtin = Some f; certain = true }) v None
        ≡ codes "a property isn't known to this tool in " ++ function_text p f
        ++ codes "; what follows it isn't checked" }
    ensures within { (p : Program) (fs : List File) (ls : List ℕ) (at : Place) (f : FnId)
        → warning_words p fs ls
        (record { kind = NoObject; place = at; builtin = Some f; certain = false })
        undefined_value None
        ≡ codes "a property of what may be undefined: it is undefined (possible) in "
        ++ function_text p f }
{}
