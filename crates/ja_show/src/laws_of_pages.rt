//! What the definition of a page comes to. The functions do nothing; their contracts are the laws.

ghost use Rattle.std.specs.Prelude.{◌≡◌, ◌≢◌, ◌<◌, ◌≤◌, ◌^◌, ◌++◌, ◌∷◌, [], List, ℕ, Some, codes};
ghost use Rattle.std.specs.Prelude.{false, length};
ghost use Rattle.std.specs.List.{AllByRecursion};
ghost use Rattle.ja_files.specs.Files.{spot_at};
ghost use Rattle.ja_lex.specs.Spots.{max_bytes, place_at};
ghost use Rattle.ja_show.specs.Page.{escaped, heading, lines_text, message_item, page_text};
ghost use Rattle.ja_show.specs.Untagged.{plain_lines, untagged};
ghost use Rattle.ja_show.specs.declared.message.Level.TheVariants.{Certain, Possible};
ghost use Rattle.ja_show.specs.declared.message.Link.{Link as Call};
ghost use Rattle.ja_show.specs.declared.message.Message.{Message as About};
ghost use Rattle.ja_show.specs.declared.message.Rule.TheVariants.{NoObject, NotAFunction};

/// Whatever a page shows, it begins with its encoding and with a policy by which a browser fetches
/// nothing, runs no script, and follows no style but the page's own (Content Security Policy): both
/// stand before all that it has of a text, the title too.
pub fn pages_fetch_nothing()
    ensures { (title summary : List ℕ) (names texts : List (List ℕ))
        (messages : List About) (links : List Call) →
        (rest : List ℕ) × (page_text title summary names texts messages links
        ≡ codes "<!DOCTYPE html>\n<html lang=\"en\">\n<head>\n<meta charset=\"utf-8\">\n"
        ++ codes "<meta http-equiv=\"Content-Security-Policy\" content=\""
        ++ codes "default-src 'none'; style-src 'unsafe-inline'\">\n" ++ rest) }
{}

/// A text in HTML begins and ends no tag, and no attribute.
pub fn escaped_texts_are_plain()
    ensures { (bytes : List ℕ) → AllByRecursion (λ (b : ℕ). (b ≢ 60) × (b ≢ 62) × (b ≢ 34))
        (escaped bytes) }
{}

/// Marks leave the text as it is: where no calls are shown, the lines of a file are what stands
/// between its tags.
pub fn marks_are_tags()
    ensures { (names : List (List ℕ)) (messages : List About) (file : ℕ) (text : List ℕ)
        → file < 2 ^ 32 → length text ≤ max_bytes
        → untagged false (lines_text names messages [] file text) ≡ plain_lines text }
{}

/// In the file `f();` a message is about the `(`, and a call leads from there to the `f` of another
/// file: the link, with the file that it leads to, stands in front of the mark, which ends behind
/// the `(`. What is found there stands once on hover, and once in the list. In the file of the
/// lines `a.bc` and `d` a message is about the `.`: the mark ends with the line. A message of
/// another file marks nothing.
pub fn examples_of_pages()
    ensures call { let message : About = record {
      level = Certain;
      rule = NotAFunction;
      spot = Some (spot_at 0 (place_at 1 2));
      text = codes "call of the string \"<\"";
      calls = [];
    } in
        let call : Call = record {
          from = spot_at 0 (place_at 1 2);
          to = spot_at 1 (place_at 7 1);
        } in
        lines_text (codes "a" ∷ codes "b" ∷ []) (message ∷ []) (call ∷ []) 0 (codes "f();")
        ≡ codes "<li id=\"F0L1\"><code>f<sup><a href=\"#F1L7\">b:7:1</a></sup>"
        ++ codes "<mark class=\"certain\" title=\"call of the string &quot;&lt;&quot;\">("
        ++ codes "</mark>);</code></li>\n" }
    ensures item { let message : About = record {
      level = Certain;
      rule = NotAFunction;
      spot = Some (spot_at 0 (place_at 1 2));
      text = codes "call of the string \"<\"";
      calls = [];
    } in
        message_item (codes "a" ∷ []) message
        ≡ codes "<li class=\"certain\"><a href=\"#F0L1\">a:1:2</a> "
        ++ codes "call of the string &quot;&lt;&quot;</li>\n" }
    ensures heading { heading (codes "tajs-lint") (codes "a" ∷ codes "<b>" ∷ [])
        ≡ codes "a, &lt;b&gt; - tajs-lint" }
    ensures property { let message : About = record {
      level = Possible;
      rule = NoObject;
      spot = Some (spot_at 1 (place_at 1 2));
      text = codes "property of null";
      calls = [];
    } in
        lines_text [] (message ∷ []) [] 1 (codes "a.bc\nd")
        ≡ codes "<li id=\"F1L1\"><code>a"
        ++ codes "<mark class=\"possible\" title=\"property of null\">.bc</mark></code></li>\n"
        ++ codes "<li id=\"F1L2\"><code>d</code></li>\n" }
    ensures elsewhere { let message : About = record {
      level = Possible;
      rule = NoObject;
      spot = Some (spot_at 1 (place_at 1 1));
      text = codes "property of null";
      calls = [];
    } in
        lines_text [] (message ∷ []) [] 0 (codes "a")
        ≡ codes "<li id=\"F0L1\"><code>a</code></li>\n" }
{}
