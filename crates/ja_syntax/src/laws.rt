//! What the tables of words and punctuators come to. The function does nothing; its contract is the
//! law.
ghost use Rattle.std.specs.Prelude.{◌≡◌, ◌++◌, true};
ghost use Rattle.ja_lex.specs.Marks.{marks};
ghost use Rattle.ja_syntax.specs.declared.symbol.Symbol.{Symbol};
ghost use Rattle.ja_syntax.specs.Spelling.{texts, are_distinct, spellings, expected_spellings};
ghost use Rattle.ja_syntax.specs.Symbols.{keywords, refused_words, punctuators};

/// The punctuators of the grammar are the marks that are read (ES3 7.7). Each symbol that isn't a
/// name, a literal number or string, the end or unknown is that of one keyword or punctuator alone.
/// No word is told twice, and no mark.
pub fn symbols_are_spelt()
    ensures marks { texts punctuators ≡ marks }
    ensures once { (s : Symbol) → spellings s ≡ expected_spellings s }
    ensures words { are_distinct (texts keywords ++ texts refused_words) ≡ true }
    ensures distinct { are_distinct marks ≡ true }
{}
