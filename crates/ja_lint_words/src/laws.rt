//! What the definition of a command line comes to. The functions do nothing; their contracts are
//! the laws.

ghost use Rattle.std.specs.Prelude.{◌≡◌, ◌∷◌, [], List, true, codes, Some, None};
ghost use Rattle.ja_lint_words.specs.Words.{Asked, AsksFor, IsCommandLine, Word, nothing};

/// Words ask for one thing at most.
pub fn words_ask_for_one_thing()
    ensures { (words : List Word) (a b : Asked) → IsCommandLine words a → IsCommandLine words b
        → a ≡ b }
{}

/// Whatever can be asked for has a command line: any devices and files, with or without a format,
/// and any flags.
pub fn everything_has_words()
    ensures { (asked : Asked) → (words : List Word) × IsCommandLine words asked }
{}

/// `--device a --rows x.js --device=b=null|string y.js` asks for the devices `a` and
/// `b=null|string`, the rows, and the files `x.js` and `y.js`. No words ask for nothing.
/// `--format html` and `--format=html` ask for the format `html`, `--format=` for an empty one.
/// `--rows --rows`, `--format a --format=b`, `--rows=1`, `--other`, `-r` and `--format` without a
/// value are no command lines.
pub fn examples_of_words()
    ensures mixed { AsksFor (codes "--device" ∷ codes "a" ∷ codes "--rows" ∷ codes "x.js"
        ∷ codes "--device=b=null|string" ∷ codes "y.js" ∷ [])
        (Some (record nothing {
          devices = codes "a" ∷ codes "b=null|string" ∷ [];
          rows = true;
          files = codes "x.js" ∷ codes "y.js" ∷ [];
        })) }
    ensures no_words { AsksFor [] (Some nothing) }
    ensures apart { AsksFor (codes "--format" ∷ codes "html" ∷ [])
        (Some (record nothing { format = Some (codes "html") })) }
    ensures attached { AsksFor (codes "--format=html" ∷ [])
        (Some (record nothing { format = Some (codes "html") })) }
    ensures of_no_bytes { AsksFor (codes "--format=" ∷ [])
        (Some (record nothing { format = Some [] })) }
    ensures flag_twice { AsksFor (codes "--rows" ∷ codes "--rows" ∷ []) None }
    ensures format_twice { AsksFor
        (codes "--format" ∷ codes "a" ∷ codes "--format=b" ∷ []) None }
    ensures flag_with_value { AsksFor (codes "--rows=1" ∷ []) None }
    ensures other { AsksFor (codes "--other" ∷ []) None }
    ensures short { AsksFor (codes "-r" ∷ []) None }
    ensures no_value { AsksFor (codes "--format" ∷ []) None }
{}

/// `--device -` asks for the device `-`, and `--device=-x` for `-x`. `--device` without a value,
/// `--device -x` and `--device --` are no command lines, with or without a word behind them.
pub fn examples_of_devices()
    ensures hyphen { AsksFor (codes "--device" ∷ codes "-" ∷ [])
        (Some (record nothing { devices = codes "-" ∷ [] })) }
    ensures attached { AsksFor (codes "--device=-x" ∷ [])
        (Some (record nothing { devices = codes "-x" ∷ [] })) }
    ensures no_value { AsksFor (codes "--device" ∷ []) None }
    ensures option { AsksFor (codes "--device" ∷ codes "-x" ∷ []) None }
    ensures dashes { AsksFor (codes "--device" ∷ codes "--" ∷ []) None }
    ensures behind_dashes { AsksFor (codes "--device" ∷ codes "--" ∷ codes "a" ∷ []) None }
{}

/// `-` and the empty word are files. `--` alone asks for nothing; `-- --rows` asks for the file
/// `--rows`, and `a -- --` for the files `a` and `--`.
pub fn examples_of_files()
    ensures hyphen { AsksFor (codes "-" ∷ []) (Some (record nothing { files = codes "-" ∷ [] })) }
    ensures of_no_bytes { AsksFor ([] ∷ []) (Some (record nothing { files = [] ∷ [] })) }
    ensures dashes { AsksFor (codes "--" ∷ []) (Some nothing) }
    ensures behind_dashes { AsksFor (codes "--" ∷ codes "--rows" ∷ [])
        (Some (record nothing { files = codes "--rows" ∷ [] })) }
    ensures dashes_twice { AsksFor (codes "a" ∷ codes "--" ∷ codes "--" ∷ [])
        (Some (record nothing { files = codes "a" ∷ codes "--" ∷ [] })) }
{}
