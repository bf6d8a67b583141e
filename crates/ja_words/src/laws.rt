//! What the definition of a command line comes to. The functions do nothing; their contracts are
//! the laws.

ghost use Rattle.std.specs.Prelude.{◌≡◌, ◌≤◌, ◌∷◌, [], List, ℕ, Bool, true, false, codes};
ghost use Rattle.std.specs.Prelude.{Some, None};
ghost use Rattle.ja_gen.specs.Generated.{max_number};
ghost use Rattle.ja_words.specs.Words.{AsksFor, IsCommandLine, Word, max_budget};
ghost use Rattle.ja_words.specs.Words.{max_steps};
ghost use Rattle.ja_words.specs.declared.command.Budget.TheVariants.{Height, Visits};
ghost use Rattle.ja_words.specs.declared.command.Command.{Command};
ghost use Rattle.ja_words.specs.declared.command.Command.TheVariants.{Analyse, Check, Generate};
ghost use Rattle.ja_words.specs.declared.command.Command.TheVariants.{Run};

/// Words ask for one command at most.
pub fn words_ask_for_one_command()
    ensures { (words : List Word) (a b : Command) → IsCommandLine words a → IsCommandLine words b
        → a ≡ b }
{}

/// Each command has a command line, where its number is in range.
pub fn commands_have_words()
    ensures analyse { (cert : Bool) (budget : ℕ) → 1 ≤ budget → budget ≤ max_budget
        → (words : List Word) × IsCommandLine words (Analyse cert (Visits budget)) }
    ensures height { (cert : Bool)
        → (words : List Word) × IsCommandLine words (Analyse cert Height) }
    ensures check { (words : List Word) × IsCommandLine words Check }
    ensures run { (steps : ℕ) → 1 ≤ steps → steps ≤ max_steps
        → (words : List Word) × IsCommandLine words (Run steps) }
    ensures generate { (number : ℕ) → 1 ≤ number → number ≤ max_number
        → (words : List Word) × IsCommandLine words (Generate number) }
{}

/// `analyse --budget=5 --cert` and `analyse --cert --budget 5` ask for a certificate and a budget
/// of 5, `analyse` for neither, `analyse --budget height` and `analyse --budget=height` for the
/// program's height, and `run --steps 7` for 7 steps. `run --steps 07`, `run --steps 0`,
/// `run --steps height`, `analyse --cert --cert` and `check --cert` ask for nothing.
pub fn examples_of_words()
    ensures attached { AsksFor (codes "analyse" ∷ codes "--budget=5" ∷ codes "--cert" ∷ [])
        (Some (Analyse true (Visits 5))) }
    ensures apart { AsksFor
        (codes "analyse" ∷ codes "--cert" ∷ codes "--budget" ∷ codes "5" ∷ [])
        (Some (Analyse true (Visits 5))) }
    ensures alone { AsksFor (codes "analyse" ∷ []) (Some (Analyse false (Visits 1000000))) }
    ensures height { AsksFor (codes "analyse" ∷ codes "--budget" ∷ codes "height" ∷ [])
        (Some (Analyse false Height)) }
    ensures height_attached { AsksFor (codes "analyse" ∷ codes "--budget=height" ∷ [])
        (Some (Analyse false Height)) }
    ensures steps { AsksFor (codes "run" ∷ codes "--steps" ∷ codes "7" ∷ []) (Some (Run 7)) }
    ensures leading_zero { AsksFor (codes "run" ∷ codes "--steps" ∷ codes "07" ∷ []) None }
    ensures zero { AsksFor (codes "run" ∷ codes "--steps" ∷ codes "0" ∷ []) None }
    ensures height_of_steps { AsksFor (codes "run" ∷ codes "--steps" ∷ codes "height" ∷ []) None }
    ensures twice { AsksFor (codes "analyse" ∷ codes "--cert" ∷ codes "--cert" ∷ []) None }
    ensures of_another { AsksFor (codes "check" ∷ codes "--cert" ∷ []) None }
{}

/// `generate --number 3` and `generate --number=200` ask for programs of 3 and of 200 classes.
/// Without the option, its name or its number, with 0, 201 or 01, with the option twice, with an
/// option of another command, or with `--`, words that begin with `generate` ask for nothing.
pub fn examples_of_numbers()
    ensures apart { AsksFor (codes "generate" ∷ codes "--number" ∷ codes "3" ∷ [])
        (Some (Generate 3)) }
    ensures attached { AsksFor (codes "generate" ∷ codes "--number=200" ∷ [])
        (Some (Generate 200)) }
    ensures alone { AsksFor (codes "generate" ∷ []) None }
    ensures unnamed { AsksFor (codes "generate" ∷ codes "3" ∷ []) None }
    ensures no_value { AsksFor (codes "generate" ∷ codes "--number" ∷ []) None }
    ensures zero { AsksFor (codes "generate" ∷ codes "--number" ∷ codes "0" ∷ []) None }
    ensures past { AsksFor (codes "generate" ∷ codes "--number" ∷ codes "201" ∷ []) None }
    ensures leading_zero { AsksFor (codes "generate" ∷ codes "--number" ∷ codes "01" ∷ []) None }
    ensures twice { AsksFor (codes "generate" ∷ codes "--number" ∷ codes "1" ∷ codes "--number"
        ∷ codes "1" ∷ []) None }
    ensures of_another { AsksFor (codes "generate" ∷ codes "--cert" ∷ codes "--number" ∷ codes "1"
        ∷ []) None }
    ensures hyphens { AsksFor (codes "generate" ∷ codes "--" ∷ codes "--number" ∷ codes "1" ∷ [])
        None }
{}
