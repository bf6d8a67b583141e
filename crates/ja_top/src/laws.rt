//! What the refusals' texts come to, and what no answer is. The functions do nothing; their
//! contracts are the laws.

ghost use Rattle.std.specs.Prelude.{◌≡◌, ◌++◌, List, ℕ};
ghost use Rattle.std.specs.Fmt.{decimal};
ghost use lib.Chars.{codes};
ghost use Rattle.ja_grammar.specs.Language.{max_levels};
ghost use Rattle.ja_lex.specs.Spots.{max_bytes};
ghost use Rattle.ja_lower.specs.Limits.{max_functions, max_size};
ghost use Rattle.ja_report.specs.Refusals.{refusal_text};
ghost use Rattle.ja_report.specs.declared.refusals.Refusal.TheVariants as refusal;
ghost use Rattle.ja_top.specs.Answers.{Asks, Call, HasCause, IsAnswered, IsByHeight, Written};
ghost use Rattle.ja_top.specs.Complete.{HasAll, HasRun, IsComplete, IsRunOut};
ghost use Rattle.ja_top.specs.declared.status.Status.{Status};
ghost use Rattle.ja_top.specs.declared.status.Status.TheVariants.{Spent};
ghost use Rattle.ja_words.specs.declared.command.Command.{Command};

/// The limits that refusals tell are those that texts are held to.
pub fn limits_are_told()
    ensures bytes { refusal_text refusal.TooLong ≡ codes "too long " ++ decimal max_bytes
        ++ codes "\n" }
    ensures levels { refusal_text refusal.Depth ≡ codes "limit depth " ++ decimal max_levels
        ++ codes "\n" }
    ensures functions { refusal_text refusal.Functions
        ≡ codes "limit functions " ++ decimal max_functions ++ codes "\n" }
    ensures nodes { refusal_text refusal.Nodes ≡ codes "limit nodes " ++ decimal max_size
        ++ codes "\n" }
{}

/// Where the budget is the height of the program, that it is spent has no cause.
pub fn heights_are_never_spent()
    ensures { (c : Call) (asked : Command) (text : List ℕ) → Asks c.words asked
        → IsByHeight asked → HasCause c Spent text → ⊥ }
{}

/// A call that is asked for something of a text that has a program is complete, where neither the
/// source nor the sink fails. An analysis whose budget is at least the height of the program
/// answers with the result, or for want of memory; a run in which no device fails with its end or
/// that all of its steps were made, or for want of memory.
pub fn answers_are_complete()
    ensures analyses { (c : Call) (w : Written) (status : Status) → HasAll c w
        → IsAnswered c w status → IsComplete status }
    ensures runs { (c : Call) (w : Written) (status : Status) → HasRun c w
        → IsAnswered c w status → IsRunOut status }
{}
