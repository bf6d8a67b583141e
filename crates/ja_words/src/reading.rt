//! The command that clap's matches say.

ghost use Rattle.std.specs.Prelude.{◌≡◌, option_map};
ghost use Rattle.clap.specs.Words.{found_of, rows_of, subcommand_rows_of};
ghost use Rattle.ja_words.specs.code.Answers.{ReadsAnalyse, ReadsBudget, ReadsCommand, ReadsGenerate};
ghost use Rattle.ja_words.specs.code.Answers.{ReadsNamed, ReadsRun};

use crate::command::{Budget, Command};
use crate::numbers::{number_in, number_of};
use clap::ArgMatches;

/// How many visits are made at most, where the words don't say it.
pub const DEFAULT_BUDGET: u128 = 1_000_000;

/// The greatest number of visits that the words may say.
const MAX_BUDGET: u128 = u128::MAX;

/// The same of the steps of a run.
const DEFAULT_STEPS: u128 = 1_000_000;

const MAX_STEPS: u128 = 10_000_000;

/// The greatest number of classes of a generated program.
const MAX_NUMBER: u128 = 200;

// The budget that is meant by the value that was given, if any. `None` where the value is neither a
// number of visits nor the word `height`.
fn budget_of(value: Option<&str>) -> Option<Budget>
    ensures { ReadsBudget (option_map (λ word. word.now) value.entry) result }
{
    match value {
        Some("height") => Some(Budget::Height),
        _ => {
            let visits = number_of(value, DEFAULT_BUDGET, MAX_BUDGET)?;
            Some(Budget::Visits(visits))
        }
    }
}

// The analysis with these options.
fn analyse(options: &ArgMatches<'_>) -> Option<Command>
    ensures { ReadsAnalyse (rows_of (found_of options.now)) result }
{
    let budget = budget_of(options.get_str("budget"))?;
    let cert = options.get_flag("cert");
    Some(Command::Analyse { cert, budget })
}

// The run with these options.
fn run(options: &ArgMatches<'_>) -> Option<Command>
    ensures { ReadsRun (rows_of (found_of options.now)) result }
{
    let steps = number_of(options.get_str("steps"), DEFAULT_STEPS, MAX_STEPS)?;
    Some(Command::Run {
        steps: steps as u64,
    })
}

// The generated program with this option.
fn generate(options: &ArgMatches<'_>) -> Option<Command>
    ensures { ReadsGenerate (rows_of (found_of options.now)) result }
{
    let word = options.get_str("number")?;
    let number = number_in(word, MAX_NUMBER)?;
    Some(Command::Generate {
        number: number as u32,
    })
}

// The command of this name, with these options.
fn named(name: &str, options: &ArgMatches<'_>) -> Option<Command>
    ensures { ReadsNamed name.now (rows_of (found_of options.now)) result }
{
    match name {
        "analyse" => analyse(options),
        "check" => Some(Command::Check),
        "run" => run(options),
        "generate" => generate(options),
        _ => None,
    }
}

/// The command that the matches say, unless they name none, or a value is no number of its option.
pub(crate) fn command_of(matches: &ArgMatches<'_>) -> Option<Command>
    ensures { ReadsCommand (subcommand_rows_of matches.now) result }
{
    match matches.subcommand() {
        Some((name, options)) => named(name, options),
        None => None,
    }
}
