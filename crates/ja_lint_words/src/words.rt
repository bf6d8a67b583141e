//! What the words of a call ask for.

ghost use Rattle.std.specs.Prelude.{◌≡◌, IfOk, map, option_map};
ghost use Rattle.std.specs.String.{string_bytes};
ghost use Rattle.ja_lint_words.specs.Words.{AsksFor, asked_of};
ghost use Rattle.ja_lint_words.specs.code.Answers.{IsClapAnswer};

use crate::app::lint;
use crate::reading::words_of;
use clap::ArgMatches;
use clap::error::ErrorKind;
use ja_base::Memory;
use std::alloc::Global;

/// What the words of a call ask for.
#[derive(Debug, Drop)]
pub struct Words<'a> {
    /// The values of each `--device`, in their order.
    pub devices: Vec<&'a str>,
    /// The value of `--format`.
    pub format: Option<&'a str>,
    /// Whether `--rows` is there.
    pub rows: bool,
    /// Whether `--help` is there.
    pub help: bool,
    /// Whether `--version` is there.
    pub version: bool,
    /// The names of the files, in their order.
    pub files: Vec<&'a str>,
}

// The matches of the words, or `None` where clap refuses them.
fn matches_of<'a>(alloc: Global, words: &'a [String]) -> Result<Option<ArgMatches<'a>>, Memory>
    ensures { IfOk result (IsClapAnswer (map string_bytes words.now)) }
{
    let command = lint(alloc)?;
    match command.try_get_matches_from(words) {
        Ok(matches) => Ok(Some(matches)),
        Err(error) => match error.kind() {
            ErrorKind::OutOfMemory => Err(Memory),
            _ => Ok(None),
        },
    }
}

/// What the words ask for, if they are a command line (`IsCommandLine`), and `None` exactly where
/// they are none. The words are those behind the program's name.
///
/// A command line is options, flags and files in any order, and maybe `--` behind them with more
/// files:
///
/// - `--device VALUE`, any number of times, and `--format VALUE`, at most once. VALUE is the next
///   word, or follows `=` in the same word. As the next word it may be `-`, but else it doesn't
///   begin with a hyphen, so `--device -x` and `--device --` are refused; behind `=` it is any
///   text. It may be empty in both forms. What it says isn't looked at here.
/// - `--rows`, `--help` and `--version`, each at most once and without a value.
/// - A file's name: a word that doesn't begin with a hyphen, or `-` itself. It may be empty. Behind
///   the first `--` each word is a file's name, whatever it begins with, another `--` too.
///
/// An option's name is written out; there are no short options.
///
/// `Err` comes only where memory is refused.
pub fn asked<'a>(alloc: Global, words: &'a [String]) -> Result<Option<Words<'a>>, Memory>
    ensures { IfOk result (λ answer. AsksFor (map string_bytes words.now)
        (option_map asked_of answer)) }
{
    match matches_of(alloc, words) {
        Ok(Some(matches)) => match words_of(alloc, &matches) {
            Ok(words) => Ok(Some(words)),
            Err(_) => Err(Memory),
        },
        Ok(None) => Ok(None),
        Err(Memory) => Err(Memory),
    }
}
