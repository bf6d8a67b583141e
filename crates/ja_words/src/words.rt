//! What the words of a call ask for.

ghost use Rattle.std.specs.Prelude.{◌≡◌, IfOk, map};
ghost use Rattle.std.specs.List.{list_any};
ghost use Rattle.std.specs.String.{string_bytes};
ghost use Rattle.ja_words.specs.Words.{AsksFor};
ghost use Rattle.ja_words.specs.code.Answers.{IsClapAnswer};
ghost use Rattle.ja_words.specs.code.Apps.{is_dashes};

use crate::app::tajs;
use crate::command::Command;
use crate::reading::command_of;
use clap::ArgMatches;
use clap::error::ErrorKind;
use ja_base::Memory;
use std::alloc::Global;

// Whether one of the words is `--`, which clap would pass over.
fn has_double_hyphen(words: &[String]) -> bool
    ensures { result ≡ list_any (λ word. is_dashes (string_bytes word)) words.now }
{
    words.iter().any(|word| word.as_str() == "--")
}

// The matches of the words, or `None` where clap refuses them.
fn matches_of<'a>(alloc: Global, words: &'a [String]) -> Result<Option<ArgMatches<'a>>, Memory>
    ensures { IfOk result (IsClapAnswer (map string_bytes words.now)) }
{
    let command = tajs(alloc)?;
    match command.try_get_matches_from(words) {
        Ok(matches) => Ok(Some(matches)),
        Err(error) => match error.kind() {
            ErrorKind::OutOfMemory => Err(Memory),
            _ => Ok(None),
        },
    }
}

/// What the words ask for: the command whose command line they are (`IsCommandLine`), and `None`
/// exactly where they are no command line. The words are those behind the program's name.
///
/// A command line is one of the words `analyse`, `check`, `run` and `generate`, and options of that
/// command in any order, each at most once: `--cert` and `--budget N` of `analyse`, `--steps N` of
/// `run`, and `--number N` of `generate`, which is always there. N is the next word, or follows `=`
/// in the same word; it is in decimal digits without a zero before them, for `--budget` from 1 to
/// 2^128 - 1, for `--steps` from 1 to 10,000,000, for `--number` from 1 to 200. That of `--budget`
/// may be the word `height` instead. The first two are 1,000,000 where they aren't given. No help
/// is offered, and no text about the version.
///
/// `Err` comes only where memory is refused.
pub fn asked(alloc: Global, words: &[String]) -> Result<Option<Command>, Memory>
    ensures { IfOk result (AsksFor (map string_bytes words.now)) }
{
    if has_double_hyphen(words) {
        return Ok(None);
    }
    match matches_of(alloc, words) {
        Ok(Some(matches)) => Ok(command_of(&matches)),
        Ok(None) => Ok(None),
        Err(Memory) => Err(Memory),
    }
}
