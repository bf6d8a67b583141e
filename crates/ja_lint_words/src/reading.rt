//! What clap's matches say.

ghost use Rattle.std.specs.Prelude.{◌≡◌, IfOk};
ghost use Rattle.clap.specs.Words.{found_of, rows_of};
ghost use Rattle.ja_lint_words.specs.Words.{asked_of, texts};
ghost use Rattle.ja_lint_words.specs.code.Answers.{Says, values_of};

use crate::words::Words;
use clap::ArgMatches;
use std::alloc::{AllocError, Global};

// All values of an argument.
fn values<'a>(
    alloc: Global,
    matches: &ArgMatches<'a>,
    name: &str,
) -> Result<Vec<&'a str>, AllocError>
    ensures { IfOk result (λ values. texts values.items
        ≡ values_of name.now (rows_of (found_of matches.now))) }
{
    match matches.get_strs(name) {
        Some(values) => Vec::from_slice(alloc, values),
        None => Ok(Vec::new(alloc)),
    }
}

/// What the matches say that the words ask for.
pub(crate) fn words_of<'a>(alloc: Global, matches: &ArgMatches<'a>) -> Result<Words<'a>, AllocError>
    ensures { IfOk result (λ words. Says (rows_of (found_of matches.now)) (asked_of words)) }
{
    let devices = values(alloc, matches, "device")?;
    let files = values(alloc, matches, "file")?;
    Ok(Words {
        devices,
        format: matches.get_str("format"),
        rows: matches.get_flag("rows"),
        help: matches.get_flag("help"),
        version: matches.get_flag("version"),
        files,
    })
}
