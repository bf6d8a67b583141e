//! The command line, as clap is told of it.

ghost use Rattle.std.specs.Prelude.{◌≡◌, IfOk, false};
ghost use Rattle.clap.specs.Words.{rule_of};
ghost use Rattle.ja_lint_words.specs.code.App.{IsApp, flag_rule, lint_app, list_rule, named_app};
ghost use Rattle.ja_lint_words.specs.code.App.{option_rule};

use clap::{Arg, ArgAction, Command};
use std::alloc::{AllocError, Global};

// The flag `--name`.
fn flag<'a>(alloc: Global, name: &'a str) -> Arg<'a>
    ensures { (rule_of result ≡ flag_rule name.entry.now) × (result.global ≡ false) }
{
    Arg::new(alloc, name).long(name).action(ArgAction::SetTrue)
}

// The option `--name`, which takes a value.
fn option<'a>(alloc: Global, name: &'a str, action: ArgAction) -> Arg<'a>
    ensures { (rule_of result ≡ option_rule name.entry.now action) × (result.global ≡ false) }
{
    Arg::new(alloc, name).long(name).action(action)
}

// The words that are no options.
fn list<'a>(alloc: Global, name: &'a str) -> Arg<'a>
    ensures { (rule_of result ≡ list_rule name.entry.now) × (result.global ≡ false) }
{
    Arg::new(alloc, name).action(ArgAction::Append)
}

// The program without its options: the words begin behind its name, and no help is offered.
fn named<'a>(alloc: Global) -> Command<'a>
    ensures { IsApp named_app result }
{
    Command::new(alloc, "tajs-lint")
        .no_binary_name(true)
        .disable_help_flag(true)
        .disable_help_subcommand(true)
        .disable_version_flag(true)
}

/// The program with its options and its files.
pub(crate) fn lint<'a>(alloc: Global) -> Result<Command<'a>, AllocError>
    ensures { IfOk result (IsApp lint_app) }
{
    named(alloc)
        .arg(option(alloc, "device", ArgAction::Append))?
        .arg(option(alloc, "format", ArgAction::Set))?
        .arg(flag(alloc, "rows"))?
        .arg(flag(alloc, "help"))?
        .arg(flag(alloc, "version"))?
        .arg(list(alloc, "file"))
}
