//! The command line, as clap is told of it.

ghost use Rattle.std.specs.Prelude.{◌≡◌, IfOk, false};
ghost use Rattle.clap.specs.Words.{rule_of};
ghost use Rattle.ja_words.specs.code.Apps.{IsApp, analyse_app, check_app, flag_rule, generate_app};
ghost use Rattle.ja_words.specs.code.Apps.{run_app, tajs_app, top_app, value_rule};

use clap::{Arg, ArgAction, Command};
use std::alloc::{AllocError, Global};

// The flag `--name`.
fn flag<'a>(alloc: Global, name: &'a str) -> Arg<'a>
    ensures { (rule_of result ≡ flag_rule name.entry.now) × (result.global ≡ false) }
{
    Arg::new(alloc, name).long(name).action(ArgAction::SetTrue)
}

// The option `--name`, which takes a value.
fn option<'a>(alloc: Global, name: &'a str) -> Arg<'a>
    ensures { (rule_of result ≡ value_rule name.entry.now) × (result.global ≡ false) }
{
    Arg::new(alloc, name).long(name).action(ArgAction::Set)
}

fn analyse<'a>(alloc: Global) -> Result<Command<'a>, AllocError>
    ensures { IfOk result (IsApp analyse_app) }
{
    Command::new(alloc, "analyse")
        .arg(flag(alloc, "cert"))?
        .arg(option(alloc, "budget"))
}

fn check<'a>(alloc: Global) -> Command<'a>
    ensures { IsApp check_app result }
{
    Command::new(alloc, "check")
}

fn run<'a>(alloc: Global) -> Result<Command<'a>, AllocError>
    ensures { IfOk result (IsApp run_app) }
{
    Command::new(alloc, "run").arg(option(alloc, "steps"))
}

fn generate<'a>(alloc: Global) -> Result<Command<'a>, AllocError>
    ensures { IfOk result (IsApp generate_app) }
{
    Command::new(alloc, "generate").arg(option(alloc, "number").required(true))
}

// The program without its commands: the words begin behind its name, and no help is offered.
fn top<'a>(alloc: Global) -> Command<'a>
    ensures { IsApp top_app result }
{
    Command::new(alloc, "tajs")
        .no_binary_name(true)
        .disable_help_flag(true)
        .disable_help_subcommand(true)
}

/// The program with its commands.
pub(crate) fn tajs<'a>(alloc: Global) -> Result<Command<'a>, AllocError>
    ensures { IfOk result (IsApp tajs_app) }
{
    top(alloc)
        .subcommand(analyse(alloc)?)?
        .subcommand(check(alloc))?
        .subcommand(run(alloc)?)?
        .subcommand(generate(alloc)?)
}
