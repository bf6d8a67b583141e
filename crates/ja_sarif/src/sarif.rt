//! The whole of a log.

ghost use Rattle.std.specs.Prelude.{◌≡◌, IfOk, false, map};
ghost use Rattle.serde_json.specs.View.{view};
ghost use Rattle.serde_json.specs.Written.{has_float};
ghost use Rattle.ja_files.specs.Files.{characters_of};
ghost use Rattle.ja_files.specs.Lines.{lines_of};
ghost use Rattle.ja_sarif.specs.Sarif as spec;

use crate::results::{results, words};
use crate::rules::{empty, level_name, rules};
use crate::uris::uris_of;
use ja_base::Memory;
use ja_files::File;
use ja_show::{Level, Message, sources_of, texts_of};
use serde_json::{Value, json, push, put};
use std::alloc::Global;

// The level of what is said at the end.
fn ending_level(answered: bool) -> Level
    ensures { result ≡ spec.ending_level answered }
{
    if answered { Level::Note } else { Level::Error }
}

// What is said at the end.
#[tactic(auto, unfolding(crate::specs::Sarif::notification_data))]
fn notification(alloc: Global, answered: bool, ending: &[u8]) -> Result<Value, Memory>
    ensures { IfOk result (λ v. view v ≡ spec.notification_data answered ending.now) }
{
    let level = Value::try_from_str(alloc, level_name(ending_level(answered)))?;
    let words = words(alloc, ending)?;
    let mut notification = empty(alloc);
    put(&mut notification, alloc, "level", level)?;
    put(&mut notification, alloc, "message", words)?;
    Ok(Value::Object(notification))
}

// Whether there is an answer, and what is said at its end.
#[tactic(auto, unfolding(crate::specs::Sarif::invocation_data))]
fn invocation(alloc: Global, answered: bool, ending: &[u8]) -> Result<Value, Memory>
    ensures { IfOk result (λ v. view v ≡ spec.invocation_data answered ending.now) }
{
    let mut notifications = Vec::new(alloc);
    push(&mut notifications, notification(alloc, answered, ending)?)?;
    let mut invocation = empty(alloc);
    put(
        &mut invocation,
        alloc,
        "executionSuccessful",
        Value::from(answered),
    )?;
    put(
        &mut invocation,
        alloc,
        "toolExecutionNotifications",
        Value::from(notifications),
    )?;
    Ok(Value::Object(invocation))
}

// The tool.
#[tactic(auto, unfolding(crate::specs::Sarif::tool_data))]
fn tool(alloc: Global, version: &str) -> Result<Value, Memory>
    ensures { IfOk result (λ v. view v ≡ spec.tool_data version.now) }
{
    let rules = rules(alloc)?;
    Ok(json!(in alloc; {"driver": {"name": "tajs-lint", "rules": rules, "version": version}})?)
}

// The results of messages about files.
fn results_of(alloc: Global, files: &[File<'_>], messages: &[Message]) -> Result<Value, Memory>
    ensures { IfOk result (λ v. view v ≡ spec.listed (map (spec.result_data
        (map spec.uri_of (map (λ file. file.name.now) files.now))
        (map lines_of (map characters_of files.now))) messages.now)) }
{
    let uris = uris_of(alloc, files)?;
    let texts = texts_of(alloc, files)?;
    let sources = sources_of(alloc, &texts)?;
    results(alloc, &uris, &sources, messages)
}

// The run.
#[tactic(auto, unfolding(crate::specs::Sarif::run_data))]
fn run(
    alloc: Global,
    version: &str,
    files: &[File<'_>],
    messages: &[Message],
    answered: bool,
    ending: &[u8],
) -> Result<Value, Memory>
    ensures { IfOk result (λ v. view v ≡ spec.run_data version.now
        (map (λ file. file.name.now) files.now) (map characters_of files.now) messages.now
        answered ending.now) }
{
    let kind = Value::try_from_str(alloc, "utf16CodeUnits")?;
    let mut invocations = Vec::new(alloc);
    push(&mut invocations, invocation(alloc, answered, ending)?)?;
    let results = results_of(alloc, files, messages)?;
    let tool = tool(alloc, version)?;
    let mut run = empty(alloc);
    put(&mut run, alloc, "columnKind", kind)?;
    put(&mut run, alloc, "invocations", Value::from(invocations))?;
    put(&mut run, alloc, "results", results)?;
    put(&mut run, alloc, "tool", tool)?;
    Ok(Value::Object(run))
}

// The log of a run.
#[tactic(auto, unfolding(crate::specs::Sarif::log_data))]
fn log(alloc: Global, run: Value) -> Result<Value, Memory>
    ensures { IfOk result (λ v. view v ≡ spec.log_data (view run)) }
{
    let schema =
        "https://docs.oasis-open.org/sarif/sarif/v2.1.0/errata01/os/schemas/sarif-schema-2.1.0.json";
    Ok(json!(in alloc; {"$schema": schema, "runs": [run], "version": "2.1.0"})?)
}

/// The messages about files as SARIF 2.1.0: one JSON object on a line, with one run of `tajs-lint`
/// of this version, and a result for each message, in their order. A result has the message's rule,
/// its level (`error` for an error and a certain fault, `warning` for a possible one, `note`), its
/// words, and the place where it stands: the file's name as a relative URI reference, the line, and
/// the column in units of UTF-16, each from 1. The other calls that lead to what it is about are
/// related locations. `answered` says whether the files were analysed, and `ending` what is said at
/// the end. `Memory` comes where memory was refused.
pub fn sarif_text(
    alloc: Global,
    version: &str,
    files: &[File<'_>],
    messages: &[Message],
    answered: bool,
    ending: &[u8],
) -> Result<Vec<u8>, Memory>
    ensures { IfOk result (λ out. out.items ≡ spec.sarif_text version.now
        (map (λ file. file.name.now) files.now) (map characters_of files.now) messages.now
        answered ending.now) }
{
    let run = run(alloc, version, files, messages, answered, ending)?;
    let log = log(alloc, run)?;
    let mut out = log.to_vec(alloc)?;
    out.push(b'\n')?;
    Ok(out)
}
