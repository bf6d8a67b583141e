//! Rules and levels.

ghost use Rattle.std.specs.Prelude.{◌≡◌, IfOk, map};
ghost use Rattle.serde_json.specs.Data.{no_members};
ghost use Rattle.serde_json.specs.View.{members_view, view};
ghost use Rattle.ja_sarif.specs.Sarif as spec;

use ja_base::Memory;
use ja_show::{Level, Rule};
use serde_json::{Map, Value, json, push, put};
use std::alloc::Global;

/// An object without members.
pub(crate) fn empty(alloc: Global) -> Map<String, Value>
    ensures { members_view result.entries ≡ no_members }
{
    Map::new(alloc)
}

/// Words for people.
#[tactic(auto, unfolding(crate::specs::Sarif::text_data))]
pub(crate) fn text(alloc: Global, words: &str) -> Result<Value, Memory>
    ensures { IfOk result (λ v. view v ≡ spec.text_data words.now) }
{
    Ok(json!(in alloc; {"text": words})?)
}

/// The name of a level.
pub(crate) fn level_name(level: Level) -> &'static str
    ensures { result.now ≡ spec.level_name level }
{
    match level {
        Level::Error | Level::Certain => "error",
        Level::Possible => "warning",
        Level::Note => "note",
    }
}

/// The position of a rule among all.
pub(crate) fn index_of(rule: Rule) -> u32
    ensures { result ≡ spec.index_of rule }
{
    match rule {
        Rule::NotAFunction => 0,
        Rule::NoObject => 1,
        Rule::UnboundName => 2,
        Rule::Unknown => 3,
        Rule::Refused => 4,
    }
}

/// The name of a rule.
pub(crate) fn id_of(rule: Rule) -> &'static str
    ensures { result.now ≡ spec.id_of rule }
{
    match rule {
        Rule::NotAFunction => "not-a-function",
        Rule::NoObject => "no-object",
        Rule::UnboundName => "unbound-name",
        Rule::Unknown => "unknown",
        Rule::Refused => "refused",
    }
}

// What a rule is about.
fn title_of(rule: Rule) -> &'static str
    ensures { result.now ≡ spec.title_of rule }
{
    match rule {
        Rule::NotAFunction => "Call of what is no function",
        Rule::NoObject => "Property of undefined or null",
        Rule::UnboundName => "Name that is bound nowhere",
        Rule::Unknown => "Read of what isn't known to this tool",
        Rule::Refused => "Text that isn't analysed",
    }
}

// What a rule means.
fn help_of(rule: Rule) -> &'static str
    ensures { result.now ≡ spec.help_of rule }
{
    match rule {
        Rule::NotAFunction => "To call or construct what is no function throws a TypeError.",
        Rule::NoObject => "To read or set a property of undefined or null throws a TypeError.",
        Rule::UnboundName => "To read a name that nothing binds throws a ReferenceError.",
        Rule::Unknown => "No fault; but what a run does behind this read isn't checked.",
        Rule::Refused => "The text is no program of the language, or is past a limit of this tool.",
    }
}

// The level of a rule's results that have none of their own.
fn usual_level(rule: Rule) -> Level
    ensures { result ≡ spec.usual_level rule }
{
    match rule {
        Rule::Unknown => Level::Note,
        Rule::Refused => Level::Error,
        _ => Level::Possible,
    }
}

// What results of a rule have without a level of their own.
#[tactic(auto, unfolding(crate::specs::Sarif::usual_data))]
fn usual(alloc: Global, rule: Rule) -> Result<Value, Memory>
    ensures { IfOk result (λ v. view v ≡ spec.usual_data rule) }
{
    let level = level_name(usual_level(rule));
    Ok(json!(in alloc; {"level": level})?)
}

// A rule.
#[tactic(auto, unfolding(crate::specs::Sarif::rule_data))]
fn rule_value(alloc: Global, rule: Rule) -> Result<Value, Memory>
    ensures { IfOk result (λ v. view v ≡ spec.rule_data rule) }
{
    let usual = usual(alloc, rule)?;
    let help = text(alloc, help_of(rule))?;
    let title = text(alloc, title_of(rule))?;
    let id = Value::try_from_str(alloc, id_of(rule))?;
    let mut value = empty(alloc);
    put(&mut value, alloc, "defaultConfiguration", usual)?;
    put(&mut value, alloc, "help", help)?;
    put(&mut value, alloc, "id", id)?;
    put(&mut value, alloc, "shortDescription", title)?;
    Ok(Value::Object(value))
}

/// All rules.
pub(crate) fn rules(alloc: Global) -> Result<Value, Memory>
    ensures { IfOk result (λ v. view v ≡ spec.listed (map spec.rule_data spec.rules)) }
{
    let mut rules = Vec::new(alloc);
    push(&mut rules, rule_value(alloc, Rule::NotAFunction)?)?;
    push(&mut rules, rule_value(alloc, Rule::NoObject)?)?;
    push(&mut rules, rule_value(alloc, Rule::UnboundName)?)?;
    push(&mut rules, rule_value(alloc, Rule::Unknown)?)?;
    push(&mut rules, rule_value(alloc, Rule::Refused)?)?;
    Ok(Value::from(rules))
}
