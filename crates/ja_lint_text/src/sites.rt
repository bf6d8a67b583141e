//! The objects of a value, by where they are made.

ghost use Rattle.std.specs.Prelude.{◌≡◌, ◌<◌, ◌^◌, ◌++◌, IfOk, OnOk, length};
ghost use Rattle.std.specs.Option.{option_copied};
ghost use Rattle.ja_graph.specs.WellFormed.{IsWellFormed};
ghost use Rattle.ja_value.specs.Value.{labels_in};
ghost use Rattle.ja_report.specs.Report as report;
ghost use Rattle.ja_report.specs.Texts as report_texts;
ghost use Rattle.ja_lint_text.specs.Values as spec;
ghost use Rattle.ja_lint_text.specs.code.Sites.{is_first};

use crate::source::Source;
use ja_base::{FnId, Label, Memory, Site};
use ja_files::{File, Spot, spot_of};
use ja_graph::{BUILTIN_CLASSES, Class, Program, SiteInfo};
use ja_prim::{Signature, Text16};
use ja_report::site_count;
use ja_show::shown_name;
use ja_texts::{push_place, push_plain};
use ja_value::LabelSet;
use std::alloc::Global;

// ---- sites

// Whether a label is the first one of its site in the set.
fn is_first(labels: &LabelSet, label: Label) -> bool
    ensures { result ≡ is_first (labels_in labels.now) label }
{
    let new = Label {
        site: label.site,
        old: false,
    };
    !label.old | !labels.contains(new)
}

/// The sites of the objects of some labels, in order, each once.
#[tactic(auto, using(crate::proofs::Rulesets::for_sites_in))]
pub(crate) fn sites_in(
    alloc: Global,
    program: &Program,
    labels: &LabelSet,
) -> Result<Vec<Site>, Memory>
    requires { IsWellFormed program.now }
    ensures { IfOk result (λ sites. sites.items
        ≡ spec.sites_in program.now (labels_in labels.now)) }
{
    let list = labels.list(alloc, site_count(program))?;
    let mut sites = Vec::new(alloc);
    for label in &list {
        if is_first(labels, *label) {
            sites.push(label.site)?;
        }
    }
    Ok(sites)
}

// ---- places

// Adds the name of a file as it is shown.
fn push_file(text: &mut Vec<u8>, name: &[u8]) -> Result<(), Memory>
    ensures { OnOk result (text.new.items ≡ text.old.items ++ spec.file_text name.now) }
{
    if name.is_empty() {
        return Ok(());
    }
    text.extend_from_slice(name)?;
    text.push(b':')?;
    Ok(())
}

// .. of the file with a number.
fn push_front(
    text: &mut Vec<u8>,
    alloc: Global,
    files: &[File<'_>],
    number: u32,
) -> Result<(), Memory>
    ensures { OnOk result (text.new.items ≡ text.old.items ++ spec.front_text files.now number) }
{
    match files.get(number as usize) {
        Some(file) => {
            let name = shown_name(alloc, file.name)?;
            push_file(text, &name)
        }
        None => Ok(()),
    }
}

// Adds a place with the name of its file.
#[tactic(auto, unfolding(crate::specs::Values::spot_text))]
fn push_spot(
    text: &mut Vec<u8>,
    alloc: Global,
    files: &[File<'_>],
    spot: Spot,
) -> Result<(), Memory>
    ensures { OnOk result (text.new.items ≡ text.old.items ++ spec.spot_text files.now spot) }
{
    push_front(text, alloc, files, spot.file)?;
    push_place(text, spot.place)
}

// ---- words

// Whether a name is that of a built-in function that converts objects.
fn is_conversion(name: &[u16]) -> bool
    ensures { result ≡ spec.is_conversion name.now }
{
    match name.first() {
        Some(unit) => *unit == 37,
        None => false,
    }
}

// Adds the name of a function.
#[tactic(auto, unfolding(crate::specs::Values::name_words))]
fn push_function_name(text: &mut Vec<u8>, name: &[u16]) -> Result<(), Memory>
    ensures { OnOk result (text.new.items ≡ text.old.items ++ spec.name_words name.now) }
{
    if is_conversion(name) {
        text.extend_from_slice(b"a conversion of an object to a primitive value")?;
        return Ok(());
    }
    push_plain(text, name)
}

/// Adds a function by its name.
pub(crate) fn push_function(
    text: &mut Vec<u8>,
    program: &Program,
    function: FnId,
) -> Result<(), Memory>
    ensures { OnOk result (text.new.items ≡ text.old.items
        ++ spec.function_text program.now function) }
{
    match program.functions.as_slice().get(function.0 as usize) {
        Some(function) => push_function_name(text, function.name.units()),
        None => Ok(()),
    }
}

// The words in front of the place of an object.
fn class_words(class: Class) -> &'static [u8]
    ensures { result.now ≡ spec.class_words class }
{
    match class {
        Class::Array => b"the array made at ",
        Class::Error => b"the error made at ",
        _ => b"the object made at ",
    }
}

fn made_words(info: &SiteInfo) -> &'static [u8]
    ensures { result.now ≡ spec.made_words info.now }
{
    if info.calls.is_some() {
        b"the function at "
    } else {
        class_words(info.class)
    }
}

// The built-in function that makes the objects of a site, if one does.
fn builtin_owner(program: &Program, info: &SiteInfo) -> Option<FnId>
    ensures { result ≡ report.builtin_owner program.now info.now }
{
    match info.owner {
        Some(function) => {
            if function.0 < program.text_functions {
                None
            } else {
                Some(function)
            }
        }
        None => None,
    }
}

// Adds the words of the objects of a built-in function.
fn push_owned(text: &mut Vec<u8>, program: &Program, function: FnId) -> Result<(), Memory>
    ensures { OnOk result (text.new.items ≡ text.old.items
        ++ spec.owned_words program.now function) }
{
    text.extend_from_slice(b"an object made in ")?;
    push_function(text, program, function)
}

// Adds the words of the objects that are made at a node, of a built-in function or of the text.
fn push_made(
    text: &mut Vec<u8>,
    alloc: Global,
    source: &Source<'_>,
    info: &SiteInfo,
    owner: Option<FnId>,
) -> Result<(), Memory>
    requires { length source.now.first_lines.now < 2 ^ 32 }
    ensures { OnOk result (text.new.items ≡ text.old.items
        ++ spec.maker_words source.now.program.now source.now.files.now
        source.now.first_lines.now info.now owner) }
{
    match owner {
        Some(function) => push_owned(text, source.program, function),
        None => {
            text.extend_from_slice(made_words(info))?;
            let spot = spot_of(source.first_lines, info.place);
            push_spot(text, alloc, source.files, spot)
        }
    }
}

fn push_info(
    text: &mut Vec<u8>,
    alloc: Global,
    source: &Source<'_>,
    info: &SiteInfo,
) -> Result<(), Memory>
    requires { length source.now.first_lines.now < 2 ^ 32 }
    ensures { OnOk result (text.new.items ≡ text.old.items ++ spec.info_words
        source.now.program.now source.now.files.now source.now.first_lines.now info.now) }
{
    let owner = builtin_owner(source.program, info);
    push_made(text, alloc, source, info, owner)
}

// The device of a site, if it is one of a device.
#[tactic(auto, unfolding(ja_report::specs::Texts::device_of))]
fn device_of(program: &Program, site: Site) -> Option<&Signature>
    ensures { option_copied result ≡ report_texts.device_of program.now site }
{
    let number = (site.0 as usize).checked_sub(BUILTIN_CLASSES.len())?;
    program.signatures().get(number)
}

// Adds the words of what no built-in object is.
fn push_other(
    text: &mut Vec<u8>,
    alloc: Global,
    source: &Source<'_>,
    site: Site,
) -> Result<(), Memory>
    requires { length source.now.first_lines.now < 2 ^ 32 }
    ensures { OnOk result (text.new.items ≡ text.old.items ++ spec.other_words
        source.now.program.now source.now.files.now source.now.first_lines.now site) }
{
    if let Some(device) = device_of(source.program, site) {
        text.extend_from_slice(b"the device ")?;
        return push_plain(text, device.name.units());
    }
    match source.program.sites.as_slice().get(site.0 as usize) {
        Some(info) => push_info(text, alloc, source, info),
        None => Ok(()),
    }
}

// The name of a built-in object.
fn builtin_of(program: &Program, site: Site) -> Option<&Text16>
    ensures { option_copied result ≡ report_texts.builtin_of program.now site }
{
    match program.sites.as_slice().get(site.0 as usize) {
        Some(info) => info.builtin.as_ref(),
        None => None,
    }
}

/// The words of the objects of a site.
#[tactic(auto, unfolding(crate::specs::Values::site_words))]
pub(crate) fn site_words(alloc: Global, source: &Source<'_>, site: Site) -> Result<Vec<u8>, Memory>
    requires { length source.now.first_lines.now < 2 ^ 32 }
    ensures { IfOk result (λ text. text.items ≡ spec.site_words source.now.program.now
        source.now.files.now source.now.first_lines.now site) }
{
    let mut text = Vec::new(alloc);
    match builtin_of(source.program, site) {
        Some(name) => push_plain(&mut text, name.units())?,
        None => push_other(&mut text, alloc, source, site)?,
    }
    Ok(text)
}
