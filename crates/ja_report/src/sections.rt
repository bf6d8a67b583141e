//! Writers of devices, warnings, visits and sites.

ghost use Rattle.std.specs.Prelude.{◌≡◌, ◌++◌, OnOk, IfOk, ℕ, ◌==◌, ◌&&◌, is_some};
ghost use Rattle.std.specs.List.{flat_map, list_any};
ghost use Rattle.std.specs.Ordering.{nat_cmp};
ghost use Rattle.std.specs.BTreeSet.{contains};
ghost use Rattle.std.specs.Fmt.{decimal};
ghost use lib.Chars.{codes};
ghost use Rattle.ja_graph.specs.WellFormed.{IsWellFormed};
ghost use Rattle.ja_abstract.specs.AbstractState.{site_of};
ghost use Rattle.ja_table.specs.Tables.{table_of, Fits};
ghost use Rattle.ja_table.specs.declared.table.CallEdge.{CallEdge as Kept};
ghost use Rattle.ja_rows.specs.Listed.{edges_of};
ghost use Rattle.ja_report.specs.Lines.{context_text};
ghost use Rattle.ja_report.specs.Texts.{builtin_of};
ghost use Rattle.ja_report.specs.code.Texts.{with_bars};
ghost use Rattle.ja_report.specs.Report.{kind_parts, kinds_text, device_line, devices_text, kind_text, certainty_text, spot_text, warning_text, warnings_text, edge_text, edges_text, item_text, visits_text, builtin_owner, info_text, is_text_site, site_line, named_sites, sites_text};

use crate::texts::{device_of, push_label, push_numbered_site};
use crate::values::{close_parts, push_part, site_count};
use ja_base::{Context, FnId, Memory, NodeId, Place, Site};
use ja_graph::{Program, SiteInfo};
use ja_prim::{Kinds, Signature};
use ja_rows::{Edge, Item, Warning, WarningKind};
use ja_table::{ATable, CallEdge};
use ja_texts::{class_text, push_number, push_place, push_plain};
use std::alloc::Global;
use std::collections::BTreeSet;

// ---- devices

#[tactic(auto, using(crate::proofs::PartLemmas::bars_more), unfolding(crate::specs::Report::kind_parts))]
fn push_kind_parts(text: &mut Vec<u8>, kinds: Kinds) -> Result<(), Memory>
    ensures { OnOk result (text.new.items ≡ text.old.items ++ with_bars (kind_parts kinds)) }
{
    push_part(text, kinds.undefined, b"undefined")?;
    push_part(text, kinds.null, b"null")?;
    push_part(text, kinds.boolean, b"boolean")?;
    push_part(text, kinds.number, b"number")?;
    push_part(text, kinds.text, b"string")?;
    Ok(())
}

#[tactic(auto, unfolding(crate::specs::Report::kinds_text))]
fn push_kinds(text: &mut Vec<u8>, kinds: Kinds) -> Result<(), Memory>
    ensures { OnOk result (text.new.items ≡ text.old.items ++ kinds_text kinds) }
{
    let start = text.len();
    push_kind_parts(text, kinds)?;
    close_parts(text, start)?;
    Ok(())
}

#[tactic(auto, unfolding(crate::specs::Report::device_line))]
fn push_device(text: &mut Vec<u8>, device: &Signature) -> Result<(), Memory>
    ensures { OnOk result (text.new.items ≡ text.old.items ++ device_line device.now) }
{
    text.extend_from_slice(b"device ")?;
    push_plain(text, device.name.units())?;
    text.push(b' ')?;
    push_kinds(text, device.kinds)?;
    text.push(b'\n')?;
    Ok(())
}

#[tactic(auto, using(crate::proofs::Rulesets::for_push_devices), unfolding(crate::specs::Report::devices_text))]
pub(crate) fn push_devices(text: &mut Vec<u8>, devices: &[Signature]) -> Result<(), Memory>
    ensures { OnOk result (text.new.items ≡ text.old.items ++ devices_text devices.now) }
{
    for device in devices {
        push_device(text, device)?;
    }
    Ok(())
}

// ---- warnings

/// What may go wrong, in words.
pub fn kind_text(kind: WarningKind) -> &'static [u8]
    ensures { result.now ≡ kind_text kind }
{
    match kind {
        WarningKind::NotAFunction => b"call of a non-function",
        WarningKind::NoObject => b"property of null or undefined",
        WarningKind::UnboundName => b"unbound name",
        WarningKind::ScopeRow => b"scope row",
    }
}

/// Whether it surely does, in a word.
pub fn certainty_text(certain: bool) -> &'static [u8]
    ensures { result.now ≡ certainty_text certain }
{
    if certain { b"certain" } else { b"possible" }
}

/// Writes where something stands: its place, or the built-in function with the number of a token.
#[tactic(auto, unfolding(crate::specs::Report::spot_text))]
fn push_spot(text: &mut Vec<u8>, builtin: Option<FnId>, place: Place) -> Result<(), Memory>
    ensures { OnOk result (text.new.items ≡ text.old.items ++ spot_text builtin place) }
{
    let Some(function) = builtin else {
        return push_place(text, place);
    };
    text.push(b'@')?;
    push_number(text, u64::from(function.0))?;
    text.push(b':')?;
    push_number(text, u64::from(place.column))?;
    Ok(())
}

#[tactic(auto, unfolding(crate::specs::Report::warning_text))]
fn push_warning(text: &mut Vec<u8>, warning: Warning) -> Result<(), Memory>
    ensures { OnOk result (text.new.items ≡ text.old.items ++ warning_text warning) }
{
    push_spot(text, warning.builtin, warning.place)?;
    text.push(b' ')?;
    text.extend_from_slice(kind_text(warning.kind))?;
    text.push(b' ')?;
    text.extend_from_slice(certainty_text(warning.certain))?;
    text.push(b'\n')?;
    Ok(())
}

#[tactic(auto, using(crate::proofs::Rulesets::for_push_devices))]
fn push_each_warning(text: &mut Vec<u8>, warnings: &[Warning]) -> Result<(), Memory>
    ensures { OnOk result (text.new.items ≡ text.old.items ++ flat_map warning_text warnings.now) }
{
    for warning in warnings {
        push_warning(text, *warning)?;
    }
    Ok(())
}

#[tactic(auto, unfolding(crate::specs::Report::warnings_text))]
pub(crate) fn push_warnings(text: &mut Vec<u8>, warnings: &[Warning]) -> Result<(), Memory>
    ensures { OnOk result (text.new.items ≡ text.old.items ++ warnings_text warnings.now) }
{
    text.extend_from_slice(b"warnings ")?;
    push_number(text, warnings.len() as u64)?;
    text.push(b'\n')?;
    push_each_warning(text, warnings)?;
    Ok(())
}

// ---- visits

#[tactic(auto, unfolding(crate::specs::Lines::context_text))]
pub(crate) fn push_context(
    text: &mut Vec<u8>,
    program: &Program,
    context: Context,
) -> Result<(), Memory>
    ensures { OnOk result (text.new.items ≡ text.old.items ++ context_text program.now context) }
{
    push_number(text, u64::from(context.function.0))?;
    text.push(b' ')?;
    push_label(text, program, context.receiver)?;
    Ok(())
}

#[tactic(auto, unfolding(crate::specs::Report::edge_text))]
fn push_edge(text: &mut Vec<u8>, program: &Program, edge: Edge) -> Result<(), Memory>
    ensures { OnOk result (text.new.items ≡ text.old.items ++ edge_text program.now edge) }
{
    push_context(text, program, edge.caller)?;
    text.push(b' ')?;
    push_number(text, u64::from(edge.node.0))?;
    text.extend_from_slice(b" -> ")?;
    push_context(text, program, edge.callee)?;
    Ok(())
}

/// Adds a line of a word and a call edge.
fn push_edge_line(
    text: &mut Vec<u8>,
    program: &Program,
    word: &[u8],
    edge: Edge,
) -> Result<(), Memory>
    ensures { OnOk result (text.new.items ≡ text.old.items ++ word.now
        ++ edge_text program.now edge ++ codes "\n") }
{
    text.extend_from_slice(word)?;
    push_edge(text, program, edge)?;
    text.push(b'\n')?;
    Ok(())
}

/// Adds the line of the step of a node.
fn push_step(
    text: &mut Vec<u8>,
    program: &Program,
    context: Context,
    node: NodeId,
) -> Result<(), Memory>
    ensures { OnOk result (text.new.items ≡ text.old.items ++ codes "step "
        ++ context_text program.now context ++ codes " " ++ decimal node.0 ++ codes "\n") }
{
    text.extend_from_slice(b"step ")?;
    push_context(text, program, context)?;
    text.push(b' ')?;
    push_number(text, u64::from(node.0))?;
    text.push(b'\n')?;
    Ok(())
}

#[tactic(auto, unfolding(crate::specs::Report::item_text))]
pub(crate) fn push_item(text: &mut Vec<u8>, program: &Program, item: Item) -> Result<(), Memory>
    ensures { OnOk result (text.new.items ≡ text.old.items ++ item_text program.now item) }
{
    match item {
        Item::Open => text.extend_from_slice(b"open\n")?,
        Item::Step { context, node } => push_step(text, program, context, node)?,
        Item::Fill(edge) => push_edge_line(text, program, b"fill ", edge)?,
        Item::Back(edge) => push_edge_line(text, program, b"back ", edge)?,
    }
    Ok(())
}

#[tactic(auto, using(crate::proofs::Rulesets::for_push_devices))]
pub(crate) fn push_items(
    text: &mut Vec<u8>,
    program: &Program,
    items: &[Item],
) -> Result<(), Memory>
    ensures { OnOk result (text.new.items ≡ text.old.items
        ++ flat_map (item_text program.now) items.now) }
{
    for item in items {
        push_item(text, program, *item)?;
    }
    Ok(())
}

#[tactic(auto, unfolding(crate::specs::Report::visits_text))]
pub(crate) fn push_visits(
    text: &mut Vec<u8>,
    program: &Program,
    visits: &[Item],
) -> Result<(), Memory>
    ensures { OnOk result (text.new.items ≡ text.old.items ++ visits_text program.now visits.now) }
{
    text.extend_from_slice(b"visits ")?;
    push_number(text, visits.len() as u64)?;
    text.push(b'\n')?;
    push_items(text, program, visits)?;
    Ok(())
}

// ---- edges

#[tactic(auto, using(crate::proofs::Rulesets::for_push_devices))]
fn push_each_edge(text: &mut Vec<u8>, program: &Program, edges: &[CallEdge]) -> Result<(), Memory>
    ensures { OnOk result (text.new.items ≡ text.old.items
        ++ flat_map (λ (e : Kept). edge_text program.now e.edge ++ codes "\n") edges.now) }
{
    for kept in edges {
        push_edge_line(text, program, b"", kept.edge)?;
    }
    Ok(())
}

/// Writes the call edges of a table.
#[tactic(auto, unfolding(crate::specs::Report::edges_text))]
pub(crate) fn push_edges(
    text: &mut Vec<u8>,
    program: &Program,
    table: &ATable,
) -> Result<(), Memory>
    requires program { IsWellFormed program.now }
    requires fits { Fits program.now table.now }
    ensures { OnOk result (text.new.items ≡ text.old.items
        ++ edges_text program.now (edges_of program.now (table_of table.now))) }
{
    text.extend_from_slice(b"edges ")?;
    push_number(text, table.edges.len() as u64)?;
    text.push(b'\n')?;
    push_each_edge(text, program, &table.edges)?;
    Ok(())
}

// ---- sites

/// The numbers of a list as a set.
#[tactic(auto, using(crate::proofs::SiteLemmas::set_none, crate::proofs::SiteLemmas::set_all))]
fn set_of(alloc: Global, numbers: &[u32]) -> Result<BTreeSet<u32>, Memory>
    ensures { IfOk result (λ set. (s : ℕ) → contains nat_cmp set s
        ≡ list_any (λ n. n == s) numbers.now) }
{
    let mut set = BTreeSet::new(alloc);
    for number in numbers {
        set.insert(*number)?;
    }
    Ok(set)
}

/// Whether a site is that of a built-in object.
fn is_builtin(program: &Program, number: u32) -> bool
    ensures { result ≡ is_some (builtin_of program.now (site_of number)) }
{
    match program.sites.as_slice().get(number as usize) {
        Some(info) => info.builtin.is_some(),
        None => false,
    }
}

/// Whether a site is neither that of a built-in object nor that of a device.
#[tactic(auto, unfolding(crate::specs::Report::is_text_site))]
fn is_text_site(program: &Program, number: u32) -> bool
    ensures { result ≡ is_text_site program.now number }
{
    !is_builtin(program, number) && device_of(program, Site(number)).is_none()
}

fn is_named(program: &Program, set: &BTreeSet<u32>, number: u32) -> bool
    ensures { result ≡ (is_text_site program.now number && contains nat_cmp set.now number) }
{
    is_text_site(program, number) & set.contains(&number)
}

/// The sites among these, each once, but for those of built-in objects and devices.
#[tactic(auto, using(crate::proofs::Rulesets::for_named_sites))]
fn named_sites(alloc: Global, program: &Program, named: &[u32]) -> Result<Vec<u32>, Memory>
    requires { IsWellFormed program.now }
    ensures { IfOk result (λ sites. sites.items ≡ named_sites program.now named.now) }
{
    let set = set_of(alloc, named)?;
    let mut sites = Vec::new(alloc);
    for number in 0..site_count(program) {
        if is_named(program, &set, number) {
            sites.push(number)?;
        }
    }
    Ok(sites)
}

/// The built-in function that makes the objects of a site, if one does.
fn builtin_owner(program: &Program, info: &SiteInfo) -> Option<FnId>
    ensures { result ≡ builtin_owner program.now info.now }
{
    match info.owner {
        Some(owner) if owner.0 >= program.text_functions => Some(owner),
        _ => None,
    }
}

#[tactic(auto, unfolding(crate::specs::Report::info_text))]
fn push_info(text: &mut Vec<u8>, program: &Program, number: u32) -> Result<(), Memory>
    ensures { OnOk result (text.new.items ≡ text.old.items ++ info_text program.now number) }
{
    if let Some(info) = program.sites.as_slice().get(number as usize) {
        push_spot(text, builtin_owner(program, info), info.place)?;
        text.push(b' ')?;
        text.extend_from_slice(class_text(info.class))?;
    }
    Ok(())
}

#[tactic(auto, unfolding(crate::specs::Report::site_line))]
fn push_site_line(text: &mut Vec<u8>, program: &Program, number: u32) -> Result<(), Memory>
    ensures { OnOk result (text.new.items ≡ text.old.items ++ site_line program.now number) }
{
    push_numbered_site(text, Site(number))?;
    text.push(b' ')?;
    push_info(text, program, number)?;
    text.push(b'\n')?;
    Ok(())
}

#[tactic(auto, using(crate::proofs::Rulesets::for_push_devices))]
fn push_site_lines(text: &mut Vec<u8>, program: &Program, numbers: &[u32]) -> Result<(), Memory>
    ensures { OnOk result (text.new.items ≡ text.old.items
        ++ flat_map (site_line program.now) numbers.now) }
{
    for number in numbers {
        push_site_line(text, program, *number)?;
    }
    Ok(())
}

#[tactic(auto, unfolding(crate::specs::Report::sites_text))]
pub(crate) fn push_sites(
    text: &mut Vec<u8>,
    alloc: Global,
    program: &Program,
    named: &[u32],
) -> Result<(), Memory>
    requires { IsWellFormed program.now }
    ensures { OnOk result (text.new.items ≡ text.old.items ++ sites_text program.now named.now) }
{
    let sites = named_sites(alloc, program, named)?;
    text.extend_from_slice(b"sites ")?;
    push_number(text, sites.len() as u64)?;
    text.push(b'\n')?;
    push_site_lines(text, program, &sites)?;
    Ok(())
}
