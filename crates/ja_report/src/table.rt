//! Writers of the lines of a whole table.

ghost use Rattle.std.specs.Prelude.{◌≡◌, ◌<◌, [], ◌∷◌, OnOk, IfOk, length, vec_len};
ghost use Rattle.std.specs.List.{flat_map};
ghost use Rattle.std.specs.Option.{option_map_or};
ghost use Rattle.ja_base.specs.declared.ids.Label.{Label};
ghost use Rattle.ja_graph.specs.WellFormed.{IsWellFormed};
ghost use Rattle.ja_abstract.specs.declared.abstraction.Key.{Key};
ghost use Rattle.ja_abstract.specs.AbstractState.{keys_below, keys_of};
ghost use Rattle.ja_value.specs.Value.{property_of};
ghost use Rattle.ja_aheap.specs.Entries.{entries_of};
ghost use Rattle.ja_table.specs.Tables.{states_in, table_of, Fits, FitsContext};
ghost use Rattle.ja_report.specs.Lines.{context_lines, entry, entry_line, head, point_lines, state_lines, table_lines};
ghost use Rattle.ja_report.specs.code.Output.{Adds};

use crate::lines::{push_property_text, push_state};
use crate::output::Output;
use crate::sections::push_context;
use crate::values::site_count;
use ja_abstract::{Key, Slot};
use ja_aheap::DemandedEntries;
use ja_base::{Context, Label, Memory, NameId};
use ja_graph::Program;
use ja_table::{ATable, ContextTable};
use ja_texts::push_number;
use ja_value::AProp;
use std::alloc::Global;

/// How many names a program has.
pub fn name_count(program: &Program) -> u32
    requires { IsWellFormed program.now }
    ensures { result ≡ length program.now.names }
{
    program.names.len() as u32
}

/// The keys of a program with so many names, in order.
fn keys_below(alloc: Global, names: u32) -> Result<Vec<Key>, Memory>
    ensures { IfOk result (λ keys. keys.items ≡ keys_below names) }
{
    let mut keys = Vec::new(alloc);
    for number in 0..names {
        keys.push(Key::Name(NameId(number)))?;
    }
    keys.extend_from_slice(&[
        Key::OtherIndex,
        Key::OtherName,
        Key::Slot(Slot::Prototype),
        Key::Slot(Slot::Outer),
        Key::Slot(Slot::Scope),
        Key::Slot(Slot::Value),
    ])?;
    Ok(keys)
}

/// The keys of a program, in order.
pub fn all_keys(alloc: Global, program: &Program) -> Result<Vec<Key>, Memory>
    requires { IsWellFormed program.now }
    ensures { IfOk result (λ keys. keys.items ≡ keys_of program.now) }
{
    keys_below(alloc, name_count(program))
}

// ---- values at entry

#[tactic(auto, using(crate::proofs::OutputLemmas::adds_one), unfolding(crate::specs::Lines::line_text, crate::specs::Lines::line_sites))]
fn push_entry(
    out: &mut Output,
    alloc: Global,
    program: &Program,
    label: Label,
    key: Key,
    property: &AProp,
) -> Result<(), Memory>
    requires { IsWellFormed program.now }
    ensures { OnOk result (Adds program.now (entry label key (property_of property.now) ∷ [])
        out.old out.new) }
{
    out.text.extend_from_slice(b"entry ")?;
    push_property_text(out, alloc, program, label, key, property)?;
    Ok(())
}

fn push_pair(
    out: &mut Output,
    alloc: Global,
    program: &Program,
    entries: &DemandedEntries,
    label: Label,
    key: Key,
) -> Result<(), Memory>
    requires { IsWellFormed program.now }
    ensures { OnOk result (Adds program.now (entry_line (entries_of entries.now) label key) out.old
        out.new) }
{
    if let Some(property) = entries.get(label, key) {
        push_entry(out, alloc, program, label, key, property)?;
    }
    Ok(())
}

/// Writes the values at entry of pairs.
fn push_entries(
    out: &mut Output,
    alloc: Global,
    program: &Program,
    entries: &DemandedEntries,
    pairs: &[(Label, Key)],
) -> Result<(), Memory>
    requires program { IsWellFormed program.now }
    ensures { OnOk result (Adds program.now
        (flat_map (λ (p : Label × Key). entry_line (entries_of entries.now) p.0 p.1) pairs.now)
        out.old out.new) }
{
    for pair in pairs {
        push_pair(out, alloc, program, entries, pair.0, pair.1)?;
    }
    Ok(())
}

// ---- states

fn push_node(
    out: &mut Output,
    alloc: Global,
    program: &Program,
    keys: &[Key],
    own: &ContextTable,
    node: usize,
) -> Result<(), Memory>
    requires program { IsWellFormed program.now }
    requires keys { keys.now ≡ keys_of program.now }
    requires fits { FitsContext program.now own.now }
    requires node { node < vec_len own.now.nodes }
    ensures { OnOk result (Adds program.now
        (option_map_or (state_lines program.now own.now.context.function node)
        (states_in own.now.nodes.items node) []) out.old out.new) }
{
    if let Some(state) = &own.nodes[node].state {
        push_state(out, alloc, program, keys, own.context.function, node, state)?;
    }
    Ok(())
}

/// Writes the states of a context.
fn push_points(
    out: &mut Output,
    alloc: Global,
    program: &Program,
    keys: &[Key],
    own: &ContextTable,
) -> Result<(), Memory>
    requires program { IsWellFormed program.now }
    requires keys { keys.now ≡ keys_of program.now }
    requires fits { FitsContext program.now own.now }
    ensures { OnOk result (Adds program.now (point_lines program.now own.now.context.function
        (states_in own.now.nodes.items)) out.old out.new) }
{
    for node in 0..own.nodes.len() {
        push_node(out, alloc, program, keys, own, node)?;
    }
    Ok(())
}

// ---- contexts

/// Writes a context, with the number of values that it demands.
#[tactic(auto, using(crate::proofs::OutputLemmas::adds_one), unfolding(crate::specs::Lines::line_text, crate::specs::Lines::line_sites))]
fn push_head(
    out: &mut Output,
    program: &Program,
    context: Context,
    entries: usize,
) -> Result<(), Memory>
    ensures { OnOk result (Adds program.now (head context entries ∷ []) out.old out.new) }
{
    out.text.extend_from_slice(b"context ")?;
    push_context(&mut out.text, program, context)?;
    out.text.extend_from_slice(b"\nentries ")?;
    push_number(&mut out.text, entries as u64)?;
    out.text.push(b'\n')?;
    out.named.push(context.receiver.site.0)?;
    Ok(())
}

/// Writes a context with its values at entry and its states.
fn push_own(
    out: &mut Output,
    alloc: Global,
    program: &Program,
    keys: &[Key],
    own: &ContextTable,
) -> Result<(), Memory>
    requires program { IsWellFormed program.now }
    requires keys { keys.now ≡ keys_of program.now }
    requires fits { FitsContext program.now own.now }
    ensures { OnOk result (Adds program.now (context_lines program.now own.now.context
        (entries_of own.now.entries) (states_in own.now.nodes.items)) out.old out.new) }
{
    let pairs = own
        .entries
        .pairs(alloc, site_count(program), name_count(program))?;
    push_head(out, program, own.context, pairs.len())?;
    push_entries(out, alloc, program, &own.entries, &pairs)?;
    push_points(out, alloc, program, keys, own)
}

/// Writes each context of a table.
pub(crate) fn push_contexts(
    out: &mut Output,
    alloc: Global,
    program: &Program,
    table: &ATable,
) -> Result<(), Memory>
    requires program { IsWellFormed program.now }
    requires fits { Fits program.now table.now }
    ensures { OnOk result (Adds program.now (table_lines program.now (table_of table.now)) out.old
        out.new) }
{
    let keys = all_keys(alloc, program)?;
    for own in &table.contexts {
        push_own(out, alloc, program, &keys, own)?;
    }
    Ok(())
}
