//! Writers of contexts: their values at entry, and their states.

ghost use Rattle.std.specs.Prelude.{◌≡◌, ◌++◌, ◌<◌, ◌∷◌, [], OnOk, map, vec_len};
ghost use Rattle.std.specs.List.{flat_map};
ghost use Rattle.serde_json.specs.Written.{compact_text};
ghost use Rattle.ja_base.specs.declared.ids.Label.{Label};
ghost use Rattle.ja_graph.specs.WellFormed.{IsWellFormed};
ghost use Rattle.ja_abstract.specs.declared.abstraction.Key.{Key};
ghost use Rattle.ja_abstract.specs.AbstractState.{keys_of};
ghost use Rattle.ja_aheap.specs.Entries.{entries_of};
ghost use Rattle.ja_table.specs.Tables.{states_in, table_of, Fits, FitsContext};
ghost use Rattle.ja_rows.specs.Listed.{contexts_of};
ghost use Rattle.ja_report.specs.Lines.{entry_line, entry_lines};
ghost use Rattle.ja_cert.specs.Certificate.{context_data, lines_data, listed};
ghost use Rattle.ja_cert.specs.code.Writing.{lines_text, node_of, own_data, points_of, with_commas};

use crate::data;
use crate::pieces::{close_list, push_member};
use crate::write_states::push_state;
use ja_abstract::Key;
use ja_aheap::DemandedEntries;
use ja_base::{Label, Memory};
use ja_graph::Program;
use ja_report::{all_keys, name_count, site_count};
use ja_table::{ATable, ContextTable};
use ja_texts::push_number;
use ja_value::label_number;
use std::alloc::Global;

// ---- values at entry

fn push_entry(
    text: &mut Vec<u8>,
    alloc: Global,
    program: &Program,
    entries: &DemandedEntries,
    label: Label,
    key: Key,
) -> Result<(), Memory>
    requires { IsWellFormed program.now }
    ensures { OnOk result (text.new.items ≡ text.old.items ++ lines_text program.now
        (entry_line (entries_of entries.now) label key)) }
{
    let Some(property) = entries.get(label, key) else {
        return Ok(());
    };
    let line = data::property(alloc, program, label, key, property)?;
    push_member(text, alloc, line)
}

/// Writes the values at entry of pairs.
#[tactic(auto, using(crate::proofs::Rulesets::for_loops))]
fn push_pairs(
    text: &mut Vec<u8>,
    alloc: Global,
    program: &Program,
    entries: &DemandedEntries,
    pairs: &[(Label, Key)],
) -> Result<(), Memory>
    requires program { IsWellFormed program.now }
    ensures { OnOk result (text.new.items ≡ text.old.items ++ lines_text program.now
        (flat_map (λ (p : Label × Key). entry_line (entries_of entries.now) p.0 p.1) pairs.now)) }
{
    for pair in pairs {
        push_entry(text, alloc, program, entries, pair.0, pair.1)?;
    }
    Ok(())
}

/// Writes the list of the values at entry.
fn push_entries(
    text: &mut Vec<u8>,
    alloc: Global,
    program: &Program,
    entries: &DemandedEntries,
) -> Result<(), Memory>
    requires program { IsWellFormed program.now }
    ensures { OnOk result (text.new.items ≡ text.old.items ++ compact_text
        (lines_data program.now (entry_lines program.now (entries_of entries.now)))) }
{
    let pairs = entries.pairs(alloc, site_count(program), name_count(program))?;
    text.push(b'[')?;
    let start = text.len();
    push_pairs(text, alloc, program, entries, &pairs)?;
    close_list(text, start)?;
    Ok(())
}

// ---- states

/// Writes a node where it has a state, and a comma behind it.
fn push_node(
    text: &mut Vec<u8>,
    alloc: Global,
    program: &Program,
    keys: &[Key],
    own: &ContextTable,
    node: usize,
) -> Result<(), Memory>
    requires program { IsWellFormed program.now }
    requires keys { keys.now ≡ keys_of program.now }
    requires fits { FitsContext program.now own.now }
    requires node { node < vec_len own.now.nodes }
    ensures { OnOk result (text.new.items ≡ text.old.items ++ with_commas
        (node_of program.now own.now.context.function (states_in own.now.nodes.items) node)) }
{
    if let Some(state) = &own.nodes[node].state {
        push_state(
            text,
            alloc,
            program,
            keys,
            own.context.function,
            node,
            state,
        )?;
        text.push(b',')?;
    }
    Ok(())
}

fn push_nodes(
    text: &mut Vec<u8>,
    alloc: Global,
    program: &Program,
    keys: &[Key],
    own: &ContextTable,
) -> Result<(), Memory>
    requires program { IsWellFormed program.now }
    requires keys { keys.now ≡ keys_of program.now }
    requires fits { FitsContext program.now own.now }
    ensures { OnOk result (text.new.items ≡ text.old.items ++ with_commas
        (points_of program.now own.now.context.function (states_in own.now.nodes.items))) }
{
    for node in 0..own.nodes.len() {
        push_node(text, alloc, program, keys, own, node)?;
    }
    Ok(())
}

/// Writes the list of the nodes that have a state.
fn push_points(
    text: &mut Vec<u8>,
    alloc: Global,
    program: &Program,
    keys: &[Key],
    own: &ContextTable,
) -> Result<(), Memory>
    requires program { IsWellFormed program.now }
    requires keys { keys.now ≡ keys_of program.now }
    requires fits { FitsContext program.now own.now }
    ensures { OnOk result (text.new.items ≡ text.old.items ++ compact_text (listed
        (points_of program.now own.now.context.function (states_in own.now.nodes.items)))) }
{
    text.push(b'[')?;
    let start = text.len();
    push_nodes(text, alloc, program, keys, own)?;
    close_list(text, start)?;
    Ok(())
}

// ---- contexts

/// Writes a context with its values at entry and its states, and a comma behind it.
fn push_own(
    text: &mut Vec<u8>,
    alloc: Global,
    program: &Program,
    keys: &[Key],
    own: &ContextTable,
) -> Result<(), Memory>
    requires program { IsWellFormed program.now }
    requires keys { keys.now ≡ keys_of program.now }
    requires fits { FitsContext program.now own.now }
    ensures { OnOk result (text.new.items ≡ text.old.items
        ++ with_commas (own_data program.now own.now ∷ [])) }
{
    text.extend_from_slice(b"{\"entries\":")?;
    push_entries(text, alloc, program, &own.entries)?;
    text.extend_from_slice(b",\"function\":")?;
    push_number(text, u64::from(own.context.function.0))?;
    text.extend_from_slice(b",\"points\":")?;
    push_points(text, alloc, program, keys, own)?;
    text.extend_from_slice(b",\"receiver\":")?;
    push_number(text, label_number(own.context.receiver))?;
    text.extend_from_slice(b"},")?;
    Ok(())
}

#[tactic(auto, using(crate::proofs::Rulesets::for_loops))]
fn push_each(
    text: &mut Vec<u8>,
    alloc: Global,
    program: &Program,
    keys: &[Key],
    table: &ATable,
) -> Result<(), Memory>
    requires program { IsWellFormed program.now }
    requires keys { keys.now ≡ keys_of program.now }
    requires fits { Fits program.now table.now }
    ensures { OnOk result (text.new.items ≡ text.old.items ++ with_commas
        (map (own_data program.now) table.now.contexts.items)) }
{
    for own in &table.contexts {
        push_own(text, alloc, program, keys, own)?;
    }
    Ok(())
}

/// Writes the list of the contexts of a table.
pub(crate) fn push_contexts(
    text: &mut Vec<u8>,
    alloc: Global,
    program: &Program,
    table: &ATable,
) -> Result<(), Memory>
    requires program { IsWellFormed program.now }
    requires fits { Fits program.now table.now }
    ensures { OnOk result (text.new.items ≡ text.old.items ++ compact_text (listed
        (map (context_data program.now (table_of table.now))
        (contexts_of program.now (table_of table.now))))) }
{
    let keys = all_keys(alloc, program)?;
    text.push(b'[')?;
    let start = text.len();
    push_each(text, alloc, program, &keys, table)?;
    close_list(text, start)?;
    Ok(())
}
