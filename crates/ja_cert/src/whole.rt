//! The certificate of a table, as it is written.

ghost use Rattle.std.specs.Prelude.{◌≡◌, ◌++◌, OnOk, IfOk, map};
ghost use Rattle.serde_json.specs.Written.{compact_text};
ghost use Rattle.ja_graph.specs.WellFormed.{IsWellFormed};
ghost use Rattle.ja_device.specs.Signatures.{AreSignatures};
ghost use Rattle.ja_rows.specs.Listed.{edges_of};
ghost use Rattle.ja_table.specs.declared.table.CallEdge.{CallEdge as Kept};
ghost use Rattle.ja_table.specs.Tables.{table_of, Fits};
ghost use Rattle.ja_cert.specs.Certificate.{certificate_text, device_data, edge_data, item_data, listed};
ghost use Rattle.ja_cert.specs.code.Writing.{certificate_front, with_commas};

use crate::data;
use crate::pieces::{close_list, push_member, push_value};
use crate::write_contexts::push_contexts;
use ja_base::Memory;
use ja_graph::Program;
use ja_prim::Signature;
use ja_rows::Item;
use ja_table::{ATable, CallEdge};
use serde_json::Value;
use std::alloc::Global;

// ---- devices

#[tactic(auto, using(crate::proofs::Rulesets::for_loops))]
fn push_each_device(
    text: &mut Vec<u8>,
    alloc: Global,
    signatures: &[Signature],
) -> Result<(), Memory>
    requires { AreSignatures signatures.now }
    ensures { OnOk result (text.new.items ≡ text.old.items
        ++ with_commas (map device_data signatures.now)) }
{
    for signature in signatures {
        let device = data::device(alloc, signature)?;
        push_member(text, alloc, device)?;
    }
    Ok(())
}

/// Writes the list of the devices of a program.
fn push_devices(text: &mut Vec<u8>, alloc: Global, signatures: &[Signature]) -> Result<(), Memory>
    requires { AreSignatures signatures.now }
    ensures { OnOk result (text.new.items ≡ text.old.items
        ++ compact_text (listed (map device_data signatures.now))) }
{
    text.push(b'[')?;
    let start = text.len();
    push_each_device(text, alloc, signatures)?;
    close_list(text, start)?;
    Ok(())
}

// ---- edges

#[tactic(auto, using(crate::proofs::Rulesets::for_loops))]
fn push_each_edge(text: &mut Vec<u8>, alloc: Global, edges: &[CallEdge]) -> Result<(), Memory>
    ensures { OnOk result (text.new.items ≡ text.old.items
        ++ with_commas (map (λ (e : Kept). edge_data e.edge) edges.now)) }
{
    for kept in edges {
        let edge = data::edge(alloc, kept.edge)?;
        push_member(text, alloc, edge)?;
    }
    Ok(())
}

/// Writes the list of the call edges of a table.
fn push_edges(
    text: &mut Vec<u8>,
    alloc: Global,
    program: &Program,
    table: &ATable,
) -> Result<(), Memory>
    requires program { IsWellFormed program.now }
    requires fits { Fits program.now table.now }
    ensures { OnOk result (text.new.items ≡ text.old.items ++ compact_text
        (listed (map edge_data (edges_of program.now (table_of table.now))))) }
{
    text.push(b'[')?;
    let start = text.len();
    push_each_edge(text, alloc, &table.edges)?;
    close_list(text, start)?;
    Ok(())
}

// ---- visits

#[tactic(auto, using(crate::proofs::Rulesets::for_loops))]
fn push_each_visit(text: &mut Vec<u8>, alloc: Global, visits: &[Item]) -> Result<(), Memory>
    ensures { OnOk result (text.new.items ≡ text.old.items
        ++ with_commas (map item_data visits.now)) }
{
    for visit in visits {
        let item = data::item(alloc, *visit)?;
        push_member(text, alloc, item)?;
    }
    Ok(())
}

/// Writes the list of visits.
fn push_visits(text: &mut Vec<u8>, alloc: Global, visits: &[Item]) -> Result<(), Memory>
    ensures { OnOk result (text.new.items ≡ text.old.items
        ++ compact_text (listed (map item_data visits.now))) }
{
    text.push(b'[')?;
    let start = text.len();
    push_each_visit(text, alloc, visits)?;
    close_list(text, start)?;
    Ok(())
}

// ---- the whole

/// Writes what stands in a certificate before its text.
fn push_table(
    text: &mut Vec<u8>,
    alloc: Global,
    program: &Program,
    table: &ATable,
) -> Result<(), Memory>
    requires program { IsWellFormed program.now }
    requires devices { AreSignatures program.now.signatures }
    requires fits { Fits program.now table.now }
    ensures { OnOk result (text.new.items ≡ text.old.items ++ certificate_front program.now
        (table_of table.now)) }
{
    text.extend_from_slice(b"{\"contexts\":")?;
    push_contexts(text, alloc, program, table)?;
    text.extend_from_slice(b",\"devices\":")?;
    push_devices(text, alloc, program.signatures())?;
    text.extend_from_slice(b",\"edges\":")?;
    push_edges(text, alloc, program, table)?;
    Ok(())
}

/// The certificate of a table, and of the visits that built it: a JSON object (RFC 8259) on one
/// line, without a space.
pub fn write(
    alloc: Global,
    program: &Program,
    table: &ATable,
    visits: &[Item],
) -> Result<Vec<u8>, Memory>
    requires program { IsWellFormed program.now }
    requires devices { AreSignatures program.now.signatures }
    requires fits { Fits program.now table.now }
    ensures { IfOk result (λ text. text.items
        ≡ certificate_text program.now (table_of table.now) visits.now) }
{
    let mut text = Vec::new(alloc);
    push_table(&mut text, alloc, program, table)?;
    text.extend_from_slice(b",\"text\":")?;
    push_value(
        &mut text,
        alloc,
        Value::try_from_str(alloc, program.text.as_str())?,
    )?;
    text.extend_from_slice(b",\"version\":1,\"visits\":")?;
    push_visits(&mut text, alloc, visits)?;
    text.extend_from_slice(b"}\n")?;
    Ok(text)
}
