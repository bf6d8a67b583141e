//! What is tested and not proved: rows of standard input, each a kind and a text, are printed with
//! their answers.
#![tactic(auto)]

mod built_ins;
mod graphs;
mod listings;
mod lists;
mod names;
mod out;
mod primitives;
mod programs;
mod renaming;
mod reports;
mod row;
mod states;
mod streams;
mod tokens;
mod trees;
mod values;
mod well_formed;

use out::Out;
use row::text_of;

/// Answers a row: one of a value, a source or a sink, a listing, a program, calls, or else a tree.
fn answer(out: &mut Out, kind: &str, text: &str) {
    match kind {
        "tokens" => tokens::tokens_of(out, text),
        "number" => primitives::number_of(out, text),
        "text" => primitives::text_of(out, text),
        "sum" => primitives::of_values(out, "+", text),
        "calculation" => primitives::operation(out, text),
        "comparison" => primitives::comparison(out, text),
        "index" => primitives::index_of(out, text),
        "read" => streams::read(out, text),
        "sure-read" => streams::surely_read(out, text),
        "write" => streams::write(out, text),
        "sure-write" => streams::surely_write(out, text),
        "edges" => listings::edges(out, text),
        "program" => programs::of_text(out, kind, text),
        "budget" => programs::of_text(out, kind, text),
        "calls" => calls(out, text),
        _ => trees::of_text(out, kind, text),
    }
}

/// Answers a row of calls; those about a program are about the one of the empty text.
fn calls(out: &mut Out, topic: &str) {
    match topic {
        "renamed nodes" => renaming::renamed_nodes(out),
        "values" => values::values(out),
        "shared lists" => lists::lists(out),
        "abstract states" => states::states(out),
        _ => programs::of_text(out, topic, ""),
    }
}

/// Prints a row with its answer. A row of no kind, as one that begins with `#`, is printed alone.
fn line(out: &mut Out, row: &str) {
    out.put(row);
    if let Some((kind, text)) = row.split_once(": ") {
        let text = text_of(out.alloc, text);
        out.put(" -> ");
        answer(out, kind, text.as_str());
    }
}

fn main(rt: HostRuntime) {
    for row in rt.lines(rt.alloc()) {
        let mut out = Out::new(rt.alloc());
        if let Ok(row) = row {
            line(&mut out, row.as_str());
        }
        let _ = println!(rt; "{}", out.text);
    }
}
