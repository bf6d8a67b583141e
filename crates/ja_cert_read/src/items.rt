//! Visits.

ghost use Rattle.std.specs.Prelude.{◌≡◌, [], ◌∷◌, Some, map};
ghost use Rattle.serde_json.specs.Data.{string};
ghost use Rattle.ja_cert_json.specs.View.{view};
ghost use Rattle.ja_graph.specs.WellFormed.{IsWellFormed};
ghost use Rattle.ja_cert.specs.Certificate.{edge_data, item_data, label_data, listed, whole};
ghost use Rattle.ja_cert.specs.Wrong.{along_wrong, behind_word_wrong, step_wrong};
ghost use Rattle.ja_cert_read.specs.code.Items.{item_word};
ghost use Rattle.ja_cert_parts.specs.code.Reading.{Reads};

use crate::edges::read_edge;
use ja_base::{Context, NodeId};
use ja_cert_json::Json;
use ja_cert_parts::{
    Fault, Member, at, here, here_unless, list, read_function, read_label, read_node, read_word,
};
use ja_graph::Program;
use ja_rows::{Edge, Item};
use std::alloc::Global;

/// The list of visits of a program.
#[derive(Clone, Copy)]
pub(crate) struct Visits<'a> {
    pub alloc: Global,
    pub program: &'a Program,
}

/// The words with which visits begin.
const ITEM_WORDS: [&str; 4] = ["open", "step", "fill", "back"];

/// Reads what is behind the word of a step: a node of a context.
fn read_step(alloc: Global, program: &Program, values: &[Json]) -> Result<(Context, NodeId), Fault>
    requires { IsWellFormed program.now }
    ensures { Reads (step_wrong program.now (map view values.now))
        (λ s. whole s.0.function.0 ∷ label_data s.0.receiver ∷ whole s.1.0 ∷ []
        ≡ map view values.now) result }
{
    let [function, receiver, node] = values else {
        return Err(here(alloc));
    };
    let function = at(read_function(alloc, program, function), 1)?;
    let receiver = at(read_label(alloc, program, receiver), 2)?;
    let node = at(read_node(alloc, program, function, node), 3)?;
    Ok((Context { function, receiver }, node))
}

/// Reads what is behind the word of a visit along an edge.
fn read_along(alloc: Global, program: &Program, values: &[Json]) -> Result<Edge, Fault>
    requires { IsWellFormed program.now }
    ensures { Reads (along_wrong program.now (map view values.now))
        (λ e. edge_data e ∷ [] ≡ map view values.now) result }
{
    let [edge] = values else {
        return Err(here(alloc));
    };
    at(read_edge(alloc, program, edge), 1)
}

/// Reads what is behind the word of a place.
fn read_behind(
    alloc: Global,
    program: &Program,
    place: usize,
    values: &[Json],
) -> Result<Item, Fault>
    requires { IsWellFormed program.now }
    ensures { Reads (behind_word_wrong program.now (Some place) (map view values.now))
        (λ i. item_data i ≡ listed (string (item_word place) ∷ map view values.now)) result }
{
    match place {
        0 => {
            here_unless(alloc, values.is_empty())?;
            Ok(Item::Open)
        }
        1 => {
            let (context, node) = read_step(alloc, program, values)?;
            Ok(Item::Step { context, node })
        }
        2 => {
            let edge = read_along(alloc, program, values)?;
            Ok(Item::Fill(edge))
        }
        _ => {
            let edge = read_along(alloc, program, values)?;
            Ok(Item::Back(edge))
        }
    }
}

impl<'a> Member<Visits<'a>> for Item {
    ghost use Rattle.ja_graph.specs.WellFormed.{IsWellFormed};
    ghost use Rattle.ja_cert.specs.Certificate.{item_data};
    ghost use Rattle.ja_cert.specs.Wrong.{item_wrong};

    ghost can = { λ rule. IsWellFormed rule.program.now };

    ghost wrong = { λ rule. item_wrong rule.program.now };

    ghost data = { λ rule. item_data };

    ghost holds = { λ rule member. Unit {0} };

    fn read(rule: &Visits<'a>, _before: &[Item], value: &Json) -> Result<Item, Fault> {
        let Some((word, values)) = list(rule.alloc, value)?.split_first() else {
            return Err(here(rule.alloc));
        };
        let place = at(read_word(rule.alloc, &ITEM_WORDS, word), 0)?;
        read_behind(rule.alloc, rule.program, place, values)
    }
}
