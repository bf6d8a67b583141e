//! Numbers: of functions, nodes, registers and sites, labels and keys, and words by position.

ghost use Rattle.std.specs.Prelude.{◌≡◌, ◌+◌, ◌*◌, ◌<◌, [], Some, is_some, length, map, slice_index_or};
ghost use Rattle.serde_json.specs.Data.{string};
ghost use Rattle.ja_cert_json.specs.View.{view};
ghost use Rattle.ja_graph.specs.declared.program.Program.{Program};
ghost use Rattle.ja_graph.specs.Program.{nodes_of};
ghost use Rattle.ja_graph.specs.WellFormed.{IsWellFormed};
ghost use Rattle.ja_machine.specs.Frames.{registers_of};
ghost use Rattle.ja_abstract.specs.AbstractState.{label_number};
ghost use Rattle.ja_cert.specs.Certificate.{whole, label_data, key_data};
ghost use Rattle.ja_cert.specs.Wrong.{here_unless, is_below, is_function, is_label, key_rank, key_words, position_of};
ghost use Rattle.ja_cert_parts.specs.code.Reading.{Reads};
ghost use Rattle.ja_cert_parts.specs.code.Ranks.{key_place};

use crate::fault::{Fault, here, here_unless};
use crate::words::position;
use ja_abstract::{Key, Slot};
use ja_base::{FnId, Label, NameId, NodeId, Site};
use ja_cert_json::Json;
use ja_graph::Program;
use ja_value::label_at;
use std::alloc::Global;

/// Reads a number below a bound.
pub fn read_below(alloc: Global, bound: u64, value: &Json) -> Result<u64, Fault>
    ensures { Reads (here_unless (is_below bound (view value.now)))
        (λ n. (whole n ≡ view value.now) × (n < bound)) result }
{
    let Some(number) = value.as_u64() else {
        return Err(here(alloc));
    };
    here_unless(alloc, number < bound)?;
    Ok(number)
}

/// How many nodes a function has.
fn node_count(program: &Program, function: FnId) -> u64
    ensures { result ≡ length (nodes_of program.now function) }
{
    match program.functions.as_slice().get(function.0 as usize) {
        Some(function) => function.nodes.len() as u64,
        None => 0,
    }
}

/// How many registers a function has.
fn register_count(program: &Program, function: FnId) -> u32
    ensures { result ≡ registers_of program.now function }
{
    match program.functions.as_slice().get(function.0 as usize) {
        Some(function) => function.registers,
        None => 0,
    }
}

/// Reads a function's number.
#[tactic(auto, using(crate::proofs::NumberLemmas::few_functions))]
pub fn read_function(alloc: Global, program: &Program, value: &Json) -> Result<FnId, Fault>
    requires { IsWellFormed program.now }
    ensures { Reads (here_unless (is_function program.now (view value.now)))
        (λ f. (whole f.0 ≡ view value.now) × (f.0 < length program.now.functions)) result }
{
    let number = read_below(alloc, program.functions.len() as u64, value)?;
    Ok(FnId(number as u32))
}

/// Reads the number of a node of a function.
#[tactic(auto, using(crate::proofs::NumberLemmas::few_nodes))]
pub fn read_node(
    alloc: Global,
    program: &Program,
    function: FnId,
    value: &Json,
) -> Result<NodeId, Fault>
    requires { IsWellFormed program.now }
    ensures { Reads (here_unless (is_below (length (nodes_of program.now function))
        (view value.now))) (λ n. (whole n.0 ≡ view value.now)
        × (n.0 < length (nodes_of program.now function))) result }
{
    let number = read_below(alloc, node_count(program, function), value)?;
    Ok(NodeId(number as u32))
}

/// Reads the number of a register of a function.
pub fn read_register(
    alloc: Global,
    program: &Program,
    function: FnId,
    value: &Json,
) -> Result<u32, Fault>
    ensures { Reads (here_unless (is_below (registers_of program.now function) (view value.now)))
        (λ r. (whole r ≡ view value.now) × (r < registers_of program.now function)) result }
{
    let number = read_below(alloc, u64::from(register_count(program, function)), value)?;
    Ok(number as u32)
}

/// Reads a site's number.
pub fn read_site(alloc: Global, program: &Program, value: &Json) -> Result<Site, Fault>
    requires { IsWellFormed program.now }
    ensures { Reads (here_unless (is_below (length program.now.sites) (view value.now)))
        (λ s. (whole s.0 ≡ view value.now) × (s.0 < length program.now.sites)) result }
{
    let number = read_below(alloc, program.sites.len() as u64, value)?;
    Ok(Site(number as u32))
}

/// Reads a label's number.
pub fn read_label(alloc: Global, program: &Program, value: &Json) -> Result<Label, Fault>
    requires { IsWellFormed program.now }
    ensures { Reads (here_unless (is_label program.now (view value.now)))
        (λ l. (label_data l ≡ view value.now)
        × (label_number l < 2 * length program.now.sites)) result }
{
    let number = read_below(alloc, 2 * program.sites.len() as u64, value)?;
    Ok(label_at(number))
}

/// Reads a word by its position among some.
pub fn read_word(alloc: Global, words: &[&'static str], value: &Json) -> Result<usize, Fault>
    ensures { let words = map (λ w. w.now) words.now in
        Reads (here_unless (is_some (position_of words (view value.now))))
        (λ n. position_of words (view value.now) ≡ Some n) result }
{
    let Some(word) = value.as_str() else {
        return Err(here(alloc));
    };
    match position(words, word) {
        Some(number) => Ok(number),
        None => Err(here(alloc)),
    }
}

/// The place of a key in the order of a program's keys, if it is one of them.
pub fn key_place(program: &Program, key: Key) -> Option<u64>
    requires { IsWellFormed program.now }
    ensures { result ≡ key_place program.now key }
{
    let names = program.names.len() as u64;
    match key {
        Key::Name(name) => {
            let number = u64::from(name.0);
            if number < names { Some(number) } else { None }
        }
        Key::OtherIndex => Some(names),
        Key::OtherName => Some(names + 1),
        Key::Slot(Slot::Prototype) => Some(names + 2),
        Key::Slot(Slot::Outer) => Some(names + 3),
        Key::Slot(Slot::Scope) => Some(names + 4),
        Key::Slot(Slot::Value) => Some(names + 5),
    }
}

/// The words for keys that are no names, in order.
const KEY_WORDS: [&str; 6] = ["index", "other", "prototype", "outer", "scope", "value"];

/// The key of a word by its position.
fn key_at(place: usize) -> Key
    requires { place < 6 }
    ensures word { key_data result ≡ string (slice_index_or key_words place []) }
    ensures place { (p : Program) → key_place p result ≡ Some (length p.names + place) }
{
    match place {
        0 => Key::OtherIndex,
        1 => Key::OtherName,
        2 => Key::Slot(Slot::Prototype),
        3 => Key::Slot(Slot::Outer),
        4 => Key::Slot(Slot::Scope),
        _ => Key::Slot(Slot::Value),
    }
}

/// Reads a key: the number of a name, or a word.
pub fn read_key(alloc: Global, program: &Program, value: &Json) -> Result<Key, Fault>
    requires { IsWellFormed program.now }
    ensures { Reads (here_unless (is_some (key_rank program.now (view value.now))))
        (λ k. (key_data k ≡ view value.now)
        × (key_rank program.now (view value.now) ≡ key_place program.now k)) result }
{
    if value.is_u64() {
        let name = read_below(alloc, program.names.len() as u64, value)?;
        return Ok(Key::Name(NameId(name as u32)));
    }
    let place = read_word(alloc, &KEY_WORDS, value)?;
    Ok(key_at(place))
}
