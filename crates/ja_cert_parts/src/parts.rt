//! The parts of values. A value is a list of them, in ascending order by rank.

ghost use Rattle.std.specs.Prelude.{◌≡◌, ◌+◌, ◌<◌, ◌∷◌, [], slice_index_or};
ghost use Rattle.serde_json.specs.Data.{string};
ghost use Rattle.ja_cert_json.specs.View.{view};
ghost use Rattle.ja_graph.specs.WellFormed.{IsWellFormed};
ghost use Rattle.ja_abstract.specs.AbstractState.{label_number};
ghost use Rattle.ja_cert.specs.Certificate.{number_words, text_words};
ghost use Rattle.ja_cert.specs.Wrong.{flag_words, is_behind, number_classes, part_rank, text_classes, word_rank};
ghost use Rattle.ja_cert_parts.specs.code.Parts.{allowed_of, flag_rank, flag_word, last_rank, may_follow, named_rank, rank_of, ReadsPart};

use crate::fault::{Fault, here, here_unless};
use crate::members::Member;
use crate::numbers::read_label;
use crate::words::{position, read_number, read_text};
use ja_abstract::{NumberPart, TextPart};
use ja_base::Label;
use ja_cert_json::Json;
use ja_graph::Program;
use ja_value::label_number;
use std::alloc::Global;

/// A flag of a value.
#[derive(Clone, Copy)]
pub enum Flag {
    Absent,
    Entry,
    Row,
    Undefined,
    Null,
    True,
    False,
    NaN,
}

/// A part of a value: a flag, its number part or its text part, which are something, or a label.
#[derive(Drop)]
pub enum Part {
    Flag(Flag),
    Number(NumberPart),
    Text(TextPart),
    Label(Label),
}

/// What a value is of: a register, which has no part of a property, a pair at entry, which isn't
/// as at entry, or a property.
#[derive(Clone, Copy)]
pub enum Role {
    Register,
    Entry,
    Property,
}

impl Role {
    /// Whether a value may have the parts of a rank.
    fn allows(self, rank: u64) -> bool
        ensures { result ≡ allowed_of self rank }
    {
        match self {
            Role::Register => 3 <= rank,
            Role::Entry => rank != 1,
            Role::Property => true,
        }
    }
}

/// How the parts of a value are read.
#[derive(Clone, Copy)]
pub struct OfValue<'a> {
    pub alloc: Global,
    pub program: &'a Program,
    pub role: Role,
}

/// The place of a flag in the order of parts.
pub fn flag_rank(flag: Flag) -> u64
    ensures { result ≡ flag_rank flag }
{
    match flag {
        Flag::Absent => 0,
        Flag::Entry => 1,
        Flag::Row => 2,
        Flag::Undefined => 3,
        Flag::Null => 4,
        Flag::True => 5,
        Flag::False => 6,
        Flag::NaN => 7,
    }
}

/// The place of a label in the order of parts.
fn rank_of_label(label: Label) -> u64
    ensures { result ≡ 10 + label_number label }
{
    10 + label_number(label)
}

/// The place of a part in the order of parts.
pub fn rank(part: &Part) -> u64
    ensures { result ≡ rank_of part.now }
{
    match part {
        Part::Flag(flag) => flag_rank(*flag),
        Part::Number(_) => 8,
        Part::Text(_) => 9,
        Part::Label(label) => rank_of_label(*label),
    }
}

/// The words for flags, in order.
const FLAG_WORDS: [&str; 8] = [
    "absent",
    "entry",
    "row",
    "undefined",
    "null",
    "true",
    "false",
    "nan",
];

/// The flag of a word by its position.
fn flag_at(place: usize) -> Flag
    requires { place < 8 }
    ensures word { flag_word result ≡ slice_index_or flag_words place [] }
    ensures rank { flag_rank result ≡ place }
{
    match place {
        0 => Flag::Absent,
        1 => Flag::Entry,
        2 => Flag::Row,
        3 => Flag::Undefined,
        4 => Flag::Null,
        5 => Flag::True,
        6 => Flag::False,
        _ => Flag::NaN,
    }
}

/// The class of numbers of a word by its position.
fn number_at(place: usize) -> NumberPart
    requires { place < 3 }
    ensures { number_words result ≡ slice_index_or number_classes place [] ∷ [] }
{
    match place {
        0 => NumberPart::Index,
        1 => NumberPart::OtherWhole,
        _ => NumberPart::Whole,
    }
}

/// The class of texts of a word by its position.
fn text_at(place: usize) -> TextPart
    requires { place < 3 }
    ensures { text_words result ≡ slice_index_or text_classes place [] ∷ [] }
{
    match place {
        0 => TextPart::IndexText,
        1 => TextPart::OtherText,
        _ => TextPart::Text,
    }
}

/// Reads a class of numbers or of texts, or a flag.
fn read_named(alloc: Global, word: &str) -> Result<Part, Fault>
    ensures { ReadsPart (named_rank word.now) (string word.now) result }
{
    if let Some(place) = position(&["index", "otherwhole", "whole"], word) {
        return Ok(Part::Number(number_at(place)));
    }
    if let Some(place) = position(&["indextext", "othertext", "text"], word) {
        return Ok(Part::Text(text_at(place)));
    }
    match position(&FLAG_WORDS, word) {
        Some(place) => Ok(Part::Flag(flag_at(place))),
        None => Err(here(alloc)),
    }
}

/// Reads a part that is a word.
fn read_word_part(alloc: Global, word: &str) -> Result<Part, Fault>
    ensures { ReadsPart (word_rank word.now) (string word.now) result }
{
    let Some((first, rest)) = word.as_bytes().split_first() else {
        return Err(here(alloc));
    };
    if *first == b'=' {
        let number = read_number(alloc, rest)?;
        return Ok(Part::Number(NumberPart::One(number)));
    }
    if *first == b'\'' {
        let text = read_text(alloc, rest)?;
        return Ok(Part::Text(TextPart::One(text)));
    }
    read_named(alloc, word)
}

/// Reads a part.
fn read_part(alloc: Global, program: &Program, value: &Json) -> Result<Part, Fault>
    requires { IsWellFormed program.now }
    ensures { ReadsPart (part_rank program.now (view value.now)) (view value.now) result }
{
    if let Some(word) = value.as_str() {
        return read_word_part(alloc, word);
    }
    let label = read_label(alloc, program, value)?;
    Ok(Part::Label(label))
}

/// Whether a part stands behind the last one of some.
fn is_behind(before: &[Part], place: u64) -> bool
    ensures { result ≡ is_behind (last_rank before.now) (place ∷ []) }
{
    match before.last() {
        Some(last) => rank(last) < place,
        None => true,
    }
}

/// Whether a value that begins with some parts may have a part of this rank next.
fn may_follow(role: Role, before: &[Part], rank: u64) -> bool
    ensures { result ≡ may_follow (allowed_of role) before.now rank }
{
    role.allows(rank) && is_behind(before, rank)
}

impl<'a> Member<OfValue<'a>> for Part {
    ghost use Rattle.ja_graph.specs.WellFormed.{IsWellFormed};
    ghost use Rattle.ja_cert.specs.Wrong.{part_wrong};
    ghost use Rattle.ja_cert_parts.specs.code.Parts.{allowed_of, part_data};

    ghost can = { λ rule. IsWellFormed rule.program.now };

    ghost wrong = { λ rule. part_wrong rule.program.now (allowed_of rule.role) };

    ghost data = { λ rule. part_data };

    ghost holds = { λ rule member. Unit {0} };

    fn read(rule: &OfValue<'a>, before: &[Part], value: &Json) -> Result<Part, Fault> {
        let part = read_part(rule.alloc, rule.program, value)?;
        here_unless(rule.alloc, may_follow(rule.role, before, rank(&part)))?;
        Ok(part)
    }
}
