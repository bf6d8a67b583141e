//! Devices: names, and the kinds of answers.

ghost use Rattle.std.specs.Prelude.{◌≡◌, [], ◌∷◌, not, map};
ghost use Rattle.std.specs.List.{list_all, list_any};
ghost use Rattle.serde_json.specs.Data.{string};
ghost use Rattle.ja_cert_json.specs.View.{view};
ghost use Rattle.ja_prim.specs.Characters.{is_part as is_part_spec};
ghost use Rattle.ja_prim.specs.Texts.{same_text};
ghost use Rattle.ja_device.specs.Signatures as signatures;
ghost use Rattle.ja_report.specs.Report.{kind_parts};
ghost use Rattle.ja_cert.specs.Certificate.{device_data, listed};
ghost use Rattle.ja_cert.specs.Wrong.{device_name_is, here_unless, is_empty_list, is_word, kind_wrong, list_wrong, or_else};
ghost use Rattle.ja_cert_read.specs.code.Devices.{has_kind as has_kind_spec, kind_at, kind_place, kind_rank, kinds_in};
ghost use Rattle.ja_cert_read.specs.code.Orders.{comes_behind};
ghost use Rattle.ja_cert_parts.specs.code.Reading.{Reads};

use ja_cert_json::Json;
use ja_cert_parts::{Fault, Member, at, here, here_unless, list, read_list, read_word};
use ja_graph::MAX_DEVICES;
use ja_prim::{Kinds, Signature, Text16};
use std::alloc::Global;

// ---- kinds

/// A kind of answers.
#[derive(Clone, Copy)]
pub(crate) enum Kind {
    Undefined,
    Null,
    Boolean,
    Number,
    Text,
}

/// The words of kinds, in order.
const KIND_WORDS: [&str; 5] = ["undefined", "null", "boolean", "number", "string"];

/// The place of a kind in their order.
fn place(kind: Kind) -> u32
    ensures { result ≡ kind_place kind }
{
    match kind {
        Kind::Undefined => 0,
        Kind::Null => 1,
        Kind::Boolean => 2,
        Kind::Number => 3,
        Kind::Text => 4,
    }
}

/// The kind at a place in their order.
fn kind_at(place: usize) -> Kind
    ensures { result ≡ kind_at place }
{
    match place {
        0 => Kind::Undefined,
        1 => Kind::Null,
        2 => Kind::Boolean,
        3 => Kind::Number,
        _ => Kind::Text,
    }
}

/// Whether a kind comes behind those before it.
fn is_behind(before: &[Kind], kind: Kind) -> bool
    ensures { result ≡ comes_behind kind_rank before.now (kind_place kind ∷ []) }
{
    match before.last() {
        Some(last) => place(*last) < place(kind),
        None => true,
    }
}

impl Member<Global> for Kind {
    ghost use Rattle.ja_cert.specs.Wrong.{kind_wrong};
    ghost use Rattle.ja_cert_read.specs.code.Devices.{kind_data};

    ghost can = { λ rule. Unit {0} };

    ghost wrong = { λ rule. kind_wrong };

    ghost data = { λ rule. kind_data };

    ghost holds = { λ rule member. Unit {0} };

    fn read(rule: &Global, before: &[Kind], value: &Json) -> Result<Kind, Fault> {
        let place = read_word(*rule, &KIND_WORDS, value)?;
        let kind = kind_at(place);
        here_unless(*rule, is_behind(before, kind))?;
        Ok(kind)
    }
}

/// Whether a kind is among some.
fn has_kind(kinds: &[Kind], kind: Kind) -> bool
    ensures { result ≡ has_kind_spec kinds.now kind }
{
    kinds.iter().any(|other| place(*other) == place(kind))
}

/// The kinds of a list.
fn kinds_of(list: &[Kind]) -> Kinds
    ensures { result ≡ kinds_in list.now }
{
    Kinds {
        undefined: has_kind(list, Kind::Undefined),
        null: has_kind(list, Kind::Null),
        boolean: has_kind(list, Kind::Boolean),
        number: has_kind(list, Kind::Number),
        text: has_kind(list, Kind::Text),
    }
}

/// Whether a value is an empty list.
fn is_empty_list(value: &Json) -> bool
    ensures { result ≡ is_empty_list (view value.now) }
{
    match value.as_array() {
        Some(values) => values.is_empty(),
        None => false,
    }
}

/// Reads kinds of answers, which aren't none.
fn read_kinds(alloc: Global, value: &Json) -> Result<Kinds, Fault>
    ensures { Reads (or_else (here_unless (not (is_empty_list (view value.now))))
        (list_wrong kind_wrong (view value.now)))
        (λ kinds. listed (map string (kind_parts kinds)) ≡ view value.now) result }
{
    here_unless(alloc, !is_empty_list(value))?;
    let kinds: Vec<Kind> = read_list(alloc, &alloc, value)?;
    Ok(kinds_of(&kinds))
}

// ---- names

/// Whether identifiers are made of a character: a letter, a digit, `_` or `$`.
#[tactic(auto, unfolding(ja_prim::specs::Characters::is_part))]
fn is_part(c: u8) -> bool
    ensures { result ≡ is_part_spec c }
{
    c.is_ascii_alphanumeric() || c == b'_' || c == b'$'
}

/// Whether identifiers are made of each of these characters.
fn all_parts(name: &[u8]) -> bool
    ensures { result ≡ list_all is_part_spec name.now }
{
    for c in name {
        if !is_part(*c) {
            return false;
        }
    }
    true
}

/// Whether a name is an ASCII identifier of 1 to 64 characters.
fn is_identifier(name: &[u8]) -> bool
    ensures { result ≡ signatures.is_identifier name.now }
{
    match name.first() {
        Some(first) => !first.is_ascii_digit() && all_parts(name) && name.len() <= 64,
        None => false,
    }
}

/// Whether a device has this name.
fn has_name(before: &[Signature], name: &Text16) -> bool
    ensures { result ≡ list_any (λ s. same_text name.now s.name) before.now }
{
    before
        .iter()
        .any(|device| name.units() == device.name.units())
}

/// Reads the name of a device, which none of those before it has.
fn read_name(alloc: Global, before: &[Signature], value: &Json) -> Result<Text16, Fault>
    ensures { Reads (here_unless (is_word (device_name_is (map device_data before.now))
        (view value.now))) (λ name. string name ≡ view value.now) result }
{
    let Some(word) = value.as_str() else {
        return Err(here(alloc));
    };
    if !is_identifier(word.as_bytes()) {
        return Err(here(alloc));
    }
    let name = Text16::from_ascii(alloc, word.as_bytes())?;
    here_unless(alloc, !has_name(before, &name))?;
    Ok(name)
}

// ---- devices

/// The list of a program's devices.
#[derive(Clone, Copy)]
pub(crate) struct Devices {
    pub alloc: Global,
}

impl Member<Devices> for Signature {
    ghost use Rattle.ja_cert.specs.Certificate.{device_data};
    ghost use Rattle.ja_cert.specs.Wrong.{device_wrong};

    ghost can = { λ rule. Unit {0} };

    ghost wrong = { λ rule. device_wrong };

    ghost data = { λ rule. device_data };

    ghost holds = { λ rule member. Unit {0} };

    fn read(rule: &Devices, before: &[Signature], value: &Json) -> Result<Signature, Fault> {
        let alloc = rule.alloc;
        here_unless(alloc, before.len() < MAX_DEVICES)?;
        let [name, kinds] = list(alloc, value)? else {
            return Err(here(alloc));
        };
        let name = at(read_name(alloc, before, name), 0)?;
        let kinds = at(read_kinds(alloc, kinds), 1)?;
        Ok(Signature { name, kinds })
    }
}
