//! What is listed of a context: values at entry, and of its states properties, registers and masks.

ghost use Rattle.std.specs.Prelude.{◌≡◌, ◌-◌, ◌∷◌, [], is_some, length, slice_get};
ghost use Rattle.std.specs.Option.{option_map};
ghost use Rattle.serde_json.specs.Data.{string};
ghost use Rattle.ja_cert_json.specs.View.{view};
ghost use Rattle.ja_prim.specs.Texts.{same_text};
ghost use Rattle.ja_graph.specs.WellFormed.{IsWellFormed};
ghost use Rattle.ja_report.specs.Lines.{mask_text, property};
ghost use Rattle.ja_value.specs.Value.{property_of};
ghost use Rattle.ja_cert.specs.Certificate.{line_data};
ghost use Rattle.ja_cert.specs.Wrong.{here_unless, is_behind, is_entry, is_word, mask_words, owned_wrong, pair_number, position_of, value_is};
ghost use Rattle.ja_cert_parts.specs.code.Own.{IsOwnProperty};
ghost use Rattle.ja_cert_parts.specs.code.Parts.{allowed_of};
ghost use Rattle.ja_cert_parts.specs.code.Ranks.{entry_pair, pair_of, property_pair};
ghost use Rattle.ja_cert_parts.specs.code.Reading.{Reads};

use crate::attributes::read_attrs;
use crate::fault::{Fault, at, here_unless};
use crate::members::Member;
use crate::numbers::{key_place, read_key, read_label, read_register, read_site, read_word};
use crate::objects::{list_of_four, list_of_two};
use crate::parts::Role;
use crate::values::read_value;
use crate::within::{InFunction, InProgram};
use ja_abstract::{Key, Mask};
use ja_base::{Label, Site};
use ja_cert_json::Json;
use ja_graph::Program;
use ja_value::{AProp, AValue, label_number};
use std::alloc::Global;

/// The value at entry of a label and a key.
#[derive(Drop)]
pub struct EntryAt {
    pub label: Label,
    pub key: Key,
    pub property: AProp,
}

/// A property.
#[derive(Drop)]
pub struct PropertyAt {
    pub label: Label,
    pub key: Key,
    pub property: AProp,
}

/// A register's value.
#[derive(Drop)]
pub struct RegisterAt {
    pub register: u32,
    pub value: AValue,
}

/// The mask of a site.
#[derive(Clone, Copy)]
pub struct MaskAt {
    pub site: Site,
    pub mask: Mask,
}

/// A label and a key.
#[derive(Clone, Copy)]
pub struct Pair {
    pub label: Label,
    pub key: Key,
}

/// Whether a pair stands behind the last one, if there is one.
fn is_behind(program: &Program, last: Option<Pair>, pair: Pair) -> bool
    requires { IsWellFormed program.now }
    ensures { result
        ≡ is_behind (option_map (pair_of program.now) last) (pair_of program.now pair) }
{
    let Some(last) = last else {
        return true;
    };
    let label = label_number(pair.label);
    let last_label = label_number(last.label);
    let key = key_place(program, pair.key).unwrap_or(0);
    let last_key = key_place(program, last.key).unwrap_or(0);
    last_label < label || (last_label == label && last_key < key)
}

/// Reads a pair, behind the last one, with its property.
fn read_owned(
    rule: &InProgram,
    role: Role,
    last: Option<Pair>,
    value: &Json,
) -> Result<PropertyAt, Fault>
    requires { IsWellFormed rule.now.program.now }
    ensures { let p = rule.now.program.now in let d = view value.now in
        let ascends = is_behind (option_map (pair_of p) last) (pair_number p d) in
        Reads (owned_wrong p (allowed_of role) ascends d)
        (λ q. (line_data p (property q.label q.key (property_of q.property)) ≡ d)
        × IsOwnProperty p q.key (property_of q.property)) result }
{
    let fields = list_of_four(rule.alloc, value)?;
    let label = at(read_label(rule.alloc, rule.program, fields.first), 0)?;
    let key = at(read_key(rule.alloc, rule.program, fields.second), 1)?;
    here_unless(
        rule.alloc,
        is_behind(rule.program, last, Pair { label, key }),
    )?;
    let value = at(read_value(rule.alloc, rule.program, role, fields.third), 2)?;
    let attrs = at(read_attrs(rule.alloc, rule.program, key, fields.fourth), 3)?;
    Ok(PropertyAt {
        label,
        key,
        property: AProp { value, attrs },
    })
}

/// Whether a value is the list of one word.
fn value_is(word: &str, value: &Json) -> bool
    ensures { result ≡ value_is word.now (view value.now) }
{
    match value.as_array() {
        Some(parts) => parts.len() == 1 && is_word(word, &parts[0]),
        None => false,
    }
}

/// Whether a value is a word.
fn is_word(word: &str, value: &Json) -> bool
    ensures { result ≡ is_word (same_text word.now) (view value.now) }
{
    match value.as_str() {
        Some(text) => text == word,
        None => false,
    }
}

/// Whether a property is just as at entry.
fn is_entry(value: &Json) -> bool
    ensures { result ≡ is_entry (view value.now) }
{
    match value.as_array() {
        Some(fields) => {
            if fields.len() != 4 {
                return false;
            }
            value_is("entry", &fields[2]) && is_word("...", &fields[3])
        }
        None => false,
    }
}

/// The last pair of some at entry.
fn last_entry(before: &[EntryAt]) -> Option<Pair>
    ensures { result ≡ option_map entry_pair (slice_get before.now (length before.now - 1)) }
{
    before.last().map(|last| Pair {
        label: last.label,
        key: last.key,
    })
}

impl<'a> Member<InProgram<'a>> for EntryAt {
    ghost use Rattle.ja_graph.specs.WellFormed.{IsWellFormed};
    ghost use Rattle.ja_report.specs.Lines.{entry};
    ghost use Rattle.ja_value.specs.Value.{property_of};
    ghost use Rattle.ja_cert.specs.Certificate.{line_data};
    ghost use Rattle.ja_cert.specs.Wrong.{entry_wrong};
    ghost use Rattle.ja_cert_parts.specs.code.Own.{IsOwnProperty};

    ghost can = { λ rule. IsWellFormed rule.program.now };

    ghost wrong = { λ rule. entry_wrong rule.program.now };

    ghost data = { λ rule e.
        line_data rule.program.now (entry e.label e.key (property_of e.property)) };

    ghost holds = { λ rule e. IsOwnProperty rule.program.now e.key (property_of e.property) };

    fn read(rule: &InProgram<'a>, before: &[EntryAt], value: &Json) -> Result<EntryAt, Fault> {
        let read = read_owned(rule, Role::Entry, last_entry(before), value)?;
        Ok(EntryAt {
            label: read.label,
            key: read.key,
            property: read.property,
        })
    }
}

/// The last pair of some properties.
fn last_property(before: &[PropertyAt]) -> Option<Pair>
    ensures { result ≡ option_map property_pair (slice_get before.now (length before.now - 1)) }
{
    before.last().map(|last| Pair {
        label: last.label,
        key: last.key,
    })
}

impl<'a> Member<InProgram<'a>> for PropertyAt {
    ghost use Rattle.ja_graph.specs.WellFormed.{IsWellFormed};
    ghost use Rattle.ja_report.specs.Lines.{property};
    ghost use Rattle.ja_value.specs.Value.{property_of};
    ghost use Rattle.ja_cert.specs.Certificate.{line_data};
    ghost use Rattle.ja_cert.specs.Wrong.{property_wrong};
    ghost use Rattle.ja_cert_parts.specs.code.Own.{IsOwnProperty};

    ghost can = { λ rule. IsWellFormed rule.program.now };

    ghost wrong = { λ rule. property_wrong rule.program.now };

    ghost data = { λ rule q.
        line_data rule.program.now (property q.label q.key (property_of q.property)) };

    ghost holds = { λ rule q. IsOwnProperty rule.program.now q.key (property_of q.property) };

    fn read(
        rule: &InProgram<'a>,
        before: &[PropertyAt],
        value: &Json,
    ) -> Result<PropertyAt, Fault> {
        let read = read_owned(rule, Role::Property, last_property(before), value)?;
        here_unless(rule.alloc, !is_entry(value))?;
        Ok(read)
    }
}

/// Whether a register stands behind the last one, if there is one.
fn is_register_behind(before: &[RegisterAt], register: u32) -> bool
    ensures { result ≡ is_behind (option_map (λ r. r.register ∷ [])
        (slice_get before.now (length before.now - 1))) (register ∷ []) }
{
    match before.last() {
        Some(last) => last.register < register,
        None => true,
    }
}

impl<'a> Member<InFunction<'a>> for RegisterAt {
    ghost use Rattle.ja_graph.specs.WellFormed.{IsWellFormed};
    ghost use Rattle.ja_report.specs.Lines.{register};
    ghost use Rattle.ja_value.specs.Value.{value_of};
    ghost use Rattle.ja_cert.specs.Certificate.{line_data};
    ghost use Rattle.ja_cert.specs.Wrong.{register_wrong};
    ghost use Rattle.ja_cert_parts.specs.code.Own.{HasOwnLabels};

    ghost can = { λ rule. IsWellFormed rule.program.now };

    ghost wrong = { λ rule. register_wrong rule.program.now rule.function };

    ghost data = { λ rule r.
        line_data rule.program.now (register 0 r.register (value_of r.value)) };

    ghost holds = { λ rule r. HasOwnLabels rule.program.now (value_of r.value) };

    fn read(
        rule: &InFunction<'a>,
        before: &[RegisterAt],
        value: &Json,
    ) -> Result<RegisterAt, Fault> {
        let alloc = rule.alloc;
        let fields = list_of_two(alloc, value)?;
        let register = at(
            read_register(alloc, rule.program, rule.function, fields.first),
            0,
        )?;
        here_unless(alloc, is_register_behind(before, register))?;
        let value = at(
            read_value(alloc, rule.program, Role::Register, fields.second),
            1,
        )?;
        here_unless(alloc, !value_is("undefined", fields.second))?;
        Ok(RegisterAt { register, value })
    }
}

/// Reads a mask: some objects were made, or maybe some.
fn read_mask(alloc: Global, value: &Json) -> Result<Mask, Fault>
    ensures { Reads (here_unless (is_some (position_of mask_words (view value.now))))
        (λ m. string (mask_text m) ≡ view value.now) result }
{
    let place = read_word(alloc, &["some", "maybe"], value)?;
    Ok(Mask {
        none: place == 1,
        some: true,
    })
}

/// Whether a site stands behind the last one, if there is one.
fn is_site_behind(before: &[MaskAt], site: Site) -> bool
    ensures { result ≡ is_behind (option_map (λ m. m.site.0 ∷ [])
        (slice_get before.now (length before.now - 1))) (site.0 ∷ []) }
{
    match before.last() {
        Some(last) => last.site.0 < site.0,
        None => true,
    }
}

impl<'a> Member<InProgram<'a>> for MaskAt {
    ghost use Rattle.ja_graph.specs.WellFormed.{IsWellFormed};
    ghost use Rattle.ja_report.specs.Lines.{alloc};
    ghost use Rattle.ja_cert.specs.Certificate.{line_data};
    ghost use Rattle.ja_cert.specs.Wrong.{mask_wrong};

    ghost can = { λ rule. IsWellFormed rule.program.now };

    ghost wrong = { λ rule. mask_wrong rule.program.now };

    ghost data = { λ rule m. line_data rule.program.now (alloc m.site m.mask) };

    ghost holds = { λ rule member. Unit {0} };

    fn read(rule: &InProgram<'a>, before: &[MaskAt], value: &Json) -> Result<MaskAt, Fault> {
        let fields = list_of_two(rule.alloc, value)?;
        let site = at(read_site(rule.alloc, rule.program, fields.first), 0)?;
        here_unless(rule.alloc, is_site_behind(before, site))?;
        let mask = at(read_mask(rule.alloc, fields.second), 1)?;
        Ok(MaskAt { site, mask })
    }
}
