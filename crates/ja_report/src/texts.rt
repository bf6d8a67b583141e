//! Writers of the texts of names, keys, labels and attributes. Each adds to what was written.

ghost use Rattle.std.specs.Prelude.{◌≡◌, ◌∷◌, ◌++◌, OnOk, decimal};
ghost use Rattle.std.specs.Option.{option_map};
ghost use Rattle.std.specs.List.{list_all};
ghost use Rattle.ja_prim.specs.Characters.{is_digit};
ghost use Rattle.ja_report.specs.Texts.{is_name_unit, is_bare, name_text, slot_text, key_text, device_of, device_text, site_text, label_text, register_text, later_register_text, attr_text, attrs_text, numbered_site};

use ja_abstract::{AAttrs, Key, May, Slot};
use ja_base::{Label, Memory, Site};
use ja_graph::{BUILTIN_CLASSES, Program};
use ja_prim::Signature;
use ja_texts::{push_number, push_plain, push_quoted, push_units};

fn is_digit(unit: u16) -> bool
    ensures { result ≡ is_digit unit }
{
    48 <= unit && unit <= 57
}

/// Whether a unit is an ASCII letter or digit, `_` or `$`.
fn is_name_unit(unit: u16) -> bool
    ensures { result ≡ is_name_unit unit }
{
    let upper = 65 <= unit && unit <= 90;
    let lower = 97 <= unit && unit <= 122;
    upper | lower | is_digit(unit) | (unit == 95) | (unit == 36)
}

fn are_name_units(units: &[u16]) -> bool
    ensures { result ≡ list_all is_name_unit units.now }
{
    units.iter().all(|unit| is_name_unit(*unit))
}

/// Whether a name needs no quotes.
#[tactic(auto, unfolding(crate::specs::Texts::is_bare))]
fn is_bare(units: &[u16]) -> bool
    ensures { result ≡ is_bare units.now }
{
    match units.first() {
        None => false,
        Some(first) => !is_digit(*first) && are_name_units(units),
    }
}

#[tactic(auto, using(crate::proofs::NameLemmas::bare_text), unfolding(crate::specs::Texts::name_text))]
fn push_name(text: &mut Vec<u8>, name: &[u16]) -> Result<(), Memory>
    ensures { OnOk result (text.new.items ≡ text.old.items ++ name_text name.now) }
{
    if is_bare(name) {
        push_units(text, name)?;
    } else {
        push_quoted(text, name)?;
    }
    Ok(())
}

fn slot_text(slot: Slot) -> &'static [u8]
    ensures { result.now ≡ slot_text slot }
{
    match slot {
        Slot::Prototype => b"[[Prototype]]",
        Slot::Outer => b"[[Outer]]",
        Slot::Scope => b"[[Scope]]",
        Slot::Value => b"[[Value]]",
    }
}

#[tactic(auto, unfolding(crate::specs::Texts::key_text))]
pub(crate) fn push_key(text: &mut Vec<u8>, program: &Program, key: Key) -> Result<(), Memory>
    ensures { OnOk result (text.new.items ≡ text.old.items ++ key_text program.now key) }
{
    match key {
        Key::Name(name) => match program.names.as_slice().get(name.0 as usize) {
            Some(name) => push_name(text, name.units())?,
            None => push_name(text, &[])?,
        },
        Key::OtherIndex => text.extend_from_slice(b"[index]")?,
        Key::OtherName => text.extend_from_slice(b"[other]")?,
        Key::Slot(slot) => text.extend_from_slice(slot_text(slot))?,
    }
    Ok(())
}

pub(crate) fn push_numbered_site(text: &mut Vec<u8>, site: Site) -> Result<(), Memory>
    ensures { OnOk result (text.new.items ≡ text.old.items ++ numbered_site site) }
{
    text.push(b's')?;
    push_number(text, u64::from(site.0))?;
    Ok(())
}

/// The device of a site, if it is one of a device.
#[tactic(auto, unfolding(crate::specs::Texts::device_of))]
pub(crate) fn device_of(program: &Program, site: Site) -> Option<&Signature>
    ensures { option_map (λ device. device.now) result ≡ device_of program.now site }
{
    let number = (site.0 as usize).checked_sub(BUILTIN_CLASSES.len())?;
    program.signatures().get(number)
}

fn push_device_site(text: &mut Vec<u8>, device: &Signature) -> Result<(), Memory>
    ensures { OnOk result (text.new.items ≡ text.old.items ++ device_text device.now) }
{
    text.extend_from_slice(b"device.")?;
    push_plain(text, device.name.units())?;
    Ok(())
}

#[tactic(auto, unfolding(crate::specs::Texts::site_text))]
pub(crate) fn push_site(text: &mut Vec<u8>, program: &Program, site: Site) -> Result<(), Memory>
    ensures { OnOk result (text.new.items ≡ text.old.items ++ site_text program.now site) }
{
    if let Some(info) = program.sites.as_slice().get(site.0 as usize) {
        if let Some(name) = &info.builtin {
            return push_units(text, name.units());
        }
    }
    match device_of(program, site) {
        Some(device) => push_device_site(text, device),
        None => push_numbered_site(text, site),
    }
}

#[tactic(auto, unfolding(crate::specs::Texts::label_text))]
pub(crate) fn push_label(text: &mut Vec<u8>, program: &Program, label: Label) -> Result<(), Memory>
    ensures { OnOk result (text.new.items ≡ text.old.items ++ label_text program.now label) }
{
    push_site(text, program, label.site)?;
    text.extend_from_slice(if label.old { b".old" } else { b".new" })?;
    Ok(())
}

/// A letter and a number.
fn push_lettered(text: &mut Vec<u8>, letter: u8, number: u32) -> Result<(), Memory>
    ensures { OnOk result (text.new.items ≡ text.old.items ++ letter ∷ decimal number) }
{
    text.push(letter)?;
    push_number(text, u64::from(number))?;
    Ok(())
}

/// A register behind those that each function has: of a parameter, the rest of the arguments, or a
/// temporary.
#[tactic(auto, unfolding(crate::specs::Texts::later_register_text))]
fn push_later_register(text: &mut Vec<u8>, parameters: u32, number: u32) -> Result<(), Memory>
    ensures { OnOk result (text.new.items ≡ text.old.items
        ++ later_register_text parameters number) }
{
    if number < parameters {
        return push_lettered(text, b'a', number);
    }
    if number == parameters {
        text.extend_from_slice(b"rest")?;
        return Ok(());
    }
    push_lettered(text, b'r', number - parameters - 1)
}

#[tactic(auto, unfolding(crate::specs::Texts::register_text))]
pub(crate) fn push_register(
    text: &mut Vec<u8>,
    parameters: u32,
    register: u32,
) -> Result<(), Memory>
    ensures { OnOk result (text.new.items ≡ text.old.items
        ++ register_text parameters register) }
{
    let word: &[u8] = match register {
        0 => b"thrown",
        1 => b"this",
        2 => b"scope",
        3 => b"callee",
        4 => b"count",
        _ => return push_later_register(text, parameters, register - 5),
    };
    text.extend_from_slice(word)?;
    Ok(())
}

fn attr_text(letter: u8, attr: May) -> u8
    ensures { result ≡ attr_text letter attr }
{
    match (attr.set, attr.unset) {
        (true, true) => b'?',
        (true, false) => letter,
        (false, true) => b'-',
        (false, false) => b'.',
    }
}

#[tactic(auto, unfolding(crate::specs::Texts::attrs_text))]
pub(crate) fn push_attrs(text: &mut Vec<u8>, key: Key, attrs: AAttrs) -> Result<(), Memory>
    ensures { OnOk result (text.new.items ≡ text.old.items ++ attrs_text key attrs) }
{
    if let Key::Slot(_) = key {
        text.extend_from_slice(b"...")?;
        return Ok(());
    }
    text.extend_from_slice(&[
        attr_text(b'R', attrs.read_only),
        attr_text(b'E', attrs.dont_enum),
        attr_text(b'D', attrs.dont_delete),
    ])?;
    Ok(())
}
